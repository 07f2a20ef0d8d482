//! Money in whole cents, rates in ten-thousandths, and the amounts of orders. Clause numbers refer to
//! TPC-C 5.11.
#![tactic(auto)]

mod cents;
mod rate;
mod totals;

pub use cents::Cents;
pub use rate::Rate;
pub use totals::{line_amount, order_total, total_is_nearest_cent};
