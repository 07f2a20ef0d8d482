//! Which of the twelve consistency conditions the tables meet (TPC-C 5.11, clause 3.3.2).
#![tactic(auto)]

mod balances;
mod breaks;
mod carriers;
mod checks;
mod deliveries;
mod line_counts;
mod order_numbers;
mod payments;
mod totals;

pub use breaks::first_broken;
pub use checks::check;
