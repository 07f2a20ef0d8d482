//! Indexes for look-ups that would otherwise scan the tables: a customer by last name, and a customer's
//! latest order. Clauses are those of TPC-C 5.11.
#![tactic(auto)]

mod latest_orders;
mod laws;
mod name_index;
mod name_run;

pub use latest_orders::LatestOrders;
pub use laws::{
    middle_is_one, middle_is_there, put_keeps_names, put_order_fits, raised_order_fits,
    removed_order_fits, replaced_order_fits, same_names_fit,
};
pub use name_index::NameIndex;
