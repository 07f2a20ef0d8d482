//! The rows of one warehouse, separate from those of the others. Tables with consecutive keys are stored
//! as vectors, and ITEM is shared.
#![tactic(auto)]

mod appends;
mod catalog;
mod cutting;
mod delivery_rows;
mod home_rows;
mod homes;
mod joining;
mod keyed_rows;
mod laws;
mod new_order_rows;
mod partition;
mod partition_rows;
mod splits;
mod table_rows;

pub use catalog::Catalog;
pub use cutting::cut;
pub use delivery_rows::BeforeDelivery;
pub use joining::whole;
pub use keyed_rows::Rows;
pub use laws::{cut_parts_make_the_tables, whole_has_each_part};
pub use partition::Partition;
