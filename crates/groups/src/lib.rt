//! The groups of rows that are locked together: the group of each row, the content of a group, the
//! groups that a request claims, and what an action asks to lock. Clauses named are those of TPC-C 5.11.
#![tactic(auto)]

mod content;
mod delivery;
mod group_wants;
mod grouping;
mod laws;
mod new_order;
mod order_status;
mod payment;
mod stock_level;
mod wants;

pub use content::Content;
pub use group_wants::{GroupWant, Mode, footprint};
pub use grouping::group_of_stock;
pub use laws::{
    contents_make_tables, each_put_changes_one_group, each_row_stands_in_one_group,
    footprints_name_each_group_once, groups_are_ordered, items_stand_in_no_group,
};
pub use wants::{Extent, Kind, Prefix, Want, kind_of, warehouse_of};
