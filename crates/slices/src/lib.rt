//! A slice: the rows of one warehouse, and the ticket box of each of its groups. A transaction reads the rows of a
//! group under a claim on it, and changes them under an exclusive claim. Everything that it did in the group can be
//! undone.
//!
//! The contracts of a slice's calls are in terms of their claims: what a claim left in its group, and what an undo
//! restores. Each call keeps the committed contents of the warehouse, and so those of all warehouses.
//!
//! No call blocks. The comment of a call states whether it allocates; if an allocation fails, nothing changes.
#![tactic(auto)]

mod changes;
mod cutting;
mod indexed;
mod laws;
mod opening;
mod row_steps;
mod slice;
mod step;
mod undo_log;
mod undo_record;

pub use cutting::{cut, whole};
pub use laws::{
    cut_slices_are_at_rest, groups_are_recorded, one_slice_keeps_all, opened_groups_have_boxes,
};
pub use opening::open_groups;
pub use slice::Slice;
