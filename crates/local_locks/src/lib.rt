//! The lock table of a warehouse: who holds which of its groups, and who waits for them, by wait-die. An
//! action asks for all its groups at once and gets all of them or none: it is granted them, waits if
//! every conflicting holder is younger, or dies.
//!
//! In contracts: all claims that are out and all waiting actions, as two plain lists; and the entries, the
//! groups that are held or waited for, in the order in which they were taken. The table keeps a lock for
//! each group, and reads only those of the groups that are asked for.
//!
//! No function waits. Only opening a table and asking it allocate: a waiting action has room for its
//! claims from the time it asked.
#![tactic(auto)]

mod entries;
mod entry;
mod granting;
mod laws;
mod lock;
mod places;
mod rulings;
mod table;
mod waiting;
mod wanted;

pub use entry::LockEntry;
pub use laws::{
    each_covered_group_is_wanted, grants_and_returns_keep_committed, nobody_waits_for_itself,
};
pub use table::{Asked, LockTable, Turn};

#[cfg(test)]
mod tests;
