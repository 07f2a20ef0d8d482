//! The length of a log, stored in a word beside the log, and marks. A mark records a number of entries
//! that the log has reached. A mark is read, and set to the larger number of another mark, without the
//! lock that guards the log.
//!
//! No function waits, and only `Length::open` allocates.
#![tactic(auto)]

mod length;
mod places;
mod rule;

pub use length::{Length, Mark, meet};
