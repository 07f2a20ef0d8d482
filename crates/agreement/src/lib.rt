//! An agreement is one ghost value that several seats record, in any threads. A seat holds shares of the
//! agreement, and the value changes only where all shares are together. So the value that a seat with a
//! share records stays true while that seat is not used, whatever the other seats do.
//!
//! No function waits, and only `Seat::open` allocates.
#![tactic(auto)]

mod places;
mod rule;
mod seat;
mod value;

pub use seat::Seat;
pub use value::{Change, Value};
