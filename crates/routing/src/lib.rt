//! The executor that has each warehouse's rows: as dealt out at the opening, and as many threads read
//! and change it. Only `SharedRouting::open` allocates.
#![tactic(auto)]

mod routing;
mod shared;

pub use routing::{MOST_EXECUTORS, Routing};
pub use shared::SharedRouting;
