//! Range moves: the slices of a range of warehouses go to another executor, and messages for them follow.
//!
//! A move is ordered at its destination executor. The destination has each slice fetched from the executor that has it.
//! That executor takes the slice out, notes its destination, and sends it as a parcel. A message for a slice that is
//! elsewhere is forwarded to where the slice went, or parked until the slice arrives. This crate has the placements of
//! the slices of all warehouses meanwhile, and the executors' notes of them. Only the opening allocates.
#![tactic(auto)]

mod laws;
mod order;
mod placement;
mod placements;

pub use laws::{knowing_stays, messages_follow, nothing_is_parked};
pub use order::{MoveOrder, Moving};
pub use placement::{Found, Placement, Whereabouts};
pub use placements::Placements;
