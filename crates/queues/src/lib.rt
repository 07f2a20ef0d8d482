//! An inbox of messages with one taker and many senders, without a lock. The messages taken from it, followed by those
//! that are in it, are all messages put, in one order: each message once and whole, and the messages of each sender in
//! the order in which it put them.
//!
//! A `Desk` is one thread's access to the inboxes of several threads. Only `open`, `takers`, `desks` and `Taker::open`
//! allocate.
#![tactic(auto)]

mod auditing;
mod desk;
mod names;
mod opening;
mod places;
mod rule;
mod sender;
mod sent;
mod taker;
#[cfg(test)]
mod tests;

pub use auditing::audit_all;
pub use desk::Desk;
pub use names::InboxNames;
pub use opening::{desks, open, takers};
pub use sender::Sender;
pub use sent::Sent;
pub use taker::Taker;
