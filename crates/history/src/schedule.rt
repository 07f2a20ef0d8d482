use crate::{Event, EventAnswer};
use local_locks::LockEntry;

/// The greatest number of rounds of one item of a schedule.
pub const MOST_ROUNDS: u32 = 100_000;

/// An item of a schedule.
#[derive(Clone, Debug, PartialEq, Eq, Drop)]
pub enum Scheduled {
    /// One event.
    Event(Event),
    /// Rounds, each a Take and a Send of every executor in turn, up to the first round in which nothing can happen, but
    /// at most [`MOST_ROUNDS`].
    Rounds,
}

/// An output of a schedule.
#[derive(Clone, Debug, PartialEq, Eq, Drop)]
pub enum Output {
    /// The answer to an event. In rounds it is printed only if a transaction was logged or answered, or a move was
    /// completed.
    Event(EventAnswer),
    /// The rounds ended with a round in which nothing could happen.
    Quiet,
    /// The rounds ended with the last permitted round.
    Limit,
}

/// The entries of a warehouse's lock table, once an event has changed them.
#[derive(Debug, Drop, PartialEq, Eq)]
pub struct LockChange {
    /// The number of outputs before the change.
    pub outputs: usize,
    pub w_id: u32,
    /// In the order in which the groups were taken; empty if none is held or waited for.
    pub entries: Vec<LockEntry>,
}
