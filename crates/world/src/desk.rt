//! The admission desk: which sessions have a transaction in flight, and the active transactions.
use crate::slots::Slots;
use crate::transaction_meetings::{Completion, PhaseMeeting};
use commit_log::{Names, Pass, SessionSeat};

/// A session at the desk.
#[derive(Drop)]
pub struct SessionDesk<J: Names> {
    pub seat: SessionSeat<J>,
    /// `None` while the session has a request without an answer.
    pub pass: Option<Pass<J>>,
}

/// The state of an active transaction.
#[derive(Drop)]
pub enum Active<J: Names> {
    /// The actions of a phase are in flight. Their reports meet here; an action's index is its place less `first`, the place of
    /// the phase's first action.
    Acting {
        first: usize,
        meeting: PhaseMeeting<J>,
    },
    /// The transaction is about to be logged.
    Committing,
    /// The transaction is over, and some of its actions have yet to give their claims back.
    Ending(Completion),
}

/// The desk: the sessions, the number of transactions admitted, and the active transactions.
#[derive(Drop)]
pub struct Desk<J: Names> {
    /// The number of transactions admitted so far, which is the age of the next one.
    pub admitted: u64,
    /// By session number, 0 to 63.
    pub sessions: Vec<SessionDesk<J>>,
    /// The active transactions, each in its slot, 0 to 63. A transaction is active until all its claims are back.
    pub active: Slots<Active<J>>,
}
