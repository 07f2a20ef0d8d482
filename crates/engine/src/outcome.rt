ghost use Rattle.std.specs.Prelude.{◌≡◌};
ghost use Rattle.engine.specs.declared.outcome.CloseFault.TheVariants as close;
ghost use Rattle.engine.specs.declared.outcome.ServeFault.TheVariants as serve;

use crate::Answers;
use commit_log::Entry;
use requests::Script;
use schema::Tables;
use std::alloc::AllocError;
use thiserror::Error;

/// The outcome of scripts.
#[derive(Drop)]
pub struct Outcome {
    /// The log: what was carried out, in commit order.
    pub log: Vec<Entry>,
    /// The tables as the log's transactions have left them.
    pub tables: Tables,
    /// The answers to each script, and then to what each session asked interactively.
    pub answers: Vec<Answers>,
    /// The requests that each session asked interactively, in the order of the sessions' numbers. The number of a request is its
    /// place.
    pub asked: Vec<Script>,
}

/// Why executors that have ended came to no outcome.
#[derive(Clone, Copy, Debug, Drop, Error, PartialEq, Eq)]
pub enum CloseFault {
    #[error("no memory")]
    NoMemory,
    #[error("a session, a slice or a claim was not back")]
    Unsettled,
}

impl From<AllocError> for CloseFault {
    ghost from_gives = { λ _ fault. fault ≡ close.NoMemory };

    fn from(_error: AllocError) -> CloseFault {
        CloseFault::NoMemory
    }
}

/// Why scripts were not served.
#[derive(Clone, Copy, Debug, Drop, Error, PartialEq, Eq)]
pub enum ServeFault {
    /// An allocation failed: as the opening tables were checked, as the engine was opened or its threads were started, or for the
    /// outcome.
    #[error("no memory")]
    NoMemory,
    /// The opening tables break the consistency condition of this number, and none of a lower one: 1 to 10, or 12 (TPC-C 5.11,
    /// clause 3.3.2).
    #[error("the opening tables break consistency condition {0}")]
    NotConsistent(u8),
    /// The place, from 0, of the first move that there can't be: its range ends before it begins, or one of its numbers is out of
    /// range.
    #[error("the move at place {0}, from 0, ends before it begins or has a number out of range")]
    BadMove(usize),
    #[error("a thread could not be started")]
    NoThread,
    #[error("a session, a slice or a claim was not back when all executors had ended")]
    Unsettled,
}

impl From<AllocError> for ServeFault {
    ghost from_gives = { λ _ fault. fault ≡ serve.NoMemory };

    fn from(_error: AllocError) -> ServeFault {
        ServeFault::NoMemory
    }
}
