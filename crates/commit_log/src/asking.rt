use crate::{Item, Mine};
use agreement::{Change, Seat, Value};
use requests::Request;
use std::collections::LinkedList;

/// A session's request, and the state of its pass when it made the request: the value on which its pass and the session
/// agree. Ghost data only; no value of it is made.
pub struct Asking {
    /// The number of the request, which the ten Deliveries of a record share.
    pub number: u32,
    pub request: Request,
    /// The number of entries that the pass had seen.
    pub seen: u32,
    /// The items that the session had logged.
    pub mine: LinkedList<Item>,
}

impl Value for Asking {
    ghost use Rattle.commit_log.specs.Asks.{nothing_asked};

    ghost initial = { nothing_asked };
}

/// The change that the session makes this request, with a pass in this state.
#[derive(Drop)]
pub(crate) struct Asks<'a> {
    pub(crate) number: u32,
    pub(crate) request: &'a Request,
    pub(crate) seen: u32,
    pub(crate) mine: &'a Seat<Mine>,
}

impl Change<Asking> for Asks<'_> {
    ghost use Rattle.commit_log.specs.Asks.{asking};

    ghost changed = { λ asks before. asking asks.number asks.request.now asks.seen asks.mine.now.value.items };
}
