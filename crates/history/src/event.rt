use range_moves::MoveOrder;
use requests::{Refusal, Request};

/// An event of the engine. Each is one atomic step.
#[derive(Clone, Debug, PartialEq, Eq, Drop)]
pub enum Event {
    /// A session, 0 to 63, submits a request of its own number.
    Submit {
        session: u32,
        number: u32,
        request: Request,
    },
    /// A move of a range of warehouses is ordered, at the executor that gets them.
    Order(MoveOrder),
    /// An executor takes the first message of its inbox and handles it.
    Take {
        executor: u32,
    },
    /// The first item of an executor's outbox is sent.
    Send {
        executor: u32,
    },
}

/// The answer to an event.
#[derive(Clone, Debug, PartialEq, Eq, Drop)]
pub enum EventAnswer {
    /// The request was admitted as a transaction of this age: the number of transactions admitted before it.
    Accepted {
        age: u64,
    },
    /// The move was ordered; it is outstanding from now on.
    Ordered,
    /// A message was taken.
    Took,
    /// An item was sent.
    Sent,
    /// The destination inbox is full; the item is now at the end of its outbox.
    Full,
    /// A transaction was logged, at this place, counted from 0.
    Logged {
        place: u32,
    },
    /// An item was sent: the last report of the outstanding move, which is complete now.
    Moved,
    /// The session's request of this number was answered, at once or by its transaction. The answer is the place of its
    /// log entry, which contains the reply, or the reason for its refusal.
    Answered {
        session: u32,
        number: u32,
        answer: Result<u32, Refusal>,
    },
    /// The event is impossible; nothing changed.
    Nothing,
}
