//! The rule of an inbox's queue, and what its steps do to the views.
use crate::Sent;
use crossbeam_queue::protocol::{Join, Lesson, Outcome, Protocol, Split};
use std::collections::LinkedList;

/// What a place at the queue records. Ghost data only; no value of it is made.
pub struct View<T> {
    /// Whether it may put messages, as the sender with this number, and what it has put.
    pub sends: bool,
    pub number: u32,
    pub put: LinkedList<T>,
    /// Whether it may take messages, how many senders it has made, and what it got.
    pub takes: bool,
    pub senders: u32,
    pub got: LinkedList<Sent<T>>,
}

/// The messages got, followed by those in the queue, are all messages put, in one order.
pub struct OneOrder;

impl<T> Protocol<Sent<T>, View<T>> for OneOrder {
    ghost use Rattle.std.specs.Prelude.{[]};
    ghost use Rattle.queues.specs.Rule.{AreInOrder, taker_view};

    ghost holds = { AreInOrder };

    ghost first = { taker_view 0 [] };
}

/// The taker makes one more sender.
pub struct OneMore;

impl<T> Split<View<T>> for OneMore {
    ghost use Rattle.std.specs.Prelude.{◌+◌, []};
    ghost use Rattle.queues.specs.Rule.{taker_view, sender_view};

    ghost left = { λ v. taker_view (v.senders + 1) v.got };

    ghost right = { λ v. sender_view v.senders [] };
}

/// The taker makes a place without rights and records.
pub struct Spare;

impl<T> Split<View<T>> for Spare {
    ghost use Rattle.queues.specs.Rule.{spent_view};

    ghost left = { λ v. v };

    ghost right = { λ v. spent_view };
}

/// The taker's place absorbs a sender's place, and is both.
pub struct TakeIn;

impl<T> Join<View<T>> for TakeIn {
    ghost use Rattle.queues.specs.Rule.{both_views, spent_view};

    ghost both = { both_views };

    ghost spent = { spent_view };
}

/// The absorbed sender gets a place of its own again.
pub struct HandBack;

impl<T> Split<View<T>> for HandBack {
    ghost use Rattle.queues.specs.Rule.{taker_view, sender_view};

    ghost left = { λ v. taker_view v.senders v.got };

    ghost right = { λ v. sender_view v.number v.put };
}

/// A sender puts a message.
pub struct Puts;

impl<T> Outcome<Sent<T>, View<T>> for Puts {
    ghost use Rattle.std.specs.Prelude.{◌≡◌};
    ghost use Rattle.queues.specs.Rule.{view_after_put};

    ghost then = { λ v sent w. w ≡ view_after_put v sent.message };
}

impl<T> Lesson<Sent<T>, View<T>> for Puts {
    ghost use Rattle.std.specs.Prelude.{⊤};

    ghost fact = { λ v standing. ⊤ };
}

/// The taker takes the first message.
pub struct Takes;

impl<T> Outcome<Sent<T>, View<T>> for Takes {
    ghost use Rattle.std.specs.Prelude.{◌≡◌};
    ghost use Rattle.queues.specs.Rule.{view_after_take};

    ghost then = { λ v sent w. w ≡ view_after_take v sent };
}

impl<T> Lesson<Sent<T>, View<T>> for Takes {
    ghost use Rattle.std.specs.Prelude.{⊤};

    ghost fact = { λ v standing. ⊤ };
}

/// A place that is both taker and sender compares what was put with what was got and what is in the queue.
pub struct Compares;

impl<T> Lesson<Sent<T>, View<T>> for Compares {
    ghost use Rattle.queues.specs.Rule.{IsCompared};

    ghost fact = { IsCompared };
}
