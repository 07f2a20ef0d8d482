ghost use Rattle.std.specs.Prelude.{◌≡◌, [], ◌++◌, ◌<◌, ◌≤◌, ◌+◌, ◌^◌, ℕ, List, IsTrue, IfOk, OnOk, OnErr, MatchOption};
ghost use Rattle.queues.specs.Ends.{taking, sending, after_take};
ghost use Rattle.queues.specs.Order.{of};

use crate::places::{self, Board, Place};
use crate::{Sender, Sent};
use std::alloc::{AllocError, Global};
use std::marker::Model;
use std::mem;
use std::sync::{Arc, Wait};

/// The taker of an inbox. Contracts see the messages that it got. It may be sent to another thread.
#[derive(Drop)]
pub struct Taker<T> {
    board: Board<T>,
    senders: u32,
    place: Place<T>,
}

impl<T> Model for Taker<T> {
    ghost use Rattle.std.specs.Arc.{arc_value};
    ghost use Rattle.queues.specs.Ends.{TakerView};
    ghost use Rattle.queues.specs.Place.{IsTakerAt, taking_at};

    ghost Value = { TakerView T };

    ghost view = { λ t. taking_at t.senders t.place };

    ghost invariant = { λ t. IsTakerAt (arc_value t.board) t.senders t.place };
}

impl<T: Drop> Taker<T> {
    /// Opens an inbox without senders, with room for `room` messages. Returns its taker. Nothing is left after an
    /// error.
    pub fn open(alloc: Global, room: usize) -> Result<Taker<T>, AllocError>
        requires { 0 < room }
        ensures { IfOk result (λ taker. taker ≡ taking taker.inbox 0 []) }
    {
        let (board, place) = places::open(alloc, room)?;
        Ok(Taker {
            board,
            senders: 0,
            place,
        })
    }

    /// Returns one more sender of the inbox, with the next number, counted from 0. Never allocates. Fails only if the
    /// inbox has more ends than an `Arc` can count; nothing changes then.
    pub fn sender(&mut self) -> Result<Sender<T>, AllocError>
        requires { self.old.senders + 1 < 2 ^ 32 }
        ensures sender { IfOk result (λ sender.
            sender ≡ sending self.old.inbox self.old.senders []) }
        ensures taker { OnOk result
            (self.new ≡ taking self.old.inbox (self.old.senders + 1) self.old.got) }
        ensures failed { OnErr result (self.new ≡ self.old) }
    {
        let board = Arc::try_clone(&self.board)?;
        let place = places::one_more(&self.board, &mut self.place);
        let number = self.senders;
        self.senders += 1;
        Ok(Sender {
            board,
            number,
            place,
        })
    }

    /// Takes the first message of the inbox, with the number of its sender; `None` if the inbox is empty.
    pub fn take<R: Wait>(&mut self, rt: &R) -> Option<Sent<T>>
        ensures taken { MatchOption result (self.new ≡ self.old)
            (λ sent. self.new ≡ after_take self.old sent) }
        ensures same { (self.new.inbox ≡ self.old.inbox) × (self.new.senders ≡ self.old.senders) }
    {
        places::take(&self.board, rt, &mut self.place)
    }

    /// Establishes for contracts that what it got from a sender of the inbox is a beginning of what the sender has put,
    /// in order. Both are unchanged. Returns whether the inbox was empty: then it got everything that the sender has
    /// put.
    pub fn audit(&mut self, sender: &mut Sender<T>) -> bool
        requires { sender.old.inbox ≡ self.old.inbox }
        ensures same { (self.new ≡ self.old) × (sender.new ≡ sender.old) }
        ensures beginning { (rest : List T)
            × (sender.old.put ≡ of sender.old.number self.old.got ++ rest) }
        ensures whole { IsTrue result → sender.old.put ≡ of sender.old.number self.old.got }
        ensures number { sender.old.number < self.old.senders }
        ensures no_other { (number : ℕ) → self.old.senders ≤ number → of number self.old.got ≡ [] }
    {
        let Taker { board, place, .. } = self;
        let spare = places::spare(board, place);
        let in_hand = mem::replace(&mut sender.place, spare);
        places::take_in(board, place, in_hand);
        let empty = places::compare(board, place);
        sender.place = places::hand_back(board, place);
        empty
    }
}
