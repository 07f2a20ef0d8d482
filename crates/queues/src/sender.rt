ghost use Rattle.std.specs.Prelude.{◌≡◌, IfErr, OnOk};
ghost use Rattle.queues.specs.Ends.{after_put};

use crate::Sent;
use crate::places::{self, Board, Place};
use std::marker::Model;
use std::sync::Wait;

/// One of the senders of an inbox. Contracts see the messages that it has put. It may be sent to another thread.
#[derive(Drop)]
pub struct Sender<T> {
    pub(crate) board: Board<T>,
    pub(crate) number: u32,
    pub(crate) place: Place<T>,
}

impl<T> Model for Sender<T> {
    ghost use Rattle.std.specs.Arc.{arc_value};
    ghost use Rattle.queues.specs.Ends.{SenderView};
    ghost use Rattle.queues.specs.Place.{IsSenderAt, sending_at};

    ghost Value = { SenderView T };

    ghost view = { λ s. sending_at s.number s.place };

    ghost invariant = { λ s. IsSenderAt (arc_value s.board) s.number s.place };
}

impl<T: Drop> Sender<T> {
    /// Returns the number that its messages carry.
    pub fn number(&self) -> u32
        ensures { result ≡ self.now.number }
    {
        self.number
    }

    /// Puts a message at the end of the inbox. If the inbox has no room, returns the message; nothing changes then.
    pub fn put<R: Wait>(&mut self, rt: &R, message: T) -> Result<(), T>
        ensures put { OnOk result (self.new ≡ after_put self.old message) }
        ensures full { IfErr result (λ back. (back ≡ message) × (self.new ≡ self.old)) }
        ensures same { (self.new.inbox ≡ self.old.inbox) × (self.new.number ≡ self.old.number) }
    {
        let sent = Sent {
            sender: self.number,
            message,
        };
        match places::put(&self.board, rt, &mut self.place, sent) {
            Ok(()) => Ok(()),
            Err(Sent { sender: _, message }) => Err(message),
        }
    }
}
