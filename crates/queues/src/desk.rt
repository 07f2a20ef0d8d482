ghost use Rattle.std.specs.Prelude.{◌≡◌, ◌<◌, ◌≤◌, ℕ, [], IsTrue, IfErr, OnOk, MatchOption};
ghost use Rattle.queues.specs.Audited.{GotBeginning, GotWhole};
ghost use Rattle.queues.specs.Desks.{with_put, with_got};
ghost use Rattle.queues.specs.Order.{of};

use crate::{InboxNames, Sender, Sent, Taker};
use std::marker::{Model, PhantomData};
use std::sync::Wait;

/// One thread's access to the inboxes of several threads: it takes from its own inbox and puts into any. Its messages
/// carry its number. A desk may be sent to another thread.
#[derive(Drop)]
pub struct Desk<T, J: InboxNames> {
    pub(crate) number: u32,
    pub(crate) senders: Vec<Sender<T>>,
    pub(crate) taker: Taker<T>,
    pub(crate) names: PhantomData<J>,
}

impl<T, J: InboxNames> Model for Desk<T, J> {
    ghost use Rattle.queues.specs.Desks.{DeskView, IsDeskOf, at_desk, put_by};

    ghost Value = { DeskView T };

    ghost view = { λ d. at_desk d.number (put_by d.senders.items) d.taker.got };

    ghost invariant = { λ d. IsDeskOf J.inboxes J.inbox d.number d.senders.items d.taker };
}

impl<T: Drop, J: InboxNames> Desk<T, J> {
    /// Returns the number of the desk, which its messages carry.
    pub fn number(&self) -> u32
        ensures number { result ≡ self.now.number }
        ensures has_inbox { result < J.inboxes }
    {
        self.number
    }

    /// Returns the number of inboxes.
    pub fn inboxes(&self) -> usize
        ensures { result ≡ J.inboxes }
    {
        self.senders.len()
    }

    /// Puts a message at the end of the inbox `to`. If the inbox has no room, returns the message; nothing changes
    /// then.
    pub fn put<R: Wait>(&mut self, rt: &R, to: usize, message: T) -> Result<(), T>
        requires { to < J.inboxes }
        ensures put { OnOk result (self.new ≡ with_put self.old to message) }
        ensures full { IfErr result (λ back. (back ≡ message) × (self.new ≡ self.old)) }
    {
        self.senders[to].put(rt, message)
    }

    /// Takes the first message of its own inbox, with the number of the desk that put it; `None` if the inbox is empty.
    pub fn take<R: Wait>(&mut self, rt: &R) -> Option<Sent<T>>
        ensures { MatchOption result (self.new ≡ self.old)
            (λ sent. self.new ≡ with_got self.old sent) }
    {
        self.taker.take(rt)
    }

    /// Establishes for contracts that what it got from another desk is a beginning of what that desk has put into its
    /// inbox, in order. Both are unchanged. Returns whether its inbox was empty: then it got everything that the other
    /// desk has put there.
    pub fn audit(&mut self, other: &mut Desk<T, J>) -> bool
        ensures same { (self.new ≡ self.old) × (other.new ≡ other.old) }
        ensures beginning { GotBeginning self.old other.old }
        ensures whole { IsTrue result → GotWhole self.old other.old }
        ensures no_other { (number : ℕ) → J.inboxes ≤ number → of number self.old.got ≡ [] }
    {
        self.taker.audit(&mut other.senders[self.number as usize])
    }

    /// The same for what the desk itself has put into its inbox.
    pub fn audit_own(&mut self) -> bool
        ensures same { self.new ≡ self.old }
        ensures beginning { GotBeginning self.old self.old }
        ensures whole { IsTrue result → GotWhole self.old self.old }
    {
        let Desk {
            number,
            senders,
            taker,
            ..
        } = self;
        taker.audit(&mut senders[*number as usize])
    }
}
