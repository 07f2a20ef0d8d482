//! What sending an item does.
ghost use Rattle.std.specs.Prelude.{◌≡◌, ◌≤◌, ◌<◌, ◌+◌, length};
ghost use Rattle.world.specs.Events.{CanSend, Reports, SendsItem};
ghost use Rattle.world.specs.Following as spec;
ghost use Rattle.world.specs.Following.{releasing};
ghost use Rattle.world.specs.Envelopes.{IsNoPush};

use crate::desk::Active;
use crate::flight::{Item, Message, Report, SessionAnswer, Transaction};
use crate::slots::MOST_ACTIVE;
use crate::transaction_meetings::{Completion, CompletionConvener, PhaseMeeting};
use crate::world::Parts;
use commit_log::{Names, Pass};
use history::EventAnswer;
use rendezvous::SoleReported;
use requests::Refusal;
use std::alloc::Global;
use transactions::{HeldClaims, MOST_ACTIONS};

/// A transaction that is over: its answer, which is the place of its entry in the log or why it was refused, and the claims of
/// its actions.
#[derive(Drop)]
pub struct Release<J: Names> {
    pub age: u64,
    /// The transaction's slot at the desk.
    pub slot: usize,
    pub number: u32,
    pub pass: Pass<J>,
    pub answer: Result<u32, Refusal>,
    pub held: HeldClaims<J>,
    pub completion: CompletionConvener,
}

impl<J: Names> Release<J> {
    // A refused transaction.
    pub(crate) fn refused(
        transaction: Transaction<J>,
        why: Refusal,
        completion: CompletionConvener,
    ) -> Release<J>
        ensures { result ≡ spec.refused transaction why }
    {
        let Transaction {
            age,
            slot,
            number,
            request: _,
            pass,
            held,
        } = transaction;
        Release {
            age,
            slot,
            number,
            pass,
            answer: Err(why),
            held,
            completion,
        }
    }
}

impl<J: Names> Parts<J> {
    // Sends an item other than a push.
    pub(crate) fn send_item(&mut self, alloc: Global, item: Item<J>) -> EventAnswer
        requires room { length self.old.outbox + (MOST_ACTIONS + 1) ≤ 4096 }
        requires no_push { IsNoPush item }
        requires can { CanSend J.opening item self.old }
        ensures sends { SendsItem J.most item self.old result self.new }
    {
        match item {
            Item::Push(_) => unreachable!(),
            Item::Report(report) => {
                self.meet(alloc, report);
                EventAnswer::Sent
            }
            Item::Ended(slot) => {
                self.end(slot);
                EventAnswer::Sent
            }
            Item::Commit(commit) => self.commit(commit),
            Item::Reply(recorded) => self.reply(recorded),
        }
    }

    // Brings a report to the meeting of its phase.
    fn meet(&mut self, alloc: Global, report: Report<J>)
        requires room { length self.old.outbox + (MOST_ACTIONS + 1) ≤ 4096 }
        requires awaited { CanSend J.opening (Item.Report report) self.old }
        ensures { Reports report self.old self.new }
    {
        let slot = report.slot;
        let Some(active) = self.desk.active.take(slot) else {
            unreachable!()
        };
        let (first, meeting) = meeting_of(active);
        let PhaseMeeting {
            mut reports,
            completion,
        } = meeting;
        let place = report.place - first;
        match reports.report(place, report) {
            SoleReported::NotLast => {
                let meeting = PhaseMeeting {
                    reports,
                    completion,
                };
                let acting = Active::Acting { first, meeting };
                self.desk.active.put(slot, Some(acting));
            }
            SoleReported::Last(results) => self.follow(alloc, results, completion),
        }
    }

    // Ends a transaction: puts its answer, and for each action that holds claims a message that settles or undoes them.
    pub(crate) fn release(&mut self, over: Release<J>, settle: bool)
        requires room { length self.old.outbox + (length over.held + 1) ≤ 4096 }
        requires slot { over.slot < MOST_ACTIVE }
        requires few { length over.held ≤ MOST_ACTIONS }
        ensures { self.new ≡ releasing settle over self.old }
    {
        let Release {
            age,
            slot,
            number,
            pass,
            answer,
            held,
            completion,
        } = over;
        let count = held.len();
        self.desk.active.put(slot, ending(completion, count));
        self.outbox.put(Item::Reply(SessionAnswer {
            age,
            number,
            pass,
            answer,
        }));
        for claims in held.into_vec() {
            let give_back = if settle {
                Message::Settle(slot, claims)
            } else {
                Message::Undo(slot, claims)
            };
            self.outbox.put(Item::Push(give_back));
        }
    }

    // Answers the session and returns its pass to the desk.
    fn reply(&mut self, recorded: SessionAnswer<J>) -> EventAnswer
        requires { CanSend J.opening (Item.Reply recorded) self.old }
        ensures { SendsItem J.most (Item.Reply recorded) self.old result self.new }
    {
        let SessionAnswer {
            age: _,
            number,
            pass,
            answer,
        } = recorded;
        let session = pass.session();
        self.desk.sessions[session as usize].pass = Some(pass);
        EventAnswer::Answered {
            session,
            number,
            answer,
        }
    }

    // An action of the transaction in this slot has given its claims back.
    fn end(&mut self, slot: usize)
        requires { CanSend J.opening (Item.Ended slot) self.old }
        ensures { SendsItem J.most (Item.Ended slot) self.old EventAnswer.Sent self.new }
    {
        let completion = match self.desk.active.take(slot) {
            Some(Active::Ending(completion)) => completion,
            _ => unreachable!(),
        };
        self.desk.active.put(slot, completion.report());
    }
}

// The state of a transaction that is over, of which this many actions hold claims. With none it is not active.
fn ending<J: Names>(completion: CompletionConvener, holding: usize) -> Option<Active<J>>
    requires { holding ≤ MOST_ACTIONS }
    ensures { result ≡ spec.ending holding }
{
    if holding == 0 {
        None
    } else {
        Some(Active::Ending(Completion::begin(completion, holding)))
    }
}

// The place of the first action of the phase in flight, and the meeting of the phase.
fn meeting_of<J: Names>(active: Active<J>) -> (usize, PhaseMeeting<J>)
    requires { spec.IsActing active }
    ensures { active ≡ Active.Acting result.0 result.1 }
{
    match active {
        Active::Acting { first, meeting } => (first, meeting),
        Active::Committing => unreachable!(),
        Active::Ending(_) => unreachable!(),
    }
}
