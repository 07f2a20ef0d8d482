//! A session submits a request.
ghost use Rattle.std.specs.Prelude.{◌≡◌, ◌<◌, [], Err, IfOk, IfSome, OnOk, OnErr, IsTrue, is_some, None, Some, slice_get};
ghost use Rattle.commit_log.specs.Asks.{asking};
ghost use Rattle.requests.specs.Check.{IsAccepted};
ghost use Rattle.commit_log.specs.PassView.{session_seat_view, with_asks};
ghost use Rattle.world.specs.Happening.{AdmitsAt, CanAsk, CanSubmit, SubmitsAt, submission};

use crate::desk::{Active, SessionDesk};
use crate::flight::{Flow, Message, Transaction};
use crate::slots::MOST_ACTIVE;
use crate::transaction_meetings::Meetings;
use crate::world::Parts;
use commit_log::{Names, Pass};
use history::EventAnswer;
use requests::{Refusal, Request, check};
use schema::NoMemory;
use std::alloc::Global;
use transactions::{HeldClaims, Progress, phases_have_actions};

impl<J: Names> Parts<J> {
    // A session submits a request. `has_room`: whether the inbox of the executor where the request begins has room.
    pub(crate) fn submit(
        &mut self,
        alloc: Global,
        has_room: bool,
        session: u32,
        number: u32,
        request: &Request,
    ) -> EventAnswer
        requires sessions { CanSubmit self.old }
        requires hand { self.old.inbox ≡ [] }
        ensures { SubmitsAt (submission has_room session number request.now)
            (slice_get self.old.desk.sessions.items session) self.old result self.new }
    {
        let Some(desk) = self.desk.sessions.get(session as usize) else {
            return EventAnswer::Nothing;
        };
        if desk.pass.is_none() {
            return refused(session, number, Refusal::SessionBusy);
        }
        if let Err(refusal) = check(&self.catalog.scale(), request) {
            return refused(session, number, refusal);
        }
        let Some(slot) = self.desk.active.first_free() else {
            return refused(session, number, Refusal::Busy);
        };
        if !has_room || self.desk.admitted == u64::MAX {
            return EventAnswer::Nothing;
        }
        match self.admit(alloc, slot, session, number, request) {
            Ok(age) => EventAnswer::Accepted { age },
            Err(NoMemory) => refused(session, number, Refusal::NoMemory),
        }
    }

    // Admits a request to a free slot: opens its meetings and puts its first actions. An error changes nothing.
    fn admit(
        &mut self,
        alloc: Global,
        slot: usize,
        session: u32,
        number: u32,
        request: &Request,
    ) -> Result<u64, NoMemory>
        requires below { slot < MOST_ACTIVE }
        requires free { slice_get self.old.desk.active slot ≡ Some None }
        requires hand { self.old.inbox ≡ [] }
        requires age { self.old.desk.admitted < 18446744073709551615 }
        requires sessions { CanSubmit self.old }
        requires accepted { IsAccepted self.old.catalog.scale request.now }
        requires here { CanAsk (slice_get self.old.desk.sessions.items session) }
        ensures age { IfOk result (λ age. age ≡ self.old.desk.admitted) }
        ensures admitted { OnOk result (AdmitsAt session number request.now self.old self.new) }
        ensures err { OnErr result (self.new ≡ self.old) }
    {
        let own = request.try_clone()?;
        let progress = Progress::begin(request.try_clone()?);
        let works = progress.works(alloc)?;
        let held = HeldClaims::open(alloc)?;
        let meetings = Meetings::open(alloc)?;
        phases_have_actions();
        let meeting = meetings.convene(works.len());
        let age = self.desk.admitted;
        let pass = ask(&mut self.desk.sessions[session as usize], number, request);
        let transaction = Transaction {
            age,
            slot,
            number,
            request: own,
            pass,
            held,
        };
        let flow = Flow {
            transaction,
            progress,
        };
        self.inbox.put(Message::Start(flow, works));
        self.desk.admitted = age + 1;
        let acting = Active::Acting { first: 0, meeting };
        self.desk.active.put(slot, Some(acting));
        Ok(age)
    }
}

fn refused(session: u32, number: u32, refusal: Refusal) -> EventAnswer
    ensures { result ≡ EventAnswer.Answered session number (Err refusal) }
{
    EventAnswer::Answered {
        session,
        number,
        answer: Err(refusal),
    }
}

// The session asks with its pass. The desk gives up the pass until the request is answered.
fn ask<J: Names>(desk: &mut SessionDesk<J>, number: u32, request: &Request) -> Pass<J>
    requires here { IsTrue (is_some desk.old.pass) }
    requires session { IfSome desk.old.pass (λ pass. pass.session ≡ desk.old.seat.session) }
    ensures pass { IfSome desk.old.pass (λ pass.
        result ≡ with_asks pass (asking number request.now pass.seen pass.mine)) }
    ensures seat { desk.new.seat ≡ session_seat_view desk.old.seat.session result.asks }
    ensures away { desk.new.pass ≡ None }
{
    let Some(mut pass) = desk.pass.take() else {
        unreachable!()
    };
    desk.seat.ask(&mut pass, number, request);
    pass
}
