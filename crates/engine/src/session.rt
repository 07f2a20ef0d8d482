//! A session that asks interactively. Its caller owns it and waits for each answer.
ghost use Rattle.std.specs.Prelude.{◌≡◌, ◌≤◌, [], ◌∷◌, ◌++◌, length, true, false, Ok, IfOk, IfErr, IfSome};
ghost use Rattle.requests.specs.Check.{check_of};
ghost use Rattle.requests.specs.Script.{AreNumberedByPlace, part};
ghost use Rattle.commit_log.specs.Items.{items_of};
ghost use Rattle.executor.specs.Answers.{IsRecordedBy};
ghost use Rattle.engine.specs.Asking.{known_of};
ghost use Rattle.engine.specs.Outcome.{IsRefusal};
ghost use Rattle.engine.specs.Rules.{rules_of};
ghost use Rattle.engine.specs.Served.{ServedIn};
ghost use Rattle.engine.specs.Interactive.{Asks, HasAsked, HasAskedNothing, HasMet, IsBackIn};

use crate::asking::says_full;
use crate::closed_engine::ClosedEngine;
use crate::message::Message;
use crate::{Answers, Engine, Gate, ServeNames};
use commit_log::{Log, Pass, SessionSeat};
use crossbeam_utils::Backoff;
use executor::Flow;
use queues::Sender;
use requests::{Part, Refusal, Request, Script, check};
use std::alloc::Global;
use std::fmt;
use std::marker::Model;
use std::sync::Wait;
use std::sync::atomic::Ordering;
use thiserror::Error;
use transactions::home_of_request;

/// A session that asks interactively, none of whose requests is in flight.
///
/// Contracts see what it has asked so far (`script`), its pass, which records what it has seen of the log and logged (`pass`),
/// its answers (`answers`), and whether it has found the engine closed (`is_closed`). Invariant: each answer is the result of its
/// request, and the number of a request is its place.
#[derive(Drop)]
pub struct Session<J: ServeNames> {
    seat: SessionSeat<J>,
    pass: Pass<J>,
    parts: Vec<Part>,
    answers: Vec<Result<u32, Refusal>>,
    // Whether it has had the answer LogFull. It asks no more then.
    is_full: bool,
    // Some once it has found the engine closed.
    closed: Option<ClosedEngine<J>>,
    // Senders into the inboxes of all executors, by their numbers.
    outlets: Vec<Sender<Message<J>>>,
}

impl<J: ServeNames> Model for Session<J> {
    ghost use Rattle.engine.specs.Asking.{ReadyView};

    ghost Value = { ReadyView };

    ghost use Rattle.std.specs.Prelude.{is_some};
    ghost use Rattle.engine.specs.Asking.{ready_view};
    ghost use Rattle.engine.specs.Interactive.{IsAtRest};
    ghost use Rattle.engine.specs.Rules.{rules_of};

    ghost view = { λ s. record (ready_view s.parts.items s.seat s.pass s.answers.items s.is_full) { is_closed = is_some s.closed } };

    ghost invariant = { λ s. IsAtRest (rules_of J.opening J.most) (ready_view s.parts.items s.seat s.pass s.answers.items s.is_full) };
}

/// A session that has not found the engine closed, with its next request, which has its number, and with capacity to keep the request
/// and its answer.
#[derive(Drop)]
struct Asker<J: ServeNames> {
    seat: SessionSeat<J>,
    pass: Pass<J>,
    parts: Vec<Part>,
    answers: Vec<Result<u32, Refusal>>,
    is_full: bool,
    outlets: Vec<Sender<Message<J>>>,
    part: Part,
}

impl<J: ServeNames> Model for Asker<J> {
    ghost use Rattle.engine.specs.Interactive.{AskerView};

    ghost Value = { AskerView };

    ghost use Rattle.std.specs.Prelude.{vec_capacity};
    ghost use Rattle.engine.specs.Asking.{ready_view};
    ghost use Rattle.engine.specs.Interactive.{IsCalling, asker_view};
    ghost use Rattle.engine.specs.Rules.{rules_of};

    ghost view = { λ s. asker_view (ready_view s.parts.items s.seat s.pass s.answers.items s.is_full) s.part.request };

    ghost invariant = { λ s. IsCalling (rules_of J.opening J.most) (ready_view s.parts.items s.seat s.pass s.answers.items s.is_full) s.part.number (vec_capacity s.parts) (vec_capacity s.answers) };
}

/// A session whose request is in flight; its pass goes with the request.
#[derive(Drop)]
struct Away<J: ServeNames> {
    seat: SessionSeat<J>,
    parts: Vec<Part>,
    answers: Vec<Result<u32, Refusal>>,
    outlets: Vec<Sender<Message<J>>>,
    part: Part,
}

impl<J: ServeNames> Model for Away<J> {
    ghost use Rattle.engine.specs.Asking.{AskedView};

    ghost Value = { AskedView };

    ghost use Rattle.std.specs.Prelude.{vec_capacity};
    ghost use Rattle.engine.specs.Asking.{asked_view};
    ghost use Rattle.engine.specs.Interactive.{IsCalled};
    ghost use Rattle.engine.specs.Rules.{rules_of};

    ghost view = { λ s. asked_view s.parts.items s.seat s.answers.items };

    ghost invariant = { λ s. IsCalled (rules_of J.opening J.most) (asked_view s.parts.items s.seat s.answers.items) s.part (vec_capacity s.parts) (vec_capacity s.answers) };
}

/// Why a session has no answer to a request.
#[derive(Drop, Error)]
pub enum AskFault<J: ServeNames> {
    /// An allocation failed: the request was not asked, and the session is unchanged.
    #[error("no memory")]
    NoMemory(Session<J>),
    /// The executors had been stopped before: the request was not asked, and the session is unchanged.
    #[error("the executors were stopped")]
    Stopped(Session<J>),
    /// No answer came: the executors were stopped meanwhile, or the answer was for another session. The session's pass was with the
    /// request, so the session is lost.
    #[error("no answer came")]
    Lost,
}

/// Leaves out the session.
impl<J: ServeNames> fmt::Debug for AskFault<J> {
    fn fmt<W: fmt::Write>(&self, f: &mut fmt::Formatter<W>) -> fmt::Result {
        match self {
            AskFault::NoMemory(_) => f.write_str("NoMemory(..)"),
            AskFault::Stopped(_) => f.write_str("Stopped(..)"),
            AskFault::Lost => f.write_str("Lost"),
        }
    }
}

/// A session that asks no more.
#[derive(Drop)]
pub struct Left<J: ServeNames> {
    session: Session<J>,
}

impl<J: ServeNames> Session<J> {
    /// A session that has asked nothing and puts messages into these inboxes.
    pub(crate) fn new(
        alloc: Global,
        pass: Pass<J>,
        seat: SessionSeat<J>,
        outlets: Vec<Sender<Message<J>>>,
    ) -> Session<J>
        requires seat { seat.session ≡ pass.session }
        requires nothing { pass.mine ≡ [] }
        ensures { HasAskedNothing result }
    {
        Session {
            seat,
            pass,
            parts: Vec::new(alloc),
            answers: Vec::new(alloc),
            is_full: false,
            closed: None,
            outlets,
        }
    }

    /// Its number, 0 to 63.
    pub fn number(&self) -> u32
        ensures { result ≡ self.now.pass.session }
    {
        self.pass.session()
    }

    /// The number of entries of the log that it has seen. The entry of each request that it asks from now on is behind them.
    pub fn seen(&self) -> u32
        ensures { result ≡ self.now.pass.seen }
    {
        self.pass.seen()
    }

    /// The requests it has asked, in order, each with its number: its place, from 0.
    pub fn parts(&self) -> &[Part]
        ensures { result.now ≡ self.now.script }
    {
        self.parts.as_slice()
    }

    /// The answers to its requests: the place of a request's entry in the log, or why the request was refused.
    pub fn answers(&self) -> &[Result<u32, Refusal>]
        ensures { result.now ≡ self.now.answers }
    {
        self.answers.as_slice()
    }

    /// Asks a request and waits for its answer: the place of its entry in the log (`Engine::log`), or why it was refused. The
    /// entry is behind all that the session and those that it met have seen. After a refusal the session has seen and logged what
    /// it had before. The request is asked once; the caller may ask one again that was refused with Died or NoMemory. If the engine
    /// is closed (`Engine::close`), the request is not asked: it is refused with Closed, and so are all that the session asks from
    /// then on; nothing else of the session is changed.
    pub fn ask<G: Gate>(
        self,
        rt: &impl Wait,
        alloc: Global,
        engine: &Engine<'_, J, G>,
        request: Request,
    ) -> Result<(Session<J>, Result<u32, Refusal>), AskFault<J>>
        ensures asks { IfOk result (λ r. Asks (rules_of J.opening J.most) self request r.0 r.1) }
        ensures back { IfErr result (IsBackIn self) }
    {
        let mut session = self;
        session.look_for_close(engine);
        if session.closed.is_some() {
            return Ok((session, Err(Refusal::Closed)));
        }
        if engine.is_stopped() {
            return Err(AskFault::Stopped(session));
        }
        let Ok(number) = u32::try_from(session.answers.len()) else {
            return Err(AskFault::NoMemory(session));
        };
        let Session {
            seat,
            pass,
            mut parts,
            mut answers,
            is_full,
            closed: _,
            outlets,
        } = session;
        if parts.reserve(1).is_err() || answers.reserve(1).is_err() {
            return Err(AskFault::NoMemory(Session {
                seat,
                pass,
                parts,
                answers,
                is_full,
                closed: None,
                outlets,
            }));
        }
        let asker = Asker {
            seat,
            pass,
            parts,
            answers,
            is_full,
            outlets,
            part: Part { number, request },
        };
        match check(engine.scale.get(), &asker.part.request) {
            Err(refusal) => Ok(asker.refused(refusal)),
            Ok(()) if is_full => Ok(asker.refused(Refusal::LogFull)),
            Ok(()) => match asker.call(rt, alloc, engine) {
                Some(answered) => Ok(answered),
                None => Err(AskFault::Lost),
            },
        }
    }

    // Takes a token if the engine is closed, unless it has one.
    fn look_for_close<G: Gate>(&mut self, engine: &Engine<'_, J, G>)
        ensures same { self.new ≡ record self.old { is_closed = self.new.is_closed } }
        ensures keeps { self.old.is_closed ≡ true → self.new.is_closed ≡ true }
    {
        if self.closed.is_none() {
            self.closed = engine.closing.closed();
        }
    }

    /// Ends the session: it asks no more. The executors end once all sessions have left, all scripts are served and all moves are
    /// made.
    pub fn leave<G: Gate>(self, rt: &impl Wait, engine: &Engine<'_, J, G>) -> Left<J>
        ensures { result.session ≡ self }
    {
        let mut session = self;
        let slot = session.pass.session() as usize;
        match engine.leave(rt, slot) {
            Ok(()) => begin_at(rt, engine, &mut session.outlets, slot, 0),
            Err(_) => engine.stop(),
        }
        Left { session }
    }

    /// Proves that the session has logged exactly its entries in the log, and that the log has reached all that it has seen.
    /// Changes neither.
    pub fn audit(&mut self, log: &mut Log<J>)
        ensures seen { self.old.pass.seen ≤ length log.old }
        ensures reached { self.old.pass.reached ≤ length log.old }
        ensures mine { self.old.pass.mine ≡ items_of self.old.pass.session log.old }
        ensures same { (self.new ≡ self.old) × (log.new ≡ log.old) }
    {
        log.audit(&mut self.pass);
    }
}

/// Lets two sessions meet: from now on both have seen the larger number of entries, so the entry of what either asks from now on
/// is behind the entries that the other was answered. Never waits.
pub fn meet<J: ServeNames>(one: &mut Session<J>, other: &mut Session<J>)
    ensures one { HasMet one.old other.old one.new }
    ensures other { HasMet other.old one.old other.new }
{
    commit_log::meet(&mut one.pass, &mut other.pass);
}

impl<J: ServeNames> Asker<J> {
    // Answers the request with a refusal.
    fn refused(self, refusal: Refusal) -> (Session<J>, Result<u32, Refusal>)
        requires { IsRefusal (rules_of J.opening J.most)
            (known_of self.before.is_full self.before.pass.reached) self.request refusal }
        ensures { HasAsked (rules_of J.opening J.most) self.before self.request result.0 result.1 }
    {
        let Asker {
            seat,
            pass,
            mut parts,
            mut answers,
            is_full,
            outlets,
            part,
        } = self;
        parts.push_reserved(part);
        answers.push_reserved(Err(refusal));
        let session = Session {
            seat,
            pass,
            parts,
            answers,
            is_full,
            closed: None,
            outlets,
        };
        (session, Err(refusal))
    }

    // Asks the request, which its check accepts. Returns `None` if the executors were stopped, or if the answer is another
    // session's.
    fn call<G: Gate>(
        self,
        rt: &impl Wait,
        alloc: Global,
        engine: &Engine<'_, J, G>,
    ) -> Option<(Session<J>, Result<u32, Refusal>)>
        requires accepted { check_of J.opening.scale self.request ≡ Ok tt }
        requires open { self.before.is_full ≡ false }
        ensures { IfSome result (λ r.
            HasAsked (rules_of J.opening J.most) self.before self.request r.0 r.1) }
    {
        let Asker {
            mut seat,
            mut pass,
            parts,
            answers,
            is_full: _,
            outlets,
            part,
        } = self;
        seat.ask(&mut pass, part.number, &part.request);
        let age = engine.ages.fetch_add(1, Ordering::SeqCst);
        let slot = pass.session() as usize;
        let home = home_of_request(&part.request);
        let begun = Flow::begin(alloc, age, slot, part.number, &part.request, pass);
        let mut away = Away {
            seat,
            parts,
            answers,
            outlets,
            part,
        };
        match begun {
            Ok(flow) => {
                engine
                    .gate
                    .asked(away.seat.session(), away.part.number, &away.part.request);
                away.send(rt, engine, slot, home, flow);
                let recorded = engine.wait_for_answer(rt, slot)?;
                let (mut pass, answer) = recorded.into_parts();
                if pass.session() != away.seat.session() {
                    return None;
                }
                away.seat.look(&mut pass);
                engine
                    .gate
                    .answered(away.seat.session(), away.part.number, &away.part.request);
                Some(away.answered(pass, answer))
            }
            Err(pass) => Some(away.answered(pass, Err(Refusal::NoMemory))),
        }
    }
}

impl<J: ServeNames> Away<J> {
    // Stores the flow at the session's place and has it begun at the executor of its warehouse.
    fn send<G: Gate>(
        &mut self,
        rt: &impl Wait,
        engine: &Engine<'_, J, G>,
        slot: usize,
        home: u32,
        flow: Flow<J>,
    )
        ensures { self.new ≡ self.old }
    {
        match engine.ask(rt, slot, home, flow) {
            Ok(()) => {
                let to = engine.routing.route(home);
                begin_at(rt, engine, &mut self.outlets, slot, to);
            }
            Err(_) => engine.stop(),
        }
    }

    // Takes the pass back with this answer.
    fn answered(
        self,
        pass: Pass<J>,
        answer: Result<u32, Refusal>,
    ) -> (Session<J>, Result<u32, Refusal>)
        requires session { pass.session ≡ self.seat.session }
        requires recorded { IsRecordedBy J.most self.seat.asking pass answer }
        ensures answer { result.1 ≡ answer }
        ensures noted { result.0.script
            ≡ self.script ++ part self.seat.asking.number self.seat.asking.request ∷ [] }
        ensures answered { result.0.answers ≡ self.answers ++ answer ∷ [] }
        ensures pass { result.0.pass ≡ pass }
        ensures open { result.0.is_closed ≡ false }
    {
        let Away {
            seat,
            mut parts,
            mut answers,
            outlets,
            part,
        } = self;
        let is_full = says_full(&answer);
        parts.push_reserved(part);
        answers.push_reserved(answer);
        let session = Session {
            seat,
            pass,
            parts,
            answers,
            is_full,
            closed: None,
            outlets,
        };
        (session, answer)
    }
}

impl<J: ServeNames> Left<J> {
    /// The requests it has asked, with their numbers, and their answers, after an audit of the session: it has logged exactly its
    /// entries in the log. Returns `None` if it is another session, or if it has asked more than a script can have.
    pub(crate) fn audit(self, log: &mut Log<J>, number: usize) -> Option<(Script, Answers)>
        ensures asked { IfSome result (λ r. r.0 ≡ self.session.script) }
        ensures numbered { IfSome result (λ r. AreNumberedByPlace r.0) }
        ensures recorded { IfSome result (λ r. r.1 ≡ self.session.answers) }
        ensures served { IfSome result (λ r.
            ServedIn (rules_of J.opening J.most) number log.old self.session.script r.1) }
        ensures same { log.new ≡ log.old }
    {
        let Left { session } = self;
        let Session {
            mut pass,
            parts,
            answers,
            ..
        } = session;
        if pass.session() as usize != number {
            return None;
        }
        log.audit(&mut pass);
        let script = Script::checked_new(parts)?;
        Some((script, Answers::of(answers)))
    }
}

// Has this executor begin the request of the session of this slot, or end the session.
fn begin_at<J: ServeNames, G: Gate>(
    rt: &impl Wait,
    engine: &Engine<'_, J, G>,
    outlets: &mut Vec<Sender<Message<J>>>,
    slot: usize,
    to: u32,
) {
    let backoff = Backoff::new();
    for _ in rt.forever() {
        let Some(outlet) = outlets.get_mut(to as usize) else {
            return engine.stop();
        };
        if outlet.put(rt, Message::Begin(slot)).is_ok() {
            return engine.call(to);
        }
        if engine.is_over() {
            return;
        }
        backoff.snooze();
    }
}
