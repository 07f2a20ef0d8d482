//! A session that asks a script: between two requests, and while one is in flight.
ghost use Rattle.std.specs.Prelude.{◌≡◌, [], length, false, Some, Ok, Err, IfSome, IsTrue, slice_get};
ghost use Rattle.requests.specs.Check.{check_of};
ghost use Rattle.executor.specs.Answers.{IsRecordedBy};
ghost use Rattle.engine.specs.Asking as spec;
ghost use Rattle.engine.specs.Asking.{IsRefusedNext};
ghost use Rattle.engine.specs.Rules.{rules_of};
ghost use Rattle.engine.specs.Served.{ServedIn};

use crate::{Answers, ServeNames};
use commit_log::{Log, Pass, SessionSeat};
use executor::{Flow, SessionAnswer};
use requests::{Part, Refusal, Script, check};
use schema::{NoMemory, Scale};
use std::alloc::Global;
use std::marker::Model;
use std::sync::atomic::{AtomicU64, Ordering};
use transactions::home_of_request;

/// A session none of whose requests is in flight. It has its pass. Invariant: the parts of its script so far have these answers,
/// each of which is the result of its part.
#[derive(Drop)]
pub(crate) struct Ready<'a, J: ServeNames> {
    script: &'a Script,
    seat: SessionSeat<J>,
    pass: Pass<J>,
    // It has capacity for the answers to all parts.
    answers: Vec<Result<u32, Refusal>>,
    // How often its next part may still be asked.
    tries_left: u32,
    // Whether it has had the answer LogFull. It asks no more then.
    is_full: bool,
}

impl<'a, J: ServeNames> Model for Ready<'a, J> {
    ghost use Rattle.engine.specs.Asking.{ReadyView};

    ghost Value = { ReadyView };

    ghost use Rattle.std.specs.Prelude.{vec_capacity};
    ghost use Rattle.engine.specs.Asking.{IsReady, ready_view};
    ghost use Rattle.engine.specs.Rules.{rules_of};

    ghost view = { λ r. ready_view r.script.now r.seat r.pass r.answers.items r.is_full };

    ghost invariant = { λ r. IsReady (rules_of J.opening J.most) J.scripts (ready_view r.script.now r.seat r.pass r.answers.items r.is_full) (vec_capacity r.answers) };
}

/// A session one of whose requests is in flight; its pass goes with the request. Invariant: the parts of its script before have
/// these answers, each of which is the result of its part, and the request is that of the next part, with its number.
#[derive(Drop)]
pub(crate) struct Asked<'a, J: ServeNames> {
    script: &'a Script,
    seat: SessionSeat<J>,
    answers: Vec<Result<u32, Refusal>>,
    tries_left: u32,
}

impl<'a, J: ServeNames> Model for Asked<'a, J> {
    ghost use Rattle.engine.specs.Asking.{AskedView};

    ghost Value = { AskedView };

    ghost use Rattle.std.specs.Prelude.{vec_capacity};
    ghost use Rattle.engine.specs.Asking.{IsAsked, asked_view};
    ghost use Rattle.engine.specs.Rules.{rules_of};

    ghost view = { λ a. asked_view a.script.now a.seat a.answers.items };

    ghost invariant = { λ a. IsAsked (rules_of J.opening J.most) J.scripts (asked_view a.script.now a.seat a.answers.items) (vec_capacity a.answers) };
}

/// The result of `Ready::next`.
#[derive(Drop)]
pub(crate) enum Next<'a, J: ServeNames> {
    /// Its next request was refused at once, or is to be asked again.
    Ready(Ready<'a, J>),
    /// Its next request begins.
    Asks(Asked<'a, J>, Flow<J>),
    /// Its script is at its end.
    Ended(Ready<'a, J>),
}

impl<'a, J: ServeNames> Ready<'a, J> {
    /// A session before the first request of its script, with capacity for all answers. Returns NoMemory if the allocation fails.
    pub(crate) fn open(
        alloc: Global,
        script: &'a Script,
        pass: Pass<J>,
        seat: SessionSeat<J>,
        tries: u32,
    ) -> Result<Ready<'a, J>, NoMemory>
        requires script { slice_get J.scripts pass.session ≡ Some script.now }
        requires seat { seat.session ≡ pass.session }
        requires nothing { pass.mine ≡ [] }
    {
        let answers = Vec::with_capacity(alloc, script.parts().len())?;
        Ok(Ready {
            script,
            seat,
            pass,
            answers,
            tries_left: tries,
            is_full: false,
        })
    }

    /// Takes the next part of the session's script. If the check refuses it, that is its answer. If the log is full for the session, the
    /// answer is LogFull. Else its request begins in this slot, with the next age.
    pub(crate) fn next(
        self,
        alloc: Global,
        scale: &Scale,
        ages: &AtomicU64,
        slot: usize,
        tries: u32,
    ) -> Next<'a, J>
        requires { scale.now ≡ J.opening.scale }
    {
        let Some(part) = self.script.parts().get(self.answers.len()) else {
            return Next::Ended(self);
        };
        match check(scale, &part.request) {
            Err(refusal) => Next::Ready(self.refused(refusal, tries)),
            Ok(()) if self.is_full => Next::Ready(self.refused(Refusal::LogFull, tries)),
            Ok(()) => self.ask(alloc, ages, slot, tries, part),
        }
    }

    // Answers its next part with a refusal.
    fn refused(self, refusal: Refusal, tries: u32) -> Ready<'a, J>
        requires { IsRefusedNext (rules_of J.opening J.most) self refusal }
    {
        let Ready {
            script,
            seat,
            pass,
            mut answers,
            tries_left: _,
            is_full,
        } = self;
        answers.push_reserved(Err(refusal));
        Ready {
            script,
            seat,
            pass,
            answers,
            tries_left: tries,
            is_full,
        }
    }

    // Asks the request of its next part, which its check accepts, with its number.
    fn ask(
        self,
        alloc: Global,
        ages: &AtomicU64,
        slot: usize,
        tries: u32,
        part: &Part,
    ) -> Next<'a, J>
        requires part { slice_get self.script (length self.answers) ≡ Some part.now }
        requires accepted { check_of J.opening.scale part.now.request ≡ Ok tt }
        requires open { self.is_full ≡ false }
    {
        let Ready {
            script,
            mut seat,
            mut pass,
            answers,
            tries_left,
            is_full: _,
        } = self;
        let number = part.number;
        seat.ask(&mut pass, number, &part.request);
        let asked = Asked {
            script,
            seat,
            answers,
            tries_left,
        };
        let age = ages.fetch_add(1, Ordering::SeqCst);
        match Flow::begin(alloc, age, slot, number, &part.request, pass) {
            Ok(flow) => Next::Asks(asked, flow),
            Err(pass) => Next::Ready(asked.answered(pass, Err(Refusal::NoMemory), tries)),
        }
    }

    /// The W_ID of the warehouse whose terminal asks its next request. `None` at the script's end.
    pub(crate) fn next_home(&self) -> Option<u32> {
        let part = self.script.parts().get(self.answers.len())?;
        Some(home_of_request(&part.request))
    }

    /// How often its next request was asked, of the `tries` times that it may be, and was refused with Died or NoMemory.
    pub(crate) fn deaths(&self, tries: u32) -> u32 {
        tries.saturating_sub(self.tries_left)
    }

    /// The answers to the whole script, after an audit of the session: it has logged exactly its entries in the log. Returns
    /// `None` if it is another session, or if its script is not at its end.
    pub(crate) fn audit(mut self, log: &mut Log<J>, session: usize) -> Option<Answers>
        ensures served { IfSome result (λ answers. (script : _)
            → slice_get J.scripts session ≡ Some script
            → ServedIn (rules_of J.opening J.most) session log.old script answers) }
        ensures same { log.new ≡ log.old }
    {
        if self.pass.session() as usize != session
            || self.answers.len() != self.script.parts().len()
        {
            return None;
        }
        log.audit(&mut self.pass);
        Some(Answers::of(self.answers))
    }
}

impl<'a, J: ServeNames> Asked<'a, J> {
    /// The place, in its script, of the part in flight.
    pub(crate) fn place(&self) -> usize {
        self.answers.len()
    }

    /// The session and the place of its part, if this was not asked before.
    pub(crate) fn first_try(&self, tries: u32) -> Option<(u32, usize)> {
        if self.tries_left != tries {
            return None;
        }
        Some((self.seat.session(), self.place()))
    }

    /// Takes the answer. A request that died or found no memory is to be asked again as long as it may. Returns `None` if the
    /// answer is another session's.
    pub(crate) fn finish(mut self, recorded: SessionAnswer<J>, tries: u32) -> Option<Ready<'a, J>> {
        let (mut pass, answer) = recorded.into_parts();
        if pass.session() != self.seat.session() {
            return None;
        }
        self.seat.look(&mut pass);
        Some(self.answered(pass, answer, tries))
    }

    // Takes the pass back with this answer.
    fn answered(self, pass: Pass<J>, answer: Result<u32, Refusal>, tries: u32) -> Ready<'a, J>
        requires session { pass.session ≡ self.seat.session }
        requires recorded { IsRecordedBy J.most self.seat.asking pass answer }
    {
        let Asked {
            script,
            seat,
            mut answers,
            tries_left,
        } = self;
        if tries_left > 1 && is_asked_again(&answer) {
            return Ready {
                script,
                seat,
                pass,
                answers,
                tries_left: tries_left - 1,
                is_full: false,
            };
        }
        let is_full = says_full(&answer);
        answers.push_reserved(answer);
        Ready {
            script,
            seat,
            pass,
            answers,
            tries_left: tries,
            is_full,
        }
    }
}

// Whether a request with this answer is asked again: it was refused with Died or NoMemory.
fn is_asked_again(answer: &Result<u32, Refusal>) -> bool
    ensures { IsTrue result → (why : Refusal) × (answer.now ≡ Err why) }
{
    matches!(answer, Err(Refusal::Died { .. } | Refusal::NoMemory))
}

/// Whether the answer is LogFull.
pub(crate) fn says_full(answer: &Result<u32, Refusal>) -> bool
    ensures { result ≡ spec.says_full answer.now }
{
    matches!(answer, Err(Refusal::LogFull))
}
