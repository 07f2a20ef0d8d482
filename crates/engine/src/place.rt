//! The state of a session and of its transaction in flight, under the session's lock.
ghost use Rattle.std.specs.Prelude.{◌≡◌};

use crate::ServeNames;
use crate::asking::{Asked, Next, Ready};
use executor::{CompletionOwner, Flow, Paused, PhaseOwner, SessionAnswer};
use schema::Scale;
use std::alloc::Global;
use std::sync::atomic::AtomicU64;

/// The place of a session. It has room for one transaction, whose messages contain its slot. The next transaction can't begin
/// before all claims of this one are given back.
///
/// Its lock is taken when a request is asked, begins or is answered, and when the last claims of a transaction are back. An action
/// reports without it.
#[derive(Drop)]
pub(crate) struct Place<'a, J: ServeNames> {
    stage: Option<Stage<'a, J>>,
    // The owner of the meeting to which the actions of its transactions report, while no transaction is in flight.
    phase_owner: Option<PhaseOwner<J>>,
    // The executor that began the transaction.
    begun_by: u32,
    // The owner of the meeting to which the actions of a finished transaction report that their claims are back, unless claims are
    // on their way.
    completion: Option<CompletionOwner>,
}

/// The stage of a session. `Ready`, `Asked` and `Ended` are for a session that has a script, the others for one that asks
/// interactively.
#[derive(Drop)]
enum Stage<'a, J: ServeNames> {
    Ready(Ready<'a, J>),
    Asked(Asked<'a, J>),
    /// Its script is at its end.
    Ended(Ready<'a, J>),
    /// It asks nothing.
    Free,
    /// It asks a request, at the terminal of this warehouse, that has not begun.
    Calls { home: u32, flow: Flow<J> },
    /// Its request is in flight.
    Away,
    /// Its request has this answer, which it has not taken.
    Answered(SessionAnswer<J>),
    /// It asks no more; that is not counted yet.
    Leaves,
    /// It asks no more.
    Gone,
}

/// A message came to a place that does not expect it. All that is proved of the log still holds, but the session can't go on.
#[derive(Clone, Copy, Debug, PartialEq, Eq)]
pub(crate) struct Unexpected;

/// The result of `Place::end`.
#[derive(Drop)]
pub(crate) struct Ended {
    /// The place in the session's script of the part that has its answer and is not asked again, if there is a script.
    pub(crate) answered: Option<usize>,
    /// The executor that began the transaction.
    pub(crate) begun_by: u32,
    /// The owner of the completion meeting, if claims are to go back by messages.
    pub(crate) completion: Option<CompletionOwner>,
}

/// The result of `Place::advance`.
#[derive(Drop)]
pub(crate) enum Advanced<J: ServeNames> {
    /// A request was answered at once, and the next one may follow.
    Answered,
    /// A request begins. If it is of a script and was not asked before, these are its session and the place of its part.
    Begins(Option<(u32, usize)>, Paused<J>),
    /// The session waits: a transaction of it is unfinished, or it asks nothing.
    Waits,
    /// The session has ended. This is returned once.
    Ended,
}

impl<'a, J: ServeNames> Place<'a, J> {
    /// The place of a session that has a script, with the owners of its meetings.
    pub(crate) fn new(
        session: Ready<'a, J>,
        phase_owner: PhaseOwner<J>,
        completion: CompletionOwner,
    ) -> Place<'a, J> {
        Place {
            stage: Some(Stage::Ready(session)),
            phase_owner: Some(phase_owner),
            begun_by: 0,
            completion: Some(completion),
        }
    }

    /// The place of a session that asks interactively, with the owners of its meetings.
    pub(crate) fn free(phase_owner: PhaseOwner<J>, completion: CompletionOwner) -> Place<'a, J> {
        Place {
            stage: Some(Stage::Free),
            phase_owner: Some(phase_owner),
            begun_by: 0,
            completion: Some(completion),
        }
    }

    /// The session, if its script is at its end.
    pub(crate) fn into_session(self) -> Option<Ready<'a, J>> {
        let Place { stage, .. } = self;
        match stage {
            Some(Stage::Ended(ready)) => Some(ready),
            _ => None,
        }
    }

    // ---- a session that asks interactively

    /// Stores a request that the session asks at the terminal of this warehouse. It begins once all claims of the transaction
    /// before are back.
    pub(crate) fn call(&mut self, home: u32, flow: Flow<J>) -> Result<(), Unexpected> {
        let Some(Stage::Free) = self.stage.take() else {
            return Err(Unexpected);
        };
        self.stage = Some(Stage::Calls { home, flow });
        Ok(())
    }

    /// Takes the session's answer, if there is one.
    pub(crate) fn take_recorded(&mut self) -> Option<SessionAnswer<J>> {
        match self.stage.take() {
            Some(Stage::Answered(recorded)) => {
                self.stage = Some(Stage::Free);
                Some(recorded)
            }
            other => {
                self.stage = other;
                None
            }
        }
    }

    /// Marks the session as asking no more.
    pub(crate) fn leave(&mut self) -> Result<(), Unexpected> {
        let Some(Stage::Free) = self.stage.take() else {
            return Err(Unexpected);
        };
        self.stage = Some(Stage::Leaves);
        Ok(())
    }

    // ---- transactions

    /// Takes the session's next request, unless its transaction is in flight or has claims that are not back.
    pub(crate) fn ask_next(
        &mut self,
        alloc: Global,
        scale: &Scale,
        ages: &AtomicU64,
        slot: usize,
        tries: u32,
        executor: u32,
    ) -> Result<Advanced<J>, Unexpected>
        requires { scale.now ≡ J.opening.scale }
    {
        if self.completion.is_none() {
            return Ok(Advanced::Waits);
        }
        let ready = match self.stage.take() {
            Some(Stage::Ready(ready)) => ready,
            other => return self.ask_next_interactive(other, executor),
        };
        match ready.next(alloc, scale, ages, slot, tries) {
            Next::Ready(ready) => {
                self.stage = Some(Stage::Ready(ready));
                Ok(Advanced::Answered)
            }
            Next::Asks(asked, flow) => {
                let first = asked.first_try(tries);
                self.begun_by = executor;
                self.stage = Some(Stage::Asked(asked));
                self.begin(first, flow)
            }
            Next::Ended(ready) => {
                self.stage = Some(Stage::Ended(ready));
                Ok(Advanced::Ended)
            }
        }
    }

    // Begins what the session asks interactively, or ends it if it asks no more. Any other stage stays.
    fn ask_next_interactive(
        &mut self,
        stage: Option<Stage<'a, J>>,
        executor: u32,
    ) -> Result<Advanced<J>, Unexpected> {
        match stage {
            Some(Stage::Calls { home: _, flow }) => {
                self.begun_by = executor;
                self.stage = Some(Stage::Away);
                self.begin(None, flow)
            }
            Some(Stage::Leaves) => {
                self.stage = Some(Stage::Gone);
                Ok(Advanced::Ended)
            }
            other => {
                self.stage = other;
                Ok(Advanced::Waits)
            }
        }
    }

    // Begins a transaction.
    fn begin(
        &mut self,
        first: Option<(u32, usize)>,
        flow: Flow<J>,
    ) -> Result<Advanced<J>, Unexpected> {
        let (Some(phase_owner), Some(completion)) = (self.phase_owner.take(), &self.completion)
        else {
            return Err(Unexpected);
        };
        match Paused::new(flow, phase_owner, completion) {
            Some(paused) => Ok(Advanced::Begins(first, paused)),
            None => Err(Unexpected),
        }
    }

    /// Ends the transaction: its session gets the answer. If claims are to go back by messages, the owner of the completion meeting
    /// is returned, and the next transaction can't begin before `complete`.
    pub(crate) fn end(
        &mut self,
        recorded: SessionAnswer<J>,
        phase_owner: PhaseOwner<J>,
        completes: bool,
        tries: u32,
    ) -> Result<Ended, Unexpected> {
        let answered = match self.stage.take() {
            Some(Stage::Asked(asked)) => {
                let place = asked.place();
                let Some(ready) = asked.finish(recorded, tries) else {
                    return Err(Unexpected);
                };
                let is_answered = ready.deaths(tries) == 0;
                self.stage = Some(Stage::Ready(ready));
                if is_answered { Some(place) } else { None }
            }
            Some(Stage::Away) => {
                self.stage = Some(Stage::Answered(recorded));
                None
            }
            _ => return Err(Unexpected),
        };
        self.phase_owner = Some(phase_owner);
        let completion = if completes {
            self.completion.take()
        } else {
            None
        };
        Ok(Ended {
            answered,
            begun_by: self.begun_by,
            completion,
        })
    }

    /// All claims of the finished transaction are back. Returns the executor that began it.
    pub(crate) fn complete(&mut self, completion: CompletionOwner) -> u32 {
        self.completion = Some(completion);
        self.begun_by
    }

    /// The W_ID of the warehouse whose terminal asks the session's next request, and how often that has died; `None` if a request
    /// of it is in flight or it has none.
    pub(crate) fn next_home(&self, tries: u32) -> Option<(u32, u32)> {
        match &self.stage {
            Some(Stage::Ready(ready)) => Some((ready.next_home()?, ready.deaths(tries))),
            Some(Stage::Calls { home, .. }) => Some((*home, 0)),
            _ => None,
        }
    }
}
