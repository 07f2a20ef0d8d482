//! The state that all executors share.
use crate::closed_engine::Closing;
use crate::moves::Moves;
use crate::opening_scale::OpeningScale;
use crate::parking::Parking;
use crate::place::{Advanced, Ended, Place, Unexpected};
use crate::{Gate, ServeNames};
use commit_log::Log;
use crossbeam_utils::Backoff;
use executor::{CompletionOwner, Flow, PhaseOwner, SessionAnswer};
use requests::{Part, Script};
use routing::SharedRouting;
use std::alloc::Global;
use std::sync::atomic::{AtomicBool, AtomicU64, AtomicUsize, Ordering};
use std::sync::{Mutex, MutexGuard, Wait};

/// The next request of a session.
#[derive(Drop)]
pub(crate) struct Upcoming {
    /// The executor that has the warehouse whose terminal asks it.
    pub(crate) executor: u32,
    /// How often it was asked before and was refused with Died or NoMemory.
    pub(crate) deaths: u32,
}

/// The state that all executors share: the log under its lock, the place of each session under a lock of its own, and atomics.
/// The log's lock is the only lock common to all executors, and no thread takes a lock while it holds another.
#[derive(Drop)]
pub struct Engine<'a, J: ServeNames, G: Gate> {
    pub(crate) scale: OpeningScale<J>,
    pub(crate) scripts: &'a [Script],
    /// How often a request is asked at most.
    pub(crate) tries: u32,
    pub(crate) routing: SharedRouting,
    pub(crate) moves: Moves<'a>,
    pub(crate) gate: G,
    pub(crate) log: Mutex<Log<J>>,
    /// By the sessions' numbers.
    pub(crate) places: Vec<Mutex<Place<'a, J>>>,
    /// By the executors' numbers.
    pub(crate) parkings: Vec<Parking>,
    /// Where the sessions that ask interactively wait for their answers. They are the sessions after those that have a script.
    pub(crate) waiters: Vec<Parking>,
    /// The age of the next transaction.
    pub(crate) ages: AtomicU64,
    /// The number of sessions that are to ask more.
    pub(crate) unserved: AtomicUsize,
    /// Whether the executors are to end even if not all is served.
    pub(crate) is_stopped: AtomicBool,
    /// Closed once interactive sessions may ask no more.
    pub(crate) closing: Closing<J>,
}

impl<J: ServeNames, G: Gate> Engine<'_, J, G> {
    /// Whether all scripts are served, all interactive sessions have left and all moves are made, or `stop` was called.
    pub fn is_over(&self) -> bool {
        self.is_done() || self.is_stopped()
    }

    /// Whether `stop` was called.
    pub(crate) fn is_stopped(&self) -> bool {
        self.is_stopped.load(Ordering::SeqCst)
    }

    // Whether all scripts are served, all interactive sessions have left and all moves are made.
    fn is_done(&self) -> bool {
        self.unserved.load(Ordering::SeqCst) == 0 && self.moves.are_over()
    }

    /// Closes the engine to interactive sessions: what they ask from now on is refused with Closed. Requests in flight are answered,
    /// and scripts are served to their ends.
    pub fn close(&self, rt: &impl Wait) {
        self.closing.close(rt);
    }

    /// Makes all executors end soon.
    pub fn stop(&self) {
        self.is_stopped.store(true, Ordering::SeqCst);
        self.wake_all();
    }

    /// Counts a session that asks no more. After the last session and the last move the executors end.
    pub(crate) fn end_session(&self) {
        if self.unserved.fetch_sub(1, Ordering::SeqCst) == 1 {
            self.wake_all();
        }
    }

    /// Wakes all executors and all sessions that wait for an answer, so that they check whether to end.
    pub(crate) fn wake_all(&self) {
        for parking in self.parkings.iter() {
            parking.wake();
        }
        for parking in self.waiters.iter() {
            parking.wake();
        }
    }

    /// Wakes this executor for a message, if it rests.
    pub(crate) fn call(&self, executor: u32) {
        if let Some(parking) = self.parkings.get(executor as usize) {
            parking.call();
        }
    }

    /// Wakes the session of this slot for its answer, if it asks interactively.
    pub(crate) fn call_session(&self, slot: usize) {
        if let Some(parking) = self.waits_at(slot) {
            parking.call();
        }
    }

    // Where the session of this slot waits for its answers, if it asks interactively.
    fn waits_at(&self, slot: usize) -> Option<&Parking> {
        self.waiters.get(slot.checked_sub(self.scripts.len())?)
    }

    /// The part at this place of this session's script. `None` for a session without a script.
    pub(crate) fn part(&self, session: u32, place: usize) -> Option<&Part> {
        self.scripts.get(session as usize)?.parts().get(place)
    }

    /// Takes the log's lock and returns the log. No request is logged while it is held.
    pub fn log(&self, rt: &impl Wait) -> MutexGuard<'_, Log<J>> {
        self.log.lock(rt)
    }

    // ---- the places of sessions

    /// Ends the transaction in this slot. `completes` says whether claims of it are to go back by messages.
    pub(crate) fn end(
        &self,
        rt: &impl Wait,
        slot: usize,
        recorded: SessionAnswer<J>,
        phase_owner: PhaseOwner<J>,
        completes: bool,
    ) -> Result<Ended, Unexpected> {
        match self.places.get(slot) {
            Some(place) => place
                .lock(rt)
                .end(recorded, phase_owner, completes, self.tries),
            None => Err(Unexpected),
        }
    }

    /// All claims of the finished transaction in a slot are back. Returns the executor that began the transaction.
    pub(crate) fn complete(
        &self,
        rt: &impl Wait,
        completion: CompletionOwner,
    ) -> Result<u32, Unexpected> {
        match self.places.get(completion.slot()) {
            Some(place) => Ok(place.lock(rt).complete(completion)),
            None => Err(Unexpected),
        }
    }

    /// Stores a request that the session of this slot asks interactively, at the terminal of this warehouse.
    pub(crate) fn ask(
        &self,
        rt: &impl Wait,
        slot: usize,
        home: u32,
        flow: Flow<J>,
    ) -> Result<(), Unexpected> {
        match self.places.get(slot) {
            Some(place) => place.lock(rt).call(home, flow),
            None => Err(Unexpected),
        }
    }

    /// Waits for the answer to the request that the session of this slot has asked interactively. Returns `None` if the executors
    /// were stopped before.
    pub(crate) fn wait_for_answer(&self, rt: &impl Wait, slot: usize) -> Option<SessionAnswer<J>> {
        let place = self.places.get(slot)?;
        let parking = self.waits_at(slot)?;
        let backoff = Backoff::new();
        for _ in rt.forever() {
            parking.lie_down();
            let recorded = place.lock(rt).take_recorded();
            if recorded.is_some() || self.is_stopped() {
                parking.get_up();
                return recorded;
            }
            if backoff.is_completed() {
                parking.rest(rt, None);
            } else {
                backoff.snooze();
            }
        }
        unreachable!()
    }

    /// Marks the session of this slot, which asks interactively, as asking no more.
    pub(crate) fn leave(&self, rt: &impl Wait, slot: usize) -> Result<(), Unexpected> {
        match self.places.get(slot) {
            Some(place) => place.lock(rt).leave(),
            None => Err(Unexpected),
        }
    }

    /// The next request of the session of this slot, if it is ready to ask one.
    pub(crate) fn upcoming(&self, rt: &impl Wait, slot: usize) -> Option<Upcoming> {
        let (home, deaths) = self.places.get(slot)?.lock(rt).next_home(self.tries)?;
        Some(Upcoming {
            executor: self.routing.route(home),
            deaths,
        })
    }

    /// The session of this slot takes its next request, at this executor.
    pub(crate) fn ask_next_of(
        &self,
        rt: &impl Wait,
        alloc: Global,
        slot: usize,
        executor: u32,
    ) -> Result<Advanced<J>, Unexpected> {
        match self.places.get(slot) {
            Some(place) => place.lock(rt).ask_next(
                alloc,
                self.scale.get(),
                &self.ages,
                slot,
                self.tries,
                executor,
            ),
            None => Err(Unexpected),
        }
    }
}
