//! The work of an executor.
use crate::belongings::{Executor, STEP};
use crate::engine::Engine;
use crate::message::Message;
use crate::place::{Advanced, Unexpected};
use crate::{Gate, ServeNames};
use crossbeam_utils::Backoff;
use executor::{
    Act, Commit, Completion, CompletionPlace, Following, GivenBack, Paused, Release, Report,
    Returns, Tried,
};
use schema::NoMemory;
use std::alloc::Global;
use std::sync::Wait;
use std::time::Duration;

/// The largest number of unfinished transactions that an executor has begun. Transactions of one warehouse conflict from their
/// first action on, and all but the oldest die: so one more costs more than it gains (docs/COSTS.md).
const MOST_BEGUN: usize = 1;

/// How many messages to itself and freed shards an executor takes at most before it looks at its inbox.
const MOST_OWN: u32 = 16;

/// An executor at work in its thread.
#[derive(Drop)]
pub struct AtWork<'e, 'a, J: ServeNames, G: Gate, R: Wait> {
    pub rt: &'e R,
    pub alloc: Global,
    pub engine: &'e Engine<'a, J, G>,
    pub own: Executor<J>,
}

impl<J: ServeNames, G: Gate, R: Wait> AtWork<'_, '_, J, G, R> {
    /// Works on messages and begins the requests of sessions, until all scripts are served, all interactive sessions have left
    /// and all moves are made, or the executors are stopped. Returns the executor then.
    pub fn run(mut self) -> Executor<J> {
        let rt = self.rt;
        let backoff = Backoff::new();
        for _ in rt.forever() {
            if self.work() {
                self.own.go(1);
                backoff.reset();
            } else if self.engine.is_over() {
                return self.own;
            } else if let Some(steps) = self.steps_to_next()
                && self.own.outbox.is_empty()
            {
                self.pause(steps);
            } else if backoff.is_completed() && self.own.outbox.is_empty() {
                self.rest(None);
            } else {
                backoff.snooze();
            }
        }
        unreachable!()
    }

    // One round: works on its own messages and on the next one of the inbox, and begins a request. Returns whether there was any
    // work.
    fn work(&mut self) -> bool {
        self.send_again();
        let own = self.take_own();
        let theirs = self.take_theirs();
        self.begin_next() || own || theirs
    }

    // Takes the first message from its inbox. Returns whether there was one.
    fn take_theirs(&mut self) -> bool {
        let Some(sent) = self.own.inbox.take(self.rt) else {
            return false;
        };
        self.take(sent.message);
        true
    }

    // Takes its own messages and freed shards, up to MOST_OWN. Returns whether there was any.
    fn take_own(&mut self) -> bool {
        for taken in 0..MOST_OWN {
            if !(self.free_next() || self.take_next()) {
                return taken > 0;
            }
        }
        true
    }

    // Runs the waiting actions of the first freed shard. Returns whether there was one.
    fn free_next(&mut self) -> bool {
        let Some(home) = self.own.freed.pop_front() else {
            return false;
        };
        self.take_turns(home);
        true
    }

    // Takes the first message to itself. Returns whether there was one.
    fn take_next(&mut self) -> bool {
        let Some(message) = self.own.lane.pop_front() else {
            return false;
        };
        self.take(message);
        true
    }

    // The number of steps until it may begin the next request; `None` if only a message can bring one.
    fn steps_to_next(&self) -> Option<u64> {
        if self.own.begun >= MOST_BEGUN {
            return None;
        }
        self.own.steps_to_next()
    }

    // Rests for this many steps, or until a message comes.
    fn pause(&mut self, steps: u64) {
        if !self.rest(Some(Duration::from_micros(steps.saturating_mul(STEP)))) {
            self.own.go(steps);
        }
    }

    // Rests until a message comes, and takes it, or for `longest` at most. Returns whether one came.
    fn rest(&mut self, longest: Option<Duration>) -> bool {
        let Some(parking) = self.engine.parkings.get(self.own.number as usize) else {
            return false;
        };
        parking.lie_down();
        // (for a message that came before, nobody calls)
        let came = self.take_theirs();
        if !came {
            parking.rest(self.rt, longest);
        }
        parking.get_up();
        came || self.take_theirs()
    }

    // ---- sessions

    // Queues a session that is to begin its next request here, which has died this often.
    fn get_ready(&mut self, slot: usize, deaths: u32) {
        if self.own.get_ready(slot, deaths).is_err() {
            self.engine.stop();
        }
    }

    // Begins the next request of the session that has waited longest, unless MOST_BEGUN transactions are unfinished. Returns
    // whether it did.
    fn begin_next(&mut self) -> bool {
        if self.own.begun >= MOST_BEGUN {
            return false;
        }
        let Some(slot) = self.own.next_ready() else {
            return false;
        };
        self.serve_session(slot);
        true
    }

    // The session takes its next requests until one begins, it waits or it ends.
    fn serve_session(&mut self, slot: usize) {
        for _ in self.rt.forever() {
            match self
                .engine
                .ask_next_of(self.rt, self.alloc, slot, self.own.number)
            {
                Ok(Advanced::Answered) => self.engine.call_session(slot),
                Ok(Advanced::Begins(first, paused)) => {
                    self.own.begun = self.own.begun.saturating_add(1);
                    self.record_asked(first);
                    self.run_on(slot, Following::Next(paused));
                    return;
                }
                Ok(Advanced::Waits) => return,
                Ok(Advanced::Ended) => {
                    self.engine.end_session();
                    return;
                }
                Err(Unexpected) => {
                    self.engine.stop();
                    return;
                }
            }
        }
    }

    // Calls the gate if a session asks the part at this place of its script for the first time.
    fn record_asked(&self, first: Option<(u32, usize)>) {
        if let Some((session, place)) = first
            && let Some(part) = self.engine.part(session, place)
        {
            self.engine.gate.asked(session, part.number, &part.request);
        }
    }

    // A transaction that was begun here is finished: its session goes to the executor that is to begin its next request.
    fn over(&mut self, slot: usize) {
        self.own.begun = self.own.begun.saturating_sub(1);
        match self.engine.upcoming(self.rt, slot) {
            Some(next) if next.executor != self.own.number => {
                self.push(next.executor, Message::Begin(slot));
            }
            Some(next) => {
                self.get_ready(slot, next.deaths);
            }
            None => self.get_ready(slot, 0),
        }
    }

    // ---- messages

    fn take(&mut self, message: Message<J>) {
        match message {
            Message::Begin(slot) => self.get_ready(slot, 0),
            Message::Over(slot) => self.over(slot),
            Message::Act(act) => self.perform(act),
            Message::GivenBack(given, place) => self.take_back(given, place),
            Message::Move(order) => self.move_here(order),
            Message::Fetch { home, to } => self.send_shard(home, to),
            Message::Parcel(shard) => self.install(shard),
        }
    }

    // An action asks for its locks at its shard, and reports unless it waits there.
    fn perform(&mut self, act: Act<J>) {
        let home = act.home();
        let Some(shard) = self.own.shards.get_mut(home) else {
            self.pass_on(home, Message::Act(act));
            return;
        };
        if let Some(report) = shard.work(self.alloc, act) {
            self.take_report(report);
        }
        self.take_turns(home);
    }

    // Gives claims back to their shard and reports that they are back, or passes them on.
    fn take_back(&mut self, given: GivenBack<J>, place: CompletionPlace) {
        match self.give_back_here(given) {
            Ok(()) => self.report_back(place),
            Err(given) => self.pass_on(given.home(), Message::GivenBack(given, place)),
        }
    }

    // Gives claims back to their shard, if it is here.
    fn give_back_here(&mut self, given: GivenBack<J>) -> Result<(), GivenBack<J>> {
        let home = given.home();
        self.own.shards.give_back(given)?;
        if let Some(shard) = self.own.shards.get_mut(home)
            && shard.may_have_waiters()
            && self.own.freed.push_back(home).is_err()
        {
            self.engine.stop();
        }
        Ok(())
    }

    /// Each waiting action of a shard that need not wait any more has its turn, and reports. Returns at once if no action waits.
    pub(crate) fn take_turns(&mut self, home: u32) {
        if let Some(shard) = self.own.shards.get_mut(home)
            && shard.may_have_waiters()
        {
            self.take_each_turn(home);
        }
    }

    fn take_each_turn(&mut self, home: u32) {
        for _ in self.rt.forever() {
            let Some(shard) = self.own.shards.get_mut(home) else {
                return;
            };
            let Some(report) = shard.turn(self.alloc) else {
                return;
            };
            self.take_report(report);
        }
    }

    // ---- the steps of transactions

    // An action reports to the meeting of its phase; no lock is held. With the last report the transaction goes on.
    fn take_report(&mut self, report: Report<J>) {
        let slot = report.slot();
        let (following, _receipt) = report.report(self.alloc);
        if let Some(following) = following {
            self.run_on(slot, following);
        }
    }

    // Takes the next step of a transaction. Fast path: phases whose shards are all here run inline, one after another, while no
    // lock conflicts; any other phase goes by messages.
    fn run_on(&mut self, slot: usize, following: Following<J>) {
        let mut following = following;
        for _ in self.rt.forever() {
            match following {
                Following::Next(paused) => match paused.run_here(self.alloc, &mut self.own.shards) {
                    Tried::Done(next) => following = next,
                    Tried::Apart(paused) => return self.send_out(slot, paused),
                },
                Following::Commit(commit) => return self.commit(slot, commit),
                Following::Over(release) => return self.release(slot, release),
            }
        }
    }

    // Begins the next phase of a transaction by messages.
    fn send_out(&mut self, slot: usize, paused: Paused<J>) {
        match paused.send_out(self.alloc) {
            Ok(acts) => {
                for act in acts {
                    self.send(act.home(), Message::Act(act));
                }
            }
            Err(release) => self.release(slot, release),
        }
    }

    // Logs the transaction, or the log refuses it.
    fn commit(&mut self, slot: usize, commit: Commit<J>) {
        self.engine
            .gate
            .commit(commit.session(), commit.number(), commit.request());
        let release = commit.commit(&mut self.engine.log.lock(self.rt));
        self.release(slot, release);
    }

    // Ends the transaction: its claims go back and its session has the answer.
    fn release(&mut self, slot: usize, release: Release<J>) {
        let (recorded, mut returns, phase_owner) = release.into_parts();
        let session = recorded.session();
        let elsewhere = self.give_back_last(&mut returns);
        let completes = elsewhere.is_some();
        let Ok(ended) = self
            .engine
            .end(self.rt, slot, recorded, phase_owner, completes)
        else {
            return self.engine.stop();
        };
        self.engine.call_session(slot);
        self.record_answered(session, ended.answered);
        match (elsewhere, ended.completion) {
            (Some(first), Some(completion)) => self.send_back(completion.begin(first, returns)),
            (None, _) => self.send_over(slot, ended.begun_by),
            (Some(_), None) => self.engine.stop(),
        }
    }

    // Gives the claims of the last actions back to their shards, as long as these are here. Returns the first claims whose shard
    // is elsewhere, if there are some.
    fn give_back_last(&mut self, returns: &mut Returns<J>) -> Option<GivenBack<J>> {
        for _ in 0..returns.len() {
            if let Err(given) = self.give_back_here(returns.next_back()?) {
                return Some(given);
            }
        }
        None
    }

    // Sends the claims of each action to the executor that has their warehouse.
    fn send_back(&mut self, completion: Option<Completion<J>>) {
        let Some(mut completion) = completion else {
            return self.engine.stop();
        };
        for _ in self.rt.forever() {
            match completion.next() {
                Ok(Some((given, place))) => {
                    self.send(given.home(), Message::GivenBack(given, place))
                }
                Ok(None) => return,
                Err(NoMemory) => return self.engine.stop(),
            }
        }
    }

    // Calls the gate if the part at this place of a session's script has its answer and is not asked again.
    fn record_answered(&self, session: u32, answered: Option<usize>) {
        if let Some(place) = answered
            && let Some(part) = self.engine.part(session, place)
        {
            self.engine
                .gate
                .answered(session, part.number, &part.request);
        }
    }

    // An action of a finished transaction reports that its claims are back; no lock is held. With the last report the transaction is
    // over.
    fn report_back(&mut self, place: CompletionPlace) {
        let slot = place.slot();
        let (completion, _receipt) = place.report();
        let Some(completion) = completion else {
            return;
        };
        match self.engine.complete(self.rt, completion) {
            Ok(begun_by) => self.send_over(slot, begun_by),
            Err(Unexpected) => self.engine.stop(),
        }
    }

    // All claims of a finished transaction are back: notifies the executor that began it.
    fn send_over(&mut self, slot: usize, begun_by: u32) {
        if begun_by == self.own.number {
            self.over(slot);
        } else {
            self.push(begun_by, Message::Over(slot));
        }
    }

    // ---- sending

    // Sends a message to the executor that has this warehouse.
    fn send(&mut self, home: u32, message: Message<J>) {
        let to = self.engine.routing.route(home);
        self.send_to(to, message);
    }

    // Sends a message to an executor, which may be this one.
    pub(crate) fn send_to(&mut self, to: u32, message: Message<J>) {
        if to != self.own.number {
            self.push(to, message);
        } else if let Err(failed) = self.own.lane.push_back(message) {
            self.stop_without(failed.value);
        }
    }

    // There is no room for a message: drops it and stops the engine.
    #[cold]
    #[inline(never)]
    fn stop_without(&self, message: Message<J>) {
        drop(message);
        self.engine.stop();
    }

    // Puts a message into another executor's inbox, or keeps it if the inbox is full.
    fn push(&mut self, to: u32, message: Message<J>) {
        let Some(outlet) = self.own.outlets.get_mut(to as usize) else {
            return self.stop_without(message);
        };
        match outlet.put(self.rt, message) {
            Ok(()) => self.engine.call(to),
            Err(message) => self.keep(to, message),
        }
    }

    // Keeps a message whose inbox was full.
    #[cold]
    #[inline(never)]
    fn keep(&mut self, to: u32, message: Message<J>) {
        if self.own.outbox.push_back((to, message)).is_err() {
            self.engine.stop();
        }
    }

    // Tries again to send the first message whose inbox was full.
    fn send_again(&mut self) {
        if let Some((to, message)) = self.own.outbox.pop_front() {
            self.push(to, message);
        }
    }
}
