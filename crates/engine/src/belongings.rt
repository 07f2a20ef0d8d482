//! The state that an executor has to itself.
use crate::message::Message;
use commit_log::Names;
use executor::ExecutorShards;
use queues::{Sender, Taker};
use rows::SESSIONS;
use schema::NoMemory;
use std::alloc::Global;
use std::collections::VecDeque;

/// Capacity of an executor's own lane, of its outbox and of its parked messages: the transactions of all sessions have no more
/// messages, with a fetch or a parcel for each warehouse.
const ROOM: usize = 4096;

/// How often a request may die and still be asked again at once.
const MOST_AT_ONCE: u32 = 3;

/// The number of deaths from which on the wait grows no more. It is 2,500 steps then.
const MOST_DEATHS: u32 = 100;

/// Microseconds of rest that count as one step.
pub(crate) const STEP: u64 = 20;

/// A session that is to ask its next request here.
#[derive(Clone, Copy, Drop)]
pub(crate) struct Turn {
    slot: usize,
    /// The first step in which it may begin it.
    from: u64,
}

/// An executor: the shards of its warehouses, and the messages that it is to take or to send.
#[derive(Drop)]
pub struct Executor<J: Names> {
    pub(crate) number: u32,
    pub(crate) shards: ExecutorShards<J>,
    /// The executor to which the shard of a warehouse has gone since a move last brought it here; by the warehouse's W_ID less
    /// one.
    notes: Vec<Option<u32>>,
    /// Messages from other executors.
    pub(crate) inbox: Taker<Message<J>>,
    /// Senders into the inboxes of all executors, by their numbers.
    pub(crate) outlets: Vec<Sender<Message<J>>>,
    /// Messages to itself.
    pub(crate) lane: VecDeque<Message<J>>,
    /// Warehouses whose shards may have waiting actions that need not wait any more, since claims have come back.
    pub(crate) freed: VecDeque<u32>,
    /// Messages to executors whose inbox was full.
    pub(crate) outbox: VecDeque<(u32, Message<J>)>,
    /// Messages for shards that are on their way here, each with the W_ID of its warehouse.
    parked: VecDeque<(u32, Message<J>)>,
    /// The sessions that are to begin their next request here.
    ready: VecDeque<Turn>,
    /// The number of transactions it has begun that are not finished.
    pub(crate) begun: usize,
    /// Its steps so far: rounds in which it had work, and its rests in units of STEP.
    steps: u64,
}

impl<J: Names> Executor<J> {
    /// Opens an executor without shards, with room for those of this many warehouses, that takes from this inbox and puts into
    /// these outlets. Returns NoMemory if an allocation fails.
    pub(crate) fn open(
        alloc: Global,
        number: u32,
        warehouses: u32,
        inbox: Taker<Message<J>>,
        outlets: Vec<Sender<Message<J>>>,
    ) -> Result<Executor<J>, NoMemory> {
        let shards = ExecutorShards::open(alloc, warehouses)?;
        let mut notes = Vec::with_capacity(alloc, warehouses as usize)?;
        for _ in 0..warehouses {
            notes.push(None)?;
        }
        let lane = VecDeque::with_capacity(alloc, ROOM)?;
        let freed = VecDeque::with_capacity(alloc, ROOM)?;
        let outbox = VecDeque::with_capacity(alloc, ROOM)?;
        let parked = VecDeque::with_capacity(alloc, ROOM)?;
        let ready = VecDeque::with_capacity(alloc, SESSIONS)?;
        Ok(Executor {
            number,
            shards,
            notes,
            inbox,
            outlets,
            lane,
            freed,
            outbox,
            parked,
            ready,
            begun: 0,
            steps: 0,
        })
    }

    // ---- sessions

    /// Queues a session that is to begin its next request here, which has died this often. A conflicting holder may be at an
    /// executor whose thread has no processor, so the request waits the longer the more often it has died.
    pub(crate) fn get_ready(&mut self, slot: usize, deaths: u32) -> Result<(), NoMemory> {
        let from = self.steps.saturating_add(steps_after(deaths));
        Ok(self.ready.push_back(Turn { slot, from })?)
    }

    /// Takes the session that is to begin its next request: of those that may begin now, the one that has waited longest.
    pub(crate) fn next_ready(&mut self) -> Option<usize> {
        let mut first = None;
        for (place, turn) in self.ready.iter().enumerate() {
            if turn.from <= self.steps {
                first = Some(place);
                break;
            }
        }
        Some(self.ready.remove(first?)?.slot)
    }

    /// Counts this many steps.
    pub(crate) fn go(&mut self, steps: u64) {
        self.steps = self.steps.saturating_add(steps);
    }

    /// The number of steps until a session may begin its next request; `None` if no session is to.
    pub(crate) fn steps_to_next(&self) -> Option<u64> {
        let mut from = self.ready.front()?.from;
        for turn in self.ready.iter() {
            from = from.min(turn.from);
        }
        Some(from.saturating_sub(self.steps))
    }

    // ---- where shards have gone

    /// Notes the executor to which the shard of a warehouse goes; `None` clears the note.
    pub(crate) fn note(&mut self, home: u32, to: Option<u32>) {
        if let Some(note) = self.notes.get_mut(place_of(home)) {
            *note = to;
        }
    }

    /// The executor to which the shard of a warehouse has gone, if that is noted.
    pub(crate) fn noted(&self, home: u32) -> Option<u32> {
        *self.notes.get(place_of(home))?
    }

    // ---- parked messages

    /// Parks a message until the shard of a warehouse comes.
    pub(crate) fn park(&mut self, home: u32, message: Message<J>) -> Result<(), NoMemory> {
        Ok(self.parked.push_back((home, message))?)
    }

    /// Moves each message that is parked for the shard of a warehouse to its own lane, in order.
    pub(crate) fn unpark(&mut self, home: u32) -> Result<(), NoMemory> {
        for _ in 0..self.parked.len() {
            let Some((parked_for, message)) = self.parked.pop_front() else {
                break;
            };
            if parked_for == home {
                self.lane.push_back(message)?;
            } else {
                self.parked.push_back((parked_for, message))?;
            }
        }
        Ok(())
    }
}

// The number of steps that a request waits that has died this often. 0 up to MOST_AT_ONCE deaths.
fn steps_after(deaths: u32) -> u64 {
    if deaths <= MOST_AT_ONCE {
        return 0;
    }
    let deaths = u64::from(deaths.min(MOST_DEATHS));
    deaths.saturating_mul(deaths) / 4
}

// The index of a warehouse.
fn place_of(home: u32) -> usize {
    home.wrapping_sub(1) as usize
}
