//! What is in flight in a course: messages, items, transactions and executors.
use crate::graph::Action;
use crate::phrase::Phrase;
use range_moves::MoveOrder;
use schema::NoMemory;
use std::alloc::Global;
use std::collections::VecDeque;

/// A message or an item, by the place of its action.
#[derive(Clone, Copy)]
pub enum Content {
    Start,
    Act(usize),
    Report(usize),
    /// What follows when all actions of a phase have reported: the next phase, the commit, or a refusal.
    Next,
    Commit,
    Reply,
    GiveBack(usize),
    Ended(usize),
    /// The order of a move, to the executor that gets the warehouses.
    Order(MoveOrder),
    /// The request for the slice of a warehouse, to the executor that has it.
    Fetch { w_id: u32, from: u32, to: u32 },
    /// The slice of a warehouse, on its way to an executor.
    Parcel { w_id: u32, to: u32 },
    /// The report that the slice has arrived.
    Arrival { w_id: u32 },
}

/// A message or an item; the index of its transaction in the course, 0 if it is of a move; and where it was put: the line and
/// the row.
#[derive(Clone, Copy)]
pub struct Item {
    pub content: Content,
    pub flow: usize,
    pub line: u128,
    pub at: usize,
}

impl Item {
    /// The same with another content.
    pub fn with(self, content: Content) -> Item {
        Item { content, ..self }
    }
}

/// A message parked until the slice of a warehouse arrives.
#[derive(Clone, Copy)]
pub struct Parked {
    pub w_id: u32,
    pub item: Item,
}

/// An action that has run: its row, its executor, and the slot in which its claims are drawn.
#[derive(Clone, Copy)]
pub struct Ran {
    pub at: usize,
    pub executor: u32,
    pub slot: usize,
}

/// A transaction.
#[derive(Drop)]
pub struct Flow {
    pub age: u64,
    pub session: u32,
    /// Its actions by place; for each the executor that gets its last message, and, while it holds claims, where it ran.
    pub actions: Vec<Action>,
    pub goes_to: Vec<u32>,
    pub ran: Vec<Option<Ran>>,
    /// The phase in flight, and the number of its actions that have yet to report.
    pub phase: u32,
    pub awaited: usize,
    pub logged: bool,
    pub rolled_back: bool,
    /// The number of actions that have yet to end.
    pub left: usize,
}

/// An executor: its inbox, its outbox, the messages parked there, and which slots beside its line are taken.
#[derive(Drop)]
pub struct Executor {
    pub inbox: VecDeque<Item>,
    pub outbox: VecDeque<Item>,
    pub parked: VecDeque<Parked>,
    pub slots: [bool; 4],
}

impl Flow {
    /// A newly admitted transaction.
    pub fn new(
        alloc: Global,
        age: u64,
        session: u32,
        actions: Vec<Action>,
    ) -> Result<Flow, NoMemory> {
        let mut goes_to = Vec::new(alloc);
        let mut ran = Vec::new(alloc);
        for _ in actions.iter() {
            goes_to.push(0)?;
            ran.push(None)?;
        }
        let left = actions.len();
        Ok(Flow {
            age,
            session,
            actions,
            goes_to,
            ran,
            phase: 0,
            awaited: 0,
            logged: false,
            rolled_back: false,
            left,
        })
    }

    /// Whether one of these actions would have to wait for one of this transaction's, or die.
    pub fn may_stop(&self, actions: &[Action]) -> bool {
        for own in self.actions.iter() {
            for action in actions {
                if action.conflicts(*own) {
                    return true;
                }
            }
        }
        false
    }

    /// The first place of a phase, and the place after its last.
    pub fn places_of(&self, phase: u32) -> (usize, usize) {
        let mut first = 0;
        let mut end = 0;
        for (place, action) in self.actions.iter().enumerate() {
            if action.phase < phase {
                first = place + 1;
            }
            if action.phase <= phase {
                end = place + 1;
            }
        }
        (first, end)
    }

    /// Begins the current phase. Returns its first place and the place after its last.
    pub fn begin_phase(&mut self) -> (usize, usize) {
        let (first, end) = self.places_of(self.phase);
        self.awaited = end.saturating_sub(first);
        (first, end)
    }

    /// The warehouse of the action at this place.
    pub fn warehouse(&self, place: usize) -> Option<u32> {
        match self.actions.get(place) {
            Some(action) => Some(action.warehouse()),
            None => None,
        }
    }

    /// Sends the message of this place to this executor.
    pub fn address(&mut self, place: usize, to: u32) {
        if let Some(goes_to) = self.goes_to.get_mut(place) {
            *goes_to = to;
        }
    }

    /// Whether the action at this place has run and holds claims.
    pub fn holds(&self, place: usize) -> bool {
        matches!(self.ran.get(place), Some(Some(_)))
    }

    /// The name of a message or an item of the transaction.
    pub fn name(&self, content: Content) -> Phrase {
        let age = self.age;
        match content {
            Content::Start => Phrase::Start { age },
            Content::Act(place) => Phrase::Act { place, age },
            Content::Report(place) => Phrase::Report { place, age },
            Content::Commit => Phrase::Commit { age },
            Content::Reply => Phrase::Reply { age },
            Content::GiveBack(place) if self.rolled_back => Phrase::Undo { place, age },
            Content::GiveBack(place) => Phrase::Settle { place, age },
            Content::Ended(place) => Phrase::Ended { place, age },
            _ => Phrase::Unknown,
        }
    }
}

impl Executor {
    /// Takes the first free slot, or the last slot if none is free.
    pub fn take_slot(&mut self) -> usize {
        for (slot, taken) in self.slots.iter_mut().enumerate() {
            if !*taken {
                *taken = true;
                return slot;
            }
        }
        3
    }

    /// Frees a slot.
    pub fn free_slot(&mut self, slot: usize) {
        if let Some(taken) = self.slots.get_mut(slot) {
            *taken = false;
        }
    }

    /// Removes everything in flight.
    pub fn clear(&mut self) {
        self.inbox.clear();
        self.outbox.clear();
        self.parked.clear();
        self.slots = [false; 4];
    }
}
