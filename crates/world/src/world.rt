ghost use Rattle.std.specs.Prelude.{◌≡◌, ◌↔◌, ◌≤◌, length, IfOk, IsErrAnd, IsTrue, OnErr, OnOk};
ghost use Rattle.world.specs.Changes.{ChangesOnly};
ghost use Rattle.world.specs.Openings.{IsGatheredFrom};
ghost use Rattle.world.specs.Happening.{Happens};
ghost use Rattle.world.specs.Together.{together};
ghost use Rattle.world.specs.Worlds.{Advances, AdvancesBy, AllDieOfOlder, AnswersWhoAsked, AreTablesOf, CannotHappen, HappenInTurn, IsAtRest, IsBusyExactly, IsFullExactly, IsNeverStuck, IsOwned, NoneDiesAlone, RecordsOfOlder, count_busy, steps_of};

use crate::desk::Desk;
use crate::flight::{Carried, Envelope, Item, Message, Outgoing};
use crate::queue::Queue;
use crate::queues::Queues;
use crate::shards::{copy_whole, into_slices};
use commit_log::{Entry, InboxLimit, Log, LogLimit, Names};
use history::{Event, EventAnswer};
use partitions::Catalog;
use range_moves::Placements;
use rows::INBOX;
use schema::{NoMemory, Tables};
use slices::whole;
use std::alloc::Global;
use std::marker::Model;
use thiserror::Error;
use transactions::{Shard, claims_are_of_the_footprint};

/// The state that an event works on.
#[derive(Drop)]
pub struct Parts<J: Names> {
    /// What all slices share.
    pub catalog: Catalog,
    /// One for each warehouse, in order: its slice and the actions that wait there.
    pub shards: Vec<Shard<J, Carried<J>>>,
    /// The message that a submission puts, until it is handed out. Empty between events.
    pub inbox: Queue<Message<J>, INBOX>,
    /// The items that an event puts, until they are moved to an outbox. Empty between events.
    pub outbox: Queue<Item<J>, 4096>,
    pub desk: Desk<J>,
    pub log: Log<J>,
}

/// The whole state of a world.
#[derive(Drop)]
pub struct Core<J: Names> {
    pub parts: Parts<J>,
    /// For each warehouse, which executor has its slice or is to get it.
    pub placements: Placements,
    /// Messages parked for a slice that is on its way, at the executor that gets the slice, in the order of parking.
    pub parked: Queue<Message<J>, 4096>,
    /// How many entries the log has at most.
    pub log_limit: LogLimit,
    /// How many envelopes an inbox has at most.
    pub inbox_limit: InboxLimit,
    /// The inbox of each executor, by executor number.
    pub inboxes: Queues<Envelope<J>, INBOX>,
    /// The outbox of each executor, by executor number.
    pub outboxes: Queues<Outgoing<J>, 4096>,
}

/// An engine of one to sixteen executors, in which one event happens at a time.
///
/// Contracts see its whole state, `Core`. The invariant makes every world sound, so the methods require nothing of it.
#[derive(Drop)]
pub struct World<J: Names> {
    pub(crate) core: Core<J>,
}

impl<J: Names> Model for World<J> {
    ghost use Rattle.std.specs.Prelude.{◌≡◌};
    ghost use Rattle.world.specs.declared.world.Core.{Core};
    ghost use Rattle.partitions.specs.Parts.{shared_of};
    ghost use Rattle.world.specs.Together.{IsSound};
    ghost use Rattle.std.specs.Coded.{codes};
    ghost use Rattle.groups.specs.contracts.content.Content as content;
    ghost use Rattle.partitions.specs.contracts.catalog.Catalog as catalog;
    ghost use Rattle.schema.specs.contracts.tables.Tables as tables_kind;
    ghost use Rattle.world.specs.contracts.world.Core as core_kind;

    ghost Value = { Core J };

    ghost coded = { Prim.hlevel (codes, catalog.the_row.coded, content.the_row.coded, tables_kind.the_row.coded) };

    ghost view = { λ w. w.core };

    ghost invariant = { λ w. IsSound (shared_of J.opening) w.core
        × (J.warehouses ≡ J.opening.scale.warehouses) × (w.core.log_limit ≡ J.most) };
}

impl<J: Names> Parts<J> {
    // The log's entries, and the shards with what their slices share.
    fn into_log_and_shards(self) -> (Vec<Entry>, Catalog, Vec<Shard<J, Carried<J>>>)
        ensures log { result.0.items ≡ self.log }
        ensures catalog { result.1 ≡ self.catalog }
        ensures shards { result.2.items ≡ self.shards.items }
    {
        let Parts {
            catalog,
            shards,
            log,
            ..
        } = self;
        (log.into_entries(), catalog, shards)
    }
}

impl<J: Names> Core<J> {
    // Whether no transaction is active and no move is outstanding.
    fn is_idle(&self) -> bool
        ensures { IsTrue result ↔ (count_busy self.now ≡ 0) }
    {
        self.parts.desk.active.count() == 0 && !self.placements.is_moving()
    }
}

/// Why no tables can be gathered.
#[derive(Clone, Copy, Debug, Drop, Error, PartialEq, Eq)]
pub enum GatherFault {
    #[error("a transaction is active, or a move is outstanding")]
    NotIdle,
    #[error("no memory")]
    NoMemory,
}

impl<J: Names> World<J> {
    /// One event happens. There is no error: lack of memory is an answer.
    ///
    /// Serial order: if a history fits before, it fits with this event and its answer appended. So the log's replies are those
    /// of a machine that carries out its requests one at a time, in log order, and the tables that this machine leaves are the
    /// committed ones. Transactions are atomic. Each is logged after those that were answered before it was submitted.
    ///
    /// Effects: the answer and the changes are specified exactly. An event that can't happen is answered `Nothing` and changes
    /// nothing. An event changes another executor's queues only by putting an envelope into an inbox. Only a Take changes a
    /// slice, that of one warehouse, which its executor has. Only sending a commit changes the log: it appends its own entry.
    /// An executor processes a message for a slice only while it has the slice. A slice is at one executor or in one parcel.
    ///
    /// Answers: only what was asked is answered. A submission may be refused at once, by its own number. Any other answer goes
    /// to a session whose transaction has no answer yet, with that transaction's number and the place of its entry in the log
    /// or the reason of its refusal.
    ///
    /// Limits: up to `MOST_ACTIVE` transactions are active at a time. A submission is refused as `Busy` exactly if as many are
    /// active and no earlier refusal applies.
    ///
    /// Waiting: an action in conflict waits if every conflicting holder is younger; otherwise it dies. So there is no deadlock:
    /// while a transaction is active, something can be taken or sent. If only one transaction is active, none of its actions
    /// dies. An action dies of an older active transaction that has a claim on the group named; the group is in both
    /// footprints. A session whose request died gets a group of that request's footprint and the age of an older transaction.
    pub fn step(&mut self, alloc: Global, event: &Event) -> EventAnswer
        ensures advances { AdvancesBy event.now result self.old self.new }
        ensures happens { Happens event.now self.old result self.new }
        ensures changes { ChangesOnly event.now result self.old self.new }
        ensures nothing { (result ≡ EventAnswer.Nothing) ↔ CannotHappen event.now self.old }
        ensures busy { IsBusyExactly event.now self.old result }
        ensures full { IsFullExactly event.now self.old result }
        ensures asked { AnswersWhoAsked event.now self.old result }
        ensures died { RecordsOfOlder self.old result }
        ensures dies { AllDieOfOlder event.now self.old self.new }
        ensures executors { self.new.placements.executors ≡ self.old.placements.executors }
        ensures owned { IsOwned self.new }
        ensures never_stuck { IsNeverStuck self.new }
        ensures alone { NoneDiesAlone event.now self.old self.new }
    {
        claims_are_of_the_footprint();
        self.core.placements.are_kept();
        self.core.happen(alloc, event)
    }

    /// Plays events in order and returns their answers. The room for the answers is allocated first: after NoMemory nothing has
    /// happened.
    pub fn run(&mut self, alloc: Global, events: &[Event]) -> Result<Vec<EventAnswer>, NoMemory>
        ensures advances { IfOk result (λ answers. Advances
            (together self.old) (steps_of events.now answers.items) (together self.new)) }
        ensures happen { IfOk result (λ answers.
            HappenInTurn (steps_of events.now answers.items) self.old self.new) }
        ensures count { IfOk result (λ answers. length answers.items ≡ length events.now) }
        ensures never_stuck { OnOk result (IsNeverStuck self.new) }
        ensures err { OnErr result (self.new ≡ self.old) }
    {
        let mut answers = Vec::with_capacity(alloc, events.len())?;
        for event in events {
            let answer = self.step(alloc, event);
            answers.push_reserved(answer);
        }
        // Brings `IsNeverStuck` of the last world into the proof: it holds of every world.
        let _ = self.is_quiet();
        Ok(answers)
    }

    /// Copies the tables as the transactions of the log left them. Returns NotIdle exactly if a transaction is active or a move
    /// is outstanding, which can't be if no message can be taken and no item can be sent. Returns NoMemory if an allocation
    /// fails.
    pub fn gather(&self, alloc: Global) -> Result<Tables, GatherFault>
        ensures tables { IfOk result (AreTablesOf self.now) }
        ensures idle { IsErrAnd result (λ fault. fault ≡ GatherFault.NotIdle)
            ↔ (1 ≤ count_busy self.now) }
        ensures at_rest { IsAtRest self.now → count_busy self.now ≡ 0 }
    {
        if !self.core.is_idle() {
            return Err(GatherFault::NotIdle);
        }
        let parts = &self.core.parts;
        match copy_whole(alloc, &parts.catalog, &parts.shards) {
            Ok(tables) => Ok(tables),
            Err(NoMemory) => Err(GatherFault::NoMemory),
        }
    }

    /// Ends the world. Returns its log, and the tables as the transactions of the log left them. Entries and rows are moved,
    /// not copied. Instead of the tables it returns NotIdle exactly if a transaction is active or a move is outstanding, and
    /// NoMemory if an allocation fails. The log is returned in each case.
    pub fn close(self) -> (Vec<Entry>, Result<Tables, GatherFault>)
        ensures log { result.0.items ≡ self.parts.log }
        ensures tables { IsGatheredFrom self result.1 }
        ensures idle { IsErrAnd result.1 (λ fault. fault ≡ GatherFault.NotIdle)
            ↔ (1 ≤ count_busy self) }
        ensures at_rest { IsAtRest self → count_busy self ≡ 0 }
        ensures never_stuck { IsNeverStuck self }
    {
        let World { core } = self;
        let is_idle = core.is_idle();
        let Core { parts, .. } = core;
        let (entries, catalog, shards) = parts.into_log_and_shards();
        if !is_idle {
            return (entries, Err(GatherFault::NotIdle));
        }
        let Ok(slices) = into_slices(shards) else {
            return (entries, Err(GatherFault::NoMemory));
        };
        match whole(catalog, slices) {
            Ok(tables) => (entries, Ok(tables)),
            Err(NoMemory) => (entries, Err(GatherFault::NoMemory)),
        }
    }

    /// Whether no message can be taken and no item can be sent. If so, no transaction is active, no claim is held, no action
    /// waits, no move is outstanding, and nothing is parked.
    pub fn is_quiet(&self) -> bool
        ensures quiet { IsTrue result ↔ IsAtRest self.now }
        ensures never_stuck { IsNeverStuck self.now }
    {
        self.core.inboxes.are_empty() && self.core.outboxes.are_empty()
    }

    /// The entries of the log, in log order.
    pub fn log(&self) -> &[Entry]
        ensures { result.now ≡ self.now.parts.log }
    {
        self.core.parts.log.entries()
    }
}
