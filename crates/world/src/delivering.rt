//! The executors' inboxes and outboxes: envelopes are opened, outgoing items are sent.
ghost use Rattle.std.specs.Prelude.{◌≡◌, ◌≤◌, ◌<◌, ◌+◌, All, length, true};
ghost use Rattle.partitions.specs.Parts.{shared_of};
ghost use Rattle.world.specs.declared.flight.Load.TheVariants.{Work};
ghost use Rattle.world.specs.Happening.{Delivers, Opens, SendsOutgoing, WorksIfHere, WorksOn, beginning_at, bringing, has_room as has_room_spec};
ghost use Rattle.world.specs.Envelopes.{HasHome, HasHomeIn, home_of_message, is_for_slice, envelope, outgoing_by as outgoing_by_spec};
ghost use Rattle.world.specs.InHand.{EnvelopeInHand, OutgoingInHand};
ghost use Rattle.world.specs.Queues.{queue_of};
ghost use Rattle.transactions.specs.Laws.{TransactionsClaimEachGroupOnce};
ghost use Rattle.world.specs.Shards.{IsShardOf};

use crate::flight::{Envelope, Item, Load, Message, Outgoing};
use crate::homes::{home_of_message as home_of, is_for_slice as needs_slice};
use crate::world::Core;
use commit_log::Names;
use history::EventAnswer;
use range_moves::{Found, Moving};
use rows::INBOX;
use std::alloc::Global;

impl<J: Names> Core<J> {
    // ---- an envelope is opened

    // An executor processes the load of an envelope.
    pub(crate) fn open_envelope(&mut self, alloc: Global, executor: u32, load: Load<J>)
        requires warehouses { J.warehouses ≡ J.opening.scale.warehouses }
        requires once { TransactionsClaimEachGroupOnce }
        requires opening { EnvelopeInHand (shared_of J.opening) executor load self.old }
        ensures opens { Opens executor load self.old self.new }
        ensures shards { All (IsShardOf J.warehouses) self.new.parts.shards.items }
    {
        match load {
            Load::Work(message) => self.work(alloc, executor, message),
            Load::Move(Moving::Order(order)) => self.begin_move(executor, &order),
            Load::Move(Moving::Fetch { w_id, to }) => self.take_out(executor, w_id, to),
            Load::Move(Moving::Parcel(w_id)) => self.install(executor, w_id),
        }
    }

    // Processes a message. A message for a slice is processed if this executor has the slice. It is forwarded if this executor
    // recorded where the slice went; otherwise it is parked until the slice arrives.
    fn work(&mut self, alloc: Global, executor: u32, message: Message<J>)
        requires warehouses { J.warehouses ≡ J.opening.scale.warehouses }
        requires once { TransactionsClaimEachGroupOnce }
        requires opening { EnvelopeInHand (shared_of J.opening) executor (Work message) self.old }
        ensures works { WorksIfHere (is_for_slice message) executor message self.old self.new }
        ensures shards { All (IsShardOf J.warehouses) self.new.parts.shards.items }
    {
        if !needs_slice(&message) {
            self.work_on(alloc, executor, message);
            return;
        }
        match self.placements.find(executor, home_of(&message)) {
            Found::Here => self.work_on(alloc, executor, message),
            Found::Went(to) => {
                let envelope = Envelope {
                    to,
                    load: Load::Work(message),
                };
                self.outboxes
                    .put(executor as usize, Outgoing::Envelope(envelope));
            }
            Found::Unknown => self.parked.put(message),
        }
    }

    // Processes a message. What that puts goes to the executor's outbox.
    fn work_on(&mut self, alloc: Global, executor: u32, message: Message<J>)
        requires warehouses { J.warehouses ≡ J.opening.scale.warehouses }
        requires once { TransactionsClaimEachGroupOnce }
        requires opening { EnvelopeInHand (shared_of J.opening) executor (Work message) self.old }
        ensures works { WorksOn executor message self.old self.new }
        ensures shards { All (IsShardOf J.warehouses) self.new.parts.shards.items }
    {
        self.parts.work(alloc, message);
        self.post_all(executor);
    }

    // ---- an outbox entry is sent

    // Sends what was first in an executor's outbox.
    pub(crate) fn send_outgoing(
        &mut self,
        alloc: Global,
        executor: u32,
        outgoing: Outgoing<J>,
    ) -> EventAnswer
        requires limit { self.old.log_limit ≡ J.most }
        requires sending { OutgoingInHand (shared_of J.opening) executor outgoing self.old }
        ensures { SendsOutgoing executor outgoing self.old result self.new }
    {
        match outgoing {
            Outgoing::Envelope(envelope) => self.deliver(executor, envelope),
            Outgoing::Item(item) => self.send_item(alloc, executor, item),
            Outgoing::Arrived => self.arrive(),
        }
    }

    // Whether an executor's inbox has fewer envelopes than its limit.
    pub(crate) fn has_room(&self, executor: u32) -> bool
        ensures limit { result ≡ has_room_spec executor self.now }
        ensures room { result ≡ true → length (queue_of executor self.now.inboxes) < INBOX }
    {
        self.inboxes.waiting(executor as usize) < self.inbox_limit.get() as usize
    }

    // Puts an envelope into its executor's inbox if there is room; otherwise back at the end of the sender's outbox.
    fn deliver(&mut self, executor: u32, envelope: Envelope<J>) -> EventAnswer
        requires there { executor < length self.old.outboxes }
        requires to { envelope.to < length self.old.inboxes }
        requires room { length (queue_of executor self.old.outboxes) < 4096 }
        ensures { Delivers (has_room_spec envelope.to self.old) executor envelope
            self.old result self.new }
    {
        if self.has_room(envelope.to) {
            self.inboxes.put(envelope.to as usize, envelope);
            EventAnswer::Sent
        } else {
            self.outboxes
                .put(executor as usize, Outgoing::Envelope(envelope));
            EventAnswer::Full
        }
    }

    // Sends an item. What that puts goes to the executor's outbox.
    fn send_item(&mut self, alloc: Global, executor: u32, item: Item<J>) -> EventAnswer
        requires limit { self.old.log_limit ≡ J.most }
        requires sending { OutgoingInHand (shared_of J.opening) executor
            (Outgoing.Item item) self.old }
        ensures { SendsOutgoing executor (Outgoing.Item item) self.old result self.new }
    {
        let answer = self.parts.send_item(alloc, item);
        self.post_all(executor);
        answer
    }

    // ---- items are put into an outbox

    // Moves the items that the event put to the end of an executor's outbox.
    fn post_all(&mut self, executor: u32)
        requires there { executor < length self.old.outboxes }
        requires homes { All HasHomeIn self.old.parts.outbox }
        requires room { length (queue_of executor self.old.outboxes)
            + length self.old.parts.outbox ≤ 4096 }
        ensures { self.new ≡ bringing executor self.old.parts self.old }
    {
        while let Some(item) = self.parts.outbox.take() {
            let outgoing = self.outgoing_by(item);
            self.outboxes.put(executor as usize, outgoing);
        }
    }

    // An item as it is stored in an outbox. The destination of a push is read from the routing now.
    fn outgoing_by(&self, item: Item<J>) -> Outgoing<J>
        requires { HasHomeIn item }
        ensures { result ≡ outgoing_by_spec self.now.placements item }
    {
        match item {
            Item::Push(message) => {
                let to = self.placements.route(home_of(&message));
                Outgoing::Envelope(Envelope {
                    to,
                    load: Load::Work(message),
                })
            }
            Item::Report(_) | Item::Ended(_) | Item::Commit(_) | Item::Reply(_) => Outgoing::Item(
                item,
            ),
        }
    }

    // Moves the message that a submission put, if there is one, to the end of an executor's inbox.
    pub(crate) fn hand_out(&mut self, to: u32)
        requires there { to < length self.old.inboxes }
        requires one { length self.old.parts.inbox ≤ 1 }
        requires room { 1 ≤ length self.old.parts.inbox
            → length (queue_of to self.old.inboxes) < INBOX }
        ensures { self.new ≡ beginning_at to self.old.parts self.old }
    {
        if let Some(message) = self.parts.inbox.take() {
            let envelope = Envelope {
                to,
                load: Load::Work(message),
            };
            self.inboxes.put(to as usize, envelope);
        }
    }
}
