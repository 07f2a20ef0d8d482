//! Moves of ranges of warehouses between executors.
ghost use Rattle.std.specs.Prelude.{◌≡◌, ℕ};
ghost use Rattle.partitions.specs.Parts.{shared_of};
ghost use Rattle.history.specs.declared.event.Event.TheVariants as event;
ghost use Rattle.range_moves.specs.declared.order.Moving.TheVariants as moving;
ghost use Rattle.world.specs.declared.flight.Load.TheVariants.{Move};
ghost use Rattle.world.specs.declared.flight.Outgoing.TheVariants as outgoing;
ghost use Rattle.world.specs.Happening.{Happens, SendsOutgoing, moves};
ghost use Rattle.world.specs.InHand.{EnvelopeInHand, OutgoingInHand};
ghost use Rattle.world.specs.Together.{IsSound};
ghost use Rattle.world.specs.Worlds.{AdvancesBy};

use crate::flight::{Envelope, Load, Outgoing};
use crate::homes::home_of_message;
use crate::world::Core;
use commit_log::Names;
use history::EventAnswer;
use range_moves::{MoveOrder, Moving};

impl<J: Names> Core<J> {
    // Orders a move, if it is a possible one, no other is outstanding, and its destination's inbox has room.
    pub(crate) fn order(&mut self, order: &MoveOrder) -> EventAnswer
        requires sound { IsSound (shared_of J.opening) self.old }
        ensures sound { IsSound (shared_of J.opening) self.new }
        ensures advances { AdvancesBy (event.Order order.now) result self.old self.new }
        ensures happens { Happens (event.Order order.now) self.old result self.new }
    {
        let to = order.to;
        if !self.placements.can_order(order) || !self.has_room(to) {
            return EventAnswer::Nothing;
        }
        self.placements.order(order);
        let envelope = Envelope {
            to,
            load: Load::Move(Moving::Order(*order)),
        };
        self.inboxes.put(to as usize, envelope);
        EventAnswer::Ordered
    }

    // Begins a move at its destination: fetches each slice of the range from the executor that has it, unless it is here
    // already.
    pub(crate) fn begin_move(&mut self, executor: u32, order: &MoveOrder)
        requires { EnvelopeInHand (shared_of J.opening) executor
            (Move (moving.Order order.now)) self.old }
        ensures { self.new ≡ moves executor (moving.Order order.now) self.old }
    {
        let to = order.to;
        for before in 0..order.size() {
            let w_id = order.lo + before;
            let outgoing = match self.placements.move_to(w_id, to) {
                None => Outgoing::Arrived,
                Some(from) => Outgoing::Envelope(Envelope {
                    to: from,
                    load: Load::Move(Moving::Fetch { w_id, to }),
                }),
            };
            self.outboxes.put(executor as usize, outgoing);
        }
    }

    // Takes out the slice of a warehouse, with all actions that wait there, sends it to an executor as a parcel, and records
    // where it went.
    pub(crate) fn take_out(&mut self, executor: u32, w_id: u32, to: u32)
        requires { EnvelopeInHand (shared_of J.opening) executor
            (Move (moving.Fetch w_id to)) self.old }
        ensures { self.new ≡ moves executor (moving.Fetch w_id to) self.old }
    {
        self.placements.take_out(w_id, executor, to);
        let envelope = Envelope {
            to,
            load: Load::Move(Moving::Parcel(w_id)),
        };
        self.outboxes
            .put(executor as usize, Outgoing::Envelope(envelope));
    }

    // Installs the slice of a warehouse and reports its arrival. Each message that was parked for it is sent to this executor,
    // in the order of parking.
    pub(crate) fn install(&mut self, executor: u32, w_id: u32)
        requires { EnvelopeInHand (shared_of J.opening) executor
            (Move (moving.Parcel w_id)) self.old }
        ensures { self.new ≡ moves executor (moving.Parcel w_id) self.old }
    {
        self.placements.install(w_id, executor);
        self.outboxes.put(executor as usize, Outgoing::Arrived);
        // One pass over all parked messages; those for other slices keep their order.
        for _ in 0..self.parked.len() {
            let Some(message) = self.parked.take() else {
                unreachable!()
            };
            if home_of_message(&message) == w_id {
                let envelope = Envelope {
                    to: executor,
                    load: Load::Work(message),
                };
                self.outboxes
                    .put(executor as usize, Outgoing::Envelope(envelope));
            } else {
                self.parked.put(message);
            }
        }
    }

    // Records that the slice of a warehouse has arrived. The last arrival of the range ends the move.
    pub(crate) fn arrive(&mut self) -> EventAnswer
        requires { (executor : ℕ)
            × OutgoingInHand (shared_of J.opening) executor outgoing.Arrived self.old }
        ensures { (executor : ℕ)
            → SendsOutgoing executor outgoing.Arrived self.old result self.new }
    {
        if self.placements.report() {
            EventAnswer::Moved
        } else {
            EventAnswer::Sent
        }
    }
}
