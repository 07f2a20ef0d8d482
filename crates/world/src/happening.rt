//! One event at a time.
ghost use Rattle.std.specs.Prelude.{◌≡◌};
ghost use Rattle.partitions.specs.Parts.{shared_of};
ghost use Rattle.world.specs.Happening.{Happens};
ghost use Rattle.world.specs.Together.{IsSound};
ghost use Rattle.world.specs.Worlds.{AdvancesBy};

use crate::world::Core;
use commit_log::Names;
use history::{Event, EventAnswer};
use requests::Request;
use std::alloc::Global;
use transactions::{claims_are_of_the_footprint, home_of_request};

impl<J: Names> Core<J> {
    /// One event happens.
    pub(crate) fn happen(&mut self, alloc: Global, event: &Event) -> EventAnswer
        requires warehouses { J.warehouses ≡ J.opening.scale.warehouses }
        requires limit { self.old.log_limit ≡ J.most }
        requires sound { IsSound (shared_of J.opening) self.old }
        ensures sound { IsSound (shared_of J.opening) self.new }
        ensures advances { AdvancesBy event.now result self.old self.new }
        ensures happens { Happens event.now self.old result self.new }
    {
        match event {
            Event::Submit {
                session,
                number,
                request,
            } => self.submit(alloc, *session, *number, request),
            Event::Order(order) => self.order(order),
            Event::Take { executor } => self.take(alloc, *executor),
            Event::Send { executor } => self.send(alloc, *executor),
        }
    }

    // A session submits a request. The request begins at the executor to which messages for its terminal's warehouse are
    // routed.
    fn submit(&mut self, alloc: Global, session: u32, number: u32, request: &Request) -> EventAnswer
        requires sound { IsSound (shared_of J.opening) self.old }
        ensures sound { IsSound (shared_of J.opening) self.new }
        ensures advances { AdvancesBy (Event.Submit session number request.now) result
            self.old self.new }
        ensures happens { Happens (Event.Submit session number request.now)
            self.old result self.new }
    {
        let to = self.placements.route(home_of_request(request));
        let has_room = self.has_room(to);
        let answer = self.parts.submit(alloc, has_room, session, number, request);
        self.hand_out(to);
        answer
    }

    // An executor takes the first envelope of its inbox.
    fn take(&mut self, alloc: Global, executor: u32) -> EventAnswer
        requires warehouses { J.warehouses ≡ J.opening.scale.warehouses }
        requires sound { IsSound (shared_of J.opening) self.old }
        ensures sound { IsSound (shared_of J.opening) self.new }
        ensures advances { AdvancesBy (Event.Take executor) result self.old self.new }
        ensures happens { Happens (Event.Take executor) self.old result self.new }
    {
        self.placements.are_kept();
        let Some(envelope) = self.inboxes.take(executor as usize) else {
            return EventAnswer::Nothing;
        };
        // Actions of one transaction never conflict, so no action dies of its own transaction.
        claims_are_of_the_footprint();
        self.open_envelope(alloc, executor, envelope.load);
        EventAnswer::Took
    }

    // Sends the first entry of an executor's outbox.
    fn send(&mut self, alloc: Global, executor: u32) -> EventAnswer
        requires limit { self.old.log_limit ≡ J.most }
        requires sound { IsSound (shared_of J.opening) self.old }
        ensures sound { IsSound (shared_of J.opening) self.new }
        ensures advances { AdvancesBy (Event.Send executor) result self.old self.new }
        ensures happens { Happens (Event.Send executor) self.old result self.new }
    {
        self.placements.are_kept();
        let Some(outgoing) = self.outboxes.take(executor as usize) else {
            return EventAnswer::Nothing;
        };
        self.send_outgoing(alloc, executor, outgoing)
    }
}
