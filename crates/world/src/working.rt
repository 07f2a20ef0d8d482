//! Processing a message.
ghost use Rattle.std.specs.Prelude.{◌≡◌, ◌≤◌, ◌<◌, ◌+◌, [], ◌∷◌, All, length};
ghost use Rattle.slices.specs.SliceView.{AreSlicesOf};
ghost use Rattle.transactions.specs.Works.{CanDo};
ghost use Rattle.world.specs.Events.{AllTurns, Asks, CanWork, TakesMessage, report_of};
ghost use Rattle.world.specs.Following.{with_items};
ghost use Rattle.world.specs.Shards.{HasRoomFor, IsShardOf, slices_in, waiting_in};

use crate::flight::{Act, Carried, Item, Message, Report};
use crate::world::Parts;
use commit_log::Names;
use std::alloc::Global;
use transactions::{Acted, MOST_ACTIONS, Ran, Turned};
use wait_die::Holder;

impl<J: Names> Parts<J> {
    // Processes a message at the shard of its warehouse. Then the actions that wait there and need not any more have their
    // turns.
    pub(crate) fn work(&mut self, alloc: Global, message: Message<J>)
        requires warehouses { J.warehouses ≡ self.old.catalog.scale.warehouses }
        requires slices { AreSlicesOf self.old.catalog (slices_in self.old) }
        requires shards { All (IsShardOf J.warehouses) self.old.shards.items }
        requires room { length self.old.outbox + MOST_ACTIONS + length (waiting_in self.old)
            < 4096 }
        requires can { CanWork self.old.catalog message }
        ensures takes { TakesMessage message self.old self.new }
        ensures shards { All (IsShardOf J.warehouses) self.new.shards.items }
    {
        match message {
            Message::Start(flow, works) => self.put_acts(flow, works),
            Message::Act(act) => {
                let home = act.work.home() as usize;
                self.ask(alloc, act);
                self.take_turns(alloc, home);
            }
            Message::Settle(slot, claims) => {
                let home = claims.home() as usize;
                self.shards[home - 1].settle(claims);
                let _ = self.shards[home - 1].slice();
                self.outbox.put(Item::Ended(slot));
                self.take_turns(alloc, home);
            }
            Message::Undo(slot, claims) => {
                let home = claims.home() as usize;
                self.shards[home - 1].undo(claims);
                let _ = self.shards[home - 1].slice();
                self.outbox.put(Item::Ended(slot));
                self.take_turns(alloc, home);
            }
        }
    }

    // Asks for the locks of an action at the shard of its warehouse. The action reports, unless it waits there.
    fn ask(&mut self, alloc: Global, act: Act<J>)
        requires warehouses { J.warehouses ≡ self.old.catalog.scale.warehouses }
        requires slices { AreSlicesOf self.old.catalog (slices_in self.old) }
        requires shards { All (IsShardOf J.warehouses) self.old.shards.items }
        requires room { length self.old.outbox < 4096 }
        requires can { CanDo self.old.catalog act.work }
        ensures asks { Asks act self.old self.new }
        ensures shards { All (IsShardOf J.warehouses) self.new.shards.items }
    {
        let Act {
            place,
            age,
            slot,
            work,
            flow,
        } = act;
        let home = work.home() as usize;
        let by = Holder { age, place };
        let carried = Carried { slot, flow };
        let acted = self.shards[home - 1].try_action(alloc, by, work, carried);
        let _ = self.shards[home - 1].slice();
        match acted {
            Acted::Ran(ran, carried) => self.put_report(place, carried, ran),
            Acted::Waits => {}
        }
    }

    // Gives turns to the actions at a warehouse that need not wait any more, one after another. Each of them reports.
    fn take_turns(&mut self, alloc: Global, home: usize)
        requires home { 1 ≤ home }
        requires warehouses { home ≤ self.old.catalog.scale.warehouses }
        requires slices { AreSlicesOf self.old.catalog (slices_in self.old) }
        requires shards { All (IsShardOf J.warehouses) self.old.shards.items }
        requires room { HasRoomFor home self.old }
        ensures turns { AllTurns home self.old self.new }
        ensures shards { All (IsShardOf J.warehouses) self.new.shards.items }
    {
        while let Some(turned) = self.shards[home - 1].turn(alloc) {
            let Turned { by, ran, carried } = turned;
            let _ = self.shards[home - 1].slice();
            self.put_report(by.place, carried, ran);
        }
    }

    // Puts the report of an action that has run.
    fn put_report(&mut self, place: usize, carried: Carried<J>, ran: Ran<J>)
        requires room { length self.old.outbox < 4096 }
        ensures { self.new ≡ with_items (report_of place carried ran ∷ []) self.old }
    {
        let Carried { slot, flow } = carried;
        self.outbox.put(Item::Report(Report {
            place,
            slot,
            flow,
            ran,
        }));
    }
}
