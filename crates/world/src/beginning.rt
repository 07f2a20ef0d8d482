//! The start of a phase.
ghost use Rattle.std.specs.Prelude.{◌≡◌, ◌≤◌, ◌+◌, length, Some};
ghost use Rattle.world.specs.Following.{acts_of, with_items};

use crate::flight::{Act, Flow, Item, Message};
use crate::world::Parts;
use commit_log::Names;
use transactions::{MOST_ACTIONS, Work};

impl<J: Names> Parts<J> {
    // Puts the actions of a phase at the end of the outbox, by place. Places continue after those of the earlier phases. The
    // first action carries the transaction.
    pub(crate) fn put_acts(&mut self, flow: Flow<J>, works: Vec<Work>)
        requires room { length self.old.outbox + length works.items ≤ 4096 }
        requires held { length flow.transaction.held ≤ MOST_ACTIONS }
        ensures { self.new ≡ with_items (acts_of flow works.items) self.old }
    {
        let age = flow.transaction.age;
        let slot = flow.transaction.slot;
        let mut place = flow.transaction.held.len();
        let mut carried = Some(flow);
        for work in works {
            self.outbox.put(Item::Push(Message::Act(Act {
                place,
                age,
                slot,
                work,
                flow: carried.take(),
            })));
            place += 1;
        }
    }
}
