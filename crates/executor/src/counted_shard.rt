//! The slice of a warehouse with the actions that wait for its locks, and their count.
ghost use Rattle.std.specs.Prelude.{◌≡◌, ◌<◌, ◌≤◌, ◌+◌, [], All, IfNone, IfSome, IsFalse};
ghost use Rattle.partitions.specs.Parts.{shared_of};
ghost use Rattle.slices.specs.SliceView.{SliceKeeps};
ghost use Rattle.transactions.specs.Shards.{RunsAs};
ghost use Rattle.transactions.specs.Works.{CanDo, home_of, home_of_claims};
ghost use Rattle.transactions.specs.Acting.{IsRanBy};
ghost use Rattle.executor.specs.ExecutorShards.{TurnsAt, WorksAt};
ghost use Rattle.executor.specs.Released.{giving_of};

use crate::{Act, Carried, GivenBack, Report, Settle, Undo};
use commit_log::Names;
use slices::Slice;
use std::alloc::Global;
use std::marker::Model;
use transactions::{Acted, Ran, Shard, Turned, Work, works_are_done_at_home};
use wait_die::Holder;

/// The shard of a warehouse: its slice, and the actions that wait in its lock table, with what each carries.
///
/// Contracts see the slice and the waiting actions. Invariant: the slice has the scale and the items of the tables at J's
/// opening, and each waiting action carries what an `Act` carries.
#[derive(Drop)]
pub struct CountedShard<J: Names> {
    shard: Shard<J, Carried<J>>,
    // An upper bound of the number of waiting actions, unless it is the largest `usize`.
    waiting: usize,
}

impl<J: Names> Model for CountedShard<J> {
    ghost use Rattle.std.specs.Coded.{codes};
    ghost use Rattle.groups.specs.contracts.content.Content as content;
    ghost use Rattle.schema.specs.contracts.tables.Tables as tables_kind;
    ghost use Rattle.transactions.specs.Shards.{ShardView};
    ghost use Rattle.executor.specs.declared.act.Carried.{Carried};

    ghost Value = { ShardView (Carried J) };

    ghost coded = { Prim.hlevel (codes, content.the_row.coded, tables_kind.the_row.coded) };

    ghost use Rattle.partitions.specs.Parts.{shared_of};
    ghost use Rattle.executor.specs.ExecutorShards.{AreAtMost, CarriesCountedShard};

    ghost view = { λ p. p.shard };

    ghost invariant = { λ p. CarriesCountedShard (shared_of J.opening) p.shard × AreAtMost p.waiting p.shard.parked };
}

impl<J: Names> CountedShard<J> {
    /// The shard of a slice that has no waiting action.
    pub fn new(alloc: Global, slice: Slice<J>) -> CountedShard<J>
        requires shared { shared_of slice.tables ≡ shared_of J.opening }
        requires nobody { slice.waiters ≡ [] }
        ensures slice { result.slice ≡ slice }
        ensures parked { result.parked ≡ [] }
    {
        CountedShard {
            shard: Shard::new(alloc, slice),
            waiting: 0,
        }
    }

    /// The slice. What the waiting actions carry is dropped.
    pub fn into_slice(self) -> Slice<J>
        ensures slice { result ≡ self.slice }
        ensures shared { shared_of result.tables ≡ shared_of J.opening }
    {
        self.shard.into_slice()
    }

    /// The W_ID of its warehouse.
    pub fn home(&self) -> u32
        ensures { result ≡ self.now.slice.home }
    {
        self.shard.slice().home()
    }

    /// Whether an action may wait here. If it returns false, none waits. It may return true although none waits.
    pub fn may_have_waiters(&self) -> bool
        ensures { IsFalse result → self.now.parked ≡ [] }
    {
        self.waiting > 0
    }

    /// An action asks for all locks that its work needs. It does its work if no holder conflicts. It waits if all conflicting
    /// holders are younger: then the result is `None`. Else it dies, or reports that an allocation failed.
    pub fn work(&mut self, alloc: Global, act: Act<J>) -> Option<Report<J>>
        requires home { home_of act.work ≡ self.old.slice.home }
        ensures { WorksAt act self.old result self.new }
    {
        works_are_done_at_home();
        let Act {
            by,
            work,
            place,
            flow,
        } = act;
        let carried = Carried { place, flow };
        match self.shard.try_action(alloc, by, work, carried) {
            Acted::Ran(ran, carried) => {
                let Carried { place, flow } = carried;
                Some(Report { ran, place, flow })
            }
            Acted::Waits => {
                self.waiting = one_more(self.waiting);
                None
            }
        }
    }

    /// An action does its work at once and never waits. Returns `None` if a holder conflicts, or if an allocation fails as it
    /// asks: nothing has changed then.
    pub fn work_at_once(&mut self, alloc: Global, by: Holder, work: Work) -> Option<Ran<J>>
        requires can { CanDo (shared_of J.opening) work }
        requires home { home_of work ≡ self.old.slice.home }
        ensures ran { IfSome result (λ ran. RunsAs by work self.old ran self.new) }
        ensures sound { IfSome result (IsRanBy (shared_of J.opening) by.age work) }
        ensures none { IfNone result (self.new ≡ self.old) }
    {
        works_are_done_at_home();
        self.shard.act_at_once(alloc, by, work)
    }

    /// Runs the oldest waiting action that need not wait any more; among actions of one age, the one of the least place. Returns
    /// its report. Returns `None` if all waiting actions have to wait: nothing has changed then.
    pub fn turn(&mut self, alloc: Global) -> Option<Report<J>>
        ensures { TurnsAt self.old result self.new }
    {
        works_are_done_at_home();
        let Some(turned) = self.shard.turn(alloc) else {
            return None;
        };
        self.waiting = one_less(self.waiting);
        let Turned {
            by: _,
            ran,
            carried,
        } = turned;
        let Carried { place, flow } = carried;
        Some(Report { ran, place, flow })
    }

    /// Takes the claims of an action back: settles them, or undoes what the action did under them. Requires that they are of this
    /// warehouse. Never allocates.
    pub fn give_back(&mut self, given: GivenBack<J>)
        requires home { home_of_claims (giving_of given).claims ≡ self.old.slice.home }
        ensures kept { SliceKeeps (giving_of given).claims self.old.slice [] self.new.slice }
        ensures parked { self.new.parked ≡ self.old.parked }
    {
        match given {
            GivenBack::Settle(settle) => self.settle(settle),
            GivenBack::Undo(undo) => self.undo(undo),
        }
    }

    // Takes the claims of an action of a logged transaction back.
    fn settle(&mut self, settle: Settle<J>)
        requires home { home_of_claims settle.claims ≡ self.old.slice.home }
        ensures kept { SliceKeeps settle.claims self.old.slice [] self.new.slice }
        ensures parked { self.new.parked ≡ self.old.parked }
    {
        let Settle { slot: _, claims } = settle;
        self.shard.settle(claims);
    }

    // Undoes what an action did under its claims and takes them back.
    fn undo(&mut self, undo: Undo<J>)
        requires home { home_of_claims undo.claims ≡ self.old.slice.home }
        ensures kept { SliceKeeps undo.claims self.old.slice [] self.new.slice }
        ensures parked { self.new.parked ≡ self.old.parked }
    {
        let Undo { slot: _, claims } = undo;
        self.shard.undo(claims);
    }
}

// One more, unless it is the largest number.
fn one_more(number: usize) -> usize
    ensures { result < 18446744073709551615 → number + 1 ≤ result }
{
    number.saturating_add(1)
}

// One less, unless it is the largest number or 0.
fn one_less(number: usize) -> usize
    ensures { result < 18446744073709551615
        → (number < 18446744073709551615) × (number ≤ result + 1) }
{
    if number == usize::MAX {
        number
    } else {
        number.saturating_sub(1)
    }
}
