//! The slice of a warehouse, with the actions that wait in its lock table.
ghost use Rattle.std.specs.Prelude.{◌≡◌, [], All, IfNone, IfSome};
ghost use Rattle.partitions.specs.Parts.{shared_of};
ghost use Rattle.local_locks.specs.Asking.{StillWaits};
ghost use Rattle.slices.specs.SliceView.{IsClaimAt, SliceKeeps};
ghost use Rattle.transactions.specs.Acting.{CanBeSettled, CanBeUndone};
ghost use Rattle.transactions.specs.Shards.{shard_view, ActsAs, IsShard, OneTurn, RunsAs};
ghost use Rattle.transactions.specs.Works.{CanDo, home_of};

use crate::acting::run_under;
use crate::{Ran, Work, settle, undo};
use local_locks::{Asked, Turn};
use slices::Slice;
use std::alloc::Global;
use std::marker::Model;
use tickets::{Claims, GroupNames};
use wait_die::Holder;

/// A waiting action: its holder, its work, and what it carries.
#[derive(Drop)]
pub struct Parked<T> {
    pub by: Holder,
    pub work: Work,
    pub carried: T,
}

/// The answer to an action that asks.
#[derive(Drop)]
pub enum Acted<J: GroupNames, T> {
    /// The result of the action, and what it carried.
    Ran(Ran<J>, T),
    /// It waits; all conflicting holders are younger.
    Waits,
}

/// A turn: the waiting action's holder, its result, and what it carried.
#[derive(Drop)]
pub struct Turned<J: GroupNames, T> {
    pub by: Holder,
    pub ran: Ran<J>,
    pub carried: T,
}

/// The slice of a warehouse, with the actions that wait in its lock table, in the order in which they asked.
#[derive(Drop)]
pub struct Shard<J: GroupNames, T> {
    slice: Slice<J>,
    parked: Vec<Parked<T>>,
}

impl<J: GroupNames, T> Model for Shard<J, T> {
    ghost use Rattle.std.specs.Coded.{codes};
    ghost use Rattle.schema.specs.contracts.tables.Tables as tables_kind;
    ghost use Rattle.transactions.specs.Shards.{ShardView, shard_view, IsShard};

    ghost Value = { ShardView T };

    ghost coded = { Prim.hlevel (codes, tables_kind.the_row.coded, T.code) };

    ghost view = { λ s. shard_view s.slice s.parked.items };

    ghost invariant = { λ s. IsShard J.warehouses s.slice s.parked.items };
}

impl<J: GroupNames, T: Drop> Shard<J, T> {
    /// The shard of a slice that has no waiting action.
    pub fn new(alloc: Global, slice: Slice<J>) -> Shard<J, T>
        requires { slice.waiters ≡ [] }
        ensures { result ≡ shard_view slice [] }
    {
        let _ = slice.partition();
        Shard {
            slice,
            parked: Vec::new(alloc),
        }
    }

    /// The slice.
    pub fn slice(&self) -> &Slice<J>
        ensures slice { result.now ≡ self.now.slice }
        ensures shard { IsShard J.warehouses self.now.slice self.now.parked }
    {
        &self.slice
    }

    /// The slice. What the waiting actions carry is dropped.
    pub fn into_slice(self) -> Slice<J>
        ensures { result ≡ self.slice }
    {
        let Shard { slice, .. } = self;
        slice
    }

    /// An action asks for all locks that its work needs. It does its work if no holder conflicts. It waits if all conflicting
    /// holders are younger; else it dies. An action that dies, or for which an allocation fails, holds no claim and leaves the
    /// slice unchanged; after a failed allocation the lock table may have its holders in another order.
    pub fn try_action(&mut self, alloc: Global, by: Holder, work: Work, carried: T) -> Acted<J, T>
        requires can { CanDo (shared_of self.old.slice.tables) work }
        requires home { home_of work ≡ self.old.slice.home }
        ensures { ActsAs by work carried self.old result self.new }
    {
        let Ok(wants) = work.wants(alloc) else {
            return Acted::Ran(Ran::NoMemory, carried);
        };
        if self.parked.reserve(1).is_err() {
            return Acted::Ran(Ran::NoMemory, carried);
        }
        match self.slice.ask(alloc, by, &wants) {
            Ok(Asked::Granted(claims)) => {
                Acted::Ran(run_under(alloc, &mut self.slice, claims, work), carried)
            }
            Ok(Asked::Waits) => {
                self.parked.push_reserved(Parked { by, work, carried });
                Acted::Waits
            }
            Ok(Asked::Dies { group, holder }) => {
                drop(work);
                Acted::Ran(Ran::Died { group, holder }, carried)
            }
            Err(_) => {
                drop(work);
                Acted::Ran(Ran::NoMemory, carried)
            }
        }
    }

    /// An action asks for all locks that its work needs, does its work at once and never waits. Returns `None` if a holder
    /// conflicts, or if an allocation fails as it asks: nothing has changed then. If an allocation fails as it works, it holds no
    /// claim and leaves the slice unchanged, its holders perhaps in another order.
    pub fn act_at_once(&mut self, alloc: Global, by: Holder, work: Work) -> Option<Ran<J>>
        requires can { CanDo (shared_of self.old.slice.tables) work }
        requires home { home_of work ≡ self.old.slice.home }
        ensures ran { IfSome result (λ ran. RunsAs by work self.old ran self.new) }
        ensures none { IfNone result (self.new ≡ self.old) }
    {
        let Ok(wants) = work.wants(alloc) else {
            return None;
        };
        let Some(claims) = self.slice.ask_at_once(alloc, by, &wants) else {
            return None;
        };
        Some(run_under(alloc, &mut self.slice, claims, work))
    }

    /// Runs the oldest waiting action that need not wait any more; among actions of one age, the one of the least place. It does
    /// its work or dies. Returns `None` if all waiting actions have to wait: nothing has changed then.
    pub fn turn(&mut self, alloc: Global) -> Option<Turned<J, T>>
        ensures turn { IfSome result (λ turned. OneTurn self.old turned self.new) }
        ensures none { IfNone result
            (All (StillWaits self.old.slice.holdings) self.old.slice.waiters) }
        ensures same { IfNone result (self.new ≡ self.old) }
    {
        match self.slice.next_grant()? {
            Turn::Granted { index, by, claims } => {
                let Parked {
                    by: _,
                    work,
                    carried,
                } = self.parked.remove(index);
                let ran = run_under(alloc, &mut self.slice, claims, work);
                Some(Turned { by, ran, carried })
            }
            Turn::Dies {
                index,
                by,
                group,
                holder,
            } => {
                let Parked {
                    by: _,
                    work,
                    carried,
                } = self.parked.remove(index);
                drop(work);
                let ran = Ran::Died { group, holder };
                Some(Turned { by, ran, carried })
            }
        }
    }

    /// Gives the claims of an action back. Requires that what they left is committed. Never allocates.
    pub fn settle(&mut self, claims: Claims<J>)
        requires settled { All CanBeSettled claims }
        requires home { All (IsClaimAt self.old.slice.home) claims }
        ensures kept { SliceKeeps claims self.old.slice [] self.new.slice }
        ensures parked { self.new.parked ≡ self.old.parked }
    {
        settle(&mut self.slice, claims);
    }

    /// Undoes what an action did under its claims, and gives them back. Never allocates.
    pub fn undo(&mut self, claims: Claims<J>)
        requires undone { All CanBeUndone claims }
        requires home { All (IsClaimAt self.old.slice.home) claims }
        ensures kept { SliceKeeps claims self.old.slice [] self.new.slice }
        ensures parked { self.new.parked ≡ self.old.parked }
    {
        undo(&mut self.slice, claims);
    }
}
