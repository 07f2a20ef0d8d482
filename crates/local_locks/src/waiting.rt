//! The waiting actions, and whose turn it is.
ghost use Rattle.std.specs.Prelude.{◌≡◌, ◌≤◌, All, IfOk, IfSome, IfNone, length};
ghost use Rattle.local_locks.specs.Locks.{waiter_view};
ghost use Rattle.local_locks.specs.Turns as spec;
ghost use Rattle.local_locks.specs.Turns.{IsNext, IsParkedThere, StaysParked};

use crate::lock::Lock;
use crate::rulings::{Ruling, ruling_on};
use groups::Want;
use schema::NoMemory;
use std::alloc::Global;
use std::marker::Model;
use tickets::{Claim, GroupNames};
use wait_die::Holder;

/// A waiting action, its wants, and room for its claims.
#[derive(Drop)]
pub(crate) struct Waiter<J: GroupNames> {
    pub(crate) by: Holder,
    pub(crate) wants: Vec<Want>,
    pub(crate) room: Vec<Claim<J>>,
}

impl<J: GroupNames> Model for Waiter<J> {
    ghost use Rattle.std.specs.Prelude.{◌≡◌, [], vec_capacity};
    ghost use Rattle.std.specs.Coded.{codes};
    ghost use Rattle.local_locks.specs.Locks.{WaiterView, waiter_view};

    ghost Value = { WaiterView };

    ghost view = { λ w. waiter_view w.by w.wants.items (vec_capacity w.room) };

    ghost invariant = { λ w. w.room.items ≡ [] };
}

impl<J: GroupNames> Waiter<J> {
    /// Makes a waiting action with room for `count` claims. Returns NoMemory if an allocation fails.
    pub(crate) fn new(
        alloc: Global,
        by: Holder,
        wants: &[Want],
        count: usize,
    ) -> Result<Waiter<J>, NoMemory>
        ensures { IfOk result (λ waiter. waiter ≡ waiter_view by wants.now count) }
    {
        let wants = Vec::from_slice(alloc.clone()?, wants)?;
        let room = Vec::with_capacity(alloc, count)?;
        Ok(Waiter { by, wants, room })
    }
}

/// The waiting action whose turn it is: its place among the waiting actions, the action, and the ruling
/// on it.
#[derive(Clone, Copy, Debug, PartialEq, Eq)]
pub(crate) struct Next {
    pub(crate) index: usize,
    pub(crate) by: Holder,
    pub(crate) ruling: Ruling,
}

/// Returns the oldest waiting action that need not wait any more; of one age, the one of the least
/// place. `None` if all have to wait.
pub(crate) fn next_of<J: GroupNames>(locks: &[Lock<J>], waiters: &[Waiter<J>]) -> Option<Next>
    requires there { All (IsParkedThere J.warehouses) waiters.now }
    requires places { 105 ≤ length locks.now }
    ensures none { IfNone result (All (StaysParked locks.now) waiters.now) }
    ensures next { IfSome result (IsNext locks.now waiters.now) }
{
    let mut next = None;
    for (index, waiter) in waiters.iter().enumerate() {
        let by = waiter.by;
        let ruling = ruling_on(locks, by.age, &waiter.wants);
        next = sooner(next, Next { index, by, ruling });
    }
    next
}

// Returns whose turn it is: the action found so far, or this one.
fn sooner(found: Option<Next>, this: Next) -> Option<Next>
    ensures { result ≡ spec.sooner found this }
{
    match (found, this.ruling) {
        (_, Ruling::Waits) => found,
        (Some(other), _) if !is_before(this.by, other.by) => found,
        _ => Some(this),
    }
}

// Returns whether `a` goes first: the older does, and of one age the one of the lesser place.
fn is_before(a: Holder, b: Holder) -> bool
    ensures { result ≡ spec.is_before a b }
{
    a.age < b.age || a.age == b.age && a.place < b.place
}
