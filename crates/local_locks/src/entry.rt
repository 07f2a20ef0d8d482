//! An entry of a lock table, as it is shown to people.
ghost use Rattle.std.specs.Prelude.{◌≡◌, All, IfOk, filter, map};
ghost use Rattle.local_locks.specs.EntryPlaces as spec;
ghost use Rattle.local_locks.specs.LockEntries.{age_of_holder, age_of_waiter};
ghost use Rattle.local_locks.specs.Turns.{IsParkedThere};

use crate::waiting::Waiter;
use crate::wanted::is_wanted_at;
use groups::Mode;
use requests::Group;
use schema::NoMemory;
use std::alloc::Global;
use tickets::GroupNames;
use wait_die::{Age, Holder};

/// An entry of a lock table: a group that is held or waited for.
#[derive(Clone, Debug, Drop, PartialEq, Eq)]
pub struct LockEntry {
    pub group: Group,
    /// The mode in which it is held, `None` if it is only waited for.
    pub mode: Option<Mode>,
    /// The ages of the transactions that hold it: one if exclusively, up to eight if shared.
    pub holders: Vec<Age>,
    /// The ages of the transactions of which an action waits for it, in the order in which they asked.
    pub waiters: Vec<Age>,
}

/// Returns the ages of these holders. Returns NoMemory if an allocation fails.
pub(crate) fn ages_of(alloc: Global, holders: &[Holder]) -> Result<Vec<Age>, NoMemory>
    ensures { IfOk result (λ ages. ages.items ≡ map age_of_holder holders.now) }
{
    let mut ages = Vec::new(alloc);
    for holder in holders {
        ages.push(holder.age)?;
    }
    Ok(ages)
}

/// Returns the ages of the actions that wait for the group at a place, in the order in which they asked.
/// Returns NoMemory if an allocation fails.
pub(crate) fn ages_waiting_at<J: GroupNames>(
    alloc: Global,
    waiters: &[Waiter<J>],
    place: usize,
) -> Result<Vec<Age>, NoMemory>
    requires { All (IsParkedThere J.warehouses) waiters.now }
    ensures { IfOk result (λ ages. ages.items
        ≡ map age_of_waiter (filter (spec.waits_at place) waiters.now)) }
{
    let mut ages = Vec::new(alloc);
    for waiter in waiters {
        if is_wanted_at::<J>(&waiter.wants, place) {
            ages.push(waiter.by.age)?;
        }
    }
    Ok(ages)
}
