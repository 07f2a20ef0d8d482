//! The entries of a lock table: the places of the groups that are held or waited for, in the order in
//! which they were taken.
ghost use Rattle.std.specs.Prelude.{◌≡◌, ◌<◌, ◌≤◌, ◌+◌, ◌-◌, [], All, IfOk, IsOk, OnErr, OnOk, filter, length, nat_eq, slice_get};
ghost use Rattle.std.specs.List.{IsDistinct};
ghost use Rattle.indexmap.specs.IndexSet.{insert_key, remove_key, spare};
ghost use Rattle.local_locks.specs.EntryPlaces as spec;
ghost use Rattle.local_locks.specs.EntryPlaces.{AreBounds, ArePlaces, is_among, kept_if, with_wanted, without};
ghost use Rattle.local_locks.specs.GroupWants.{IsWanted};
ghost use Rattle.local_locks.specs.Turns.{IsParkedThere};

use crate::lock::Lock;
use crate::waiting::Waiter;
use crate::wanted::{bounds_of, is_wanted_at, wanted_places};
use groups::Want;
use indexmap::IndexSet;
use schema::NoMemory;
use std::alloc::Global;
use std::marker::Model;
use tickets::{GROUPS_PER_WAREHOUSE, GroupNames};

// Room for each group of a warehouse twice, so that entries that go and come again seldom need memory.
const ROOM: usize = 2 * GROUPS_PER_WAREHOUSE;

/// The places of the groups that are held or waited for, in the order in which they were taken.
#[derive(Drop)]
pub(crate) struct Entries {
    places: IndexSet<usize>,
}

impl Model for Entries {
    ghost use Rattle.std.specs.Prelude.{ℕ, List};

    ghost Value = { List ℕ };

    ghost view = { λ e. e.places.keys };
}

impl Entries {
    /// No entries, with room for some. Returns NoMemory if an allocation fails.
    pub(crate) fn open(alloc: Global) -> Result<Entries, NoMemory>
        ensures { IfOk result (λ entries. entries ≡ []) }
    {
        let places = IndexSet::with_capacity(alloc, ROOM)?;
        Ok(Entries { places })
    }

    /// Returns the number of entries.
    pub(crate) fn len(&self) -> usize
        ensures { result ≡ length self.now }
    {
        self.places.len()
    }

    /// Shows that no place has two entries.
    pub(crate) fn are_once(&self)
        ensures { IsDistinct nat_eq self.now }
    {
        let _ = self.places.len();
    }

    /// Returns the place of entry `n`, from 0. `None` if there are fewer.
    pub(crate) fn get(&self, n: usize) -> Option<usize>
        ensures { result ≡ slice_get self.now n }
    {
        self.places.get_index(n).copied()
    }

    // Returns whether a place has an entry.
    fn has(&self, place: usize) -> bool
        ensures { result ≡ is_among self.now place }
    {
        self.places.contains(&place)
    }

    /// Enters the places of the wanted groups that have no entry yet, last and in order. Returns NoMemory
    /// if an allocation fails; nothing is entered then.
    pub(crate) fn enter<J: GroupNames>(&mut self, wants: &[Want]) -> Result<(), NoMemory>
        requires { All (IsWanted J.warehouses) wants.now }
        ensures entered { OnOk result (self.new ≡ with_wanted wants.now self.old) }
        ensures err { OnErr result (self.new ≡ self.old) }
        ensures nothing_takes_none { wants.now ≡ [] → IsOk result }
    {
        let (first, end) = bounds_of::<J>(wants);
        self.places.reserve(end - first)?;
        insert_wanted::<J>(&mut self.places, wants, first, end);
        Ok(())
    }

    /// Leaves a place out, if it is there. The others keep their order.
    pub(crate) fn leave_out(&mut self, place: usize)
        ensures { self.new ≡ without place self.old }
    {
        // `len` is called for its clause that no place is there twice.
        let _len = self.places.len();
        remove(&mut self.places, place);
    }
}

// Inserts the places of the wanted groups that aren't there, last and in order. All are between these
// bounds, and there is room for as many.
fn insert_wanted<J: GroupNames>(
    places: &mut IndexSet<usize>,
    wants: &[Want],
    first: usize,
    end: usize,
)
    requires there { All (IsWanted J.warehouses) wants.now }
    requires bounds { AreBounds first end wants.now }
    requires room { end - first ≤ spare places.old }
    ensures { places.new.keys ≡ with_wanted wants.now places.old.keys }
{
    let wanted = wanted_places::<J>(wants);
    for place in first..end {
        if wanted[place] {
            insert_reserved(places, place);
        }
    }
}

// Inserts a place last, if it isn't there. There must be room for it.
fn insert_reserved(places: &mut IndexSet<usize>, place: usize)
    requires { 0 < spare places.old }
    ensures keys { places.new.keys ≡ insert_key nat_eq places.old.keys place }
    ensures room { spare places.old ≤ spare places.new + 1 }
{
    let Ok(_) = places.insert(place) else {
        unreachable!()
    };
}

// Removes a place, if it is there. Those after it move up.
fn remove(places: &mut IndexSet<usize>, place: usize)
    ensures { places.new.keys ≡ remove_key (nat_eq place) places.old.keys }
{
    places.shift_remove(&place);
}

// Returns whether an action waits for the group at a place.
fn is_awaited_at<J: GroupNames>(waiters: &[Waiter<J>], place: usize) -> bool
    requires { All (IsParkedThere J.warehouses) waiters.now }
    ensures { result ≡ spec.is_awaited_at waiters.now place }
{
    for waiter in waiters {
        if is_wanted_at::<J>(&waiter.wants, place) {
            return true;
        }
    }
    false
}

// Returns whether the group at a place is held or waited for.
fn is_used_at<J: GroupNames>(locks: &[Lock<J>], waiters: &[Waiter<J>], place: usize) -> bool
    requires place { place < length locks.now }
    requires there { All (IsParkedThere J.warehouses) waiters.now }
    ensures { result ≡ spec.is_used_at locks.now waiters.now place }
{
    locks[place].is_lent() || is_awaited_at(waiters, place)
}

/// Leaves a place out if its group is neither held nor waited for. The others keep their order.
pub(crate) fn leave_if_unused<J: GroupNames>(
    entries: &mut Entries,
    locks: &[Lock<J>],
    waiters: &[Waiter<J>],
    place: usize,
)
    requires place { place < length locks.now }
    requires there { All (IsParkedThere J.warehouses) waiters.now }
    ensures { entries.new
        ≡ kept_if (spec.is_used_at locks.now waiters.now place) place entries.old }
{
    if !is_used_at(locks, waiters, place) {
        entries.leave_out(place);
    }
}

/// Leaves out the entries whose groups are neither held nor waited for. The others keep their order.
pub(crate) fn keep_used<J: GroupNames>(
    entries: &mut Entries,
    locks: &[Lock<J>],
    waiters: &[Waiter<J>],
)
    requires places { ArePlaces entries.old }
    requires all { length locks.now ≡ 105 }
    requires there { All (IsParkedThere J.warehouses) waiters.now }
    ensures { entries.new ≡ filter (spec.is_used_at locks.now waiters.now) entries.old }
{
    for place in 0..GROUPS_PER_WAREHOUSE {
        if entries.has(place) {
            leave_if_unused(entries, locks, waiters, place);
        }
    }
}
