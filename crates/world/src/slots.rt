//! The slots at the desk, one for each transaction that can be active.
ghost use Rattle.std.specs.Prelude.{◌≡◌, ◌<◌, None, Some, replicate, slice_get, slice_set, IfOk, IfNone, IfSome};
ghost use Rattle.world.specs.Slots as spec;
ghost use Rattle.world.specs.Slots.{count_active};

use schema::NoMemory;
use std::alloc::Global;
use std::marker::Model;

/// The greatest number of transactions that can be active at a time.
pub const MOST_ACTIVE: usize = 64;

/// `MOST_ACTIVE` slots, numbered from 0. Only `open` allocates.
///
/// Contracts see a list: the content of each slot, `None` if it is free.
#[derive(Drop)]
pub struct Slots<T: Drop> {
    slots: Vec<Option<T>>,
}

impl<T: Drop> Model for Slots<T> {
    ghost use Rattle.std.specs.Prelude.{◌≡◌, List, Option, length};
    ghost use Rattle.world.specs.declared.slots.TheConstants.{MOST_ACTIVE};

    ghost Value = { List (Option T) };

    ghost view = { λ s. s.slots.items };

    ghost invariant = { λ s. length s.slots.items ≡ MOST_ACTIVE };
}

impl<T: Drop> Slots<T> {
    /// `MOST_ACTIVE` free slots.
    pub fn open(alloc: Global) -> Result<Slots<T>, NoMemory>
        ensures { IfOk result (λ slots. slots ≡ replicate MOST_ACTIVE None) }
    {
        let mut slots = Vec::with_capacity(alloc, MOST_ACTIVE)?;
        for _ in 0..MOST_ACTIVE {
            slots.push_reserved(None);
        }
        Ok(Slots { slots })
    }

    /// The first free slot. Returns `None` exactly if all are taken.
    pub fn first_free(&self) -> Option<usize>
        ensures first { result ≡ spec.first_free self.now }
        ensures free { IfSome result (λ slot. slice_get self.now slot ≡ Some None) }
        ensures room { IfSome result
            (λ slot. (slot < MOST_ACTIVE) × (count_active self.now < MOST_ACTIVE)) }
        ensures none { IfNone result (count_active self.now ≡ MOST_ACTIVE) }
    {
        first_free_of(&self.slots)
    }

    /// The number of taken slots.
    pub fn count(&self) -> usize
        ensures { result ≡ count_active self.now }
    {
        self.slots.iter().filter(|slot| slot.is_some()).count()
    }

    /// Takes the content of a slot and frees the slot.
    pub fn take(&mut self, slot: usize) -> Option<T>
        requires { slot < MOST_ACTIVE }
        ensures out { slice_get self.old slot ≡ Some result }
        ensures free { self.new ≡ slice_set self.old slot None }
    {
        self.slots[slot].take()
    }

    /// Replaces the content of a slot; `None` frees it.
    pub fn put(&mut self, slot: usize, now: Option<T>)
        requires { slot < MOST_ACTIVE }
        ensures { self.new ≡ slice_set self.old slot now }
    {
        self.slots[slot] = now;
    }
}

fn first_free_of<T>(slots: &[Option<T>]) -> Option<usize>
    ensures { result ≡ spec.first_free slots.now }
{
    slots.iter().position(|slot| slot.is_none())
}
