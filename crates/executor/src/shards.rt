//! The shards that an executor has.
ghost use Rattle.std.specs.Prelude.{◌≡◌, IfErr, IfSome};
ghost use Rattle.partitions.specs.Parts.{shared_of};
ghost use Rattle.transactions.specs.Works.{CanDo, HasDone};
ghost use Rattle.transactions.specs.Acting.{AreUndoneBy};

use crate::{CountedShard, GivenBack};
use commit_log::Names;
use schema::NoMemory;
use std::alloc::Global;
use tickets::Claims;
use transactions::{Found, Ran, Work};
use wait_die::Holder;

/// The shards that an executor has, of those of all warehouses.
#[derive(Drop)]
pub struct ExecutorShards<J: Names> {
    // The shard of a warehouse is at its W_ID less one; it is None if another executor has it.
    places: Vec<Option<Box<CountedShard<J>>>>,
}

impl<J: Names> ExecutorShards<J> {
    /// Opens an empty set with room for the shards of this many warehouses. Returns NoMemory if an allocation fails; nothing is
    /// left then.
    pub fn open(alloc: Global, warehouses: u32) -> Result<ExecutorShards<J>, NoMemory> {
        let mut places = Vec::with_capacity(alloc, warehouses as usize)?;
        for _ in 0..warehouses {
            places.push(None)?;
        }
        Ok(ExecutorShards { places })
    }

    /// Whether there is a warehouse with this W_ID, here or at another executor.
    pub fn is_warehouse(&self, home: u32) -> bool {
        place_of(home) < self.places.len()
    }

    /// Puts a shard here, in place of the one of the same warehouse, if there was one. Drops it if there is no such warehouse.
    pub fn put(&mut self, counted_shard: Box<CountedShard<J>>) {
        if let Some(place) = self.places.get_mut(place_of(counted_shard.home())) {
            *place = Some(counted_shard);
        }
    }

    /// Whether the shard of a warehouse is here.
    pub fn has(&self, home: u32) -> bool {
        matches!(self.places.get(place_of(home)), Some(Some(_)))
    }

    /// The shard of a warehouse, if it is here.
    pub fn get_mut(&mut self, home: u32) -> Option<&mut CountedShard<J>>
        ensures { IfSome result (λ counted_shard. counted_shard.now.slice.home ≡ home) }
    {
        let Some(Some(counted_shard)) = self.places.get_mut(place_of(home)) else {
            return None;
        };
        if counted_shard.home() != home {
            return None;
        }
        Some(counted_shard)
    }

    /// Takes the shard of a warehouse out, if it is here.
    pub fn take(&mut self, home: u32) -> Option<Box<CountedShard<J>>> {
        self.places.get_mut(place_of(home))?.take()
    }

    /// Gives claims back to their shard. If the shard is not here, returns them.
    pub fn give_back(&mut self, given: GivenBack<J>) -> Result<(), GivenBack<J>>
        ensures { IfErr result (λ back. back ≡ given) }
    {
        let Some(counted_shard) = self.get_mut(given.home()) else {
            return Err(given);
        };
        counted_shard.give_back(given);
        Ok(())
    }

    // Whether the shards of all these works are here.
    pub(crate) fn have_all(&self, works: &[Work]) -> bool {
        for work in works {
            if !self.has(work.home()) {
                return false;
            }
        }
        true
    }

    // An action does its work at once, at its shard. Returns `None` if the shard is not here, or a holder conflicts, or an
    // allocation fails: nothing was done then.
    pub(crate) fn work_at_once(
        &mut self,
        alloc: Global,
        by: Holder,
        work: Work,
    ) -> Option<(Claims<J>, Found)>
        requires { CanDo (shared_of J.opening) work }
        ensures done { IfSome result (λ done. HasDone (shared_of J.opening) work done.1 done.0) }
        ensures undone { IfSome result (λ done. AreUndoneBy by.age done.0) }
    {
        let Some(counted_shard) = self.get_mut(work.home()) else {
            return None;
        };
        match counted_shard.work_at_once(alloc, by, work) {
            Some(Ran::Done(claims, found)) => Some((claims, found)),
            _ => None,
        }
    }
}

// The index of a warehouse's shard.
fn place_of(home: u32) -> usize {
    home.wrapping_sub(1) as usize
}
