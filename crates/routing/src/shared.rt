ghost use Rattle.std.specs.Prelude.{◌≡◌, ◌<◌, IfOk};

use crate::Routing;
use schema::NoMemory;
use std::alloc::Global;
use std::marker::Model;
use std::sync::atomic::{AtomicU32, Ordering};

/// The executor of each warehouse, where warehouses may be moved between executors while messages are
/// sent. Many threads read and change it at the same time; no thread waits for another, and nothing is
/// allocated after the opening.
///
/// In contracts: the numbers of warehouses and of executors.
#[derive(Drop)]
pub struct SharedRouting {
    executors: u32,
    // The executor of each warehouse, by warehouse number.
    words: Vec<AtomicU32>,
}

impl Model for SharedRouting {
    ghost use Rattle.std.specs.Prelude.{◌≤◌, vec_len};
    ghost use Rattle.routing.specs.Routes.{Routes};

    ghost Value = { Routes };

    ghost view = { λ r. record { warehouses = vec_len r.words; executors = r.executors } };

    ghost invariant = { λ r. 1 ≤ r.executors };
}

impl SharedRouting {
    /// Opens the routing with each warehouse at the executor to which it is dealt out. Returns NoMemory
    /// if an allocation fails; nothing stays allocated then.
    pub fn open(alloc: Global, routing: &Routing) -> Result<SharedRouting, NoMemory>
        ensures { IfOk result (λ shared. shared ≡ routing.now) }
    {
        let warehouses = routing.warehouses;
        let mut words = Vec::with_capacity(alloc, warehouses as usize)?;
        for before in 0..warehouses {
            words.push(AtomicU32::new(routing.route(before + 1)))?;
        }
        Ok(SharedRouting {
            executors: routing.executors,
            words,
        })
    }

    /// Returns the executor, from 0, to which messages for a warehouse are sent; 0 if there is no such
    /// warehouse.
    pub fn route(&self, warehouse: u32) -> u32
        ensures below { result < self.now.executors }
    {
        let Some(word) = self.words.get(place_of(warehouse)) else {
            return 0;
        };
        let executor = word.load(Ordering::SeqCst);
        if executor < self.executors {
            executor
        } else {
            0
        }
    }

    /// Sends messages for a warehouse to this executor from now on. Changes nothing if there is no such
    /// warehouse or no such executor.
    pub fn redirect(&self, warehouse: u32, to: u32) {
        if to < self.executors
            && let Some(word) = self.words.get(place_of(warehouse))
        {
            word.store(to, Ordering::SeqCst);
        }
    }
}

// Returns the place of a warehouse's word. A number that no warehouse has gives a place that has no
// word.
fn place_of(warehouse: u32) -> usize {
    warehouse.wrapping_sub(1) as usize
}
