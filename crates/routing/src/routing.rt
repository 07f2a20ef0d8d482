ghost use Rattle.std.specs.Prelude.{◌≡◌, ◌<◌, ◌≤◌};
ghost use Rattle.routing.specs.Routes.{executor_of};

use schema::Scale;
use std::marker::Model;

/// The maximum number of executors.
pub const MOST_EXECUTORS: u32 = 16;

/// The assignment of a scale's warehouses to executors.
///
/// In contracts: the numbers of warehouses and of executors.
#[derive(Drop)]
pub struct Routing {
    pub(crate) warehouses: u32,
    pub(crate) executors: u32,
}

impl Model for Routing {
    ghost use Rattle.std.specs.Prelude.{◌≤◌};
    ghost use Rattle.routing.specs.Routes.{Routes};

    ghost Value = { Routes };

    ghost view = { λ r. record { warehouses = r.warehouses; executors = r.executors } };

    ghost invariant = { λ r. (1 ≤ r.warehouses) × (1 ≤ r.executors) };
}

impl Routing {
    /// Deals out the warehouses of the scale to this number of executors, in order and as evenly as
    /// possible.
    pub fn opening(scale: &Scale, executors: u32) -> Routing
        requires { 1 ≤ executors }
        ensures { result ≡ record { warehouses = scale.now.warehouses; executors = executors } }
    {
        Routing {
            warehouses: scale.warehouses,
            executors,
        }
    }

    /// Returns the number of executors.
    pub fn executors(&self) -> u32
        ensures { result ≡ self.now.executors }
    {
        self.executors
    }

    /// Returns the executor, from 0, that has a warehouse; 0 if there is no such warehouse.
    pub fn route(&self, warehouse: u32) -> u32
        ensures executor { result ≡ executor_of self.now warehouse }
        ensures below { result < self.now.executors }
    {
        if 1 <= warehouse && warehouse <= self.warehouses {
            let before = u64::from(warehouse - 1);
            (before * u64::from(self.executors) / u64::from(self.warehouses)) as u32
        } else {
            0
        }
    }
}
