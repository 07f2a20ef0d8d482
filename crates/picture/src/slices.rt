//! The places of the warehouses' slices, as far as a course is followed.
ghost use Rattle.std.specs.Prelude.{◌<◌, ◌≤◌, IsTrue};
ghost use Rattle.range_moves.specs.Placements.{IsWarehouse};

use range_moves::{Found, MoveOrder, Placements};
use routing::{MOST_EXECUTORS, Routing};
use schema::{NoMemory, Scale};
use std::alloc::Global;
use std::marker::Model;

/// The places of the slices. A call with a warehouse or an executor that does not exist changes nothing.
#[derive(Drop)]
pub struct Slices {
    placements: Placements,
    warehouses: u32,
    /// The last move that was ordered.
    ordered: Option<MoveOrder>,
}

impl Model for Slices {
    ghost use Rattle.std.specs.Prelude.{◌≡◌, length};
    ghost use Rattle.range_moves.specs.Placements.{PlacementsView};

    ghost Value = { PlacementsView };

    ghost view = { λ s. s.placements };

    ghost invariant = { λ s. length s.placements.placements ≡ s.warehouses };
}

impl Slices {
    /// The slices as the opening deals them out. `None` if there are more executors than allowed.
    pub fn open(alloc: Global, scale: &Scale, executors: u32) -> Result<Option<Slices>, NoMemory>
        requires { 1 ≤ executors }
    {
        if executors > MOST_EXECUTORS {
            return Ok(None);
        }
        let routing = Routing::opening(scale, executors);
        let placements = Placements::open(alloc, scale, &routing)?;
        Ok(Some(Slices {
            placements,
            warehouses: scale.warehouses,
            ordered: None,
        }))
    }

    /// The executor to which messages for a warehouse are routed.
    pub fn route(&self, w_id: u32) -> u32 {
        self.placements.route(w_id)
    }

    /// What an executor finds out about the slice of a warehouse.
    pub fn find(&self, executor: u32, w_id: u32) -> Found {
        self.placements.find(executor, w_id)
    }

    // Whether the warehouse and the executor exist.
    fn has(&self, w_id: u32, executor: u32) -> bool
        ensures { IsTrue result → IsWarehouse self.now w_id × (executor < self.now.executors) }
    {
        1 <= w_id && w_id <= self.warehouses && executor < self.placements.executors()
    }

    /// Makes a move outstanding. Returns whether it can be: it is in range, and the move before is over, as far as this is
    /// known.
    pub fn order(&mut self, order: MoveOrder) -> bool {
        let fits = !self.placements.is_moving();
        self.settle();
        if !order.is_within(self.warehouses, self.placements.executors()) {
            return false;
        }
        self.placements.order(&order);
        self.ordered = Some(order);
        fits
    }

    /// Ends the last move: each slice of its range is at its destination.
    pub fn settle(&mut self) {
        let Some(MoveOrder { lo, hi, to }) = self.ordered else {
            return;
        };
        for w_id in lo..=hi {
            self.install(w_id, to);
            self.report();
        }
    }

    /// Begins the move of one warehouse at its destination. Returns the executor from which the slice is to be fetched, or
    /// `None` if it is there already.
    pub fn move_to(&mut self, w_id: u32, to: u32) -> Option<u32> {
        if self.has(w_id, to) {
            self.placements.move_to(w_id, to)
        } else {
            None
        }
    }

    /// An executor takes the slice out to send it to another. Returns whether it has the slice.
    pub fn take_out(&mut self, w_id: u32, here: u32, to: u32) -> bool {
        if !(self.has(w_id, here) && self.has(w_id, to)) {
            return false;
        }
        let is_here = matches!(self.placements.find(here, w_id), Found::Here);
        self.placements.take_out(w_id, here, to);
        is_here
    }

    /// An executor installs the slice.
    pub fn install(&mut self, w_id: u32, here: u32) {
        if self.has(w_id, here) {
            self.placements.install(w_id, here);
        }
    }

    /// One more slice has arrived at its destination. Returns whether this ends the outstanding move, or `None` if no move is
    /// outstanding.
    pub fn report(&mut self) -> Option<bool> {
        if self.placements.is_moving() {
            Some(self.placements.report())
        } else {
            None
        }
    }
}
