//! The placements of the slices of all warehouses.
ghost use Rattle.std.specs.Prelude.{◌≡◌, ◌↔◌, ◌<◌, ◌≤◌, ◌-◌, All, IfOk, IfSome, IsTrue, MatchOption, length};
ghost use Rattle.routing.specs.Routes.{Routes};
ghost use Rattle.range_moves.specs.Orders.{IsWithin, size_of};
ghost use Rattle.range_moves.specs.Placements.{AreKept, IsPlacementOf, IsOpenedBy, IsWarehouse, fetched_from, found_by, no_placement, place_of, placement_of, placements_installed, placements_moved, placements_taken, route_of};

use crate::order::MoveOrder;
use crate::placement::{Found, Placement, Whereabouts};
use routing::Routing;
use schema::{NoMemory, Scale};
use std::alloc::Global;
use std::marker::Model;

/// The placements of the slices of all warehouses, and the executors' notes of them. At most one move is outstanding.
///
/// Contracts see it as [`PlacementsView`](crate), warehouse by warehouse.
#[derive(Drop)]
pub struct Placements {
    executors: u32,
    /// By warehouse number, from 1.
    placements: Vec<Placement>,
    /// The number of reports that the outstanding move still lacks, 0 if no move is outstanding.
    awaited: u32,
}

impl Model for Placements {
    ghost use Rattle.std.specs.Prelude.{All, length, ◌≤◌};
    ghost use Rattle.rows.specs.declared.limits.TheConstants.{MOST_WAREHOUSES};
    ghost use Rattle.range_moves.specs.Placements.{PlacementsView, IsPlacementOf};

    ghost Value = { PlacementsView };

    ghost view = { λ h. record { executors = h.executors; placements = h.placements.items; awaited = h.awaited } };

    ghost invariant = { λ h. (1 ≤ h.executors) × ((h.executors ≤ 16) × ((length h.placements.items ≤ MOST_WAREHOUSES) × All (IsPlacementOf h.executors) h.placements.items)) };
}

impl Placements {
    /// Returns placements in which the slice of each warehouse of the scale rests at the executor of the routing.
    /// Returns NoMemory if an allocation fails; nothing is left then.
    pub fn open(alloc: Global, scale: &Scale, routing: &Routing) -> Result<Placements, NoMemory>
        requires warehouses { routing.now.warehouses ≡ scale.now.warehouses }
        requires executors { routing.now.executors ≤ 16 }
        ensures { IfOk result (IsOpenedBy routing.now) }
    {
        let mut placements = Vec::with_capacity(alloc, scale.warehouses as usize)?;
        for before in 0..scale.warehouses {
            placements.push(Placement {
                place: Whereabouts::Rests(routing.route(before + 1)),
                notes: [None; 16],
            })?;
        }
        Ok(Placements {
            executors: routing.executors(),
            placements,
            awaited: 0,
        })
    }

    /// Returns the number of executors.
    pub fn executors(&self) -> u32
        ensures { result ≡ self.now.executors }
    {
        self.executors
    }

    /// Returns the executor to which messages for a warehouse are sent: the one that has its slice, or the slice's
    /// destination if it is to go or on its way; 0 if there is no such warehouse.
    pub fn route(&self, w_id: u32) -> u32
        ensures executor { result ≡ route_of self.now w_id }
        ensures below { result < self.now.executors }
    {
        match self.placement(w_id) {
            Some(placement) => placement.place.comes_to(),
            None => 0,
        }
    }

    /// Returns what an executor finds of the slice of a warehouse.
    pub fn find(&self, executor: u32, w_id: u32) -> Found
        ensures { result ≡ found_by self.now executor w_id }
    {
        match self.placement(w_id) {
            Some(placement) => placement.find(executor),
            None if executor == 0 => Found::Here,
            None => Found::Unknown,
        }
    }

    /// Returns whether the move can be ordered now: it is possible, and no move is outstanding.
    pub fn can_order(&self, order: &MoveOrder) -> bool
        ensures { IsTrue result ↔ ((self.now.awaited ≡ 0)
            × IsWithin (length self.now.placements) self.now.executors order.now) }
    {
        self.awaited == 0 && order.is_within(self.placements.len() as u32, self.executors)
    }

    /// Makes the move outstanding: it lacks as many reports as its range has warehouses.
    pub fn order(&mut self, order: &MoveOrder)
        requires { IsWithin (length self.old.placements) self.old.executors order.now }
        ensures { self.new ≡ record self.old { awaited = size_of order.now } }
    {
        self.awaited = order.size();
    }

    /// Begins the move of one warehouse at its destination, whose note is cleared. Returns the executor from which the
    /// slice is to be fetched; `None` if the slice is at the destination.
    pub fn move_to(&mut self, w_id: u32, to: u32) -> Option<u32>
        requires warehouse { IsWarehouse self.old w_id }
        requires to { to < self.old.executors }
        ensures placement { self.new ≡ placements_moved self.old w_id to }
        ensures from { result ≡ fetched_from (place_of self.old w_id) to }
        ensures below { IfSome result (λ from. from < self.old.executors) }
    {
        let at = (w_id - 1) as usize;
        let placement = self.placements[at];
        self.placements[at] = placement.moved(to);
        placement.place.fetched_from(to)
    }

    /// Executor `here` takes the slice out, and notes its destination `to`.
    pub fn take_out(&mut self, w_id: u32, here: u32, to: u32)
        requires warehouse { IsWarehouse self.old w_id }
        requires here { here < self.old.executors }
        requires to { to < self.old.executors }
        ensures { self.new ≡ placements_taken self.old w_id here to }
    {
        let at = (w_id - 1) as usize;
        self.placements[at] = self.placements[at].taken(here, to);
    }

    /// Executor `here` installs the slice.
    pub fn install(&mut self, w_id: u32, here: u32)
        requires warehouse { IsWarehouse self.old w_id }
        requires here { here < self.old.executors }
        ensures { self.new ≡ placements_installed self.old w_id here }
    {
        let at = (w_id - 1) as usize;
        self.placements[at] = self.placements[at].installed(here);
    }

    /// Records that one more warehouse has reached its destination. Returns whether the move is complete.
    pub fn report(&mut self) -> bool
        requires { 1 ≤ self.old.awaited }
        ensures left { self.new ≡ record self.old { awaited = self.old.awaited - 1 } }
        ensures last { IsTrue result ↔ (self.new.awaited ≡ 0) }
    {
        self.awaited -= 1;
        self.awaited == 0
    }

    /// Returns whether a move is outstanding.
    pub fn is_moving(&self) -> bool
        ensures { IsTrue result ↔ (1 ≤ self.now.awaited) }
    {
        1 <= self.awaited
    }

    /// Establishes for contracts the invariant: there are at most 16 executors and 256 warehouses; each slice is at one
    /// of the executors, or on its way to one; and each placement has 16 notes.
    pub fn are_kept(&self)
        ensures { AreKept self.now }
    {
        let _ = &self.executors;
    }

    // Returns the placement of a warehouse, `None` if there is no such warehouse.
    fn placement(&self, w_id: u32) -> Option<&Placement>
        ensures placement { MatchOption result (placement_of self.now w_id ≡ no_placement)
            (λ placement. (placement.now ≡ placement_of self.now w_id)
            × IsPlacementOf self.now.executors placement.now) }
        ensures executors { 1 ≤ self.now.executors }
    {
        if 1 <= w_id {
            self.placements.get((w_id - 1) as usize)
        } else {
            None
        }
    }
}
