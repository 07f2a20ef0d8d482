//! The moves that are made while scripts are served, one after the other.
use range_moves::MoveOrder;
use std::sync::atomic::{AtomicU32, AtomicUsize, Ordering};

/// The moves. The next one begins when all warehouses of the one before have arrived.
#[derive(Drop)]
pub(crate) struct Moves<'a> {
    orders: &'a [MoveOrder],
    /// How many were begun; one more than there are, once all are made.
    begun: AtomicUsize,
    /// How many warehouses of the move in flight have not arrived yet.
    awaited: AtomicU32,
}

impl<'a> Moves<'a> {
    /// These moves, none of which was begun.
    pub(crate) fn new(orders: &'a [MoveOrder]) -> Moves<'a> {
        Moves {
            orders,
            begun: AtomicUsize::new(0),
            awaited: AtomicU32::new(0),
        }
    }

    /// Begins the next move and returns it; `None` if all are made. No move may be in flight.
    pub(crate) fn begin_next(&self) -> Option<MoveOrder> {
        let place = self.begun.fetch_add(1, Ordering::SeqCst);
        let order = *self.orders.get(place)?;
        self.awaited.store(size_of(&order), Ordering::SeqCst);
        Some(order)
    }

    /// Counts a warehouse of the move that has arrived. Returns whether it was the last one.
    pub(crate) fn count_arrival(&self) -> bool {
        self.awaited.fetch_sub(1, Ordering::SeqCst) == 1
    }

    /// Whether all moves are made.
    pub(crate) fn are_over(&self) -> bool {
        self.begun.load(Ordering::SeqCst) > self.orders.len()
    }
}

// The number of warehouses of a move.
fn size_of(order: &MoveOrder) -> u32 {
    order.hi.saturating_sub(order.lo).saturating_add(1)
}
