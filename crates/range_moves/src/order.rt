//! The orders of moves, and the messages of moves.
ghost use Rattle.std.specs.Prelude.{◌≡◌, ◌↔◌, ◌≤◌, IsTrue};
ghost use Rattle.range_moves.specs.Orders.{IsWithin, size_of};

/// The warehouses from `lo` to `hi`, both included, are to go to executor `to`.
#[derive(Clone, Copy, Debug, PartialEq, Eq)]
pub struct MoveOrder {
    pub lo: u32,
    pub hi: u32,
    pub to: u32,
}

impl MoveOrder {
    /// Returns whether this move is possible with so many warehouses and executors: its range is not empty and has only
    /// numbers of warehouses, and its executor exists.
    pub fn is_within(&self, warehouses: u32, executors: u32) -> bool
        ensures { IsTrue result ↔ IsWithin warehouses executors self.now }
    {
        1 <= self.lo && self.lo <= self.hi && self.hi <= warehouses && self.to < executors
    }

    /// Returns the number of warehouses in its range.
    pub fn size(&self) -> u32
        requires first { 1 ≤ self.now.lo }
        requires some { self.now.lo ≤ self.now.hi }
        ensures { result ≡ size_of self.now }
    {
        self.hi - self.lo + 1
    }
}

/// A message of a move to an executor.
#[derive(Clone, Copy, Debug, PartialEq, Eq)]
pub enum Moving {
    /// To the destination of the move: the move begins.
    Order(MoveOrder),
    /// To the executor that has the slice of warehouse `w_id`: the slice is to go to executor `to`.
    Fetch { w_id: u32, to: u32 },
    /// To the destination: the slice of this warehouse.
    Parcel(u32),
}
