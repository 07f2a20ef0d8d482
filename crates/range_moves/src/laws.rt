//! Laws of range moves, as functions with empty bodies: their contracts are proved.
ghost use Rattle.range_moves.specs.Laws.{KnowingStays, MessagesFollow, NothingIsParked};

/// An executor that knows of a slice still does after every step of a move.
pub fn knowing_stays()
    ensures { KnowingStays }
{}

/// A message whose slice has left is forwarded to an executor that knows of the slice.
pub fn messages_follow()
    ensures { MessagesFollow }
{}

/// If nothing is in flight, no move is outstanding and no message is parked.
pub fn nothing_is_parked()
    ensures { NothingIsParked }
{}
