//! The single steps on a place at a length's table.
ghost use Rattle.std.specs.Prelude.{◌≡◌, ◌+◌, ◌≤◌, true, IfOk};
ghost use Rattle.std.specs.Arc.{arc_value};
ghost use Rattle.length_word.specs.Rule.{log_view, mark_view, noting};
ghost use Rattle.length_word.specs.Place.{IsPlaceAt};

use crate::rule::{Compares, Copies, Grows, NoneBeyond, Notes, View};
use atomic_table::{Seat, Table};
use std::alloc::{AllocError, Global};
use std::sync::Arc;

/// The table of a length. Its one word contains the length.
pub type Board = Arc<Table<(), View, (), NoneBeyond, Global>, Global>;

pub type Place = Seat<(), View>;

/// Opens the table of an empty log. Returns the table and the log's own place.
pub fn open(alloc: Global) -> Result<(Board, Place), AllocError>
    ensures place { IfOk result (λ pair. IsPlaceAt (arc_value pair.0).shared.table_id pair.1) }
    ensures view { IfOk result (λ pair. pair.1.me.0 ≡ log_view 0) }
{
    let (table, place) = Table::of_words(alloc.clone()?, &[0], &())?;
    let board = Arc::new(alloc, table)?;
    Ok((board, place))
}

/// Splits off a new place, which records the same number of entries.
pub fn copy(board: &Board, place: &mut Place) -> Place
    requires { IsPlaceAt (arc_value board.now).shared.table_id place.old }
    ensures place { IsPlaceAt (arc_value board.now).shared.table_id place.new }
    ensures same { place.new.me.0 ≡ place.old.me.0 }
    ensures new_place { IsPlaceAt (arc_value board.now).shared.table_id result }
    ensures view { result.me.0 ≡ mark_view place.old.me.0.reached }
{
    board.shared.split_seat::<Copies>(place)
}

/// The place takes in another, and records that one's number of entries as noted.
pub fn take_in(board: &Board, place: &mut Place, other: Place)
    requires place { IsPlaceAt (arc_value board.now).shared.table_id place.old }
    requires beside { IsPlaceAt (arc_value board.now).shared.table_id other }
    ensures place { IsPlaceAt (arc_value board.now).shared.table_id place.new }
    ensures view { place.new.me.0 ≡ noting place.old.me.0 other.me.0 }
{
    board.shared.join_seat::<Notes>(place, other);
}

/// Shows that the number that the log's own place noted is at most the length.
pub fn compare(board: &Board, place: &mut Place)
    requires place { IsPlaceAt (arc_value board.now).shared.table_id place.old }
    requires log { place.old.me.0.is_log ≡ true }
    ensures place { IsPlaceAt (arc_value board.now).shared.table_id place.new }
    ensures view { place.new.me.0 ≡ log_view place.old.me.0.reached }
    ensures below { place.old.me.0.noted ≤ place.old.me.0.reached }
{
    board.shared.load::<Compares>(place, 0);
}

/// Sets the length to the number given, which is one more than before.
pub fn lengthen(board: &Board, place: &mut Place, length: u32)
    requires place { IsPlaceAt (arc_value board.now).shared.table_id place.old }
    requires log { place.old.me.0.is_log ≡ true }
    requires next { length ≡ place.old.me.0.reached + 1 }
    ensures place { IsPlaceAt (arc_value board.now).shared.table_id place.new }
    ensures view { place.new.me.0 ≡ log_view length }
{
    board.shared.store::<Grows>(place, 0, u64::from(length));
}
