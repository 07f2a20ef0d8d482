//! The single steps on the table of a closing word.
ghost use Rattle.std.specs.Prelude.{◌≡◌, true, false, IfOk, IfSome};
ghost use Rattle.closing_word.specs.Place.{IsPlaceAt, IsWithWord};
ghost use Rattle.closing_word.specs.Rule.{closer_view, looker_view};

use crate::rule::{ClosedByCloser, Closes, Looks, View};
use atomic_table::{Seat, Table};
use std::alloc::{AllocError, Global};

/// The table of a closing word.
pub type Board = Table<(), View, (), ClosedByCloser, Global>;

pub type Place = Seat<(), View>;

// What the word is while it is open, and once it is closed.
const OPEN: u64 = 0;

const CLOSED: u64 = 1;

/// Opens the table of a word that is not closed. Returns the table and the closer's place.
pub fn open(alloc: Global) -> Result<(Board, Place), AllocError>
    ensures word { IfOk result (λ pair. IsWithWord pair.0.shared.table_id) }
    ensures place { IfOk result (λ pair. IsPlaceAt pair.0.shared.table_id pair.1) }
    ensures view { IfOk result (λ pair. pair.1.me.0 ≡ closer_view false) }
{
    Table::of_words(alloc, &[OPEN], &())
}

/// Closes the word.
pub fn close(board: &Board, place: &mut Place)
    requires place { IsPlaceAt board.now.shared.table_id place.old }
    requires closer { place.old.me.0.is_closer ≡ true }
    ensures place { IsPlaceAt board.now.shared.table_id place.new }
    ensures view { place.new.me.0 ≡ closer_view true }
{
    board.shared.store::<Closes>(place, 0, CLOSED);
}

/// Returns a place that has found the word closed; `None` if it is open.
pub fn look(board: &Board) -> Option<Place>
    requires { IsWithWord board.now.shared.table_id }
    ensures place { IfSome result (IsPlaceAt board.now.shared.table_id) }
    ensures view { IfSome result (λ place. place.me.0 ≡ looker_view true) }
{
    let (found, place) = board.shared.load_new_seat::<Looks>(0);
    if found == CLOSED { Some(place) } else { None }
}
