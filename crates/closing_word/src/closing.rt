ghost use Rattle.std.specs.Prelude.{◌≡◌, IfOk, IfSome};

use crate::board::{self, Board, Place};
use std::alloc::{AllocError, Global};
use std::marker::Model;

/// A word that is open, and closed once and for good. Threads share it by reference.
///
/// Contracts see the table by which its closer and all that have found it closed know it.
#[derive(Drop)]
pub struct ClosingWord {
    board: Board,
}

impl Model for ClosingWord {
    ghost use Rattle.atomic_table.specs.Seated.{TableId};
    ghost use Rattle.closing_word.specs.Place.{IsWithWord};

    ghost Value = { TableId };

    ghost view = { λ w. w.board.shared.table_id };

    ghost invariant = { λ w. IsWithWord w.board.shared.table_id };
}

/// What alone can close a word. It may be sent to another thread.
///
/// Contracts see the table of the word.
#[derive(Drop)]
pub struct Closer {
    place: Place,
}

impl Model for Closer {
    ghost use Rattle.std.specs.Prelude.{◌≡◌, true};
    ghost use Rattle.atomic_table.specs.Seated.{TableId};
    ghost use Rattle.closing_word.specs.Place.{IsPlaceAt};

    ghost Value = { TableId };

    ghost view = { λ c. c.place.table_id };

    ghost invariant = { λ c. IsPlaceAt c.place.table_id c.place × (c.place.me.0.is_closer ≡ true) };
}

/// A token that a word was closed. It may be sent to another thread.
///
/// Contracts see the table of the word. Invariant: the word is closed.
#[derive(Drop)]
pub struct Closed {
    place: Place,
}

impl Model for Closed {
    ghost use Rattle.std.specs.Prelude.{◌≡◌, true};
    ghost use Rattle.atomic_table.specs.Seated.{TableId};
    ghost use Rattle.closing_word.specs.Place.{IsPlaceAt};

    ghost Value = { TableId };

    ghost view = { λ c. c.place.table_id };

    ghost invariant = { λ c. IsPlaceAt c.place.table_id c.place × (c.place.me.0.is_closed ≡ true) };
}

impl ClosingWord {
    /// An open word, and what can close it. Returns `AllocError` if an allocation fails; nothing stays allocated then.
    pub fn open(alloc: Global) -> Result<(ClosingWord, Closer), AllocError>
        ensures { IfOk result (λ pair. pair.1 ≡ pair.0) }
    {
        let (board, place) = board::open(alloc)?;
        Ok((ClosingWord { board }, Closer { place }))
    }

    /// Closes the word. From now on each call of `closed` returns a token.
    pub fn close(&self, closer: &mut Closer)
        requires { closer.old ≡ self.now }
        ensures { closer.new ≡ closer.old }
    {
        board::close(&self.board, &mut closer.place);
    }

    /// Returns a token if the word is closed.
    pub fn closed(&self) -> Option<Closed>
        ensures { IfSome result (λ closed. closed ≡ self.now) }
    {
        let place = board::look(&self.board)?;
        Some(Closed { place })
    }
}
