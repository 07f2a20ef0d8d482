ghost use Rattle.std.specs.Prelude.{◌≡◌, ◌+◌, ◌≤◌, ◌<◌, ◌^◌, max, IfOk};
ghost use Rattle.length_word.specs.LengthView.{length_view};

use crate::places::{self, Board, Place};
use std::alloc::{AllocError, Global};
use std::marker::Model;
use std::sync::Arc;

/// The length of a log, from 0 to 2^32 - 1 entries. The log owns it, and lets it grow by one with each
/// entry.
#[derive(Drop)]
pub struct Length {
    board: Board,
    entries: u32,
    place: Place,
}

impl Model for Length {
    ghost use Rattle.std.specs.Prelude.{◌≡◌};
    ghost use Rattle.std.specs.Arc.{arc_value};
    ghost use Rattle.length_word.specs.Rule.{log_view};
    ghost use Rattle.length_word.specs.Place.{IsPlaceAt};
    ghost use Rattle.length_word.specs.LengthView.{LengthView, length_view};

    ghost Value = { LengthView };

    ghost view = { λ l. length_view l.place.table_id l.entries };

    ghost invariant = { λ l. (IsPlaceAt (arc_value l.board).shared.table_id l.place) × (l.place.me.0 ≡ log_view l.entries) };
}

/// A number of entries that a log has reached: the length is this or more from now on. A mark may be
/// sent to another thread.
#[derive(Drop)]
pub struct Mark {
    board: Board,
    entries: u32,
    place: Place,
}

impl Model for Mark {
    ghost use Rattle.std.specs.Prelude.{◌≡◌};
    ghost use Rattle.std.specs.Arc.{arc_value};
    ghost use Rattle.length_word.specs.Rule.{mark_view};
    ghost use Rattle.length_word.specs.Place.{IsPlaceAt};
    ghost use Rattle.length_word.specs.LengthView.{LengthView, length_view};

    ghost Value = { LengthView };

    ghost view = { λ m. length_view m.place.table_id m.entries };

    ghost invariant = { λ m. (IsPlaceAt (arc_value m.board).shared.table_id m.place) × (m.place.me.0 ≡ mark_view m.entries) };
}

impl Length {
    /// The length of an empty log. Returns `AllocError` if an allocation fails; nothing stays allocated
    /// then.
    pub fn open(alloc: Global) -> Result<Length, AllocError>
        ensures { IfOk result (λ length. length.entries ≡ 0) }
    {
        let (board, place) = places::open(alloc)?;
        Ok(Length {
            board,
            entries: 0,
            place,
        })
    }

    /// Returns a new mark, which records the current length. Allocates nothing, and fails only if the
    /// length has more marks than an `Arc` can count.
    pub fn mark(&mut self) -> Result<Mark, AllocError>
        ensures same { self.new ≡ self.old }
        ensures mark { IfOk result (λ mark. mark ≡ self.old) }
    {
        let board = Arc::try_clone(&self.board)?;
        let place = places::copy(&self.board, &mut self.place);
        Ok(Mark {
            board,
            entries: self.entries,
            place,
        })
    }

    /// The number of entries of the log.
    pub fn entries(&self) -> u32
        ensures { result ≡ self.now.entries }
    {
        self.entries
    }

    /// Adds one to the length.
    pub fn grow(&mut self)
        requires { self.old.entries + 1 < 2 ^ 32 }
        ensures { self.new ≡ length_view self.old.table (self.old.entries + 1) }
    {
        self.entries += 1;
        places::lengthen(&self.board, &mut self.place, self.entries);
    }

    /// Shows that a mark records at most the length. Changes neither.
    pub fn check(&mut self, mark: &mut Mark)
        requires { mark.old.table ≡ self.old.table }
        ensures below { mark.old.entries ≤ self.old.entries }
        ensures same { (self.new ≡ self.old) × (mark.new ≡ mark.old) }
    {
        let note = places::copy(&mark.board, &mut mark.place);
        places::take_in(&self.board, &mut self.place, note);
        places::compare(&self.board, &mut self.place);
    }

    /// Sets the mark to the current length.
    pub fn show(&mut self, mark: &mut Mark)
        requires { mark.old.table ≡ self.old.table }
        ensures same { self.new ≡ self.old }
        ensures shown { mark.new ≡ self.old }
    {
        mark.place = places::copy(&self.board, &mut self.place);
        mark.entries = self.entries;
    }
}

impl Mark {
    /// The number of entries that the mark records.
    pub fn entries(&self) -> u32
        ensures { result ≡ self.now.entries }
    {
        self.entries
    }

    // Sets the mark to the number that another mark records.
    fn learn(&mut self, other: &mut Mark)
        requires { other.old.table ≡ self.old.table }
        ensures learnt { self.new ≡ other.old }
        ensures same { other.new ≡ other.old }
    {
        self.place = places::copy(&other.board, &mut other.place);
        self.entries = other.entries;
    }
}

/// Sets both marks to the larger of their two numbers. Never waits.
pub fn meet(one: &mut Mark, other: &mut Mark)
    requires { one.old.table ≡ other.old.table }
    ensures one { one.new ≡ length_view one.old.table (max one.old.entries other.old.entries) }
    ensures other { other.new
        ≡ length_view other.old.table (max one.old.entries other.old.entries) }
{
    if one.entries < other.entries {
        one.learn(other);
    } else {
        other.learn(one);
    }
}
