ghost use Rattle.std.specs.Prelude.{◌≡◌, ◌+◌, ◌-◌, ◌<◌, ◌≤◌, IfOk};
ghost use Rattle.agreement.specs.SeatView.{with_share, with_value, IsSpent};

use crate::places::{self, Board, Place};
use crate::{Change, Value};
use std::alloc::{AllocError, Global};
use std::marker::Model;
use std::sync::Arc;

/// A seat of an agreement. If it has a share, its value is the agreement's value. A seat without a share
/// is *spent*, and its value means nothing.
///
/// All seats of an agreement that have a share have the same value, and their shares add up to the
/// number with which the agreement was opened. A seat may be sent to another thread. A share that is
/// dropped with its seat is lost for good: from then on no seat can have all shares, and the agreement
/// never changes again.
#[derive(Drop)]
pub struct Seat<V: Value> {
    board: Board<V>,
    place: Place<V>,
}

impl<V: Value> Model for Seat<V> {
    ghost use Rattle.std.specs.Arc.{arc_value};
    ghost use Rattle.agreement.specs.SeatView.{SeatView};
    ghost use Rattle.agreement.specs.Place.{IsPlaceAt, recorded_at};

    ghost Value = { SeatView V };

    ghost view = { λ s. recorded_at s.place };

    ghost invariant = { λ s. IsPlaceAt (arc_value s.board).shared.table_id s.place };
}

impl<V: Value> Seat<V> {
    /// Opens a new agreement with `count` shares and the value `V::initial`. Returns the seat that has
    /// all shares. Returns `AllocError` if an allocation fails; nothing stays allocated then.
    pub fn open(alloc: Global, count: u64) -> Result<Seat<V>, AllocError>
        requires { 0 < count }
        ensures count { IfOk result (λ seat. seat.agreement.count ≡ count) }
        ensures share { IfOk result (λ seat. seat.share ≡ count) }
        ensures value { IfOk result (λ seat. seat.value ≡ V.initial) }
    {
        let (board, place) = places::open(alloc, count)?;
        Ok(Seat { board, place })
    }

    /// Returns one more seat of the agreement, which is spent. Allocates nothing, and fails only if the
    /// agreement has more seats than an `Arc` can count. `self` is unchanged, also after an error.
    pub fn another(&mut self) -> Result<Seat<V>, AllocError>
        ensures same { self.new ≡ self.old }
        ensures spent { IfOk result (IsSpent self.old.agreement) }
    {
        let board = Arc::try_clone(&self.board)?;
        let place = places::cut::<V, 0>(&self.board, &mut self.place);
        Ok(Seat { board, place })
    }

    /// Gives N shares to another seat of the agreement, which may be spent. Afterwards the other seat
    /// has this seat's value.
    pub fn give<const N: u64>(&mut self, other: &mut Seat<V>)
        requires beside { other.old.agreement ≡ self.old.agreement }
        requires some { 0 < N }
        requires enough { N ≤ self.old.share }
        ensures mine { self.new ≡ with_share self.old (self.old.share - N) }
        ensures theirs { other.new ≡ with_share self.old (other.old.share + N) }
    {
        let shares = places::cut::<V, N>(&self.board, &mut self.place);
        places::refill(&self.board, &mut other.place, shares);
    }

    /// Takes all shares of another seat of the agreement. Both had the same value. The other seat is
    /// spent afterwards.
    pub fn gather(&mut self, other: &mut Seat<V>)
        requires beside { other.old.agreement ≡ self.old.agreement }
        requires some { (0 < self.old.share) × (0 < other.old.share) }
        ensures equal { other.old.value ≡ self.old.value }
        ensures at_most_all { self.old.share + other.old.share ≤ self.old.agreement.count }
        ensures mine { self.new ≡ with_share self.old (self.old.share + other.old.share) }
        ensures theirs { IsSpent self.old.agreement other.new }
    {
        places::gather(&self.board, &mut self.place, &mut other.place);
    }

    /// Shows that another seat of the agreement has the same value, and that the two together have at
    /// most all shares. Changes neither seat.
    pub fn look(&mut self, other: &mut Seat<V>)
        requires beside { other.old.agreement ≡ self.old.agreement }
        requires some { (0 < self.old.share) × (0 < other.old.share) }
        ensures equal { other.old.value ≡ self.old.value }
        ensures at_most_all { self.old.share + other.old.share ≤ self.old.agreement.count }
        ensures same { (self.new ≡ self.old) × (other.new ≡ other.old) }
    {
        let Seat { board, place } = self;
        places::gather(board, place, &mut other.place);
        other.place = places::hand_back(board, place);
    }

    /// Changes the value. Requires that the seat has all shares of the agreement.
    pub fn change<C: Change<V>>(&mut self, change: &C)
        requires all { self.old.share ≡ self.old.agreement.count }
        ensures { self.new ≡ with_value self.old (C.changed change.now self.old.value) }
    {
        places::change(&self.board, &mut self.place, change);
    }

    /// Changes the value. Requires that this seat and another have all shares of the agreement between
    /// them. Each keeps its own share, and both have the new value afterwards.
    pub fn change_together<C: Change<V>>(&mut self, other: &mut Seat<V>, change: &C)
        requires beside { other.old.agreement ≡ self.old.agreement }
        requires some { (0 < self.old.share) × (0 < other.old.share) }
        requires all { self.old.share + other.old.share ≡ self.old.agreement.count }
        ensures equal { other.old.value ≡ self.old.value }
        ensures mine { self.new ≡ with_value self.old (C.changed change.now self.old.value) }
        ensures theirs { other.new ≡ with_value other.old (C.changed change.now self.old.value) }
    {
        let Seat { board, place } = self;
        places::gather(board, place, &mut other.place);
        places::change(board, place, change);
        other.place = places::hand_back(board, place);
    }
}

/// The change to the value of a seat of another agreement on values of this type.
impl<V: Value> Change<V> for Seat<V> {
    ghost changed = { λ seat before. seat.value };
}
