ghost use Rattle.std.specs.Prelude.{◌≡◌, [], ◌∷◌};
ghost use Rattle.rendezvous.specs.Meetings.{HasPlaces};
ghost use Rattle.rendezvous.specs.Rule.{awaited};
ghost use Rattle.rendezvous.specs.Seats.{IsAt};

use crate::rule::Topic;
use crate::steps::Chair;
use std::marker::Model;

/// A place of a round that has not reported. It can't be copied, it is spent by its report, and it may go to another thread.
///
/// In contracts: the round, and the number of the place, from 0.
#[derive(Drop)]
pub struct Place<R: Drop, T: Topic<R>> {
    pub(crate) places: usize,
    pub(crate) number: usize,
    pub(crate) seat: Chair<R, T>,
}

impl<R: Drop, T: Topic<R>> Model for Place<R, T> {
    ghost use Rattle.rendezvous.specs.Meetings.{PlaceView, place_view, coded_place, round_at, IsPlaceOf};

    ghost Value = { PlaceView T };

    ghost coded = { coded_place T.code };

    ghost view = { λ p. place_view (round_at p.seat) p.number };

    ghost invariant = { λ p. IsPlaceOf p.places p.number p.seat };
}

/// What is left of a place that has reported. It has no bytes, and nobody has to keep it.
///
/// In contracts: the meeting, the number of the round, its number of places, the number of the place, its result, and what it was answered.
#[derive(Drop)]
pub struct Receipt<R: Drop, T: Topic<R>> {
    pub(crate) seat: Chair<R, T>,
}

impl<R: Drop, T: Topic<R>> Model for Receipt<R, T> {
    ghost use Rattle.rendezvous.specs.Meetings.{ReceiptView, receipt_view, coded_receipt, first_stage, IsReceipt};

    ghost Value = { ReceiptView R };

    ghost coded = { coded_receipt R.code };

    ghost view = { λ r. receipt_view r.seat.table_id r.seat.me.0.round r.seat.me.0.size r.seat.me.0.from (first_stage r.seat.me.0.stages) };

    ghost invariant = { λ r. IsReceipt r.seat };
}

impl<R: Drop, T: Topic<R>> Place<R, T> {
    /// Returns its number, from 0.
    pub fn number(&self) -> usize
        ensures { result ≡ self.now.number }
    {
        self.number
    }
}

impl<R: Drop, T: Topic<R>> Receipt<R, T> {
    // Its seat, which has its one place.
    pub(crate) fn into_seat(self) -> Chair<R, T>
        ensures seat { IsAt self.meeting result }
        ensures one { HasPlaces self.round self.places self.number (self.stage ∷ []) result.me }
        ensures reported { awaited (self.stage ∷ []) ≡ 0 }
    {
        let Receipt { seat } = self;
        seat
    }
}
