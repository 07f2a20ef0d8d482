ghost use Rattle.std.specs.Prelude.{◌≡◌, ◌++◌, ◌↔◌, ◌<◌, ◌≤◌, ◌+◌, [], length, map, slice_get, IfOk, IfNone, IfSome, IsSome, None, Some, option_to_list};
ghost use Rattle.rendezvous.specs.Picks.{topic_of};
ghost use Rattle.rendezvous.specs.Stages.{gave, took};
ghost use Rattle.rendezvous.specs.Meetings.{convener_view, place_view, places_view, receipt_of, results_view, round_id, stage_of, without_next, AllSuit, AreOfAll, GotAll, IsPlaceOf, ArePlacesOf};
ghost use Rattle.rendezvous.specs.Rule.{takers};
ghost use Rattle.rendezvous.specs.Reports.{IfLast, OnNotLast};

use crate::place::{Place, Receipt};
use crate::results::{Reported, Results};
use crate::rule::{First, Picked, Topic};
use crate::steps::{self, Board, Chair};
use std::alloc::{AllocError, Global};
use std::marker::Model;

/// A meeting that several threads share. In each of its rounds several places report, each once; the last one to report gets all
/// reports. No lock is taken: a report is one atomic step on a count. Only `open` allocates, and no call waits.
///
/// In contracts: its table, which has a slot for each place that a round may have.
#[derive(Drop)]
pub struct Meeting<R: Drop, T: Topic<R>> {
    board: Board<R, T>,
}

impl<R: Drop, T: Topic<R>> Model for Meeting<R, T> {
    ghost use Rattle.std.specs.Prelude.{◌<◌};
    ghost use Rattle.atomic_table.specs.Seated.{TableId, table_id_coded};

    ghost Value = { TableId };

    ghost coded = { table_id_coded };

    ghost view = { λ m. m.board.shared.table_id };

    ghost invariant = { λ m. 0 < m.board.shared.table_id.words };
}

/// The right to convene the next round of a meeting. There is one, and it is with whoever got the results of the round before.
///
/// In contracts: the meeting, and the number of rounds so far.
#[derive(Drop)]
pub struct Convener<R: Drop, T: Topic<R>> {
    pub(crate) seat: Chair<R, T>,
}

impl<R: Drop, T: Topic<R>> Model for Convener<R, T> {
    ghost use Rattle.rendezvous.specs.Meetings.{ConvenerView, coded_convener, convener_view, IsConvener};

    ghost Value = { ConvenerView };

    ghost coded = { coded_convener };

    ghost view = { λ c. convener_view c.seat.table_id c.seat.me.0.round };

    ghost invariant = { λ c. IsConvener c.seat };
}

/// The places of a round that were not handed out yet.
///
/// In contracts: the round, the number of the first of these places, and how many there are.
#[derive(Drop)]
pub struct Places<R: Drop, T: Topic<R>> {
    seat: Chair<R, T>,
    places: usize,
    next: usize,
}

impl<R: Drop, T: Topic<R>> Model for Places<R, T> {
    ghost use Rattle.std.specs.Prelude.{◌-◌};
    ghost use Rattle.rendezvous.specs.Meetings.{PlacesView, places_view, coded_places, round_at, ArePlacesOf};

    ghost Value = { PlacesView T };

    ghost coded = { coded_places T.code };

    ghost view = { λ p. places_view (round_at p.seat) p.next (p.places - p.next) };

    ghost invariant = { λ p. ArePlacesOf p.places p.next p.seat };
}

impl<R: Drop, T: Topic<R>> Meeting<R, T> {
    /// Opens a meeting whose rounds have at most this many places, and returns it with the right to convene its first round. An
    /// error is an allocation that failed; nothing is left then.
    pub fn open(alloc: Global, most: usize) -> Result<(Meeting<R, T>, Convener<R, T>), AllocError>
        ensures most { IfOk result (λ pair. pair.0.slots ≡ most) }
        ensures convener { IfOk result (λ pair. pair.1 ≡ convener_view pair.0 0) }
    {
        let (board, seat) = steps::open(alloc, most)?;
        Ok((Meeting { board }, Convener { seat }))
    }

    /// Convenes a round of this many places. Returns its places. What the round is about is P's topic, which the caller's proof picks
    /// from `_from`. Never allocates or waits.
    pub fn convene<A, P: Picked<T>>(
        &self,
        convener: Convener<R, T>,
        places: usize,
        _from: &A,
    ) -> Places<R, T>
        requires here { convener.meeting ≡ self.now }
        requires some { 1 ≤ places }
        requires room { places ≤ self.now.slots }
        ensures { result ≡ places_view
            (round_id self.now (convener.round + 1) places (topic_of P.topic)) 0 places }
    {
        let Convener { mut seat } = convener;
        steps::convene::<R, T, P>(&self.board, &mut seat, places);
        Places {
            seat,
            places,
            next: 0,
        }
    }

    /// Hands out the next place of a round; returns `None` if all are handed out.
    pub fn hand_out(&self, places: &mut Places<R, T>) -> Option<Place<R, T>>
        requires here { places.old.of_round.meeting ≡ self.now }
        ensures none { IfNone result ((places.old.left ≡ 0) × (places.new ≡ places.old)) }
        ensures some { IfSome result (λ place. (0 < places.old.left)
            × (place ≡ place_view places.old.of_round places.old.next)
            × (places.new ≡ without_next places.old)) }
    {
        let number = places.next;
        if number == places.places {
            return None;
        }
        let mut seat = steps::part(&self.board, &mut places.seat);
        steps::sit::<R, T, First>(&self.board, &mut seat, 0);
        places.next += 1;
        Some(Place {
            places: places.places,
            number,
            seat,
        })
    }

    /// Reports for a place. The report of the last place gets all reports of the round. Never allocates or waits.
    pub fn report(&self, place: Place<R, T>, own: R) -> (Reported<R, T>, Receipt<R, T>)
        requires here { place.of_round.meeting ≡ self.now }
        requires suits { (topic : T) → place.of_round.topic ≡ Some topic
            → T.suits topic place.number own }
        ensures not_last { OnNotLast result.0 (result.1 ≡ receipt_of place (gave own)) }
        ensures round { IfLast result.0 (λ results.
            (results.meeting ≡ self.now) × (results.round ≡ place.of_round.round)) }
        ensures all { IfLast result.0 (λ results. length results.items ≡ place.of_round.places) }
        ensures own { IfLast result.0 (λ results. slice_get results.items place.number ≡ Some own) }
        ensures suit { IfLast result.0 (λ results. (topic : T) → place.of_round.topic ≡ Some topic
            → AllSuit (T.suits topic) results.items) }
        ensures last { IfLast result.0 (λ results.
            result.1 ≡ receipt_of place (took own results.items)) }
    {
        let Place {
            places,
            number,
            mut seat,
        } = place;
        if steps::tell::<R, T, First>(&self.board, &mut seat, number, own) != 1 {
            return (Reported::NotLast, Receipt { seat });
        }
        let receipt = Receipt {
            seat: steps::resign(&self.board, &mut seat),
        };
        let results = Results {
            seat,
            next: 0,
            left: places,
        };
        (Reported::Last(results), receipt)
    }

    /// Takes out the result of the first place that has one left. Never allocates or waits.
    pub fn next_result(&self, results: &mut Results<R, T>) -> Option<R>
        requires here { results.old.meeting ≡ self.now }
        ensures same { (results.new.meeting ≡ results.old.meeting)
            × (results.new.round ≡ results.old.round) }
        ensures items { results.old.items ≡ option_to_list result ++ results.new.items }
        ensures some { IsSome result ↔ (0 < length results.old.items) }
    {
        if results.left == 0 {
            return None;
        }
        let own = steps::take(&self.board, &mut results.seat, results.next);
        results.next += 1;
        results.left -= 1;
        own
    }

    /// Establishes for contracts: of the reports of all places of a round exactly one was answered `Last`, and it got what all have
    /// reported, by place.
    pub fn compare(&self, round: usize, mut receipts: Vec<Receipt<R, T>>)
        requires all { AreOfAll self.now round (length receipts.items) 0 receipts.items }
        requires some { 0 < length receipts.items }
        ensures one { takers (map stage_of receipts.items) ≡ 1 }
        ensures all { GotAll (map stage_of receipts.items) }
    {
        let Some(last) = receipts.pop() else {
            unreachable!()
        };
        let mut seat = last.into_seat();
        while let Some(receipt) = receipts.pop() {
            let mut before = receipt.into_seat();
            steps::gather(&self.board, &mut before, seat);
            seat = before;
        }
        steps::look(&self.board, &mut seat);
    }
}
