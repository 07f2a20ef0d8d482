ghost use Rattle.std.specs.Prelude.{◌≡◌, ◌<◌, ◌≤◌, ◌++◌, ◌↔◌, [], length, map, replicate, slice_get, slice_set, IsSome, None, Some, option_to_list};
ghost use Rattle.rendezvous.specs.Awaited.{awaited_from};
ghost use Rattle.rendezvous.specs.SoleReports.{IfLast, IsLast, OnNotLast};

use crate::rule::Anything;
use crate::steps::{self, Board, Chair};
use std::alloc::{AllocError, Global};
use std::marker::{Brand, Model};

/// A meeting of which one owner has all places. In each of its rounds each place reports once, and the last report gets all reports.
/// Only `SoleConvener::open` allocates, and no call waits.
///
/// In contracts: each place's report, if it has reported; the empty list once all have.
#[derive(Drop)]
pub struct SoleMeeting<R: Drop, const MOST: usize> {
    // None once all places have reported.
    round: Option<Round<R>>,
}

// A round that is not over.
#[derive(Drop)]
struct Round<R: Drop> {
    board: Board<R, Anything>,
    places: usize,
    seat: Chair<R, Anything>,
}

impl<R: Drop, const MOST: usize> Model for SoleMeeting<R, MOST> {
    ghost use Rattle.std.specs.Prelude.{List, Option};
    ghost use Rattle.std.specs.Coded.{coded_list, coded_option};

    ghost Value = { List (Option R) };

    ghost coded = { coded_list (coded_option R.code) };

    ghost use Rattle.std.specs.Prelude.{IfSome};
    ghost use Rattle.rendezvous.specs.Sole.{reports_of, HasRound};

    ghost view = { λ m. reports_of m.round (λ r. r.seat.me.0.stages) };

    ghost invariant = { λ m. IfSome m.round
        (λ r. HasRound r.board.shared.table_id MOST r.places r.seat) };
}

/// The right to convene the next round of a `SoleMeeting`. A round has at most `MOST` places.
///
/// Contracts see nothing of it.
#[derive(Drop)]
pub struct SoleConvener<R: Drop, const MOST: usize> {
    board: Board<R, Anything>,
    seat: Chair<R, Anything>,
}

impl<R: Drop, const MOST: usize> Model for SoleConvener<R, MOST> {
    ghost use base.Stored.{coded_unit};

    ghost Value = { Unit {0} };

    ghost coded = { coded_unit };

    ghost use Rattle.rendezvous.specs.Sole.{MayConvene};

    ghost view = { λ _. tt };

    ghost invariant = { λ c. MayConvene c.board.shared.table_id MOST c.seat };
}

/// What all places of a round of a `SoleMeeting` have reported.
///
/// In contracts: the results that are left, by place.
#[derive(Drop)]
pub struct SoleResults<R: Drop, const MOST: usize> {
    board: Board<R, Anything>,
    seat: Chair<R, Anything>,
    // The place whose result is the next to go, and how many are left.
    next: usize,
    left: usize,
}

impl<R: Drop, const MOST: usize> Model for SoleResults<R, MOST> {
    ghost use Rattle.std.specs.Prelude.{List};
    ghost use Rattle.std.specs.Coded.{coded_list};

    ghost Value = { List R };

    ghost coded = { coded_list R.code };

    ghost use Rattle.rendezvous.specs.Hands.{held};
    ghost use Rattle.rendezvous.specs.Sole.{HasRoundResults};

    ghost view = { λ r. held r.seat.me.1 };

    ghost invariant = { λ r. HasRoundResults r.board.shared.table_id MOST r.next r.left r.seat };
}

/// The answer to a report to a `SoleMeeting`.
#[derive(Drop)]
pub enum SoleReported<R: Drop, const MOST: usize> {
    /// Another place has not reported yet.
    NotLast,
    /// All places have reported. The round is over.
    Last(SoleResults<R, MOST>),
}

impl<R: Drop, const MOST: usize> SoleConvener<R, MOST> {
    /// Opens a meeting, and returns the right to convene its first round. An error is an allocation that failed; nothing is left then.
    pub fn open(alloc: Global) -> Result<SoleConvener<R, MOST>, AllocError> {
        let (board, seat) = steps::open(alloc, MOST)?;
        Ok(SoleConvener { board, seat })
    }

    /// Convenes a round of this many places. None of them has reported. Never allocates or waits.
    pub fn convene(self, places: usize) -> SoleMeeting<R, MOST>
        requires some { 1 ≤ places }
        requires room { places ≤ MOST }
        ensures { result ≡ replicate places None }
    {
        let SoleConvener { board, mut seat } = self;
        steps::convene::<R, Anything, Brand>(&board, &mut seat, places);
        SoleMeeting {
            round: Some(Round {
                board,
                places,
                seat,
            }),
        }
    }
}

impl<R: Drop, const MOST: usize> SoleMeeting<R, MOST> {
    /// Reports for a place, which has not reported yet. Returns all results exactly if no other place is
    /// awaited; the round is over then. Never allocates or waits.
    pub fn report(&mut self, place: usize, own: R) -> SoleReported<R, MOST>
        requires { slice_get self.old place ≡ Some None }
        ensures last { IsLast result ↔ (awaited_from 0 (slice_set self.old place (Some own)) ≡ []) }
        ensures meeting { OnNotLast result (self.new ≡ slice_set self.old place (Some own)) }
        ensures results { IfLast result
            (λ results. map Some results ≡ slice_set self.old place (Some own)) }
        ensures over { IfLast result (λ _. self.new ≡ []) }
    {
        let Some(round) = self.round.take() else {
            unreachable!()
        };
        let Round {
            board,
            places,
            mut seat,
        } = round;
        steps::sit::<R, Anything, Brand>(&board, &mut seat, place);
        let awaited = steps::tell::<R, Anything, Brand>(&board, &mut seat, place, own);
        if awaited != 1 {
            self.round = Some(Round {
                board,
                places,
                seat,
            });
            return SoleReported::NotLast;
        }
        SoleReported::Last(SoleResults {
            board,
            seat,
            next: 0,
            left: places,
        })
    }
}

impl<R: Drop, const MOST: usize> SoleResults<R, MOST> {
    /// Returns the number of results that are left.
    pub fn len(&self) -> usize
        ensures { result ≡ length self.now }
    {
        self.left
    }

    /// Removes and returns the result of the first place that has one left. Never allocates or waits.
    pub fn next(&mut self) -> Option<R>
        ensures results { self.old ≡ option_to_list result ++ self.new }
        ensures some { IsSome result ↔ (0 < length self.old) }
    {
        if self.left == 0 {
            return None;
        }
        let own = steps::take(&self.board, &mut self.seat, self.next);
        self.next += 1;
        self.left -= 1;
        own
    }

    /// Returns the right to convene the next round. All results were taken out.
    pub fn finish(self) -> SoleConvener<R, MOST>
        requires { self ≡ [] }
    {
        let SoleResults { board, seat, .. } = self;
        SoleConvener { board, seat }
    }
}
