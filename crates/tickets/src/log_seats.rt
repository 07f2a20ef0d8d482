//! The log's seats of all groups.
ghost use Rattle.std.specs.Prelude.{◌≡◌, ℕ, ◌+◌, ◌-◌, ◌*◌, ◌<◌, ◌≤◌, All, map};
ghost use Rattle.tickets.specs.Claims.{settled, all_claims};
ghost use Rattle.tickets.specs.Committed.{all_settled};
ghost use Rattle.tickets.specs.LogSeats.{after_all, after_one, IsRecordedIn};
ghost use Rattle.tickets.specs.Places as spec;

use crate::places::place_of;
use crate::{Claim, Claims, GroupNames, LogSeat};
use std::marker::Model;

/// The log's seats of all groups that exist.
///
/// In contracts: each group with its committed content. A claim is always on one of these groups, so
/// calls have no requirement. A group's seat is found by its place.
#[derive(Drop)]
pub struct LogSeats<J: GroupNames> {
    seats: Vec<LogSeat<J>>,
}

impl<J: GroupNames> Model for LogSeats<J> {
    ghost use Rattle.std.specs.Coded.{codes};
    ghost use Rattle.std.specs.Prelude.{List};
    ghost use Rattle.groups.specs.contracts.content.Content as content;
    ghost use Rattle.tickets.specs.LogSeats.{CommittedGroup};

    ghost Value = { List CommittedGroup };

    ghost coded = { Prim.hlevel (codes, content.the_row.coded) };

    ghost use Rattle.tickets.specs.Places.{AreInPlace};

    ghost view = { λ l. l.seats.items };

    ghost invariant = { λ l. AreInPlace J.warehouses l.seats.items };
}

impl<J: GroupNames> LogSeats<J> {
    /// Makes the log's seats from the seats of all groups, each at its group's place.
    pub fn new(seats: Vec<LogSeat<J>>) -> LogSeats<J>
        requires { spec.AreInPlace J.warehouses seats.items }
        ensures { result ≡ seats.items }
    {
        LogSeats { seats }
    }

    /// Shows that a claim records the committed content of its group. Changes nothing.
    pub fn look(&mut self, claim: &mut Claim<J>)
        ensures recorded { IsRecordedIn self.old claim.old }
        ensures same { (self.new ≡ self.old) × (claim.new ≡ claim.old) }
    {
        let place = place_of::<J>(claim.group);
        self.seats[place].look(claim);
    }

    /// Commits what an exclusive claim left in its group. A shared claim changes nothing.
    pub fn settle(&mut self, claim: &mut Claim<J>)
        ensures recorded { IsRecordedIn self.old claim.old }
        ensures contents { self.new ≡ map (after_one claim.old) self.old }
        ensures claim { claim.new ≡ settled claim.old }
    {
        let place = place_of::<J>(claim.group);
        self.seats[place].settle(claim);
    }

    /// Shows that the claims record the committed contents of their groups. Changes nothing.
    pub fn look_all(&mut self, claims: &mut [Claim<J>])
        ensures recorded { All (IsRecordedIn self.old) claims.old }
        ensures same { (self.new ≡ self.old) × (claims.new ≡ claims.old) }
    {
        for k in 0..claims.len() {
            self.look(&mut claims[k]);
        }
    }

    /// Commits what the exclusive claims among these left in their groups.
    pub fn settle_all(&mut self, claims: &mut [Claim<J>])
        ensures contents { self.new ≡ map (after_all claims.old) self.old }
        ensures claims { claims.new ≡ all_settled claims.old }
    {
        let count = claims.len();
        for k in 0..count {
            self.settle(&mut claims[k]);
        }
    }

    /// Shows that the claims of these actions record the committed contents of their groups. Changes
    /// nothing.
    pub fn look_each(&mut self, held: &mut [Claims<J>])
        ensures recorded { All (IsRecordedIn self.old) (all_claims held.old) }
        ensures same { (self.new ≡ self.old) × (held.new ≡ held.old) }
    {
        for k in 0..held.len() {
            self.look_action(&mut held[k]);
        }
    }

    /// Commits what the exclusive claims of these actions left in their groups.
    pub fn settle_each(&mut self, held: &mut [Claims<J>])
        ensures contents { self.new ≡ map (after_all (all_claims held.old)) self.old }
        ensures claims { held.new ≡ map all_settled held.old }
    {
        let actions = held.len();
        for k in 0..actions {
            self.settle_action(&mut held[k]);
        }
    }

    fn look_action(&mut self, action: &mut Claims<J>)
        ensures recorded { All (IsRecordedIn self.old) action.old }
        ensures same { (self.new ≡ self.old) × (action.new ≡ action.old) }
    {
        self.look_all(action.claims.as_mut_slice());
    }

    fn settle_action(&mut self, action: &mut Claims<J>)
        ensures contents { self.new ≡ map (after_all action.old) self.old }
        ensures claims { action.new ≡ all_settled action.old }
    {
        self.settle_all(action.claims.as_mut_slice());
    }
}
