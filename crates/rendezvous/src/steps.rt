//! The single steps of a seat at the table of a meeting.
ghost use Rattle.std.specs.Prelude.{◌≡◌, ◌+◌, ◌<◌, ◌≤◌, [], ◌∷◌, ◌++◌, length, IfOk, None, Some, Option, true};
ghost use mathlib.Core.Option.{some};
ghost use lib.ListN.{get_elem?};
ghost use Rattle.atomic_table.specs.Table.{rest};
ghost use Rattle.rendezvous.specs.Picks.{offset_of, topic_of};
ghost use Rattle.rendezvous.specs.Stages.{waits, sits};
ghost use Rattle.rendezvous.specs.Rule.{at_first, awaited, both, empty_slots, first_of, others, IsConvened, IsReported, IsSeated, IsSettled, IsWhole};
ghost use Rattle.rendezvous.specs.Seats.{IsAt};

use crate::rule::{AllReport, Convenes, Gathers, Looks, Parts, Picked, Sits, Tells, Topic, View};
use atomic_table::{Seat, Table};
use std::alloc::{AllocError, Global};

/// The table of a meeting. Its one word is the number of places that have not reported, and each place has a slot for its result.
pub type Board<R, T> = Table<Option<R>, View<R, T>, (), AllReport, Global>;

pub type Chair<R, T> = Seat<Option<R>, View<R, T>>;

/// The table of a new meeting, and a seat that may convene its first round. An error is an allocation that failed.
pub fn open<R: Drop, T: Topic<R>>(
    alloc: Global,
    slots: usize,
) -> Result<(Board<R, T>, Chair<R, T>), AllocError>
    ensures seat { IfOk result (λ pair. IsAt pair.0.shared.table_id pair.1) }
    ensures slots { IfOk result (λ pair. pair.0.shared.table_id.slots ≡ slots) }
    ensures knows { IfOk result (λ pair. pair.1.me ≡ (at_first, [])) }
{
    Table::vacant(alloc, &[0], slots, &())
}

/// Convenes a round of so many places. The seat has all of them then.
pub fn convene<R: Drop, T: Topic<R>, J: Picked<T>>(
    board: &Board<R, T>,
    seat: &mut Chair<R, T>,
    places: usize,
)
    requires seat { IsAt board.now.shared.table_id seat.old }
    requires convenes { seat.old.me.0.convenes ≡ true }
    requires hand { seat.old.me.1 ≡ empty_slots 0 seat.old.me.0.size }
    requires some { 1 ≤ places }
    requires room { places ≤ board.now.shared.table_id.slots }
    ensures seat { IsAt board.now.shared.table_id seat.new }
    ensures convened { IsConvened (topic_of J.topic) places seat.old.me seat.new.me }
{
    board.shared.store::<Convenes<J>>(seat, 0, places as u64);
}

/// A new seat, to which the first place goes, which waits.
pub fn part<R: Drop, T: Topic<R>>(board: &Board<R, T>, seat: &mut Chair<R, T>) -> Chair<R, T>
    requires seat { IsAt board.now.shared.table_id seat.old }
    requires first { get_elem? seat.old.me.0.stages 0 ≡ some waits }
    ensures seat { IsAt board.now.shared.table_id seat.new }
    ensures left { seat.new.me ≡ (others seat.old.me.0, seat.old.me.1) }
    ensures new_seat { IsAt board.now.shared.table_id result }
    ensures part { result.me ≡ (first_of seat.old.me.0, []) }
{
    board.shared.split_seat::<Parts>(seat)
}

/// A new seat, to which the first place goes; all places of the seat have reported.
pub fn resign<R: Drop, T: Topic<R>>(board: &Board<R, T>, seat: &mut Chair<R, T>) -> Chair<R, T>
    requires seat { IsAt board.now.shared.table_id seat.old }
    requires reported { awaited seat.old.me.0.stages ≡ 0 }
    ensures seat { IsAt board.now.shared.table_id seat.new }
    ensures left { seat.new.me ≡ (others seat.old.me.0, seat.old.me.1) }
    ensures new_seat { IsAt board.now.shared.table_id result }
    ensures part { result.me ≡ (first_of seat.old.me.0, []) }
{
    board.shared.split_seat::<Parts>(seat)
}

/// A place takes its slot. The caller's proof picks the place by its number in the seat, which the code has no need of.
pub fn sit<R: Drop, T: Topic<R>, J: Picked<T>>(
    board: &Board<R, T>,
    seat: &mut Chair<R, T>,
    _place: usize,
)
    requires seat { IsAt board.now.shared.table_id seat.old }
    requires waits { get_elem? seat.old.me.0.stages (offset_of J.offset) ≡ some waits }
    ensures seat { IsAt board.now.shared.table_id seat.new }
    ensures sits { IsSeated (offset_of J.offset) seat.old.me seat.new.me }
{
    board.shared.load::<Sits<J>>(seat, 0);
}

/// A place reports. The result is how many had not reported.
pub fn tell<R: Drop, T: Topic<R>, J: Picked<T>>(
    board: &Board<R, T>,
    seat: &mut Chair<R, T>,
    slot: usize,
    own: R,
) -> u64
    requires seat { IsAt board.now.shared.table_id seat.old }
    requires sits { get_elem? seat.old.me.0.stages (offset_of J.offset) ≡ some sits }
    requires slot { slot ≡ seat.old.me.0.from + offset_of J.offset }
    requires empty { seat.old.me.1 ≡ (slot, None) ∷ [] }
    requires suits { (topic : T) → seat.old.me.0.topic ≡ Some topic → T.suits topic slot own }
    ensures seat { IsAt board.now.shared.table_id seat.new }
    ensures reported { IsReported T.suits (offset_of J.offset) own seat.old.me.0 result seat.new.me }
{
    let None = board.shared.exchange(seat, slot, Some(own)) else {
        unreachable!()
    };
    board.shared.fetch_sub::<Tells<J>>(seat, 0, 1)
}

/// What lies in the slot that is first in the seat's hand.
pub fn take<R: Drop, T: Topic<R>>(
    board: &Board<R, T>,
    seat: &mut Chair<R, T>,
    slot: usize,
) -> Option<R>
    requires seat { IsAt board.now.shared.table_id seat.old }
    requires first { (own : Option R) × (seat.old.me.1 ≡ (slot, own) ∷ rest seat.old.me.1) }
    ensures seat { IsAt board.now.shared.table_id seat.new }
    ensures taken { seat.old.me.1 ≡ (slot, result) ∷ rest seat.old.me.1 }
    ensures left { seat.new.me ≡ (seat.old.me.0, rest seat.old.me.1 ++ (slot, None) ∷ []) }
{
    let own = board.shared.exchange(seat, slot, None);
    seat.turn();
    own
}

/// The seat takes in another, which has the places after its own. All have reported.
pub fn gather<R: Drop, T: Topic<R>>(board: &Board<R, T>, seat: &mut Chair<R, T>, other: Chair<R, T>)
    requires seat { IsAt board.now.shared.table_id seat.old }
    requires beside { IsAt board.now.shared.table_id other }
    requires some { 0 < length seat.old.me.0.stages }
    requires reported { awaited seat.old.me.0.stages ≡ 0 }
    requires others_reported { awaited other.me.0.stages ≡ 0 }
    requires round { other.me.0.round ≡ seat.old.me.0.round }
    requires after { other.me.0.from ≡ seat.old.me.0.from + length seat.old.me.0.stages }
    requires no_slot { other.me.1 ≡ [] }
    ensures seat { IsAt board.now.shared.table_id seat.new }
    ensures both { seat.new.me ≡ (both seat.old.me.0 other.me.0, seat.old.me.1) }
{
    board.shared.join_seat::<Gathers>(seat, other);
}

/// Who has all places of a round looks what holds of them.
pub fn look<R: Drop, T: Topic<R>>(board: &Board<R, T>, seat: &mut Chair<R, T>)
    requires seat { IsAt board.now.shared.table_id seat.old }
    requires some { 0 < length seat.old.me.0.stages }
    requires whole { IsWhole seat.old.me.0 }
    ensures settled { IsSettled seat.old.me seat.new.me }
{
    board.shared.load::<Looks>(seat, 0);
}
