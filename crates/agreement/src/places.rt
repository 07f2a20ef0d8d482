//! The single steps on a place at an agreement's table.
ghost use Rattle.std.specs.Prelude.{◌≡◌, ◌+◌, ◌-◌, ◌<◌, ◌≤◌, IfOk};
ghost use Rattle.std.specs.Arc.{arc_value};
ghost use Rattle.agreement.specs.Rule.{first_view, less, part, taking_in, refilled, set_to, first_or};
ghost use Rattle.agreement.specs.Place.{IsPlaceAt};

use crate::rule::{Chosen, Cut, HandBack, Looks, OneValue, Refill, Sets, TakeIn, View};
use crate::{Change, Value};
use atomic_table::{Seat, Table};
use std::alloc::{AllocError, Global};
use std::marker::Brand;
use std::mem;
use std::sync::Arc;

/// The table of an agreement. It has one word, which nothing reads.
pub type Board<V> = Arc<Table<(), View<V>, u64, OneValue, Global>, Global>;

pub type Place<V> = Seat<(), View<V>>;

/// Opens the table of a new agreement with `count` shares. Returns the table and its first place, which
/// has all shares.
pub fn open<V: Value>(alloc: Global, count: u64) -> Result<(Board<V>, Place<V>), AllocError>
    requires { 0 < count }
    ensures place { IfOk result (λ pair. IsPlaceAt (arc_value pair.0).shared.table_id pair.1) }
    ensures view { IfOk result (λ pair. pair.1.me.0 ≡ first_view V.initial count) }
{
    let (table, place) = Table::of_words(alloc.clone()?, &[0], &count)?;
    let board = Arc::new(alloc, table)?;
    Ok((board, place))
}

/// Splits off a new place with N of the shares.
pub fn cut<V: Value, const N: u64>(board: &Board<V>, place: &mut Place<V>) -> Place<V>
    requires place { IsPlaceAt (arc_value board.now).shared.table_id place.old }
    requires enough { N ≤ place.old.me.0.share }
    ensures place { IsPlaceAt (arc_value board.now).shared.table_id place.new }
    ensures left { place.new.me.0 ≡ less place.old.me.0 N }
    ensures new_place { IsPlaceAt (arc_value board.now).shared.table_id result }
    ensures part { result.me.0 ≡ part place.old.me.0 N }
{
    board.shared.split_seat::<Cut<N>>(place)
}

/// Splits off a new place with as many shares as the place took in last.
pub fn hand_back<V: Value>(board: &Board<V>, place: &mut Place<V>) -> Place<V>
    requires place { IsPlaceAt (arc_value board.now).shared.table_id place.old }
    requires enough { place.old.me.0.taken_share ≤ place.old.me.0.share }
    ensures place { IsPlaceAt (arc_value board.now).shared.table_id place.new }
    ensures left { place.new.me.0 ≡ less place.old.me.0 place.old.me.0.taken_share }
    ensures new_place { IsPlaceAt (arc_value board.now).shared.table_id result }
    ensures part { result.me.0 ≡ part place.old.me.0 place.old.me.0.taken_share }
{
    board.shared.split_seat::<HandBack>(place)
}

/// Moves all shares of `other` to the place. The place keeps its value, and records the value of `other`
/// as the one taken in last.
pub fn take_in<V: Value>(board: &Board<V>, place: &mut Place<V>, other: Place<V>)
    requires place { IsPlaceAt (arc_value board.now).shared.table_id place.old }
    requires beside { IsPlaceAt (arc_value board.now).shared.table_id other }
    requires some { (0 < place.old.me.0.share) × (0 < other.me.0.share) }
    ensures place { IsPlaceAt (arc_value board.now).shared.table_id place.new }
    ensures both { place.new.me.0 ≡ taking_in place.old.me.0 other.me.0 }
{
    board.shared.join_seat::<TakeIn>(place, other);
}

/// Moves all shares of `other` to the place, which may have none. The place takes over the value of
/// `other`.
pub fn refill<V: Value>(board: &Board<V>, place: &mut Place<V>, other: Place<V>)
    requires place { IsPlaceAt (arc_value board.now).shared.table_id place.old }
    requires beside { IsPlaceAt (arc_value board.now).shared.table_id other }
    requires some { 0 < other.me.0.share }
    ensures place { IsPlaceAt (arc_value board.now).shared.table_id place.new }
    ensures both { place.new.me.0 ≡ refilled place.old.me.0 other.me.0 }
{
    board.shared.join_seat::<Refill>(place, other);
}

/// Shows that the place taken in last had the same value, and that the place has at most all shares.
/// Changes nothing.
pub fn look_round<V: Value>(board: &Board<V>, place: &mut Place<V>)
    requires place { IsPlaceAt (arc_value board.now).shared.table_id place.old }
    requires some { 0 < place.old.me.0.share }
    ensures place { IsPlaceAt (arc_value board.now).shared.table_id place.new }
    ensures same { place.new.me.0 ≡ place.old.me.0 }
    ensures equal { place.old.me.0.taken_value ≡ place.old.me.0.value }
    ensures at_most_all { place.old.me.0.share ≤ place.old.me.0.count }
{
    board.shared.load::<Looks>(place, 0);
}

/// Changes the value. Requires a place that has all shares.
pub fn change<V: Value, C: Change<V>>(board: &Board<V>, place: &mut Place<V>, change: &C)
    requires place { IsPlaceAt (arc_value board.now).shared.table_id place.old }
    requires all { place.old.me.0.share ≡ place.old.me.0.count }
    ensures place { IsPlaceAt (arc_value board.now).shared.table_id place.new }
    ensures value { place.new.me.0
        ≡ set_to place.old.me.0 (C.changed change.now place.old.me.0.value) }
{
    set::<V, C, Brand>(board, place, change);
}

// The new value is the one in J's list. The proof of the call picks J from the call's arguments;
// `_change` is a parameter only for that.
fn set<V: Value, C, J: Chosen<V>>(board: &Board<V>, place: &mut Place<V>, _change: &C)
    requires place { IsPlaceAt (arc_value board.now).shared.table_id place.old }
    requires all { place.old.me.0.share ≡ place.old.me.0.count }
    ensures place { IsPlaceAt (arc_value board.now).shared.table_id place.new }
    ensures value { place.new.me.0 ≡ set_to place.old.me.0 (first_or place.old.me.0.value J.value) }
{
    board.shared.load::<Sets<J>>(place, 0);
}

/// Moves all shares of `other` to the place. Both had the same value. `other` has no share afterwards.
pub fn gather<V: Value>(board: &Board<V>, place: &mut Place<V>, other: &mut Place<V>)
    requires place { IsPlaceAt (arc_value board.now).shared.table_id place.old }
    requires beside { IsPlaceAt (arc_value board.now).shared.table_id other.old }
    requires some { (0 < place.old.me.0.share) × (0 < other.old.me.0.share) }
    ensures place { IsPlaceAt (arc_value board.now).shared.table_id place.new }
    ensures equal { other.old.me.0.value ≡ place.old.me.0.value }
    ensures at_most_all { place.old.me.0.share + other.old.me.0.share ≤ place.old.me.0.count }
    ensures both { place.new.me.0 ≡ taking_in place.old.me.0 other.old.me.0 }
    ensures beside { IsPlaceAt (arc_value board.now).shared.table_id other.new }
    ensures spent { (other.new.me.0.share ≡ 0) × (other.new.me.0.count ≡ place.old.me.0.count) }
{
    let spare = cut::<V, 0>(board, place);
    let shares = mem::replace(other, spare);
    take_in(board, place, shares);
    look_round(board, place);
}
