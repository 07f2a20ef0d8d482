//! The rule of an agreement's table, and what its steps do to the views.
use crate::Value;
use atomic_table::{Join, Play, Split, TableRule};
use std::marker::{Brand, PhantomData};

/// The view of a place at the table. Ghost data: no value of this type is ever made.
pub struct View<V> {
    /// The agreement's value, if the place has a share.
    pub value: V,
    pub share: u64,
    /// The number of shares of the agreement.
    pub count: u64,
    /// The value of the place that was taken in last, and its share.
    pub taken_value: V,
    pub taken_share: u64,
}

/// All views with a share have one value, and the shares add up to their number at the opening.
pub struct OneValue;

impl<V: Value> TableRule<(), View<V>, u64> for OneValue {
    ghost use Rattle.agreement.specs.Rule.{IsAgreed, first_view};

    ghost holds = { IsAgreed };

    ghost first = { first_view V.initial };
}

/// Moves N shares to a new place.
pub struct Cut<const N: u64>;

impl<V, const N: u64> Split<View<V>> for Cut<N> {
    ghost use Rattle.agreement.specs.Rule.{less, part};

    ghost left = { λ v. less v N };

    ghost right = { λ v. part v N };
}

/// Moves the shares that were taken in last to a new place.
pub struct HandBack;

impl<V> Split<View<V>> for HandBack {
    ghost use Rattle.agreement.specs.Rule.{less, part};

    ghost left = { λ v. less v v.taken_share };

    ghost right = { λ v. part v v.taken_share };
}

/// A place takes in another's shares, keeps its own value, and records the other's as the one taken in
/// last.
pub struct TakeIn;

impl<V: Value> Join<View<V>> for TakeIn {
    ghost use Rattle.agreement.specs.Rule.{taking_in, spent};

    ghost both = { taking_in };

    ghost spent = { spent V.initial };
}

/// A place, which may have no share, takes in another's shares and the other's value.
pub struct Refill;

impl<V: Value> Join<View<V>> for Refill {
    ghost use Rattle.agreement.specs.Rule.{refilled, spent};

    ghost both = { refilled };

    ghost spent = { spent V.initial };
}

/// A load of the table. It shows that the place taken in last had the same value, and that the place has
/// at most all shares.
pub struct Looks;

impl<V> Play<(), View<V>> for Looks {
    ghost use Rattle.agreement.specs.Rule.{LooksRound};

    ghost then = { λ step before found after. LooksRound before after };
}

/// The value that a change sets, as a list of one. The call that changes the value picks it.
pub trait Chosen<V> {
    ghost use Rattle.std.specs.Prelude.{List};

    ghost value: { List V };
}

impl<V> Chosen<V> for Brand {
    ghost use Rattle.std.specs.Prelude.{[]};

    ghost value = { [] };
}

/// The place that has all shares gets another value.
pub struct Sets<J> {
    by: PhantomData<J>,
}

impl<V, J: Chosen<V>> Play<(), View<V>> for Sets<J> {
    ghost use Rattle.agreement.specs.Rule.{IsSetTo, first_or};

    ghost then = { λ step before found after. IsSetTo (first_or before.0.value J.value) before after };
}
