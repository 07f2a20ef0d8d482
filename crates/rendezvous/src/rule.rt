//! The rule of a meeting's table, and what its steps do to the views.
ghost use Rattle.rendezvous.specs.Stages.{RoundView, coded_round_view};

use atomic_table::{Join, Play, Split, TableRule};
use std::marker::{Brand, Model, PhantomData};

/// What a seat at the table knows. No value of it is made.
pub struct View<R, T> {
    marker: PhantomData<(R, T)>,
    ghost known: { RoundView T R } by { coded_round_view T.code R.code },
}

impl<R, T> Model for View<R, T> {
    ghost use base.Fml.{ftrue};
    ghost use Rattle.rendezvous.specs.Stages.{RoundView, coded_round_view};

    ghost also_owns = { λ _. ftrue };

    ghost Value = { RoundView T R };

    ghost coded = { coded_round_view T.code R.code };

    ghost view = { λ v. v.known };
}

/// The count word is the number of places that have not reported, and their results are at home until all have.
pub struct AllReport;

impl<R, T: Topic<R>> TableRule<Option<R>, View<R, T>, ()> for AllReport {
    ghost use Rattle.rendezvous.specs.Rule.{Meets, at_first};

    ghost holds = { λ _. Meets T.suits };

    ghost first = { λ _. at_first };
}

/// What a round of a meeting is about, and what may be reported in it.
pub trait Topic<R> {
    ghost use Rattle.std.specs.Prelude.{ℕ};

    /// Whether the place of a number may report this.
    ghost suits: { Self → ℕ → R → Type 0 };
}

/// Anything may be reported.
#[derive(Clone, Copy, Drop)]
pub struct Anything;

impl<R> Topic<R> for Anything {
    ghost suits = { λ _ _ _. Unit {0} };
}

/// Which place of its view a seat steps for, and what a round is about. The call that steps picks them, for its proof alone.
pub trait Picked<T> {
    ghost use Rattle.std.specs.Prelude.{List, ℕ};

    ghost offset: { List ℕ };

    ghost topic: { List T };
}

impl<T> Picked<T> for Brand {
    ghost use Rattle.std.specs.Prelude.{[]};

    ghost offset = { [] };

    ghost topic = { [] };
}

/// The first place of a view.
pub struct First;

impl<T> Picked<T> for First {
    ghost use Rattle.std.specs.Prelude.{[]};

    ghost offset = { [] };

    ghost topic = { [] };
}

/// The first place goes to a new seat.
pub struct Parts;

impl<R, T> Split<View<R, T>> for Parts {
    ghost use Rattle.rendezvous.specs.Rule.{first_of, others};

    ghost left = { others };

    ghost right = { first_of };
}

/// Who may convene a round convenes it.
pub struct Convenes<J> {
    by: PhantomData<J>,
}

impl<R, T, J: Picked<T>> Play<Option<R>, View<R, T>> for Convenes<J> {
    ghost use Rattle.rendezvous.specs.Picks.{topic_of};
    ghost use Rattle.rendezvous.specs.Rule.{IsConvened};

    ghost then = { λ step before found after. IsConvened (topic_of J.topic) step.first before after };
}

/// A place takes its slot.
pub struct Sits<J> {
    by: PhantomData<J>,
}

impl<R, T, J: Picked<T>> Play<Option<R>, View<R, T>> for Sits<J> {
    ghost use Rattle.rendezvous.specs.Picks.{offset_of};
    ghost use Rattle.rendezvous.specs.Rule.{IsSeated};

    ghost then = { λ step before found after. IsSeated (offset_of J.offset) before after };
}

/// A place reports.
pub struct Tells<J> {
    by: PhantomData<J>,
}

impl<R, T: Topic<R>, J: Picked<T>> Play<Option<R>, View<R, T>> for Tells<J> {
    ghost use Rattle.rendezvous.specs.Picks.{offset_of};
    ghost use Rattle.rendezvous.specs.Rule.{Reports};

    ghost then = { λ step before found after. Reports T.suits (offset_of J.offset) before found after };
}

/// A seat takes in another that has the places after its own.
pub struct Gathers;

impl<R, T> Join<View<R, T>> for Gathers {
    ghost use Rattle.rendezvous.specs.Rule.{both, nowhere};

    ghost both = { both };

    ghost spent = { nowhere };
}

/// A look by who has all places.
pub struct Looks;

impl<R, T> Play<Option<R>, View<R, T>> for Looks {
    ghost use Rattle.rendezvous.specs.Rule.{IsSettled};

    ghost then = { λ step before found after. IsSettled before after };
}
