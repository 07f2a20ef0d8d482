//! The rule of a closing word's table, and what its steps do to the views.
use atomic_table::{Play, TableRule};

/// The view of a place at the table. Ghost data: no value of this type is ever made.
pub struct View {
    /// Whether it is the closer's place.
    pub is_closer: bool,
    /// Whether it has found the word closed, or has closed it.
    pub is_closed: bool,
}

/// The word is 1 once it is closed. The closer's place knows whether it is. Any other place that knows it closed has found it so.
pub struct ClosedByCloser;

impl TableRule<(), View, ()> for ClosedByCloser {
    ghost use Rattle.closing_word.specs.Rule.{AreTrue, closer_view};
    ghost use Rattle.std.specs.Prelude.{false};

    ghost holds = { λ key. AreTrue };

    ghost first = { λ key. closer_view false };
}

/// A new place has found the word closed, or knows nothing.
pub struct Looks;

impl Play<(), View> for Looks {
    ghost use Rattle.closing_word.specs.Rule.{HasLooked};

    ghost then = { λ step before found after. HasLooked found after };
}

/// The closer's place closes the word.
pub struct Closes;

impl Play<(), View> for Closes {
    ghost use Rattle.closing_word.specs.Rule.{HasClosed};

    ghost then = { λ step before found after. HasClosed before after };
}
