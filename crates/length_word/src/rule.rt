//! The rule of a length's table, and what its steps do to the views.
use atomic_table::{Join, Play, Split, TableRule};

/// The view of a place at the table. Ghost data: no value of this type is ever made.
pub struct View {
    /// Whether it is the log's own place.
    pub is_log: bool,
    /// A number of entries that the log has reached.
    pub reached: u64,
    /// The number of entries of the place that was taken in last.
    pub noted: u64,
}

/// The log's own place records the length, which is in the word. No place records more.
pub struct NoneBeyond;

impl TableRule<(), View, ()> for NoneBeyond {
    ghost use Rattle.length_word.specs.Rule.{AreWithin, log_view};

    ghost holds = { λ key. AreWithin };

    ghost first = { λ key. log_view 0 };
}

/// A new place records the same number of entries.
pub struct Copies;

impl Split<View> for Copies {
    ghost use Rattle.length_word.specs.Rule.{mark_view};

    ghost left = { λ v. v };

    ghost right = { λ v. mark_view v.reached };
}

/// A place takes in another, and notes that one's number of entries.
pub struct Notes;

impl Join<View> for Notes {
    ghost use Rattle.length_word.specs.Rule.{mark_view, noting};

    ghost both = { noting };

    ghost spent = { mark_view 0 };
}

/// The log's own place shows that it noted at most the length.
pub struct Compares;

impl Play<(), View> for Compares {
    ghost use Rattle.length_word.specs.Rule.{IsCompared};

    ghost then = { λ step before found after. IsCompared before after };
}

/// The log's own place adds one to the length.
pub struct Grows;

impl Play<(), View> for Grows {
    ghost use Rattle.length_word.specs.Rule.{IsGrown};

    ghost then = { λ step before found after. IsGrown before after };
}
