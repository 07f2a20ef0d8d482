ghost use Rattle.std.specs.Prelude.{◌≡◌};

use std::marker::Model;

/// The lines of an order as a terminal shows them, by OL_NUMBER.
#[derive(Clone, Debug, Drop)]
pub struct Lines<T: Drop> {
    lines: Vec<T>,
}

impl<T: Drop> Model for Lines<T> {
    ghost use Rattle.std.specs.Prelude.{List};

    ghost Value = { List T };

    ghost view = { λ l. l.lines.items };
}

impl<T: Drop> Lines<T> {
    /// Makes a value of these lines. Never allocates.
    pub fn new(lines: Vec<T>) -> Self
        ensures { result ≡ lines.items }
    {
        Lines { lines }
    }

    /// Returns the lines, in order.
    pub fn as_slice(&self) -> &[T]
        ensures { result.now ≡ self.now }
    {
        self.lines.as_slice()
    }
}

impl<T: PartialEq + Drop> PartialEq for Lines<T> {
    ghost use Rattle.std.specs.Cmp.Lexicographic.{pointwise, lists_per};

    ghost eq = { pointwise T.eq };

    ghost laws = { lists_per T.PartialEq.laws };

    fn eq(&self, other: &Self) -> bool {
        self.as_slice() == other.as_slice()
    }
}

impl<T: Eq + Drop> Eq for Lines<T> {
    ghost use Rattle.std.specs.Cmp.Lexicographic.{lists_equiv};

    ghost laws = { lists_equiv T.Eq.laws };
}
