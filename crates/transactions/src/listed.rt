ghost use Rattle.std.specs.Prelude.{◌≡◌};

use std::marker::Model;

/// A vector whose model is its list, so that a copy equals the original.
#[derive(Clone, Debug, Drop)]
pub struct Listed<T: Drop> {
    values: Vec<T>,
}

impl<T: Drop> Model for Listed<T> {
    ghost use Rattle.std.specs.Prelude.{List};

    ghost Value = { List T };

    ghost view = { λ l. l.values.items };
}

impl<T: Drop> Listed<T> {
    /// Wraps these values. Never allocates.
    pub fn new(values: Vec<T>) -> Self
        ensures { result ≡ values.items }
    {
        Listed { values }
    }

    /// The values, in order.
    pub fn as_slice(&self) -> &[T]
        ensures { result.now ≡ self.now }
    {
        self.values.as_slice()
    }

    /// The values, in order. Never allocates.
    pub fn into_vec(self) -> Vec<T>
        ensures { result.items ≡ self }
    {
        self.values
    }
}
