ghost use Rattle.std.specs.Prelude.{◌≡◌, ◌+ℤ◌, ◌-ℤ◌, pos};
ghost use Rattle.amounts.specs.Money.{IsMoney, money};

use std::marker::Model;

/// An amount of money in whole cents, from -10^15 to 10^15.
#[derive(Clone, Copy, Debug, PartialEq, Eq, Hash, PartialOrd, Ord)]
pub struct Cents {
    cents: i64,
}

impl Model for Cents {
    ghost use Rattle.std.specs.Prelude.{ℤ};
    ghost use Rattle.amounts.specs.Money.{IsMoney};

    ghost Value = { ℤ };

    ghost view = { λ c. c.cents };

    ghost invariant = { λ c. IsMoney c.cents };

    ghost inverse = { λ z. record { cents = z } };
}

impl Cents {
    /// An amount of zero.
    pub const ZERO: Cents = Cents { cents: 0 };

    /// An amount of `cents` cents. The caller ensures that `cents` is in range.
    pub fn new(cents: i64) -> Self
        requires { IsMoney cents }
        ensures { result ≡ cents }
    {
        Cents { cents }
    }

    /// An amount of `cents` cents, or `None` if `cents` is out of range.
    pub fn checked_new(cents: i64) -> Option<Self>
        ensures { result ≡ money cents }
    {
        if (-1_000_000_000_000_000..=1_000_000_000_000_000).contains(&cents) {
            Some(Cents { cents })
        } else {
            None
        }
    }

    /// The amount in whole cents, from -10^15 to 10^15.
    pub fn get(self) -> i64
        ensures value { result ≡ self }
        ensures in_range { IsMoney self }
    {
        self.cents
    }

    /// The sum, or `None` if it is out of range.
    pub fn checked_add(self, other: Cents) -> Option<Self>
        ensures { result ≡ money (self +ℤ other) }
    {
        Cents::checked_new(self.cents + other.cents)
    }

    /// The difference, or `None` if it is out of range.
    pub fn checked_sub(self, other: Cents) -> Option<Self>
        ensures { result ≡ money (self -ℤ other) }
    {
        Cents::checked_new(self.cents - other.cents)
    }
}
