ghost use Rattle.std.specs.Prelude.{◌≡◌, ◌<◌};
ghost use Rattle.std.specs.Option.{SomeIff};

use std::marker::Model;

/// A tax or a discount in ten-thousandths, from 0 to 9,999.
#[derive(Clone, Copy, Debug, PartialEq, Eq, Hash, PartialOrd, Ord)]
pub struct Rate {
    ten_thousandths: u16,
}

impl Model for Rate {
    ghost use Rattle.std.specs.Prelude.{ℕ, ◌<◌};

    ghost Value = { ℕ };

    ghost view = { λ r. r.ten_thousandths };

    ghost invariant = { λ r. r.ten_thousandths < 10000 };

    ghost inverse = { λ n. record { ten_thousandths = n } };
}

impl Rate {
    /// A rate of `ten_thousandths` ten-thousandths. The caller ensures that it is below 10,000.
    pub fn new(ten_thousandths: u16) -> Self
        requires { ten_thousandths < 10000 }
        ensures { result ≡ ten_thousandths }
    {
        Rate { ten_thousandths }
    }

    /// A rate of `ten_thousandths` ten-thousandths, or `None` if it is out of range.
    pub fn checked_new(ten_thousandths: u16) -> Option<Self>
        ensures { SomeIff result (ten_thousandths < 10000) ten_thousandths }
    {
        if ten_thousandths < 10_000 {
            Some(Rate { ten_thousandths })
        } else {
            None
        }
    }

    /// The rate in ten-thousandths, from 0 to 9,999.
    pub fn get(self) -> u16
        ensures value { result ≡ self }
        ensures in_range { self < 10000 }
    {
        self.ten_thousandths
    }
}
