ghost use Rattle.std.specs.Prelude.{◌≡◌, ◌≤◌};
ghost use Rattle.rows.specs.Ranged.{in_range};

use std::marker::Model;

/// A date and time as whole seconds since 1970-01-01T00:00:00, from 0 to 253,402,300,799, which is the
/// last second of the year 9999. It has no time zone.
#[derive(Clone, Copy, Debug, PartialEq, Eq, Hash, PartialOrd, Ord)]
pub struct Moment {
    seconds: u64,
}

impl Model for Moment {
    ghost use Rattle.std.specs.Prelude.{ℕ, ◌≤◌};

    ghost Value = { ℕ };

    ghost view = { λ m. m.seconds };

    ghost invariant = { λ m. m.seconds ≤ 253402300799 };

    ghost inverse = { λ seconds. record { seconds = seconds } };
}

impl Moment {
    /// The moment `seconds` seconds after 1970-01-01T00:00:00. The caller ensures that it is before the
    /// year 10000.
    pub fn new(seconds: u64) -> Self
        requires { seconds ≤ 253402300799 }
        ensures { result ≡ seconds }
    {
        Moment { seconds }
    }

    /// The moment `seconds` seconds after 1970-01-01T00:00:00, or `None` if it is after the year 9999.
    pub fn checked_new(seconds: u64) -> Option<Self>
        ensures { result ≡ in_range 0 253402300799 seconds }
    {
        if seconds <= 253_402_300_799 {
            Some(Moment { seconds })
        } else {
            None
        }
    }

    /// The seconds since 1970-01-01T00:00:00.
    pub fn seconds(self) -> u64
        ensures value { result ≡ self }
        ensures high { self ≤ 253402300799 }
    {
        self.seconds
    }
}
