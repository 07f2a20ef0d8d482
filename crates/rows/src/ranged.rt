ghost use Rattle.std.specs.Prelude.{◌≡◌, ◌+◌, ◌≤◌};
ghost use Rattle.rows.specs.Ranged.{in_range};

use crate::LAST_LINE;
use std::marker::Model;

/// A whole number from `LOW` to `HIGH`, inclusive.
#[derive(Clone, Copy, Debug, PartialEq, Eq, Hash, PartialOrd, Ord)]
pub struct Ranged<const LOW: u32, const HIGH: u32> {
    number: u32,
}

/// A counter from 0 to 999,999,999 that only grows: S_YTD, S_ORDER_CNT, S_REMOTE_CNT, C_PAYMENT_CNT,
/// C_DELIVERY_CNT (clause 1.3.1).
pub type Counter = Ranged<0, 999_999_999>;

/// D_NEXT_O_ID: the number, from 1, that the district's next order gets, or 10,000,000 if all numbers
/// are used (clause 1.3.1).
pub type NextOrderId = Ranged<1, 10_000_000>;

/// S_QUANTITY: the quantity of an item in a warehouse's stock, from 10 to 100 (clause 4.3.3.1).
pub type StockQuantity = Ranged<10, 100>;

/// I_PRICE, in cents, from 1 to 99,999 (clause 1.3.1).
pub type Price = Ranged<1, 99_999>;

/// I_IM_ID: the number of the item's picture, from 1 to 10,000 (clause 4.3.3.1).
pub type ImageId = Ranged<1, 10_000>;

/// O_CARRIER_ID: the carrier who delivers the order, from 1 to 10 (clause 2.7.1.2).
pub type CarrierId = Ranged<1, 10>;

/// O_OL_CNT: the number of lines of an order, from 1 to [`LAST_LINE`] (clause 1.3.1).
pub type LineCount = Ranged<1, LAST_LINE>;

/// OL_QUANTITY: the quantity of an item that a line orders, from 1 to 10 (clause 2.4.1.5).
pub type LineQuantity = Ranged<1, 10>;

/// OL_AMOUNT, in cents, from 0 to 999,999 (clause 1.3.1).
pub type LineAmount = Ranged<0, 999_999>;

impl<const LOW: u32, const HIGH: u32> Model for Ranged<LOW, HIGH> {
    ghost use Rattle.std.specs.Prelude.{ℕ, ◌≤◌};

    ghost Value = { ℕ };

    ghost view = { λ r. r.number };

    ghost invariant = { λ r. (LOW ≤ r.number) × (r.number ≤ HIGH) };

    ghost inverse = { λ number. record { number = number } };
}

impl<const LOW: u32, const HIGH: u32> Ranged<LOW, HIGH> {
    /// `number` as a `Ranged`. The caller ensures that it is from `LOW` to `HIGH`.
    pub fn new(number: u32) -> Self
        requires low { LOW ≤ number }
        requires high { number ≤ HIGH }
        ensures { result ≡ number }
    {
        Ranged { number }
    }

    /// `number` as a `Ranged`, or `None` if it is out of range.
    pub fn checked_new(number: u32) -> Option<Self>
        ensures { result ≡ in_range LOW HIGH number }
    {
        if LOW <= number && number <= HIGH {
            Some(Ranged { number })
        } else {
            None
        }
    }

    /// The number, from `LOW` to `HIGH`.
    pub fn get(self) -> u32
        ensures value { result ≡ self.entry }
        ensures low { LOW ≤ self.entry }
        ensures high { self.entry ≤ HIGH }
    {
        self.number
    }

    /// The sum, or `None` if it is out of range.
    pub fn checked_add(self, more: u32) -> Option<Self>
        ensures { result ≡ in_range LOW HIGH (self.entry + more) }
    {
        Ranged::checked_new(self.number.checked_add(more)?)
    }
}
