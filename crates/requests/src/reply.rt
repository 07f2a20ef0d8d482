ghost use Rattle.std.specs.Prelude.{◌≡◌, ◌↔◌, IsTrue};

use crate::{DeliveryReply, NewOrderReply, OrderStatusReply, PaymentReply, StockLevelReply};
use schema::{Credit, Text};
use thiserror::Error;

/// The reason why a transaction that was carried out and logged changed no table.
#[derive(Clone, Debug, Error, PartialEq, Eq, Drop)]
pub enum Fault {
    #[error("the district has no such customer")]
    NoCustomer,
    /// The item of an order's line is not in ITEM (clause 2.4.1.4). Contains C_LAST and C_CREDIT of the
    /// customer, and the number that the order would have had, 1 to 10,000,000 (clause 2.4.3.4).
    #[error("the item of a line of order {o_id} is not in ITEM")]
    NoItem {
        last: Text<16>,
        credit: Credit,
        o_id: u32,
    },
    #[error("a value would have left the range of its column")]
    Range,
}

/// What a terminal shows of a transaction that was not rolled back, by the kind of request.
#[derive(Clone, Debug, PartialEq, Eq, Drop)]
pub enum Shown {
    NewOrder(NewOrderReply),
    Payment(PaymentReply),
    OrderStatus(OrderStatusReply),
    Delivery(DeliveryReply),
    StockLevel(StockLevelReply),
}

/// What a terminal shows of a transaction that was carried out.
#[derive(Clone, Debug, PartialEq, Eq, Drop)]
pub enum Reply {
    /// It was done.
    Done(Shown),
    /// It was rolled back.
    RolledBack(Fault),
}

impl Reply {
    /// Returns whether the two are the same reply.
    pub fn is(&self, other: &Reply) -> bool
        ensures { IsTrue result ↔ (self.now ≡ other.now) }
    {
        self == other
    }
}
