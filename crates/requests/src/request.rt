ghost use Rattle.std.specs.Prelude.{◌≡◌, IfOk};

use crate::{Delivery, LastName, NewOrder, OrderStatus, Payment, StockLevel};
use schema::NoMemory;

/// How a request selects a customer of a district. `check` does not test that a customer there has the
/// number or the name: the transaction does.
#[derive(Clone, Debug, PartialEq, Eq, Drop)]
pub enum Choice {
    /// By C_ID.
    Number(u32),
    /// By C_LAST: the middle one of the customers with that name, ordered by C_FIRST and then by C_ID
    /// (clauses 2.5.2.2 and 2.6.2.2).
    LastName(LastName),
}

/// A request: what one transaction carries out.
#[derive(Clone, Debug, PartialEq, Eq, Drop)]
pub enum Request {
    NewOrder(NewOrder),
    Payment(Payment),
    OrderStatus(OrderStatus),
    Delivery(Delivery),
    StockLevel(StockLevel),
}

impl Request {
    /// Returns an equal request. Returns NoMemory if an allocation fails; nothing stays allocated then.
    pub fn try_clone(&self) -> Result<Self, NoMemory>
        ensures { IfOk result (λ copy. copy ≡ self.now) }
    {
        self.clone()
    }
}
