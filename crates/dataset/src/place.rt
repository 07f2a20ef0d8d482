ghost use Rattle.std.specs.Prelude.{◌≡◌};
ghost use Rattle.dataset.specs.Order.{follows};

use rows::{CustomerKey, DistrictKey, OrderKey, OrderLineKey, StockKey};

/// The place of a record in the order of a dataset: by table, and within its table by key.
#[derive(Clone, Copy, Debug, PartialEq, Eq, PartialOrd, Ord)]
pub enum Place {
    Header,
    Item(u32),
    Warehouse(u32),
    District(DistrictKey),
    Stock(StockKey),
    Customer(CustomerKey),
    History(DistrictKey),
    Order(OrderKey),
    NewOrder(OrderKey),
    Line(OrderLineKey),
}

impl Place {
    /// Whether a record at this place may directly follow one at `last`. Only rows of HISTORY, which
    /// have no key, may share a place.
    pub fn follows(self, last: Place) -> bool
        ensures { result ≡ follows self last }
    {
        match self {
            Place::History(_) => last <= self,
            _ => last < self,
        }
    }
}
