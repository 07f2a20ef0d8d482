//! What a terminal asks for, which is a record of a script.

ghost use Rattle.std.specs.Prelude.{◌≡◌};
ghost use Rattle.requests.specs.TerminalRequest.{delivery_in};

use crate::{Delivery, NewOrder, OrderStatus, Payment, StockLevel};
use schema::{DistrictKey, Moment};

/// A Delivery as a terminal asks for it (clause 2.7.1): of all districts of a warehouse. Before `check`, any
/// number may be out of its range.
#[derive(Clone, Copy, Debug, PartialEq, Eq)]
pub struct WarehouseDelivery {
    /// W_ID: a warehouse of the scale.
    pub w_id: u32,
    /// O_CARRIER_ID of the delivered orders: 1 to 10.
    pub carrier_id: u32,
    /// OL_DELIVERY_D, which the terminal's request contains.
    pub moment: Moment,
}

/// What a terminal asks for. A Delivery of a warehouse is carried out as ten requests, one for each district,
/// and anything else as one.
#[derive(Debug, PartialEq, Eq, Drop)]
pub enum TerminalRequest {
    NewOrder(NewOrder),
    Payment(Payment),
    OrderStatus(OrderStatus),
    Delivery(WarehouseDelivery),
    StockLevel(StockLevel),
}

impl WarehouseDelivery {
    /// The Delivery of this district.
    pub fn of_district(&self, d_id: u32) -> Delivery
        ensures { result ≡ delivery_in self.now d_id }
    {
        let home = DistrictKey {
            w_id: self.w_id,
            d_id,
        };
        Delivery {
            home,
            carrier_id: self.carrier_id,
            moment: self.moment,
        }
    }
}
