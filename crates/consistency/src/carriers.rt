ghost use Rattle.std.specs.Prelude.{◌↔◌, IsTrue};
ghost use Rattle.schema.specs.Consistency.{NewOrdersHaveNoCarrier};

use schema::{Beside, Tables};

/// Whether O_CARRIER_ID is null exactly if the order has a row of NEW-ORDER (clause 3.3.2.5).
pub(crate) fn new_orders_have_no_carrier(tables: &Tables) -> bool
    ensures { IsTrue result ↔ NewOrdersHaveNoCarrier tables.now }
{
    let mut new_orders = Beside::new(tables.new_orders());
    for (key, order) in tables.orders() {
        let new_order = new_orders.of(key);
        if order.carrier_id.is_none() != new_order.is_some() {
            return false;
        }
    }
    true
}
