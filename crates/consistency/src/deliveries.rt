ghost use Rattle.std.specs.Prelude.{◌≡◌, ◌↔◌, ◌^◌, IsTrue, IfOk};
ghost use Rattle.std.specs.Option.{option_copied};
ghost use Rattle.schema.specs.Consistency.{delivered, LinesComeWithOrders};
ghost use Rattle.consistency.specs.Balances.{AreTotals, AreWithin, receiver};
ghost use Rattle.consistency.specs.Carriers.{comes_with};

use crate::balances::{credit, zeros};
use rows::{CustomerKey, Order, OrderLine, OrderLineKey};
use schema::{Beside, NoMemory, Tables};
use std::alloc::Global;

/// The results of one pass over the lines.
#[derive(Drop)]
pub(crate) struct Deliveries {
    /// For each customer, the sum of the delivered lines, in the order of the customers' keys.
    pub(crate) totals: Vec<i128>,
    /// Condition 7 (clause 3.3.2.7): OL_DELIVERY_D is null exactly if the order's O_CARRIER_ID is null.
    pub(crate) come_with_orders: bool,
}

/// Computes `Deliveries` in one pass over the lines. Returns `NoMemory` if an allocation fails.
pub(crate) fn read_deliveries(tables: &Tables, alloc: Global) -> Result<Deliveries, NoMemory>
    ensures totals { IfOk result
        (λ read. AreTotals tables.now.scale (delivered tables.now) read.totals.items) }
    ensures within { IfOk result (λ read. AreWithin (2 ^ 124) read.totals.items) }
    ensures come { IfOk result
        (λ read. IsTrue read.come_with_orders ↔ LinesComeWithOrders tables.now) }
{
    let scale = tables.scale();
    let rows = tables.rows();
    let mut totals = zeros(rows.customers.len(), alloc)?;
    let mut come_with_orders = true;
    let mut orders = Beside::new(tables.orders());
    for (key, line) in tables.lines() {
        let order = orders.of(key.order());
        come_with_orders &= comes_with(line, order);
        if let Some(customer) = receiver(key, line, order) {
            credit(&mut totals, scale, customer, i64::from(line.amount.get()));
        }
    }
    Ok(Deliveries {
        totals,
        come_with_orders,
    })
}

// A line without an order passes.
fn comes_with(line: &OrderLine, order: Option<&Order>) -> bool
    ensures { result ≡ comes_with line.now (option_copied order.entry) }
{
    match order {
        Some(order) => line.delivery_d.is_none() == order.carrier_id.is_none(),
        None => true,
    }
}

// The customer to whom the line of the order was delivered, or `None` if it was not delivered.
fn receiver(key: OrderLineKey, line: &OrderLine, order: Option<&Order>) -> Option<CustomerKey>
    ensures { result ≡ receiver key line.now (option_copied order.entry) }
{
    if line.delivery_d.is_none() {
        return None;
    }
    let order = order?;
    Some(CustomerKey {
        w_id: key.w_id,
        d_id: key.d_id,
        c_id: order.c_id,
    })
}
