//! Undoing a delivery, over the rows of one warehouse.
ghost use Rattle.std.specs.Prelude.{◌≡◌, length};
ghost use Rattle.rows.specs.Keys.{order_cmp};
ghost use Rattle.rows.specs.declared.limits.TheConstants.{MOST_LINES};
ghost use Rattle.schema.specs.EachRow.{EachRow};
ghost use Rattle.schema.specs.MapRows.{table_of, map_rows};
ghost use Rattle.schema.specs.Database.{is_line_number};
ghost use Rattle.schema.specs.OrderRows.{line_key, line_table};
ghost use Rattle.partitions.specs.Deliveries.{AreMomentsOf, carrier_at, with_carrier_back, with_moments_back};

use crate::new_order_rows::RowRoom;
use rows::{LAST_LINE, MOST_LINES};
use schema::{CarrierId, Moment, NewOrder, Order, OrderKey, OrderLineKey, OrderLines};
use std::collections::BTreeMap;

/// What an order's rows were before it was delivered, and room for the row of NEW-ORDER that was
/// deleted.
#[derive(Drop)]
pub struct BeforeDelivery {
    pub carrier_id: Option<CarrierId>,
    /// By OL_NUMBER, from 1. `None` also where the order has no such line.
    pub moments: [Option<Moment>; MOST_LINES],
    /// The order's row of NEW-ORDER, which was deleted.
    pub new_order: Option<NewOrder>,
    pub(crate) room: RowRoom,
}

/// Returns the order's carrier, `None` if it has none.
pub(crate) fn carrier_of(orders: &BTreeMap<OrderKey, Order>, key: OrderKey) -> Option<CarrierId>
    ensures { result ≡ carrier_at (table_of order_cmp orders.now) key }
{
    orders.get(&key)?.carrier_id
}

/// Returns the moments at which the order's lines were delivered, by OL_NUMBER from 1.
pub(crate) fn moments_of(lines: &OrderLines, order: OrderKey) -> [Option<Moment>; MOST_LINES]
    ensures most_lines { length result ≡ MOST_LINES }
    ensures each { AreMomentsOf (line_table lines.now) order result }
{
    let mut moments = [None; MOST_LINES];
    for (key, row) in lines.of_order(order) {
        // An order has no lines of other numbers.
        if (1..=LAST_LINE).contains(&key.number) {
            moments[key.number as usize - 1] = row.delivery_d;
        }
    }
    moments
}

/// Restores the order's carrier. Never allocates.
pub(crate) fn put_carrier_back(
    orders: &mut BTreeMap<OrderKey, Order>,
    key: OrderKey,
    carrier: Option<CarrierId>,
)
    ensures { table_of order_cmp orders.new
        ≡ map_rows (with_carrier_back key carrier) (table_of order_cmp orders.old) }
{
    if let Some(row) = orders.get_mut(&key) {
        row.carrier_id = carrier;
    }
}

/// Restores the delivery moments of the order's lines. Never allocates.
pub(crate) fn put_moments_back(
    lines: &mut OrderLines,
    order: OrderKey,
    moments: [Option<Moment>; MOST_LINES],
)
    requires most_lines { length moments ≡ MOST_LINES }
    requires numbered { EachRow (λ key _. is_line_number key.number) (line_table lines.old) }
    ensures { line_table lines.new
        ≡ map_rows (with_moments_back order moments) (line_table lines.old) }
{
    for place in 0..MOST_LINES {
        lines.set_delivery(line_key(order, place as u32 + 1), moments[place]);
    }
}

fn line_key(order: OrderKey, number: u32) -> OrderLineKey
    ensures { result ≡ line_key order number }
{
    OrderLineKey {
        w_id: order.w_id,
        d_id: order.d_id,
        o_id: order.o_id,
        number,
    }
}
