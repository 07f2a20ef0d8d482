ghost use Rattle.std.specs.Prelude.{◌≡◌, IfOk};
ghost use Rattle.indexes.specs.LatestIndex.{FitsLatest, FitsLatestBy};
ghost use Rattle.indexes.specs.NameOrder.{FitsNames};
ghost use Rattle.machine.specs.OrderStatus as spec;

use crate::choosing::chosen;
use indexes::{LatestOrders, NameIndex};
use partitions::Rows;
use requests::{
    Fault, Lines, OrderStatus, OrderStatusReply, Reply, Shown, StatusLine, StatusOrder,
};
use schema::{Customer, CustomerKey, NoMemory, OrderKey, OrderLine, Tables};
use std::alloc::Global;

/// Returns the reply of Order-Status, from a customer's row and the customer's last order as shown. Never allocates.
pub fn status_reply(
    key: CustomerKey,
    row: &Customer,
    order: Option<StatusOrder>,
) -> OrderStatusReply
    ensures { result ≡ spec.status_reply key row.now order }
{
    OrderStatusReply {
        c_id: key.c_id,
        first: row.first.copy(),
        middle: row.middle.copy(),
        last: row.last.copy(),
        balance: row.balance,
        order,
    }
}

/// Returns the customer's last order as Order-Status shows it, `None` exactly if the customer has no order. The index
/// finds the order. Only the lines are allocated. Returns NoMemory if an allocation fails; nothing is left behind then.
pub fn latest_shown<T: Rows>(
    alloc: Global,
    tables: &T,
    orders: &LatestOrders,
    customer: CustomerKey,
) -> Result<Option<StatusOrder>, NoMemory>
    requires { FitsLatestBy (T.slot tables.now) orders.now (T.tables tables.now) }
    ensures { IfOk result (λ r. r ≡ spec.latest_shown (T.tables tables.now) customer) }
{
    let Some(o_id) = orders.latest_order(tables, customer) else {
        return Ok(None);
    };
    let key = OrderKey {
        w_id: customer.w_id,
        d_id: customer.d_id,
        o_id,
    };
    let Some(row) = tables.order(key) else {
        return Ok(None);
    };
    Ok(Some(StatusOrder {
        o_id,
        entry_d: row.entry_d,
        carrier_id: row.carrier_id,
        lines: lines_shown(alloc, tables, key)?,
    }))
}

// Returns the order's lines as shown.
fn lines_shown<T: Rows>(
    alloc: Global,
    tables: &T,
    order: OrderKey,
) -> Result<Lines<StatusLine>, NoMemory>
    ensures { IfOk result (λ r. r ≡ spec.lines_shown (T.tables tables.now) order) }
{
    let mut lines = Vec::new(alloc);
    for (_, row) in tables.lines_of(order) {
        lines.push(status_line(row))?;
    }
    Ok(Lines::new(lines))
}

fn status_line(row: &OrderLine) -> StatusLine
    ensures { result ≡ spec.status_line row.now }
{
    StatusLine {
        i_id: row.i_id,
        supply_w_id: row.supply_w_id,
        quantity: row.quantity,
        amount: row.amount,
        delivery_d: row.delivery_d,
    }
}

/// Returns the reply of Order-Status for the request. No table changes.
pub(crate) fn show(
    alloc: Global,
    tables: &Tables,
    names: &NameIndex,
    orders: &LatestOrders,
    asked: &OrderStatus,
) -> Result<Reply, NoMemory>
    requires names { FitsNames names.now tables.now }
    requires orders { FitsLatest orders.now tables.now }
    ensures { IfOk result (λ reply. reply ≡ (spec.order_status tables.now asked.now).reply) }
{
    let Some((key, row)) = chosen(tables, names, asked.home, &asked.customer) else {
        return Ok(Reply::RolledBack(Fault::NoCustomer));
    };
    let order = latest_shown(alloc, tables, orders, key)?;
    let shown = status_reply(key, row, order);
    Ok(Reply::Done(Shown::OrderStatus(shown)))
}
