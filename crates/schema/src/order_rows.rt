//! Functions that change orders. They work on the rows of three tables, of all warehouses or of one.
ghost use Rattle.std.specs.Prelude.{◌≡◌, ◌≤◌, length, IsTrue, IfOk, OnOk, OnErr};
ghost use Rattle.std.specs.Ordering.{eq_by_cmp};
ghost use Rattle.std.specs.FinMap as table;
ghost use Rattle.rows.specs.Keys.{order_cmp};
ghost use Rattle.rows.specs.declared.limits.TheConstants.{MOST_LINES};
ghost use Rattle.schema.specs.EachRow.{EachRow};
ghost use Rattle.schema.specs.MapRows.{map_rows, put_row, ChangesRow, order_table};
ghost use Rattle.schema.specs.Database.{is_order_id, is_line_number, rows_where, is_of_district};
ghost use Rattle.schema.specs.Consistency.{numbers};
ghost use Rattle.schema.specs.OrderRows.{TakenBackOrderIsAsBefore, line_table, put_lines, lines_at, carried_by, with_carrier, with_moment, smallest, HasLines, with_lines};

use crate::NoMemory;
use crate::order_lines::OrderLines;
use crate::row_writes::{put, put_back, remove};
use rows::{CarrierId, DistrictKey, Moment, NewOrder, Order, OrderKey, OrderLine};
use std::collections::BTreeMap;

/// The rows that an added order replaced, to be restored when the order is taken back. In consistent
/// tables there are none.
#[derive(Drop)]
pub struct Replaced {
    pub order: Option<Order>,
    pub new_order: Option<NewOrder>,
    /// At the numbers of the order's lines, from 1.
    pub lines: Vec<Option<OrderLine>>,
}

/// Adds an order, its row of NEW-ORDER and its lines, numbered from 1, and returns the rows that they
/// replace. Returns `NoMemory` if an allocation fails; the tables are unchanged then.
pub fn add_order_rows(
    orders: &mut BTreeMap<OrderKey, Order>,
    new_orders: &mut BTreeMap<OrderKey, NewOrder>,
    lines: &mut OrderLines,
    key: OrderKey,
    order: Order,
    rows: Vec<OrderLine>,
) -> Result<Replaced, NoMemory>
    requires { length rows.items ≤ MOST_LINES }
    ensures order { OnOk result
        (order_table orders.new ≡ table.insert (order_table orders.old) key order) }
    ensures new_order { OnOk result
        (order_table new_orders.new ≡ table.insert (order_table new_orders.old) key (record {})) }
    ensures lines { OnOk result
        (line_table lines.new ≡ with_lines key rows.items (line_table lines.old)) }
    ensures was_order { IfOk result
        (λ replaced. replaced.order ≡ table.get (order_table orders.old) key) }
    ensures was_new { IfOk result
        (λ replaced. replaced.new_order ≡ table.get (order_table new_orders.old) key) }
    ensures were_lines { IfOk result (λ replaced. replaced.lines.items
        ≡ lines_at (line_table lines.old) key 1 (length rows.items)) }
    ensures err_order { OnErr result (order_table orders.new ≡ order_table orders.old) }
    ensures err_new { OnErr result (order_table new_orders.new ≡ order_table new_orders.old) }
    ensures err_lines { OnErr result (line_table lines.new ≡ line_table lines.old) }
{
    let was_order = put(orders, key, order)?;
    let was_new = match put(new_orders, key, NewOrder) {
        Ok(was) => was,
        Err(_) => {
            put_back(orders, key, was_order);
            return Err(NoMemory);
        }
    };
    match lines.add(key, rows) {
        Ok(were) => Ok(Replaced {
            order: was_order,
            new_order: was_new,
            lines: were,
        }),
        Err(_) => {
            put_back(new_orders, key, was_new);
            put_back(orders, key, was_order);
            Err(NoMemory)
        }
    }
}

/// Takes back an order that was added: restores the rows that it replaced, and removes its rows where
/// it replaced none. Does not allocate.
pub fn take_back_order_rows(
    orders: &mut BTreeMap<OrderKey, Order>,
    new_orders: &mut BTreeMap<OrderKey, NewOrder>,
    lines: &mut OrderLines,
    key: OrderKey,
    replaced: Replaced,
)
    requires few { length replaced.lines.items ≤ MOST_LINES }
    requires order { IsTrue (table.contains_key (order_table orders.old) key) }
    requires new_order { IsTrue (table.contains_key (order_table new_orders.old) key) }
    requires lines { HasLines (line_table lines.old) key (length replaced.lines.items) }
    ensures order { order_table orders.new ≡ put_row (order_table orders.old) key replaced.order }
    ensures new_order { order_table new_orders.new
        ≡ put_row (order_table new_orders.old) key replaced.new_order }
    ensures lines { line_table lines.new
        ≡ put_lines key 1 replaced.lines.items (line_table lines.old) }
{
    put_back(new_orders, key, replaced.new_order);
    take_back_order_and_lines(orders, lines, key, replaced);
}

/// As `take_back_order_rows`, but leaves NEW-ORDER unchanged.
pub fn take_back_order_and_lines(
    orders: &mut BTreeMap<OrderKey, Order>,
    lines: &mut OrderLines,
    key: OrderKey,
    replaced: Replaced,
)
    requires few { length replaced.lines.items ≤ MOST_LINES }
    requires order { IsTrue (table.contains_key (order_table orders.old) key) }
    requires lines { HasLines (line_table lines.old) key (length replaced.lines.items) }
    ensures order { order_table orders.new ≡ put_row (order_table orders.old) key replaced.order }
    ensures lines { line_table lines.new
        ≡ put_lines key 1 replaced.lines.items (line_table lines.old) }
{
    put_back(orders, key, replaced.order);
    lines.take_back(key, replaced.lines);
}

/// A law (proved, no effect at run time): adding an order and taking it back leaves the tables
/// unchanged.
pub fn taken_back_order_is_as_before()
    ensures { TakenBackOrderIsAsBefore }
{}

/// Delivers an order: deletes its row of NEW-ORDER, sets its carrier, and sets the delivery moment of
/// its lines. Does not allocate.
pub fn deliver_order_rows(
    orders: &mut BTreeMap<OrderKey, Order>,
    new_orders: &mut BTreeMap<OrderKey, NewOrder>,
    lines: &mut OrderLines,
    key: OrderKey,
    carrier: CarrierId,
    moment: Moment,
)
    requires { EachRow (λ key _. is_line_number key.number) (line_table lines.old) }
    ensures order { order_table orders.new
        ≡ map_rows (with_carrier key carrier) (order_table orders.old) }
    ensures new_order { order_table new_orders.new ≡ table.remove (order_table new_orders.old) key }
    ensures lines { line_table lines.new
        ≡ map_rows (with_moment key moment) (line_table lines.old) }
{
    remove(new_orders, key);
    set_carrier(orders, key, carrier);
    lines.deliver(key, moment);
}

/// The number of the district's oldest new order, or `None` if it has none. It is the first of the
/// district in key order.
pub fn oldest_number(new_orders: &BTreeMap<OrderKey, NewOrder>, home: DistrictKey) -> Option<u32>
    requires { EachRow (λ key _. is_order_id key.o_id) (order_table new_orders.now) }
    ensures { result
        ≡ smallest (numbers (rows_where (is_of_district home) (order_table new_orders.now))) }
{
    let first = OrderKey {
        w_id: home.w_id,
        d_id: home.d_id,
        o_id: 0,
    };
    let last = OrderKey {
        o_id: u32::MAX,
        ..first
    };
    let mut rows = new_orders.range(first..=last);
    let (key, _) = rows.next()?;
    Some(key.o_id)
}

// Sets the carrier of the order, if there is one.
fn set_carrier(orders: &mut BTreeMap<OrderKey, Order>, key: OrderKey, carrier: CarrierId)
    ensures { ChangesRow (eq_by_cmp order_cmp) key (carried_by carrier)
        (order_table orders.old) (order_table orders.new) }
{
    if let Some(row) = orders.get_mut(&key) {
        row.carrier_id = Some(carrier);
    }
}
