ghost use Rattle.std.specs.Prelude.{◌≡◌, ◌≤◌, ◌==◌, ◌*◌, length, IsTrue, IfOk, OnOk, OnErr};
ghost use Rattle.std.specs.List.{list_all};
ghost use Rattle.std.specs.FinMap as table;
ghost use Rattle.rows.specs.declared.limits.TheConstants.{MOST_LINES};
ghost use Rattle.schema.specs.Database.{Database, is_order_id, customer_of_order};
ghost use Rattle.schema.specs.Scale.{has_customer, customer_key};
ghost use Rattle.schema.specs.OrderRows.{is_line_within};
ghost use Rattle.indexes.specs.LatestIndex.{FitsLatest};
ghost use Rattle.machine.specs.NewOrder as spec;
ghost use Rattle.machine.specs.NewOrderLines.{HaveStocks, IsOrderWithin, stocks_put, with_order_put};
ghost use Rattle.machine.specs.LatestNoted.{IsOrderPut};

use crate::new_order_lines::{LinesPlaced, has_items, place_lines, stock_key};
use amounts::{Cents, order_total};
use indexes::LatestOrders;
use partitions::Rows;
use requests::{Fault, Lines, NewOrder, NewOrderLine, NewOrderReply, OrderedLine, Reply, Shown};
use schema::{
    Customer, CustomerKey, District, DistrictKey, LineCount, NoMemory, Order, OrderKey, OrderLine,
    Stock, Tables, Warehouse,
};
use std::alloc::Global;

/// Carries out a New-Order (clause 2.4): the reply and the tables are those of its definition. A fault changes nothing.
/// Returns NoMemory if an allocation fails; the tables are unchanged then.
pub(crate) fn place_order(
    alloc: Global,
    tables: &mut Tables,
    latest: &mut LatestOrders,
    order: &NewOrder,
) -> Result<Reply, NoMemory>
    requires within { IsOrderWithin order.now }
    requires latest { FitsLatest latest.old tables.old }
    ensures reply { IfOk result (λ reply. reply ≡ (spec.new_order tables.old order.now).reply) }
    ensures tables { OnOk result (tables.new ≡ (spec.new_order tables.old order.now).tables) }
    ensures latest { FitsLatest latest.new tables.new }
    ensures err { OnErr result (tables.new ≡ tables.old) }
{
    // Called for its contract: the tables are within the scale.
    tables.scale();
    let Some(warehouse) = tables.warehouse(order.home.w_id) else {
        return Ok(Reply::RolledBack(Fault::NoCustomer));
    };
    let Some(district) = tables.district(order.home) else {
        return Ok(Reply::RolledBack(Fault::NoCustomer));
    };
    let Some(customer) = tables.customer(customer_of(order.home, order.c_id)) else {
        return Ok(Reply::RolledBack(Fault::NoCustomer));
    };
    let o_id = district.next_o_id.get();
    if !has_items(tables, order.lines.as_slice()) {
        return Ok(Reply::RolledBack(Fault::NoItem {
            last: customer.last.copy(),
            credit: customer.credit,
            o_id,
        }));
    }
    let Some(new_district) = district_ordered(district) else {
        return Ok(Reply::RolledBack(Fault::Range));
    };
    let Some(placed) = place_lines(alloc, tables, order)? else {
        return Ok(Reply::RolledBack(Fault::Range));
    };
    let LinesPlaced {
        rows,
        shown,
        stocks,
    } = placed;
    let shown = new_order_reply(order, warehouse, district, customer, rows.as_slice(), shown);
    post(tables, latest, order, o_id, new_district, rows, stocks)?;
    Ok(Reply::Done(Shown::NewOrder(shown)))
}

// Changes all rows of an order at once. The step that may run out of memory comes first.
fn post(
    tables: &mut Tables,
    latest: &mut LatestOrders,
    order: &NewOrder,
    o_id: u32,
    district: District,
    rows: Vec<OrderLine>,
    stocks: Vec<Stock>,
) -> Result<(), NoMemory>
    requires within { IsOrderWithin order.now }
    requires number { IsTrue (is_order_id o_id) }
    requires district_is_there { IsTrue (table.contains_key tables.old.districts order.now.home) }
    requires customer_is_there { IsTrue (has_customer tables.old.scale
        (customer_of_order (spec.order_key order.now.home o_id) (spec.order_row order.now))) }
    requires few { length rows.items ≤ MOST_LINES }
    requires lines { IsTrue (list_all (is_line_within tables.old.scale) rows.items) }
    requires stocks_are_there { HaveStocks tables.old.stocks order.now.lines }
    requires as_many { length stocks.items ≡ length order.now.lines }
    requires latest { FitsLatest latest.old tables.old }
    ensures ok { OnOk result (tables.new
        ≡ with_order_put tables.old order.now o_id district rows.items stocks.items) }
    ensures latest { FitsLatest latest.new tables.new }
    ensures err { OnErr result (tables.new ≡ tables.old) }
{
    let key = order_key(order.home, o_id);
    let replaced = tables.add_order(key, order_row(order), rows)?;
    note_latest(tables, latest, order, o_id, replaced.order);
    tables.replace_district(order.home, district);
    put_stocks(tables, order.lines.as_slice(), stocks);
    Ok(())
}

// Records the order as its customer's latest. If the order replaced another one at its key, which happens only in
// inconsistent tables, the other customer's latest order is searched for again.
fn note_latest(
    tables: &Tables,
    latest: &mut LatestOrders,
    order: &NewOrder,
    o_id: u32,
    replaced: Option<Order>,
)
    ensures { (before : Database)
        → IsOrderPut before tables.now
        (spec.order_key order.now.home o_id) (spec.order_row order.now) replaced
        → FitsLatest latest.old before → FitsLatest latest.new tables.now }
{
    // Called for its contract: no two districts have the same place.
    Rows::scale(tables);
    latest.raise_order(tables, customer_of(order.home, order.c_id), o_id);
    if let Some(other) = replaced {
        if other.c_id != order.c_id {
            latest.look_through(tables, customer_of(order.home, other.c_id));
        }
    }
}

// Replaces the rows of STOCK that supply the lines, from the last line to the first.
fn put_stocks(tables: &mut Tables, lines: &[OrderedLine], stocks: Vec<Stock>)
    requires there { HaveStocks tables.old.stocks lines.now }
    requires as_many { length stocks.items ≡ length lines.now }
    ensures { tables.new
        ≡ record tables.old { stocks = stocks_put lines.now stocks.items tables.old.stocks } }
{
    let mut rest = stocks;
    while let Some(row) = rest.pop() {
        let key = stock_key(lines[rest.len()]);
        tables.replace_stock(key, row);
    }
}

/// Returns the row of ORDER of an order.
pub fn order_row(order: &NewOrder) -> Order
    requires { IsOrderWithin order.now }
    ensures { result ≡ spec.order_row order.now }
{
    let lines = order.lines.as_slice();
    Order {
        c_id: order.c_id,
        entry_d: order.moment,
        carrier_id: None,
        ol_cnt: LineCount::new(lines.len() as u32),
        all_local: are_local(order.home.w_id, lines),
    }
}

// Returns whether the warehouse supplies every line.
fn are_local(home: u32, lines: &[OrderedLine]) -> bool
    ensures { result ≡ list_all (λ line. line.supply_w_id == home) lines.now }
{
    for line in lines {
        if line.supply_w_id != home {
            return false;
        }
    }
    true
}

/// Returns the district's row after an order: D_NEXT_O_ID grows by one. `None` if it would leave its range.
pub fn district_ordered(row: &District) -> Option<District>
    ensures { result ≡ spec.district_ordered row.now }
{
    let Some(next) = row.next_o_id.checked_add(1) else {
        return None;
    };
    let mut row = row.copy();
    row.next_o_id = next;
    Some(row)
}

/// Returns the reply of an order, from the rows before it, its rows of ORDER-LINE, and the shown lines.
pub fn new_order_reply(
    order: &NewOrder,
    warehouse: &Warehouse,
    district: &District,
    customer: &Customer,
    rows: &[OrderLine],
    shown: Vec<NewOrderLine>,
) -> NewOrderReply
    requires { length rows.now ≤ MOST_LINES }
    ensures { result ≡ spec.new_order_reply
        order.now warehouse.now district.now customer.now rows.now shown.items }
{
    let sum = Cents::new(i64::from(sum_of(rows)));
    NewOrderReply {
        last: customer.last.copy(),
        credit: customer.credit,
        discount: customer.discount,
        warehouse_tax: warehouse.tax,
        district_tax: district.tax,
        o_id: district.next_o_id.get(),
        entry_d: order.moment,
        total: order_total(sum, customer.discount, warehouse.tax, district.tax),
        lines: Lines::new(shown),
    }
}

// Returns the sum of the lines' amounts, in cents.
fn sum_of(rows: &[OrderLine]) -> u32
    requires { length rows.now ≤ MOST_LINES }
    ensures value { result ≡ spec.sum_of rows.now }
    ensures fits { result ≤ MOST_LINES * 999999 }
{
    let mut sum = 0;
    for row in rows {
        sum += row.amount.get();
    }
    sum
}

fn customer_of(home: DistrictKey, c_id: u32) -> CustomerKey
    ensures { result ≡ customer_key home c_id }
{
    CustomerKey {
        w_id: home.w_id,
        d_id: home.d_id,
        c_id,
    }
}

fn order_key(home: DistrictKey, o_id: u32) -> OrderKey
    ensures { result ≡ spec.order_key home o_id }
{
    OrderKey {
        w_id: home.w_id,
        d_id: home.d_id,
        o_id,
    }
}
