//! The lines of a New-Order: the rows that each line reads and changes (clause 2.4.2.2).
ghost use Rattle.std.specs.Prelude.{◌≡◌, ◌≤◌, ◌==◌, ◌&&◌, length, IsTrue, IfOk, is_some};
ghost use Rattle.std.specs.List.{sum_by, filter};
ghost use Rattle.std.specs.Option.{option_map};
ghost use Rattle.rows.specs.Ranged.{is_between};
ghost use Rattle.rows.specs.declared.limits.TheConstants.{MOST_LINES};
ghost use Rattle.machine.specs.NewOrder as spec;
ghost use Rattle.machine.specs.NewOrderLines.{AreQuantities, IsOrderWithin, columns, line_placed, lines_placed};

use partitions::Rows;
use requests::{NewOrder, NewOrderLine, OrderedLine};
use schema::{
    DistrictKey, Item, LineAmount, LineQuantity, NoMemory, OrderLine, Stock, StockKey,
    StockQuantity, Tables, brand, restock,
};
use std::alloc::Global;

/// The results of an order's lines: three lists, by OL_NUMBER.
#[derive(Drop)]
pub(crate) struct LinesPlaced {
    pub(crate) rows: Vec<OrderLine>,
    pub(crate) shown: Vec<NewOrderLine>,
    pub(crate) stocks: Vec<Stock>,
}

/// The results of one line of an order: its row of ORDER-LINE, the shown line, and its row of STOCK after all lines of
/// the order.
#[derive(Drop)]
pub struct LinePlaced {
    pub row: OrderLine,
    pub shown: NewOrderLine,
    pub stock: Stock,
}

/// The amounts by which lines raise the counters of the row of STOCK that supplies them.
#[derive(Clone, Copy)]
struct Raised {
    ytd: u32,
    order_cnt: u32,
    remote_cnt: u32,
}

// Returns whether the item of each line exists.
pub(crate) fn has_items(tables: &Tables, lines: &[OrderedLine]) -> bool
    ensures { result ≡ is_some (spec.items_found tables.now lines.now) }
{
    for line in lines {
        if tables.item(line.i_id).is_none() {
            return false;
        }
    }
    true
}

// Returns the results of the order's lines, `None` if an item or a row of STOCK is missing or a counter would leave its
// range. The tables are unchanged.
pub(crate) fn place_lines(
    alloc: Global,
    tables: &Tables,
    order: &NewOrder,
) -> Result<Option<LinesPlaced>, NoMemory>
    requires within { IsOrderWithin order.now }
    requires district { IsTrue (is_between 1 10 order.now.home.d_id) }
    ensures { IfOk result (λ r. option_map (λ p. (p.rows.items, p.shown.items, p.stocks.items)) r
        ≡ option_map columns (lines_placed tables.now order.now 1 order.now.lines)) }
{
    let mut rows = Vec::new(alloc);
    let mut shown = Vec::new(alloc);
    let mut stocks = Vec::new(alloc);
    for line in order.lines.as_slice() {
        let number = rows.len() + 1;
        let Some(placed) = place_line(tables, order, number, *line) else {
            return Ok(None);
        };
        rows.push(placed.row)?;
        shown.push(placed.shown)?;
        stocks.push(placed.stock)?;
    }
    Ok(Some(LinesPlaced {
        rows,
        shown,
        stocks,
    }))
}

/// Returns the results of the line with this number. `rows` are all tables or those of the warehouse that supplies the
/// line. `None` if its item or its row of STOCK is missing, or a counter would leave its range. The rows are unchanged.
pub fn place_line<T: Rows>(
    rows: &T,
    order: &NewOrder,
    number: usize,
    line: OrderedLine,
) -> Option<LinePlaced>
    requires within { IsOrderWithin order.now }
    requires district { IsTrue (is_between 1 10 order.now.home.d_id) }
    requires some { 1 ≤ line.quantity }
    requires few { line.quantity ≤ 10 }
    requires number { number ≤ length order.now.lines }
    ensures { result ≡ line_placed (T.tables rows.now) order.now number line }
{
    let lines = order.lines.as_slice();
    let key = stock_key(line);
    let Some(item) = rows.item(line.i_id) else {
        return None;
    };
    let Some(stock) = rows.stock(key) else {
        return None;
    };
    let Some(taken) = stock_taken(order.home.w_id, stock, key, lines) else {
        return None;
    };
    let quantity = quantity_after(stock.quantity, key, &lines[..number]);
    Some(LinePlaced {
        row: line_row(order.home, line, item, stock),
        shown: line_shown(line, item, stock, quantity),
        stock: taken,
    })
}

/// Returns the row of STOCK at the key after those of the lines that it supplies; `None` if a counter would leave its
/// range.
pub fn stock_taken(home: u32, row: &Stock, key: StockKey, lines: &[OrderedLine]) -> Option<Stock>
    requires few { length lines.now ≤ MOST_LINES }
    requires quantities { AreQuantities lines.now }
    ensures { result ≡ spec.stock_taken home row.now (spec.taken_from key lines.now) }
{
    let raised = raised_by(home, key, lines);
    let Some(ytd) = row.ytd.checked_add(raised.ytd) else {
        return None;
    };
    let Some(order_cnt) = row.order_cnt.checked_add(raised.order_cnt) else {
        return None;
    };
    let Some(remote_cnt) = row.remote_cnt.checked_add(raised.remote_cnt) else {
        return None;
    };
    let mut row = row.copy();
    row.quantity = quantity_after(row.quantity, key, lines);
    row.ytd = ytd;
    row.order_cnt = order_cnt;
    row.remote_cnt = remote_cnt;
    Some(row)
}

// Returns the amounts by which the lines raise the counters of the row at the key.
fn raised_by(home: u32, key: StockKey, lines: &[OrderedLine]) -> Raised
    requires few { length lines.now ≤ MOST_LINES }
    requires quantities { AreQuantities lines.now }
    ensures ytd { result.ytd ≡ sum_by (λ line. line.quantity) (spec.taken_from key lines.now) }
    ensures order_cnt { result.order_cnt ≡ length (spec.taken_from key lines.now) }
    ensures remote_cnt { result.remote_cnt
        ≡ length (filter (spec.is_remote home) (spec.taken_from key lines.now)) }
{
    let mut raised = Raised {
        ytd: 0,
        order_cnt: 0,
        remote_cnt: 0,
    };
    for line in lines {
        if takes_from(*line, key) {
            raised.ytd += line.quantity;
            raised.order_cnt += 1;
            raised.remote_cnt += u32::from(line.supply_w_id != home);
        }
    }
    raised
}

/// Returns S_QUANTITY of the row at the key after those of the lines that it supplies, one after another.
pub fn quantity_after(
    quantity: StockQuantity,
    key: StockKey,
    lines: &[OrderedLine],
) -> StockQuantity
    requires { AreQuantities lines.now }
    ensures { result ≡ spec.quantity_after quantity (spec.taken_from key lines.now) }
{
    let mut quantity = quantity;
    for line in lines {
        if takes_from(*line, key) {
            quantity = restock(quantity, LineQuantity::new(line.quantity));
        }
    }
    quantity
}

// Returns whether the row of STOCK at the key supplies the line.
fn takes_from(line: OrderedLine, key: StockKey) -> bool
    ensures { result ≡ (line.supply_w_id == key.w_id) && (line.i_id == key.i_id) }
{
    line.supply_w_id == key.w_id && line.i_id == key.i_id
}

/// Returns the row of ORDER-LINE of a line of an order of the district.
pub fn line_row(home: DistrictKey, line: OrderedLine, item: &Item, stock: &Stock) -> OrderLine
    requires district { IsTrue (is_between 1 10 home.d_id) }
    requires some { 1 ≤ line.quantity }
    requires few { line.quantity ≤ 10 }
    ensures { result ≡ spec.line_row home line item.now stock.now }
{
    OrderLine {
        i_id: line.i_id,
        supply_w_id: line.supply_w_id,
        delivery_d: None,
        quantity: LineQuantity::new(line.quantity),
        amount: line_amount(line, item),
        dist_info: stock.dist_info(home.d_id).copy(),
    }
}

/// Returns the shown line, from the row of STOCK before the order and S_QUANTITY after the line.
pub fn line_shown(
    line: OrderedLine,
    item: &Item,
    stock: &Stock,
    quantity: StockQuantity,
) -> NewOrderLine
    requires some { 1 ≤ line.quantity }
    requires few { line.quantity ≤ 10 }
    ensures { result ≡ spec.line_shown line item.now stock.now quantity }
{
    NewOrderLine {
        supply_w_id: line.supply_w_id,
        i_id: line.i_id,
        name: item.name.copy(),
        quantity: LineQuantity::new(line.quantity),
        stock_quantity: quantity,
        brand: brand(&item.data, &stock.data),
        price: item.price,
        amount: line_amount(line, item),
    }
}

// Returns OL_AMOUNT of a line.
fn line_amount(line: OrderedLine, item: &Item) -> LineAmount
    requires { line.quantity ≤ 10 }
    ensures { result ≡ spec.line_amount line item.now }
{
    LineAmount::new(line.quantity * item.price.get())
}

pub(crate) fn stock_key(line: OrderedLine) -> StockKey
    ensures { result ≡ spec.stock_key_of line }
{
    StockKey {
        w_id: line.supply_w_id,
        i_id: line.i_id,
    }
}
