//! The step after the second phase of a New-Order, from what the groups of its stock found.
ghost use Rattle.std.specs.Prelude.{◌≡◌, ◌≤◌, ◌*◌, ◌+◌, length, map, IfOk};
ghost use Rattle.std.specs.List.{filter_map, list_all, list_any};
ghost use Rattle.rows.specs.declared.limits.TheConstants.{MOST_LINES};
ghost use Rattle.machine.specs.NewOrder.{order_key, sum_of};
ghost use Rattle.machine.specs.NewOrderLines.{IsOrderWithin};
ghost use Rattle.transactions.specs.NewOrder.{all_sold, decided, in_order, is_no_item, is_taken, order_placed};
ghost use Rattle.transactions.specs.NewOrderStock.{AreNumbered, filled};

use super::{LineSold, OrderBegun, OrderPlaced, OrderRows, StockTaken};
use crate::listed::Listed;
use amounts::{Cents, order_total};
use machine::order_row;
use requests::{Fault, Lines, NewOrderLine, NewOrderReply};
use schema::{DistrictKey, NoMemory, OrderKey, OrderLine};
use std::alloc::Global;

/// The order with its lines in order, or why it is rolled back: a missing item comes before a number or a counter out of its
/// range.
pub(crate) fn decide(
    alloc: Global,
    given: OrderBegun,
    found: Vec<StockTaken>,
) -> Result<Result<OrderPlaced, Fault>, NoMemory>
    requires within { IsOrderWithin given.order }
    requires numbers { AreNumbered (length given.order.lines) (all_sold found.items) }
    ensures { IfOk result (λ r. r ≡ decided given.order given.home given.orderer found.items) }
{
    if lacks_item(&found) {
        return Ok(Err(Fault::NoItem {
            last: given.orderer.last,
            credit: given.orderer.credit,
            o_id: given.home.o_id,
        }));
    }
    if !given.home.has_next || !are_taken(&found) {
        return Ok(Err(Fault::Range));
    }
    let count = given.order.lines.as_slice().len();
    let sold = put_in_order(alloc, count, found)?;
    Ok(Ok(placed(alloc, given, sold)?))
}

// Whether a group found that an item is missing.
fn lacks_item(found: &[StockTaken]) -> bool
    ensures { result ≡ list_any is_no_item found.now }
{
    for one in found {
        if let StockTaken::NoItem = one {
            return true;
        }
    }
    false
}

// Whether all groups sold their lines.
fn are_taken(found: &[StockTaken]) -> bool
    ensures { result ≡ list_all is_taken found.now }
{
    for one in found {
        if let StockTaken::NoItem | StockTaken::OutOfRange = one {
            return false;
        }
    }
    true
}

// The lines by their numbers, 1 to `count`, in whatever order the groups sold them.
fn put_in_order(
    alloc: Global,
    count: usize,
    found: Vec<StockTaken>,
) -> Result<Vec<LineSold>, NoMemory>
    requires { AreNumbered count (all_sold found.items) }
    ensures { IfOk result (λ lines. lines.items ≡ in_order count (all_sold found.items)) }
{
    let mut places = Vec::with_capacity(alloc, count)?;
    for _ in 0..count {
        places.push(None)?;
    }
    fill_all(&mut places, found);
    filled_places(alloc, places)
}

// Puts each line that a group sold at its number.
fn fill_all(places: &mut [Option<LineSold>], mut found: Vec<StockTaken>)
    requires { AreNumbered (length places.old) (all_sold found.items) }
    ensures { places.new ≡ filled (all_sold found.items) places.old }
{
    while let Some(one) = found.pop() {
        if let StockTaken::Taken(sold) = one {
            fill(places, sold.into_vec());
        }
    }
}

fn fill(places: &mut [Option<LineSold>], mut sold: Vec<LineSold>)
    requires { AreNumbered (length places.old) sold.items }
    ensures { places.new ≡ filled sold.items places.old }
{
    while let Some(line) = sold.pop() {
        let place = line.number - 1;
        places[place] = Some(line);
    }
}

// The lines that are there, in order.
fn filled_places(alloc: Global, places: Vec<Option<LineSold>>) -> Result<Vec<LineSold>, NoMemory>
    ensures { IfOk result (λ lines. lines.items ≡ filter_map (λ place. place) places.items) }
{
    let mut lines = Vec::with_capacity(alloc, places.len())?;
    for place in places {
        if let Some(line) = place {
            lines.push(line)?;
        }
    }
    Ok(lines)
}

// The rows to be added, and the reply.
fn placed(alloc: Global, given: OrderBegun, sold: Vec<LineSold>) -> Result<OrderPlaced, NoMemory>
    requires within { IsOrderWithin given.order }
    requires few { length sold.items ≤ MOST_LINES }
    ensures { IfOk result (λ r. r ≡ order_placed given.order given.home given.orderer sold.items) }
{
    let OrderBegun {
        order,
        home,
        orderer,
        ..
    } = given;
    let sum = Cents::new(i64::from(sum_sold(&sold)));
    let (rows, shown) = columns(alloc, sold)?;
    Ok(OrderPlaced {
        rows: OrderRows {
            key: key_of(order.home, home.o_id),
            row: order_row(&order),
            lines: Listed::new(rows),
        },
        reply: NewOrderReply {
            last: orderer.last,
            credit: orderer.credit,
            discount: orderer.discount,
            warehouse_tax: home.warehouse_tax,
            district_tax: home.district_tax,
            o_id: home.o_id,
            entry_d: order.moment,
            total: order_total(sum, orderer.discount, home.warehouse_tax, home.district_tax),
            lines: Lines::new(shown),
        },
    })
}

fn key_of(home: DistrictKey, o_id: u32) -> OrderKey
    ensures { result ≡ order_key home o_id }
{
    OrderKey {
        w_id: home.w_id,
        d_id: home.d_id,
        o_id,
    }
}

// The sum of the lines' amounts, in cents.
fn sum_sold(sold: &[LineSold]) -> u32
    requires { length sold.now ≤ MOST_LINES }
    ensures value { result ≡ sum_of (map (λ line. line.row) sold.now) }
    ensures fits { result ≤ MOST_LINES * 999999 }
{
    let mut sum = 0;
    for line in sold {
        sum += line.row.amount.get();
    }
    sum
}

// The rows of ORDER-LINE, and what the reply shows of them.
fn columns(
    alloc: Global,
    sold: Vec<LineSold>,
) -> Result<(Vec<OrderLine>, Vec<NewOrderLine>), NoMemory>
    ensures rows { IfOk result (λ r. r.0.items ≡ map (λ line. line.row) sold.items) }
    ensures shown { IfOk result (λ r. r.1.items ≡ map (λ line. line.shown) sold.items) }
{
    let mut rows = Vec::with_capacity(alloc, sold.len())?;
    let mut shown = Vec::with_capacity(alloc, sold.len())?;
    for line in sold {
        rows.push(line.row)?;
        shown.push(line.shown)?;
    }
    Ok((rows, shown))
}
