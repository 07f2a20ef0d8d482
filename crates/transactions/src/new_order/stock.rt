//! The stock of a New-Order: what one group of it does for the lines that it supplies (clause 2.4.2.2).
ghost use Rattle.std.specs.Prelude.{◌≡◌, [], ◌∷◌, IsTrue, IfOk, OnOk, OnErr, MatchOption, None};
ghost use Rattle.std.specs.List.{list_all};
ghost use Rattle.rows.specs.Ranged.{is_between};
ghost use Rattle.partitions.specs.Parts.{shared_of};
ghost use Rattle.requests.specs.declared.request.Request.TheVariants as request;
ghost use Rattle.requests.specs.Check.{IsAccepted};
ghost use Rattle.groups.specs.Content.{content};
ghost use Rattle.groups.specs.Groups.{is_same, warehouse_of};
ghost use Rattle.groups.specs.NewOrder.{group_of_supply};
ghost use Rattle.groups.specs.declared.group_wants.Mode.TheVariants.{Exclusive};
ghost use Rattle.tickets.specs.Claims.{leaving};
ghost use Rattle.machine.specs.NewOrder.{stock_key_of};
ghost use Rattle.machine.specs.NewOrderLines.{IsOrderWithin};
ghost use Rattle.slices.specs.SliceView.{IsClaimAt, SliceKeeps};
ghost use Rattle.transactions.specs.Granted.{IsExclusiveOn, IsFresh};
ghost use Rattle.transactions.specs.NewOrder.{AreSoldKnown, IsStockTaken, has_item_of, is_supply_of, lines_in, lines_sold};
ghost use Rattle.transactions.specs.NewOrderStock.{AreOfGroup, IsSaleOf, with_stocks_put};

use super::{LineSold, StockTaken};
use crate::listed::Listed;
use groups::group_of_stock;
use machine::place_line;
use partitions::Partition;
use requests::{Group, NewOrder, OrderedLine};
use schema::{NoMemory, Stock, StockKey};
use slices::Slice;
use std::alloc::Global;
use tickets::{Claim, GroupNames};

/// A row that is to be put into STOCK.
#[derive(Drop)]
pub(crate) struct StockPut {
    pub(crate) key: StockKey,
    pub(crate) row: Stock,
}

/// Lines that can be sold, and the rows that are to be put for them.
#[derive(Drop)]
pub(crate) struct Sale {
    pub(crate) sold: Vec<LineSold>,
    pub(crate) puts: Vec<StockPut>,
}

/// Takes the lines of an order from the stock of the group that supplies them, if each line's item is there and each counter
/// stays in its range. A missing item comes before a counter out of its range. Returns NoMemory if an allocation fails; nothing
/// has changed then.
pub fn take_stock<J: GroupNames>(
    alloc: Global,
    slice: &mut Slice<J>,
    stock: &mut Claim<J>,
    order: &NewOrder,
    group: Group,
) -> Result<StockTaken, NoMemory>
    requires claim { IsExclusiveOn group stock.old }
    requires fresh { IsFresh stock.old }
    requires home { warehouse_of group ≡ slice.old.home }
    requires accepted { IsAccepted slice.old.tables.scale (request.NewOrder order.now) }
    requires supplies { IsTrue (is_supply_of order.now group) }
    ensures kept { SliceKeeps (stock.old ∷ []) slice.old (stock.new ∷ []) slice.new }
    ensures taken { IfOk result (λ found.
        IsStockTaken (shared_of slice.old.tables) order.now group found stock.new) }
    ensures known { IfOk result (AreSoldKnown slice.old.tables.scale order.now group) }
    ensures stock { stock.new ≡ leaving stock.old stock.new.left }
    ensures err { OnErr result ((slice.new ≡ slice.old) × (stock.new ≡ stock.old)) }
{
    slice.look(stock);
    if !has_items(slice.partition(), order.lines.as_slice(), group) {
        return Ok(StockTaken::NoItem);
    }
    let Some(sale) = sell(alloc, slice.partition(), order, group)? else {
        return Ok(StockTaken::OutOfRange);
    };
    put_stocks(slice, stock, sale.puts)?;
    Ok(StockTaken::Taken(Listed::new(sale.sold)))
}

// Whether the item of each line that the group supplies is there.
fn has_items(rows: &Partition, lines: &[OrderedLine], group: Group) -> bool
    ensures { result ≡ list_all (has_item_of rows.now.tables) (lines_in group lines.now) }
{
    for line in lines {
        if is_supplied(*line, group) && rows.item(line.i_id).is_none() {
            return false;
        }
    }
    true
}

// What is sold of the lines that the group supplies, and the rows that are to be put for them; `None` if a line can't be placed.
// Changes nothing: each line is taken from the row as it is before the order.
fn sell(
    alloc: Global,
    rows: &Partition,
    order: &NewOrder,
    group: Group,
) -> Result<Option<Sale>, NoMemory>
    requires within { IsOrderWithin order.now }
    requires district { IsTrue (is_between 1 10 order.now.home.d_id) }
    ensures { IfOk result (λ r. MatchOption r
        (lines_sold rows.now.tables order.now (lines_in group order.now.lines) ≡ None)
        (IsSaleOf rows.now.tables order.now (lines_in group order.now.lines))) }
{
    // (mostly a group supplies one line)
    let mut sold = Vec::with_capacity(alloc, 1)?;
    let mut puts = Vec::with_capacity(alloc, 1)?;
    for (index, line) in order.lines.as_slice().iter().enumerate() {
        if is_supplied(*line, group) {
            let number = index + 1;
            let Some(placed) = place_line(rows, order, number, *line) else {
                return Ok(None);
            };
            sold.push(LineSold {
                number,
                row: placed.row,
                shown: placed.shown,
            })?;
            puts.push(StockPut {
                key: stock_key(*line),
                row: placed.stock,
            })?;
        }
    }
    Ok(Some(Sale { sold, puts }))
}

// Puts all rows, or none.
fn put_stocks<J: GroupNames>(
    slice: &mut Slice<J>,
    stock: &mut Claim<J>,
    mut puts: Vec<StockPut>,
) -> Result<(), NoMemory>
    requires exclusive { stock.old.mode ≡ Exclusive }
    requires fresh { IsFresh stock.old }
    requires home { IsClaimAt slice.old.home stock.old }
    requires left { stock.old.left ≡ content slice.old.tables stock.old.group }
    requires puts { AreOfGroup stock.old slice.old.tables.stocks puts.items }
    ensures kept { SliceKeeps (stock.old ∷ []) slice.old (stock.new ∷ []) slice.new }
    ensures claim { OnOk result (stock.new
        ≡ leaving stock.old (content slice.new.tables stock.old.group)) }
    ensures rows { OnOk result (slice.new ≡ with_stocks_put puts.items slice.old) }
    ensures err { OnErr result ((slice.new ≡ slice.old) × (stock.new ≡ stock.old)) }
{
    while let Some(put) = puts.pop() {
        if let Err(error) = slice.put_stock(stock, put.key, put.row) {
            slice.undo(stock);
            return Err(error);
        }
    }
    slice.look(stock);
    Ok(())
}

// Whether the group supplies the line.
fn is_supplied(line: OrderedLine, group: Group) -> bool
    ensures { result ≡ is_same (group_of_supply line) group }
{
    supply_of(line) == group
}

// The group of the row of STOCK that supplies the line.
pub(crate) fn supply_of(line: OrderedLine) -> Group
    ensures { result ≡ group_of_supply line }
{
    group_of_stock(stock_key(line))
}

// The row of STOCK that supplies the line.
fn stock_key(line: OrderedLine) -> StockKey
    ensures { result ≡ stock_key_of line }
{
    StockKey {
        w_id: line.supply_w_id,
        i_id: line.i_id,
    }
}
