ghost use Rattle.std.specs.Prelude.{◌≡◌, ◌≤◌, count_by, length, IfOk};
ghost use Rattle.std.specs.FinMap as table;
ghost use Rattle.rows.specs.declared.limits.TheConstants.{RECENT_LINES};
ghost use Rattle.machine.specs.StockLevel as spec;

use partitions::Rows;
use requests::{StockLevel, StockLevelReply};
use rows::RECENT_LINES;
use schema::{DistrictKey, NoMemory, StockKey, Tables};
use std::alloc::Global;

/// Returns the reply of Stock-Level (clause 2.8): the number of items in the district's last 20 orders whose stock in
/// its warehouse is below the threshold; 0 if there is no such district. Reads the lines of these orders and one row of
/// STOCK for each of their items, and changes nothing. Returns NoMemory if an allocation fails; nothing is left behind
/// then.
pub fn stock_level_reply(
    alloc: Global,
    tables: &Tables,
    asked: &StockLevel,
) -> Result<StockLevelReply, NoMemory>
    ensures { IfOk result (λ reply. reply ≡ spec.level_shown tables.now asked.now) }
{
    let next = next_order(tables, asked.home);
    let items = recent_items(alloc, tables, asked.home, next)?;
    let count = low_stock(tables, asked.home.w_id, asked.threshold, items);
    Ok(StockLevelReply {
        count: count as u32,
    })
}

/// Returns the item of each line of the district's 20 orders before number `next`, by O_ID and then by OL_NUMBER: at
/// most 600 items. Returns NoMemory if an allocation fails; nothing is left behind then.
pub fn recent_items<T: Rows>(
    alloc: Global,
    rows: &T,
    home: DistrictKey,
    next: u32,
) -> Result<Vec<u32>, NoMemory>
    ensures value { IfOk result (λ items.
        items.items ≡ spec.recent_items (T.tables rows.now) home next) }
    ensures few { IfOk result (λ items. length items.items ≤ RECENT_LINES) }
{
    let mut items = Vec::with_capacity(alloc, RECENT_LINES)?;
    for (_, row) in rows.lines_of_span(home, next.saturating_sub(20), next) {
        items.push(row.i_id)?;
    }
    Ok(items)
}

/// Returns how many of these items have stock below the threshold in the warehouse. An item that occurs several times
/// counts once. Never allocates.
pub fn low_stock<T: Rows>(rows: &T, warehouse: u32, threshold: u32, items: Vec<u32>) -> usize
    ensures value { result ≡ spec.low_stock (T.tables rows.now) warehouse threshold items.items }
    ensures few { result ≤ length items.items }
{
    let mut items = items;
    items.sort_unstable();
    items.dedup();
    count_short(rows, warehouse, threshold, &items)
}

// Returns how many of these items have stock below the threshold in the warehouse. An item counts as often as it
// occurs.
fn count_short<T: Rows>(rows: &T, warehouse: u32, threshold: u32, items: &[u32]) -> usize
    ensures { result ≡ count_by (spec.is_short (T.tables rows.now) warehouse threshold) items.now }
{
    let mut count = 0;
    for &item in items {
        if is_short(rows, warehouse, threshold, item) {
            count += 1;
        }
    }
    count
}

// Returns whether the warehouse's stock of the item is below the threshold.
fn is_short<T: Rows>(rows: &T, warehouse: u32, threshold: u32, item: u32) -> bool
    ensures { result ≡ spec.is_short (T.tables rows.now) warehouse threshold item }
{
    let key = StockKey {
        w_id: warehouse,
        i_id: item,
    };
    match rows.stock(key) {
        Some(row) => row.quantity.get() < threshold,
        None => false,
    }
}

// Returns the number of the district's next order, 0 if there is no such district.
fn next_order(tables: &Tables, home: DistrictKey) -> u32
    ensures { result ≡ spec.next_order (table.get tables.now.districts home) }
{
    match tables.district(home) {
        Some(row) => row.next_o_id.get(),
        None => 0,
    }
}
