//! Splitting the rows of all warehouses by warehouse, from the last warehouse to the first. The rows are
//! moved.
ghost use Rattle.std.specs.Prelude.{◌≡◌, ℕ, ◌*◌, ◌≤◌, length, IfOk};
ghost use Rattle.partitions.specs.Splits.{chunk, entries_at, AreOfWarehouses, AreLastFirst};

use schema::{NoMemory, OrderKey, OrderLine, OrderLineKey, OrderLines};
use std::alloc::Global;
use std::collections::BTreeMap;

/// Splits rows in order into parts of `each` rows, the last part first. The first part keeps the vector.
/// An error drops the rows.
pub(crate) fn split<T: Drop>(
    alloc: Global,
    rows: Vec<T>,
    each: usize,
    parts: usize,
) -> Result<Vec<Vec<T>>, NoMemory>
    requires some { 1 ≤ parts }
    requires even { length rows.items ≡ parts * each }
    ensures { IfOk result (λ made.
        AreLastFirst (λ place part. part.items ≡ chunk each place rows.items) 0 parts made.items) }
{
    let mut split = Vec::with_capacity(alloc, parts)?;
    let mut rest = rows;
    let mut place = parts - 1;
    while 0 < place {
        split.push(rest.split_off(place * each)?)?;
        place -= 1;
    }
    if 1 < parts {
        rest.shrink_to_fit();
    }
    split.push(rest)?;
    Ok(split)
}

/// Rows with their keys. The rows of all warehouses from a given one on can be split off.
pub(crate) trait ByWarehouse: Drop + Sized {
    ghost use Rattle.std.specs.Prelude.{◌≡◌, ℕ, List, nat_le, nat_lt, IfOk, OnOk};
    ghost use Rattle.std.specs.List.{filter};

    type Key;

    type Row;

    /// The rows with their keys.
    ghost entries: { Self → List (Self.Key × Self.Row) };
    /// The warehouse of a key.
    ghost warehouse_of: { Self.Key → ℕ };

    /// Removes and returns the rows of this and all later warehouses. After an error some rows may be
    /// lost.
    fn split_off_from(&mut self, warehouse: u32) -> Result<Self, NoMemory>
        ensures from { IfOk result (λ later.
            entries later ≡ filter (λ e. nat_le warehouse (warehouse_of e.0)) (entries self.old)) }
        ensures below { OnOk result (entries self.new
            ≡ filter (λ e. nat_lt (warehouse_of e.0) warehouse) (entries self.old)) };
}

impl<V: Drop> ByWarehouse for BTreeMap<OrderKey, V> {
    type Key = OrderKey;

    type Row = V;

    ghost entries = { λ rows. rows.entries };

    ghost warehouse_of = { λ key. key.w_id };

    fn split_off_from(&mut self, warehouse: u32) -> Result<BTreeMap<OrderKey, V>, NoMemory> {
        self.split_off(&OrderKey {
            w_id: warehouse,
            d_id: 0,
            o_id: 0,
        })
    }
}

impl ByWarehouse for OrderLines {
    type Key = OrderLineKey;

    type Row = OrderLine;

    ghost entries = { λ lines. lines };

    ghost warehouse_of = { λ key. key.w_id };

    fn split_off_from(&mut self, warehouse: u32) -> Result<OrderLines, NoMemory> {
        self.split_off(warehouse)
    }
}

/// Splits the rows of all warehouses by warehouse, the last warehouse first. The first warehouse keeps
/// what is left. An error drops the rows.
pub(crate) fn split_by_warehouse<R: ByWarehouse>(
    alloc: Global,
    rows: R,
    warehouses: u32,
) -> Result<Vec<R>, NoMemory>
    requires some { 1 ≤ warehouses }
    requires within { AreOfWarehouses R.warehouse_of warehouses (R.entries rows) }
    ensures { IfOk result (λ made. AreLastFirst
        (λ place part. R.entries part ≡ entries_at R.warehouse_of place (R.entries rows))
        0 warehouses made.items) }
{
    let mut split = Vec::with_capacity(alloc, warehouses as usize)?;
    let mut rest = rows;
    let mut warehouse = warehouses;
    while 1 < warehouse {
        split.push(rest.split_off_from(warehouse)?)?;
        warehouse -= 1;
    }
    split.push(rest)?;
    Ok(split)
}
