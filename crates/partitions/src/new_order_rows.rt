//! The rows of NEW-ORDER of one warehouse. Restoring a row that a delivery deleted allocates nothing:
//! the row goes into room that the delivery set aside, in a list beside the ordered map of the other
//! rows.
ghost use Rattle.std.specs.Prelude.{◌≡◌, ◌≤◌, length, map, Some, IfOk, OnOk, OnErr, IsTrue};
ghost use Rattle.std.specs.FinMap as table;
ghost use Rattle.rows.specs.Keys.{order_cmp};
ghost use Rattle.rows.specs.declared.limits.TheConstants.{MOST_LINES};
ghost use Rattle.schema.specs.EachRow.{EachRow};
ghost use Rattle.schema.specs.MapRows.{table_of, put_row, map_rows};
ghost use Rattle.schema.specs.Database.{is_order_id, is_line_number};
ghost use Rattle.schema.specs.OrderRows.{put_lines, lines_at, line_table, with_carrier, with_moment};
ghost use Rattle.partitions.specs.Appends.{AddsRows};
ghost use Rattle.partitions.specs.NewOrders.{NewOrderTable, lesser_of, new_order_table, oldest_of, with_returned};
ghost use Rattle.partitions.specs.RowChanges.{HasLines};

use schema::row_writes::{put, remove};
use schema::{
    CarrierId, DistrictKey, Moment, NewOrder, NoMemory, Order, OrderKey, OrderLine, OrderLines,
    Replaced, add_order_rows, deliver_order_rows, oldest_number, take_back_order_and_lines,
};
use std::alloc::Global;
use std::collections::BTreeMap;
use std::marker::Model;
use std::mem;

/// Restored rows with their keys, the last one restored first.
#[derive(Drop)]
pub(crate) enum Returned {
    Nothing,
    Row(OrderKey, Box<Returned>),
}

/// Room to restore one row of NEW-ORDER.
#[derive(Drop)]
pub struct RowRoom {
    room: Box<Returned>,
}

impl Model for RowRoom {
    ghost use Rattle.std.specs.Prelude.{ℕ};

    ghost Value = { ℕ };

    ghost view = { λ _. 0 };
}

/// The rows of NEW-ORDER of one warehouse with their keys, in order: those of the map, and those
/// restored since the last order was added or delivered.
#[derive(Drop)]
pub struct NewOrderRows {
    rows: BTreeMap<OrderKey, NewOrder>,
    returned: Returned,
}

impl Model for NewOrderRows {
    ghost use Rattle.std.specs.Prelude.{List};
    ghost use Rattle.rows.specs.declared.keys.OrderKey as order_key;
    ghost use Rattle.rows.specs.declared.records.NewOrder as new_order;
    ghost use Rattle.partitions.specs.NewOrders.{entries_with};

    ghost Value = { List (order_key.OrderKey × new_order.NewOrder) };

    ghost view = { λ r. entries_with r.returned r.rows };
}

impl NewOrderRows {
    /// Returns these rows, with none restored.
    pub(crate) fn new(rows: BTreeMap<OrderKey, NewOrder>) -> NewOrderRows
        ensures entries { result ≡ rows.entries }
        ensures table { result ≡ table.entries (table_of order_cmp rows) }
    {
        // For the contract: the rows are in order.
        let _ = rows.len();
        NewOrderRows {
            rows,
            returned: Returned::Nothing,
        }
    }

    /// Moves the rows to those of other warehouses. After an error some rows are left out.
    pub(crate) fn append_to(self, rows: &mut BTreeMap<OrderKey, NewOrder>) -> Result<(), NoMemory>
        ensures { OnOk result (AddsRows order_cmp rows.old.entries self rows.new.entries) }
    {
        let mut own = self;
        settle(&mut own.rows, &mut own.returned)?;
        rows.append(&mut own.rows)?;
        Ok(())
    }

    /// Returns an equal copy. Returns NoMemory if an allocation fails; nothing stays allocated then.
    pub(crate) fn try_clone(&self) -> Result<NewOrderRows, NoMemory>
        ensures { IfOk result (λ copy. copy ≡ self.now) }
    {
        let mut rows = self.rows.clone()?;
        put_all(&self.returned, &mut rows)?;
        Ok(NewOrderRows::new(rows))
    }

    /// Returns the number of the district's oldest new order, `None` if it has none here.
    pub(crate) fn oldest_number(&self, home: DistrictKey) -> Option<u32>
        requires { EachRow (λ key _. is_order_id key.o_id) (new_order_table self.now) }
        ensures { result ≡ oldest_of home (new_order_table self.now) }
    {
        let oldest = oldest_number(&self.rows, home);
        oldest_with(&self.returned, home, oldest)
    }

    /// As `schema::add_order_rows`.
    pub(crate) fn add_order(
        &mut self,
        orders: &mut BTreeMap<OrderKey, Order>,
        lines: &mut OrderLines,
        key: OrderKey,
        order: Order,
        rows: Vec<OrderLine>,
    ) -> Result<Replaced, NoMemory>
        requires { length rows.items ≤ MOST_LINES }
        ensures order { OnOk result (table_of order_cmp orders.new
            ≡ table.insert (table_of order_cmp orders.old) key order) }
        ensures new_order { OnOk result
            (new_order_table self.new ≡ table.insert (new_order_table self.old) key (record {})) }
        ensures lines { OnOk result (line_table lines.new
            ≡ put_lines key 1 (map Some rows.items) (line_table lines.old)) }
        ensures was_order { IfOk result (λ replaced.
            replaced.order ≡ table.get (table_of order_cmp orders.old) key) }
        ensures was_new { IfOk result (λ replaced.
            replaced.new_order ≡ table.get (new_order_table self.old) key) }
        ensures were_lines { IfOk result (λ replaced.
            replaced.lines.items ≡ lines_at (line_table lines.old) key 1 (length rows.items)) }
        ensures err_order { OnErr result
            (table_of order_cmp orders.new ≡ table_of order_cmp orders.old) }
        ensures err_new { OnErr result (new_order_table self.new ≡ new_order_table self.old) }
        ensures err_lines { OnErr result (line_table lines.new ≡ line_table lines.old) }
    {
        settle(&mut self.rows, &mut self.returned)?;
        add_order_rows(orders, &mut self.rows, lines, key, order, rows)
    }

    /// As `schema::take_back_order_rows`.
    pub(crate) fn take_back_order(
        &mut self,
        orders: &mut BTreeMap<OrderKey, Order>,
        lines: &mut OrderLines,
        key: OrderKey,
        replaced: Replaced,
    )
        requires few { length replaced.lines.items ≤ MOST_LINES }
        requires order { IsTrue (table.contains_key (table_of order_cmp orders.old) key) }
        requires new_order { IsTrue (table.contains_key (new_order_table self.old) key) }
        requires lines { HasLines (line_table lines.old) key (length replaced.lines.items) }
        ensures order { table_of order_cmp orders.new
            ≡ put_row (table_of order_cmp orders.old) key replaced.order }
        ensures new_order { new_order_table self.new
            ≡ put_row (new_order_table self.old) key replaced.new_order }
        ensures lines { line_table lines.new
            ≡ put_lines key 1 replaced.lines.items (line_table lines.old) }
    {
        // All rows of NEW-ORDER are equal: a row that was stored before is still stored.
        if replaced.new_order.is_none() {
            self.remove(key);
        }
        take_back_order_and_lines(orders, lines, key, replaced);
    }

    /// As `schema::deliver_order_rows`. Returns the row that was stored, if any, and room to restore it.
    /// Returns NoMemory if an allocation fails; the rows are unchanged then.
    pub(crate) fn deliver_order(
        &mut self,
        alloc: Global,
        orders: &mut BTreeMap<OrderKey, Order>,
        lines: &mut OrderLines,
        key: OrderKey,
        carrier: CarrierId,
        moment: Moment,
    ) -> Result<(Option<NewOrder>, RowRoom), NoMemory>
        requires { EachRow (λ key _. is_line_number key.number) (line_table lines.old) }
        ensures order { OnOk result (table_of order_cmp orders.new
            ≡ map_rows (with_carrier key carrier) (table_of order_cmp orders.old)) }
        ensures new_order { OnOk result
            (new_order_table self.new ≡ table.remove (new_order_table self.old) key) }
        ensures lines { OnOk result (line_table lines.new
            ≡ map_rows (with_moment key moment) (line_table lines.old)) }
        ensures was { IfOk result (λ was. was.0 ≡ table.get (new_order_table self.old) key) }
        ensures err { OnErr result
            ((self.new ≡ self.old) × (orders.new ≡ orders.old) × (lines.new ≡ lines.old)) }
    {
        let room = Box::new(alloc, Returned::Nothing)?;
        settle(&mut self.rows, &mut self.returned)?;
        let was = self.rows.get(&key).copied();
        deliver_order_rows(orders, &mut self.rows, lines, key, carrier, moment);
        Ok((was, RowRoom { room }))
    }

    /// Restores what was stored at the key: a row or none. Never allocates.
    pub(crate) fn put_back(&mut self, key: OrderKey, was: Option<NewOrder>, room: RowRoom)
        ensures { new_order_table self.new ≡ put_row (new_order_table self.old) key was }
    {
        match was {
            Some(_) => {
                let mut room = room.room;
                *room = mem::replace(&mut self.returned, Returned::Nothing);
                self.returned = Returned::Row(key, room);
            }
            None => self.remove(key),
        }
    }

    // Deletes the row at the key, if there is one. Never allocates.
    fn remove(&mut self, key: OrderKey)
        ensures { new_order_table self.new ≡ table.remove (new_order_table self.old) key }
    {
        forget(&mut self.returned, key);
        remove(&mut self.rows, key);
    }
}

// Moves the restored rows into the map. The rows of both together stay the same, also after an error.
fn settle(rows: &mut BTreeMap<OrderKey, NewOrder>, returned: &mut Returned) -> Result<(), NoMemory>
    ensures same { with_returned returned.new (table_of order_cmp rows.new)
        ≡ with_returned returned.old (table_of order_cmp rows.old) }
    ensures all { OnOk result ((rows : NewOrderTable) → with_returned returned.new rows ≡ rows) }
{
    if let Returned::Row(key, rest) = returned {
        settle(rows, rest)?;
        put(rows, *key, NewOrder)?;
        *returned = Returned::Nothing;
    }
    Ok(())
}

// Inserts the restored rows into a map. After an error some rows are left out.
fn put_all(returned: &Returned, rows: &mut BTreeMap<OrderKey, NewOrder>) -> Result<(), NoMemory>
    ensures { OnOk result
        (table_of order_cmp rows.new ≡ with_returned returned.now (table_of order_cmp rows.old)) }
{
    if let Returned::Row(key, rest) = returned {
        put_all(rest, rows)?;
        put(rows, *key, NewOrder)?;
    }
    Ok(())
}

// Removes the row at the key from the restored rows. Never allocates.
fn forget(returned: &mut Returned, key: OrderKey)
    ensures { (rows : NewOrderTable)
        → with_returned returned.new (table.remove rows key)
        ≡ table.remove (with_returned returned.old rows) key }
{
    if let Returned::Row(own, rest) = returned {
        forget(rest, key);
        if *own == key {
            let later = mem::replace(&mut **rest, Returned::Nothing);
            *returned = later;
        }
    }
}

// Returns the number of the district's oldest order among the restored rows and other rows, whose oldest
// is `other`.
fn oldest_with(returned: &Returned, home: DistrictKey, other: Option<u32>) -> Option<u32>
    ensures { (rows : NewOrderTable) → other ≡ oldest_of home rows
        → result ≡ oldest_of home (with_returned returned.now rows) }
{
    let Returned::Row(key, rest) = returned else {
        return other;
    };
    let oldest = oldest_with(rest, home, other);
    if key.district() == home {
        Some(lesser(key.o_id, oldest))
    } else {
        oldest
    }
}

// Returns the lesser of the two numbers, or `number` if there is no other.
fn lesser(number: u32, other: Option<u32>) -> u32
    ensures { result ≡ lesser_of number other }
{
    match other {
        Some(other) => number.min(other),
        None => number,
    }
}
