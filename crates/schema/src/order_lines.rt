//! The rows of ORDER-LINE, of all warehouses or of one. Only this module depends on how they are
//! stored.
ghost use Rattle.std.specs.Prelude.{◌≡◌, ◌+◌, ◌<◌, ◌≤◌, ◌^◌, Some, None, [], ◌++◌, replicate, length, nat_le, nat_lt, IsTrue, is_some, IfOk, OnOk, OnErr, if◌then◌else◌};
ghost use Rattle.std.specs.BTreeMap.{IsOrdered, get, insert_entry};
ghost use Rattle.std.specs.FinMap as table;
ghost use Rattle.std.specs.List.{filter, list_all};
ghost use Rattle.std.specs.List.Sorted.{IsStrictlySortedBy};
ghost use Rattle.std.specs.Map.{keys_of};
ghost use Rattle.std.specs.Option.{option_copied};
ghost use Rattle.std.specs.Ordering.{eq_by_cmp};
ghost use Rattle.std.specs.declared.cmp.Ordering.{Ordering};
ghost use Rattle.std.specs.Vec.{vec_len, vec_capacity};
ghost use Rattle.rows.specs.Keys.{order_cmp, line_cmp, order_of_line};
ghost use Rattle.rows.specs.declared.limits.TheConstants.{MOST_LINES};
ghost use Rattle.schema.specs.EachRow.{EachRow};
ghost use Rattle.schema.specs.MapRows.{map_rows, put_row, ChangesRow, MergesRows};
ghost use Rattle.schema.specs.PackedLines.{all_lines, AreNumbered, AreKept, IsLast, HasNone, all_lines_table, order_lines_table};
ghost use Rattle.schema.specs.Database.{is_order_id, rows_where, is_of_order, is_line_of_district};
ghost use Rattle.schema.specs.OrderRows.{line_table, line_key, put_lines, lines_at, with_moment, is_in_span, HasLines, with_delivery_d, with_lines};

use crate::numbered::Numbered;
use crate::{Beside, Entries, NoMemory};
use rows::{DistrictKey, Moment, Order, OrderKey, OrderLine, OrderLineKey};
use std::alloc::Global;
use std::cmp::Ordering;
use std::collections::BTreeMap;
use std::collections::btree_map::Range;
use std::marker::Model;

// The greatest number of lines that can be stored.
const MOST: usize = 9_223_372_036_854_775_807;

/// Rows of ORDER-LINE with their keys, in key order. The lines of an order are stored together.
#[derive(Drop)]
pub struct OrderLines {
    alloc: Global,
    orders: BTreeMap<OrderKey, Numbered>,
    // The number of lines.
    count: usize,
}

impl Model for OrderLines {
    ghost use Rattle.std.specs.Prelude.{List};
    ghost use Rattle.rows.specs.declared.keys.OrderLineKey as line_key;
    ghost use Rattle.rows.specs.declared.records.OrderLine as line;
    ghost use Rattle.schema.specs.PackedLines.{AreKept, all_lines};

    ghost Value = { List (line_key.OrderLineKey × line.OrderLine) };

    ghost view = { λ l. all_lines l.orders.entries };

    ghost invariant = { λ l. AreKept l.orders.entries l.count };
}

/// Rows of ORDER-LINE with their keys, in key order. The model is the list of the rows that are still
/// to come. A key is returned by value and a row by reference.
#[derive(Drop)]
pub struct Lines<'a> {
    // The lines of the current order that are still to come, and the orders after it.
    order: OrderKey,
    lines: &'a [(u32, OrderLine)],
    orders: Range<'a, OrderKey, Numbered>,
}

impl<'a> Model for Lines<'a> {
    ghost use Rattle.std.specs.Prelude.{List, ◌++◌};
    ghost use Rattle.rows.specs.declared.keys.OrderLineKey as line_key;
    ghost use Rattle.rows.specs.declared.records.OrderLine as line;
    ghost use Rattle.schema.specs.PackedLines.{all_lines, with_keys};

    ghost Value = { List (line_key.OrderLineKey × line.OrderLine) };

    ghost view = { λ l. with_keys l.order l.lines.now ++ all_lines l.orders };
}

impl<'a> Lines<'a> {
    // The lines of these orders.
    fn of(orders: Range<'a, OrderKey, Numbered>) -> Lines<'a>
        ensures { result ≡ all_lines orders.entry }
    {
        Lines {
            order: OrderKey {
                w_id: 0,
                d_id: 0,
                o_id: 0,
            },
            lines: &[],
            orders,
        }
    }
}

impl<'a> Iterator for Lines<'a> {
    ghost use Rattle.std.specs.Prelude.{length};
    ghost use Rattle.std.specs.Iterator.{at_most};
    ghost use Rattle.std.specs.Map.Iter.{TakesFirst};
    ghost use Rattle.schema.specs.Entries.{entry};

    type Item = (OrderLineKey, &'a OrderLine);

    ghost next_gives = { TakesFirst entry };

    ghost remaining = { λ s. at_most (length s) };

    #[inline]
    fn next(&mut self) -> Option<(OrderLineKey, &'a OrderLine)> {
        loop {
            if let [(number, row), rest @ ..] = self.lines {
                self.lines = rest;
                return Some((line_key(self.order, *number), row));
            }
            let (order, lines) = self.orders.next()?;
            self.order = *order;
            self.lines = lines.as_slice();
        }
    }
}

impl OrderLines {
    /// No lines. Does not allocate.
    pub fn new(alloc: Global) -> OrderLines
        ensures { result ≡ [] }
    {
        OrderLines {
            alloc,
            orders: BTreeMap::new(alloc),
            count: 0,
        }
    }

    /// The number of lines.
    pub fn len(&self) -> usize
        ensures len { result ≡ length self.now }
        ensures ordered { IsStrictlySortedBy line_cmp (keys_of self.now) }
    {
        self.count
    }

    /// Returns equal lines, or `NoMemory` if an allocation fails; the partial copy is dropped then.
    pub fn try_clone(&self) -> Result<OrderLines, NoMemory>
        ensures { IfOk result (λ copy. copy ≡ self.now) }
    {
        Ok(OrderLines {
            alloc: self.alloc,
            orders: self.orders.clone()?,
            count: self.count,
        })
    }

    /// The line, or `None` if there is none.
    pub fn get(&self, key: OrderLineKey) -> Option<&OrderLine>
        ensures { option_copied result ≡ table.get (line_table self.now) key }
    {
        self.orders.get(&key.order())?.get(key.number)
    }

    /// Stores a line at the key. Returns `NoMemory` if an allocation fails or 2^63 - 1 lines are
    /// stored; nothing has changed then.
    #[inline]
    pub fn insert(&mut self, key: OrderLineKey, row: OrderLine) -> Result<(), NoMemory>
        ensures ok { OnOk result (self.new ≡ insert_entry line_cmp self.old key row) }
        ensures err { OnErr result (self.new ≡ self.old) }
        ensures ordered { IsStrictlySortedBy line_cmp (keys_of self.old) }
    {
        // Called for its postcondition: the lines are in key order, before and after.
        let _ = self.len();
        self.put(key, row)?;
        let _ = self.len();
        Ok(())
    }

    // Stores a line at the key and returns the line that it replaces. Returns `NoMemory` if an
    // allocation fails or 2^63 - 1 lines are stored; nothing has changed then.
    #[inline]
    fn put(&mut self, key: OrderLineKey, row: OrderLine) -> Result<Option<OrderLine>, NoMemory>
        ensures was { IfOk result (λ was. was ≡ table.get (line_table self.old) key) }
        ensures ok { OnOk result
            (line_table self.new ≡ table.insert (line_table self.old) key row) }
        ensures err { OnErr result (self.new ≡ self.old) }
    {
        if self.count >= MOST {
            return Err(NoMemory);
        }
        let was = put(self.alloc, &mut self.orders, key, row)?;
        if was.is_none() {
            self.count += 1;
        }
        Ok(was)
    }

    // Restores `was` at the key, in place of the line stored there. If `was` is `None`, the line is
    // removed. Does not allocate.
    fn put_back(&mut self, key: OrderLineKey, was: Option<OrderLine>)
        requires { IsTrue (table.contains_key (line_table self.old) key) }
        ensures { line_table self.new ≡ put_row (line_table self.old) key was }
    {
        match was {
            Some(row) => put_back(&mut self.orders, key, Some(row)),
            None => {
                put_back(&mut self.orders, key, None);
                self.count -= 1;
            }
        }
    }

    /// All lines, in key order.
    pub fn entries(&self) -> Lines<'_>
        ensures rows { result ≡ self.now }
        ensures fits { length result < 2 ^ 63 }
        ensures ordered { IsStrictlySortedBy line_cmp (keys_of self.now) }
    {
        Lines::of(self.orders.range(..))
    }

    /// The lines of the order, in the order of OL_NUMBER.
    pub fn of_order(&self, order: OrderKey) -> Lines<'_>
        ensures rows { result ≡ rows_where (is_of_order order) (line_table self.now) }
        ensures fits { length result < 2 ^ 63 }
    {
        Lines::of(self.orders.range(order..=order))
    }

    /// The number of lines of the order.
    pub fn count_of(&self, order: OrderKey) -> usize
        ensures { result ≡ length (rows_where (is_of_order order) (line_table self.now)) }
    {
        match self.orders.get(&order) {
            Some(lines) => lines.as_slice().len(),
            None => 0,
        }
    }

    /// The lines of the district's orders, in the order of O_ID and then OL_NUMBER.
    pub fn of_district(&self, home: DistrictKey) -> Lines<'_>
        requires { EachRow (λ key _. is_order_id key.o_id) (line_table self.now) }
        ensures rows { result ≡ rows_where (is_line_of_district home) (line_table self.now) }
        ensures fits { length result < 2 ^ 63 }
    {
        Lines::of(
            self.orders
                .range(order_key(home, 0)..=order_key(home, u32::MAX)),
        )
    }

    /// The lines of the district's orders with `from` <= O_ID < `to`, in the order of O_ID and then
    /// OL_NUMBER.
    pub fn in_span(&self, home: DistrictKey, from: u32, to: u32) -> Lines<'_>
        ensures rows { result ≡ rows_where (is_in_span home from to) (line_table self.now) }
        ensures fits { length result < 2 ^ 63 }
    {
        Lines::of(
            self.orders
                .range(order_key(home, from)..order_key(home, to.max(from))),
        )
    }

    // Whether every line belongs to one of these orders.
    pub(crate) fn have_orders(&self, orders: &BTreeMap<OrderKey, Order>) -> bool
        ensures each { result
            ≡ list_all (λ e. is_some (get order_cmp orders.now (order_of_line e.0))) self.now }
        ensures ordered { IsStrictlySortedBy line_cmp (keys_of self.now) }
    {
        let mut beside = Beside::new(Entries::of_map(orders.range(..)));
        for (order, lines) in self.orders.iter() {
            let found = beside.of(*order);
            if found.is_none() && !lines.as_slice().is_empty() {
                return false;
            }
        }
        true
    }

    /// Sets the delivery moment of the line, if there is one, to `moment`, which may be `None`. Does
    /// not allocate.
    pub fn set_delivery(&mut self, key: OrderLineKey, moment: Option<Moment>)
        ensures { ChangesRow (eq_by_cmp line_cmp) key (with_delivery_d moment)
            (line_table self.old) (line_table self.new) }
    {
        set_delivery(&mut self.orders, key, moment);
    }

    /// Moves the lines of `others` here. At a key that both have, the line of `others` replaces the
    /// line here. Returns `NoMemory` if an allocation fails or there would be more than 2^63 - 1 lines;
    /// some lines of `others` are missing then.
    pub fn append(&mut self, others: OrderLines) -> Result<(), NoMemory>
        ensures { OnOk result (MergesRows (line_table self.old)
            (line_table others) (line_table self.new)) }
    {
        let mut orders = others.orders;
        while let Some((order, lines)) = orders.pop_first() {
            self.take(order, lines)?;
        }
        Ok(())
    }

    // Moves the lines of an order here. After an error, some of them are missing.
    fn take(&mut self, order: OrderKey, lines: Numbered) -> Result<(), NoMemory>
        ensures { OnOk result (MergesRows (line_table self.old)
            (order_lines_table order lines) (line_table self.new)) }
    {
        if self.orders.contains_key(&order) {
            return self.put_all(order, lines.into_rows());
        }
        put_order(&mut self.orders, &mut self.count, order, lines)
    }

    // Stores lines of an order, one by one. After an error, some of them are missing.
    fn put_all(&mut self, order: OrderKey, rows: Vec<(u32, OrderLine)>) -> Result<(), NoMemory>
        ensures { OnOk result (MergesRows (line_table self.old)
            (order_lines_table order rows.items) (line_table self.new)) }
    {
        let mut rest = rows;
        while let Some((number, row)) = rest.pop() {
            self.put(line_key(order, number), row)?;
        }
        Ok(())
    }

    /// Removes the lines of the warehouses from `warehouse` on and returns them. Returns `NoMemory` if
    /// an allocation fails; some lines may be lost then.
    pub fn split_off(&mut self, warehouse: u32) -> Result<OrderLines, NoMemory>
        ensures from { IfOk result
            (λ later. later ≡ filter (λ e. nat_le warehouse e.0.w_id) self.old) }
        ensures below { OnOk result (self.new ≡ filter (λ e. nat_lt e.0.w_id warehouse) self.old) }
    {
        let first = OrderKey {
            w_id: warehouse,
            d_id: 0,
            o_id: 0,
        };
        let orders = self.orders.split_off(&first)?;
        let count = count_lines(&orders);
        self.count -= count;
        Ok(OrderLines {
            alloc: self.alloc,
            orders,
            count,
        })
    }

    // Adds the order's lines, numbered from 1, and returns the lines that they replace. Returns
    // `NoMemory` if an allocation fails or there would be more than 2^63 - 1 lines; no line has changed
    // then.
    pub(crate) fn add(
        &mut self,
        order: OrderKey,
        rows: Vec<OrderLine>,
    ) -> Result<Vec<Option<OrderLine>>, NoMemory>
        requires few { length rows.items ≤ MOST_LINES }
        ensures lines { OnOk result
            (line_table self.new ≡ with_lines order rows.items (line_table self.old)) }
        ensures were { IfOk result
            (λ were. were.items ≡ lines_at (line_table self.old) order 1 (length rows.items)) }
        ensures err { OnErr result (line_table self.new ≡ line_table self.old) }
    {
        if self.orders.contains_key(&order) {
            let mut rows = rows;
            let mut were = Vec::with_capacity(*rows.allocator(), rows.len())?;
            self.add_each(order, &mut rows, &mut were)?;
            return Ok(were);
        }
        let were = no_rows(*rows.allocator(), rows.len())?;
        let lines = Numbered::from_rows(rows)?;
        put_order(&mut self.orders, &mut self.count, order, lines)?;
        Ok(were)
    }

    // The same, one line at a time, the last one first. Appends the replaced lines to `were`.
    fn add_each(
        &mut self,
        order: OrderKey,
        rows: &mut Vec<OrderLine>,
        were: &mut Vec<Option<OrderLine>>,
    ) -> Result<(), NoMemory>
        requires few { length rows.old.items ≤ MOST_LINES }
        requires room { vec_len were.old + length rows.old.items ≤ vec_capacity were.old }
        ensures lines { OnOk result
            (line_table self.new ≡ with_lines order rows.old.items (line_table self.old)) }
        ensures were { OnOk result (were.new.items ≡ were.old.items
            ++ lines_at (line_table self.old) order 1 (length rows.old.items)) }
        ensures room { vec_capacity were.old ≤ vec_capacity were.new }
        ensures err { OnErr result (line_table self.new ≡ line_table self.old) }
    {
        let Some(row) = rows.pop() else {
            return Ok(());
        };
        let key = line_key(order, rows.len() as u32 + 1);
        let was = self.put(key, row)?;
        match self.add_each(order, rows, were) {
            Ok(()) => match were.push(was) {
                Ok(()) => Ok(()),
                // The precondition `room` excludes this case.
                Err(_) => Err(NoMemory),
            },
            Err(_) => {
                self.put_back(key, was);
                Err(NoMemory)
            }
        }
    }

    // Restores the lines that were replaced at the order's numbers from 1, the last one first. Does not
    // allocate.
    pub(crate) fn take_back(&mut self, order: OrderKey, were: Vec<Option<OrderLine>>)
        requires few { length were.items ≤ MOST_LINES }
        requires there { HasLines (line_table self.old) order (length were.items) }
        ensures { line_table self.new ≡ put_lines order 1 were.items (line_table self.old) }
    {
        let mut rest = were;
        while let Some(was) = rest.pop() {
            let key = line_key(order, rest.len() as u32 + 1);
            self.put_back(key, was);
        }
    }

    // Sets the delivery moment of the order's lines. Does not allocate.
    pub(crate) fn deliver(&mut self, order: OrderKey, moment: Moment)
        ensures { line_table self.new ≡ map_rows (with_moment order moment) (line_table self.old) }
    {
        deliver(&mut self.orders, order, moment);
    }
}

// Stores a line under its order and returns the line that it replaces. After an error, nothing has
// changed.
fn put(
    alloc: Global,
    orders: &mut BTreeMap<OrderKey, Numbered>,
    key: OrderLineKey,
    row: OrderLine,
) -> Result<Option<OrderLine>, NoMemory>
    requires ordered { IsOrdered order_cmp orders.old }
    requires numbered { AreNumbered orders.old.entries }
    ensures was { IfOk result (λ was. was ≡ table.get (all_lines_table orders.old) key) }
    ensures ok { OnOk result
        (all_lines_table orders.new ≡ table.insert (all_lines_table orders.old) key row) }
    ensures err { OnErr result (orders.new.entries ≡ orders.old.entries) }
    ensures numbered { AreNumbered orders.new.entries }
    ensures ordered { IsOrdered order_cmp orders.new }
{
    let order = key.order();
    // Lines mostly arrive in key order, so the last order is compared first.
    match against_last(orders, order) {
        Ordering::Less => {
            if let Some(lines) = orders.get_mut(&order) {
                return lines.put(key.number, row);
            }
            put_first(alloc, orders, key, row)
        }
        Ordering::Equal => put_in_last(orders, key, row),
        Ordering::Greater => put_first(alloc, orders, key, row),
    }
}

// Compares the order with the last of these; `Greater` if there are none.
fn against_last(orders: &BTreeMap<OrderKey, Numbered>, order: OrderKey) -> Ordering
    ensures last { result ≡ Ordering.Equal → IsLast order orders.now }
    ensures behind { result ≡ Ordering.Greater → HasNone order orders.now }
{
    match orders.last_key_value() {
        Some((last, _)) => order.cmp(last),
        None => Ordering::Greater,
    }
}

// As `put`, for a line whose order is the last of these.
fn put_in_last(
    orders: &mut BTreeMap<OrderKey, Numbered>,
    key: OrderLineKey,
    row: OrderLine,
) -> Result<Option<OrderLine>, NoMemory>
    requires last { IsLast (order_of_line key) orders.old }
    requires numbered { AreNumbered orders.old.entries }
    ensures was { IfOk result (λ was. was ≡ table.get (all_lines_table orders.old) key) }
    ensures ok { OnOk result
        (all_lines_table orders.new ≡ table.insert (all_lines_table orders.old) key row) }
    ensures err { OnErr result (orders.new.entries ≡ orders.old.entries) }
    ensures numbered { AreNumbered orders.new.entries }
    ensures ordered { IsOrdered order_cmp orders.new }
{
    match orders.last_entry() {
        Some(last) => last.into_mut().put(key.number, row),
        // The precondition `last` excludes this case.
        None => Err(NoMemory),
    }
}

// As `put`, for the first line of an order that is not among these.
fn put_first(
    alloc: Global,
    orders: &mut BTreeMap<OrderKey, Numbered>,
    key: OrderLineKey,
    row: OrderLine,
) -> Result<Option<OrderLine>, NoMemory>
    requires none { HasNone (order_of_line key) orders.old }
    requires ordered { IsOrdered order_cmp orders.old }
    requires numbered { AreNumbered orders.old.entries }
    ensures was { IfOk result (λ was. was ≡ table.get (all_lines_table orders.old) key) }
    ensures ok { OnOk result
        (all_lines_table orders.new ≡ table.insert (all_lines_table orders.old) key row) }
    ensures err { OnErr result (orders.new.entries ≡ orders.old.entries) }
    ensures numbered { AreNumbered orders.new.entries }
    ensures ordered { IsOrdered order_cmp orders.new }
{
    let mut lines = Numbered::new(alloc);
    lines.put(key.number, row)?;
    match orders.insert(key.order(), lines) {
        Ok(_) => Ok(None),
        Err(_) => Err(NoMemory),
    }
}

// A vector of `count` times `None`.
fn no_rows(alloc: Global, count: usize) -> Result<Vec<Option<OrderLine>>, NoMemory>
    ensures { IfOk result (λ rows. rows.items ≡ replicate count None) }
{
    let mut rows = Vec::with_capacity(alloc, count)?;
    for _ in 0..count {
        rows.push(None)?;
    }
    Ok(rows)
}

// Stores the lines of an order that has none, and counts them. After an error, no line has changed.
fn put_order(
    orders: &mut BTreeMap<OrderKey, Numbered>,
    count: &mut usize,
    order: OrderKey,
    lines: Numbered,
) -> Result<(), NoMemory>
    requires none { HasNone order orders.old }
    requires kept { AreKept orders.old.entries count.old }
    ensures lines { OnOk result (MergesRows (all_lines_table orders.old)
        (order_lines_table order lines) (all_lines_table orders.new)) }
    ensures err { OnErr result (all_lines orders.new.entries ≡ all_lines orders.old.entries) }
    ensures kept { AreKept orders.new.entries count.new }
{
    let many = lines.as_slice().len();
    if many > MOST - *count {
        return Err(NoMemory);
    }
    orders.insert(order, lines)?;
    *count += many;
    Ok(())
}

// Restores `was` at the key, in place of the line stored there. If `was` is `None`, the line is
// removed. Does not allocate.
fn put_back(orders: &mut BTreeMap<OrderKey, Numbered>, key: OrderLineKey, was: Option<OrderLine>)
    requires there { IsTrue (table.contains_key (all_lines_table orders.old) key) }
    requires numbered { AreNumbered orders.old.entries }
    ensures rows { all_lines_table orders.new ≡ put_row (all_lines_table orders.old) key was }
    ensures numbered { AreNumbered orders.new.entries }
    ensures ordered { IsOrdered order_cmp orders.new }
{
    if let Some(lines) = orders.get_mut(&key.order()) {
        lines.put_back(key.number, was);
    }
}

// Sets the delivery moment of the line, if there is one, to `moment`, which may be `None`.
fn set_delivery(
    orders: &mut BTreeMap<OrderKey, Numbered>,
    key: OrderLineKey,
    moment: Option<Moment>,
)
    requires { AreNumbered orders.old.entries }
    ensures rows { ChangesRow (eq_by_cmp line_cmp) key (with_delivery_d moment)
        (all_lines_table orders.old) (all_lines_table orders.new) }
    ensures many { length (all_lines orders.new.entries) ≡ length (all_lines orders.old.entries) }
    ensures numbered { AreNumbered orders.new.entries }
    ensures ordered { IsOrdered order_cmp orders.new }
{
    if let Some(lines) = orders.get_mut(&key.order()) {
        lines.set_delivery(key.number, moment);
    }
}

// Sets the delivery moment of the order's lines.
fn deliver(orders: &mut BTreeMap<OrderKey, Numbered>, order: OrderKey, moment: Moment)
    requires { AreNumbered orders.old.entries }
    ensures rows { all_lines_table orders.new
        ≡ map_rows (with_moment order moment) (all_lines_table orders.old) }
    ensures many { length (all_lines orders.new.entries) ≡ length (all_lines orders.old.entries) }
    ensures numbered { AreNumbered orders.new.entries }
    ensures ordered { IsOrdered order_cmp orders.new }
{
    if let Some(lines) = orders.get_mut(&order) {
        lines.deliver(moment);
    }
}

// The number of lines of these orders.
fn count_lines(orders: &BTreeMap<OrderKey, Numbered>) -> usize
    requires { length (all_lines orders.now.entries) < 2 ^ 63 }
    ensures { result ≡ length (all_lines orders.now.entries) }
{
    Lines::of(orders.range(..)).count()
}

fn order_key(home: DistrictKey, number: u32) -> OrderKey
    ensures { result ≡ record { w_id = home.w_id; d_id = home.d_id; o_id = number } }
{
    OrderKey {
        w_id: home.w_id,
        d_id: home.d_id,
        o_id: number,
    }
}

fn line_key(order: OrderKey, number: u32) -> OrderLineKey
    ensures { result ≡ line_key order number }
{
    OrderLineKey {
        w_id: order.w_id,
        d_id: order.d_id,
        o_id: order.o_id,
        number,
    }
}
