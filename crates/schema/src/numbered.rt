//! The rows of ORDER-LINE of one order, packed in a vector.
ghost use Rattle.std.specs.Prelude.{◌≡◌, ◌+◌, ◌≤◌, [], length, map, nat_eq, IsTrue, IfOk, IfErr, OnOk, OnErr};
ghost use Rattle.std.specs.FinMap as table;
ghost use Rattle.std.specs.List.Sorted.{IsStrictlySortedBy};
ghost use Rattle.std.specs.Map.{keys_of};
ghost use Rattle.std.specs.Option.{option_copied};
ghost use Rattle.std.specs.Ordering.{nat_cmp};
ghost use Rattle.rows.specs.declared.limits.TheConstants.{MOST_LINES};
ghost use Rattle.schema.specs.MapRows.{put_row, row_count, ChangesRow};
ghost use Rattle.schema.specs.NumberedRows.{StandsAt, BelongsAt};
ghost use Rattle.schema.specs.OrderRows.{delivered_at, with_delivery_d};
ghost use Rattle.schema.specs.PackedLines.{numbered, numbered_from};

use crate::NoMemory;
use rows::{FEWEST_LINES, Moment, OrderLine};
use std::alloc::Global;
use std::marker::Model;
use std::mem;

/// The lines of one order with their numbers, in ascending order, in one vector. `from_rows` reserves
/// room for exactly the lines that it takes. `put` reserves room for the fewest lines of an order at
/// the first line, and for one more line whenever the vector is full.
#[derive(Clone, Drop)]
pub(crate) struct Numbered {
    rows: Vec<(u32, OrderLine)>,
}

impl Model for Numbered {
    ghost use Rattle.std.specs.Prelude.{ℕ, List};
    ghost use Rattle.std.specs.List.Sorted.{IsStrictlySortedBy};
    ghost use Rattle.std.specs.Map.{keys_of};
    ghost use Rattle.std.specs.Ordering.{nat_cmp};
    ghost use Rattle.rows.specs.declared.records.OrderLine as line;

    ghost Value = { List (ℕ × line.OrderLine) };

    ghost view = { λ n. n.rows.items };

    ghost invariant = { λ n. IsStrictlySortedBy nat_cmp (keys_of n.rows.items) };
}

impl Numbered {
    /// No lines. Does not allocate.
    pub(crate) fn new(alloc: Global) -> Numbered
        ensures { result ≡ [] }
    {
        Numbered {
            rows: Vec::new(alloc),
        }
    }

    /// These lines, numbered from 1. Returns `NoMemory` if an allocation fails.
    pub(crate) fn from_rows(rows: Vec<OrderLine>) -> Result<Numbered, NoMemory>
        requires { length rows.items ≤ MOST_LINES }
        ensures { IfOk result (λ lines. lines ≡ numbered_from 1 rows.items) }
    {
        let mut lines = Vec::with_capacity(*rows.allocator(), rows.len())?;
        for row in rows {
            let number = lines.len() as u32 + 1;
            lines.push((number, row))?;
        }
        Ok(Numbered { rows: lines })
    }

    /// The lines with their numbers, in ascending order.
    pub(crate) fn as_slice(&self) -> &[(u32, OrderLine)]
        ensures rows { result.now ≡ self.now }
        ensures ordered { IsStrictlySortedBy nat_cmp (keys_of self.now) }
    {
        self.rows.as_slice()
    }

    /// The lines with their numbers, in ascending order. Does not allocate.
    pub(crate) fn into_rows(self) -> Vec<(u32, OrderLine)>
        ensures rows { result.items ≡ self }
        ensures ordered { IsStrictlySortedBy nat_cmp (keys_of self) }
    {
        self.rows
    }

    /// The line with that number, or `None` if there is none.
    pub(crate) fn get(&self, number: u32) -> Option<&OrderLine>
        ensures { option_copied result ≡ table.get (numbered self.now) number }
    {
        get(self.rows.as_slice(), number)
    }

    /// Stores a line at the number and returns the line that it replaces. Returns `NoMemory` if an
    /// allocation fails; nothing has changed then.
    pub(crate) fn put(&mut self, number: u32, row: OrderLine) -> Result<Option<OrderLine>, NoMemory>
        ensures was { IfOk result (λ was. was ≡ table.get (numbered self.old) number) }
        ensures ok { OnOk result (numbered self.new ≡ table.insert (numbered self.old) number row) }
        ensures many { IfOk result (λ was. length self.new + row_count was ≡ length self.old + 1) }
        ensures err { OnErr result (self.new ≡ self.old) }
        ensures ordered { IsStrictlySortedBy nat_cmp (keys_of self.new) }
    {
        put(&mut self.rows, number, row)
    }

    /// Restores `was` at the number, in place of the line stored there. If `was` is `None`, the line is
    /// removed. Does not allocate.
    pub(crate) fn put_back(&mut self, number: u32, was: Option<OrderLine>)
        requires { IsTrue (table.contains_key (numbered self.old) number) }
        ensures rows { numbered self.new ≡ put_row (numbered self.old) number was }
        ensures many { length self.new + 1 ≡ length self.old + row_count was }
        ensures ordered { IsStrictlySortedBy nat_cmp (keys_of self.new) }
    {
        put_back(&mut self.rows, number, was);
    }

    /// Sets the delivery moment of the line, if there is one, to `moment`, which may be `None`. Does
    /// not allocate.
    pub(crate) fn set_delivery(&mut self, number: u32, moment: Option<Moment>)
        ensures rows { ChangesRow nat_eq number (with_delivery_d moment)
            (numbered self.old) (numbered self.new) }
        ensures many { length self.new ≡ length self.old }
        ensures ordered { IsStrictlySortedBy nat_cmp (keys_of self.new) }
    {
        set_delivery(&mut self.rows, number, moment);
    }

    /// Sets the delivery moment of every line. Does not allocate.
    pub(crate) fn deliver(&mut self, moment: Moment)
        ensures rows { self.new ≡ map (λ line. (line.0, delivered_at moment line.1)) self.old }
        ensures ordered { IsStrictlySortedBy nat_cmp (keys_of self.new) }
    {
        deliver(&mut self.rows, moment);
    }
}

// `Ok` with the index of the line with that number, or `Err` with the index at which to insert it.
fn find(rows: &[(u32, OrderLine)], number: u32) -> Result<usize, usize>
    ensures found { IfOk result (λ place. StandsAt number rows.now place) }
    ensures missing { IfErr result (λ place. BelongsAt number rows.now place) }
{
    for place in 0..rows.len() {
        let other = rows[place].0;
        if other == number {
            return Ok(place);
        }
        if number < other {
            return Err(place);
        }
    }
    Err(rows.len())
}

// The line with that number, or `None` if there is none.
fn get(rows: &[(u32, OrderLine)], number: u32) -> Option<&OrderLine>
    requires { IsStrictlySortedBy nat_cmp (keys_of rows.now) }
    ensures { option_copied result ≡ table.get (numbered rows.now) number }
{
    let Ok(place) = find(rows, number) else {
        return None;
    };
    let row = rows.get(place)?;
    Some(&row.1)
}

// Stores a line at the number and returns the line that it replaces. Returns `NoMemory` if an
// allocation fails; nothing has changed then.
fn put(
    rows: &mut Vec<(u32, OrderLine)>,
    number: u32,
    row: OrderLine,
) -> Result<Option<OrderLine>, NoMemory>
    requires { IsStrictlySortedBy nat_cmp (keys_of rows.old.items) }
    ensures was { IfOk result (λ was. was ≡ table.get (numbered rows.old.items) number) }
    ensures ok { OnOk result
        (numbered rows.new.items ≡ table.insert (numbered rows.old.items) number row) }
    ensures many { IfOk result
        (λ was. length rows.new.items + row_count was ≡ length rows.old.items + 1) }
    ensures err { OnErr result (rows.new.items ≡ rows.old.items) }
    ensures ordered { IsStrictlySortedBy nat_cmp (keys_of rows.new.items) }
{
    match find(rows.as_slice(), number) {
        Ok(place) => Ok(Some(mem::replace(&mut rows[place].1, row))),
        Err(place) => {
            let more = if rows.is_empty() { FEWEST_LINES } else { 1 };
            rows.reserve_exact(more)?;
            rows.insert(place, (number, row))?;
            Ok(None)
        }
    }
}

// Restores `was` at the number, in place of the line stored there. If `was` is `None`, the line is
// removed. Does not allocate.
fn put_back(rows: &mut Vec<(u32, OrderLine)>, number: u32, was: Option<OrderLine>)
    requires ordered { IsStrictlySortedBy nat_cmp (keys_of rows.old.items) }
    requires there { IsTrue (table.contains_key (numbered rows.old.items) number) }
    ensures rows { numbered rows.new.items ≡ put_row (numbered rows.old.items) number was }
    ensures many { length rows.new.items + 1 ≡ length rows.old.items + row_count was }
    ensures ordered { IsStrictlySortedBy nat_cmp (keys_of rows.new.items) }
{
    // The precondition `there` excludes the other case.
    if let Ok(place) = find(rows.as_slice(), number) {
        match was {
            Some(row) => rows[place].1 = row,
            None => {
                rows.remove(place);
            }
        }
    }
}

// Sets the delivery moment of the line, if there is one, to `moment`, which may be `None`.
fn set_delivery(rows: &mut Vec<(u32, OrderLine)>, number: u32, moment: Option<Moment>)
    requires { IsStrictlySortedBy nat_cmp (keys_of rows.old.items) }
    ensures rows { ChangesRow nat_eq number (with_delivery_d moment)
        (numbered rows.old.items) (numbered rows.new.items) }
    ensures many { length rows.new.items ≡ length rows.old.items }
    ensures ordered { IsStrictlySortedBy nat_cmp (keys_of rows.new.items) }
{
    if let Ok(place) = find(rows.as_slice(), number) {
        rows[place].1.delivery_d = moment;
    }
}

// Sets the delivery moment of every line.
fn deliver(rows: &mut Vec<(u32, OrderLine)>, moment: Moment)
    ensures { rows.new.items ≡ map (λ line. (line.0, delivered_at moment line.1)) rows.old.items }
{
    for row in rows.iter_mut() {
        row.1.delivery_d = Some(moment);
    }
}
