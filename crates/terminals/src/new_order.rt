//! The fields of a New-Order and of its reply.
ghost use Rattle.std.specs.Prelude.{◌≡◌, ◌-◌, ◌/◌, ◌+◌, ◌*◌, min, ℕ, List, ◌∷◌, ◌++◌, length, OnOk, IfOk, codes, flat_map};
ghost use Rattle.files.specs.Columns.{Spelt, TakesColumn, TakesColumns};
ghost use Rattle.files.specs.Taken.{fields_left, TakesWell, Takes};
ghost use Rattle.files.specs.Written.{AddsFields};
ghost use Rattle.terminals.specs.ReplyColumns.{brand_fault, new_order_shown, shown_columns, shown_in};
ghost use Rattle.terminals.specs.RequestColumns.{line_columns, lines_in, new_order_columns, repeated};
ghost use Rattle.terminals.specs.NewOrder.{IsNewOrder, IsNewOrderReply, brand_text, new_order_line_fields, order_shown_fields, ordered_line_fields};

use crate::request::{put_district, take_district};
use files::{FaultKind, Fields, NewRecord, credit_word, moment_text};
use requests::{Lines, NewOrder, NewOrderLine, NewOrderReply, OrderedLine};
use schema::{BrandGeneric, NoMemory};
use std::alloc::Global;

/// The most lines of an order that are read from the record of a New-Order or of its reply. A record with more lines has the
/// fault `WrongShape`, since the fields after these lines are left.
pub const MOST_RECORD_LINES: u64 = 64;

// The number of fields of a New-Order without lines, including its letter.
const FIELDS: u64 = 5;

// The number of fields of an ordered line, and of a line in a reply.
const ORDERED_FIELDS: u64 = 3;

const SHOWN_FIELDS: u64 = 8;

/// Takes the fields of a New-Order after its letter. `count` is the number of its fields, including the letter. Fields that
/// make no whole line, or come after `MOST_RECORD_LINES` lines, are left.
pub fn take(alloc: Global, count: u64, fields: &mut Fields) -> Result<NewOrder, NoMemory>
    ensures taken { IfOk result (λ order.
        Takes fields.old fields.new (λ said. IsNewOrder order (codes "N" ∷ said))) }
    ensures columns { OnOk result (TakesColumns
        (new_order_columns count (length (fields_left fields.old))) fields.old fields.new) }
    ensures lines { IfOk result (λ order.
        length order.lines ≡ lines_in count (length (fields_left fields.old) - 4)) }
{
    Ok(NewOrder {
        home: take_district(fields),
        c_id: fields.whole(0, u32::MAX),
        moment: fields.moment(),
        lines: take_lines(alloc, count.saturating_sub(FIELDS) / ORDERED_FIELDS, fields)?,
    })
}

// Takes `count` lines, but at most `MOST_RECORD_LINES` and at most as many as the fields left make.
fn take_lines(
    alloc: Global,
    count: u64,
    fields: &mut Fields,
) -> Result<Lines<OrderedLine>, NoMemory>
    ensures taken { IfOk result (λ lines.
        Takes fields.old fields.new (λ said. said ≡ flat_map ordered_line_fields lines)) }
    ensures columns { IfOk result (λ lines.
        TakesColumns (repeated (length lines) line_columns) fields.old fields.new) }
    ensures many { IfOk result (λ lines.
        length lines ≡ min (min count (length (fields_left fields.old) / 3)) MOST_RECORD_LINES) }
{
    let mut lines = Vec::new(alloc);
    let there = fields.left() as u64 / ORDERED_FIELDS;
    for _ in 0..count.min(there).min(MOST_RECORD_LINES) {
        let line = take_line(fields);
        lines.push(line)?;
    }
    Ok(Lines::new(lines))
}

fn take_line(fields: &mut Fields) -> OrderedLine
    ensures taken { Takes fields.old fields.new (λ said. said ≡ ordered_line_fields result) }
    ensures columns { TakesColumns line_columns fields.old fields.new }
{
    OrderedLine {
        i_id: fields.whole(0, u32::MAX),
        supply_w_id: fields.whole(0, u32::MAX),
        quantity: fields.whole(0, u32::MAX),
    }
}

/// The number of fields of the New-Order, including its letter.
pub fn field_count(asked: &NewOrder) -> u64
    ensures fields { (fields : List (List ℕ)) → IsNewOrder asked.now fields
        → length fields ≡ result }
    ensures size { result ≡ 5 + 3 * length asked.now.lines }
{
    FIELDS + ORDERED_FIELDS * asked.lines.as_slice().len() as u64
}

/// Adds the fields of a New-Order, including its letter.
pub fn put(row: &mut NewRecord, asked: &NewOrder) -> Result<(), NoMemory>
    ensures { OnOk result (AddsFields row.old row.new (IsNewOrder asked.now)) }
{
    row.push("N")?;
    put_district(row, asked.home)?;
    row.push_number(u64::from(asked.c_id))?;
    row.push(moment_text(asked.moment).as_str())?;
    put_lines(row, asked.lines.as_slice())
}

fn put_lines(row: &mut NewRecord, lines: &[OrderedLine]) -> Result<(), NoMemory>
    ensures { OnOk result (row.new ≡ row.old ++ flat_map ordered_line_fields lines.now) }
{
    for line in lines {
        put_line(row, line)?;
    }
    Ok(())
}

fn put_line(row: &mut NewRecord, line: &OrderedLine) -> Result<(), NoMemory>
    ensures { OnOk result (row.new ≡ row.old ++ ordered_line_fields line.now) }
{
    row.push_number(u64::from(line.i_id))?;
    row.push_number(u64::from(line.supply_w_id))?;
    row.push_number(u64::from(line.quantity))
}

/// Takes the fields of the reply to a New-Order after its letter. Fields that make no whole line, or come after
/// `MOST_RECORD_LINES` lines, are left.
pub fn take_reply(alloc: Global, fields: &mut Fields) -> Result<NewOrderReply, NoMemory>
    ensures taken { IfOk result (λ shown.
        Takes fields.old fields.new (λ said. IsNewOrderReply shown (codes "N" ∷ said))) }
    ensures columns { OnOk result
        (TakesColumns (new_order_shown (length (fields_left fields.old))) fields.old fields.new) }
{
    Ok(NewOrderReply {
        last: fields.text(),
        credit: fields.credit(),
        discount: fields.rate(),
        warehouse_tax: fields.rate(),
        district_tax: fields.rate(),
        o_id: fields.whole(1, 9_999_999),
        entry_d: fields.moment(),
        total: fields.cents(),
        lines: take_shown_lines(alloc, fields)?,
    })
}

fn take_shown_lines(alloc: Global, fields: &mut Fields) -> Result<Lines<NewOrderLine>, NoMemory>
    ensures taken { IfOk result (λ lines.
        Takes fields.old fields.new (λ said. said ≡ flat_map new_order_line_fields lines)) }
    ensures columns { OnOk result (TakesColumns
        (repeated (shown_in (length (fields_left fields.old))) shown_columns)
        fields.old fields.new) }
{
    let mut lines = Vec::new(alloc);
    for _ in 0..(fields.left() as u64 / SHOWN_FIELDS).min(MOST_RECORD_LINES) {
        let line = take_shown_line(fields);
        lines.push(line)?;
    }
    Ok(Lines::new(lines))
}

fn take_shown_line(fields: &mut Fields) -> NewOrderLine
    ensures taken { Takes fields.old fields.new (λ said. said ≡ new_order_line_fields result) }
    ensures columns { TakesColumns shown_columns fields.old fields.new }
{
    NewOrderLine {
        supply_w_id: fields.whole(0, u32::MAX),
        i_id: fields.whole(0, u32::MAX),
        name: fields.text(),
        quantity: fields.ranged(),
        stock_quantity: fields.ranged(),
        brand: take_brand(fields),
        price: fields.ranged(),
        amount: fields.ranged(),
    }
}

// Takes `B` or `G`. Another word is the fault `OutOfRange`.
fn take_brand(fields: &mut Fields) -> BrandGeneric
    ensures taken { TakesWell fields.old fields.new (brand_text result) }
    ensures column { TakesColumn (Spelt brand_fault) fields.old fields.new }
{
    match fields.word() {
        "B" => BrandGeneric::Brand,
        "G" => BrandGeneric::Generic,
        _ => {
            fields.note(FaultKind::OutOfRange);
            BrandGeneric::Generic
        }
    }
}

/// Adds the fields of the reply to a New-Order, including its letter.
pub fn put_reply(row: &mut NewRecord, shown: &NewOrderReply) -> Result<(), NoMemory>
    ensures { OnOk result (AddsFields row.old row.new (IsNewOrderReply shown.now)) }
{
    put_order(row, shown, moment_text(shown.entry_d).as_str())?;
    put_shown_lines(row, shown.lines.as_slice())
}

// Adds the letter and the fields of the order before its lines. `entry` is the text of its moment.
fn put_order(row: &mut NewRecord, shown: &NewOrderReply, entry: &str) -> Result<(), NoMemory>
    ensures { OnOk result (row.new ≡ row.old ++ order_shown_fields shown.now entry.now) }
{
    row.push("N")?;
    row.push(shown.last.as_str())?;
    row.push(credit_word(shown.credit))?;
    row.push_number(u64::from(shown.discount.get()))?;
    row.push_number(u64::from(shown.warehouse_tax.get()))?;
    row.push_number(u64::from(shown.district_tax.get()))?;
    row.push_number(u64::from(shown.o_id))?;
    row.push(entry)?;
    row.push_signed(shown.total.get())
}

fn put_shown_lines(row: &mut NewRecord, lines: &[NewOrderLine]) -> Result<(), NoMemory>
    ensures { OnOk result (row.new ≡ row.old ++ flat_map new_order_line_fields lines.now) }
{
    for line in lines {
        put_shown_line(row, line)?;
    }
    Ok(())
}

fn put_shown_line(row: &mut NewRecord, line: &NewOrderLine) -> Result<(), NoMemory>
    ensures { OnOk result (row.new ≡ row.old ++ new_order_line_fields line.now) }
{
    row.push_number(u64::from(line.supply_w_id))?;
    row.push_number(u64::from(line.i_id))?;
    row.push(line.name.as_str())?;
    row.push_number(u64::from(line.quantity.get()))?;
    row.push_number(u64::from(line.stock_quantity.get()))?;
    row.push(brand_word(line.brand))?;
    row.push_number(u64::from(line.price.get()))?;
    row.push_number(u64::from(line.amount.get()))
}

fn brand_word(brand: BrandGeneric) -> &'static str
    ensures { result.now ≡ brand_text brand }
{
    match brand {
        BrandGeneric::Brand => "B",
        BrandGeneric::Generic => "G",
    }
}
