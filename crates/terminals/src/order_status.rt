//! The fields of an Order-Status and of its reply.
ghost use Rattle.std.specs.Prelude.{◌≡◌, ℕ, List, [], ◌∷◌, ◌++◌, None, OnOk, IfOk, codes};
ghost use Rattle.files.specs.Taken.{fields_left, TakesWell, Takes};
ghost use Rattle.files.specs.Written.{AddsFields};
ghost use Rattle.files.specs.Columns.{TakesColumn, TakesColumns};
ghost use Rattle.terminals.specs.ReplyColumns.{null, order_status_shown, status_columns, status_order};
ghost use Rattle.terminals.specs.RequestColumns.{order_status_columns};
ghost use Rattle.terminals.specs.Nullable.{IsNullableMoment, nullable_text};
ghost use Rattle.terminals.specs.OrderStatus.{IsOrderStatus, IsOrderStatusReply, IsStatusLine, IsStatusOrder, AreStatusLines};

use crate::choice;
use crate::request::{put_district, take_district};
use files::{FaultKind, Fields, NewRecord, moment_text};
use requests::{Lines, OrderStatus, OrderStatusReply, StatusLine, StatusOrder};
use schema::{CarrierId, Moment, NoMemory};
use std::alloc::Global;

/// The number of fields of an Order-Status, including its letter.
pub const FIELDS: u64 = 4;

// The number of fields of an order's line.
const LINE_FIELDS: usize = 5;

/// Takes the fields of an Order-Status after its letter.
pub fn take(fields: &mut Fields) -> OrderStatus
    ensures taken { Takes fields.old fields.new (λ said. IsOrderStatus result (codes "O" ∷ said)) }
    ensures columns { TakesColumns order_status_columns fields.old fields.new }
{
    OrderStatus {
        home: take_district(fields),
        customer: choice::take(fields),
    }
}

/// Adds the fields of an Order-Status, including its letter.
pub fn put(row: &mut NewRecord, asked: &OrderStatus) -> Result<(), NoMemory>
    ensures { OnOk result (AddsFields row.old row.new (IsOrderStatus asked.now)) }
{
    row.push("O")?;
    put_district(row, asked.home)?;
    choice::put(row, &asked.customer)
}

/// Takes the fields of the reply to an Order-Status after its letter. Fields that make no whole line are left.
pub fn take_reply(alloc: Global, fields: &mut Fields) -> Result<OrderStatusReply, NoMemory>
    ensures taken { IfOk result (λ shown.
        Takes fields.old fields.new (λ said. IsOrderStatusReply shown (codes "O" ∷ said))) }
    ensures columns { OnOk result
        (TakesColumns (order_status_shown (fields_left fields.old)) fields.old fields.new) }
{
    Ok(OrderStatusReply {
        c_id: fields.whole(0, u32::MAX),
        first: fields.text(),
        middle: fields.text(),
        last: fields.text(),
        balance: fields.cents(),
        order: take_order(alloc, fields)?,
    })
}

// Takes the fields of an order, with as many lines as the fields left make. Returns `None` if O_ID is empty: the customer has
// no order.
fn take_order(alloc: Global, fields: &mut Fields) -> Result<Option<StatusOrder>, NoMemory>
    ensures taken { IfOk result (λ order. Takes fields.old fields.new (IsStatusOrder order)) }
    ensures columns { OnOk result
        (TakesColumns (status_order (fields_left fields.old)) fields.old fields.new) }
{
    if fields.next_is_empty() {
        take_no_order(fields);
        return Ok(None);
    }
    let o_id = fields.whole(1, 9_999_999);
    let entry_d = fields.moment();
    let carrier_id = fields.optional_ranged();
    let mut lines = Vec::new(alloc);
    for _ in 0..fields.left() / LINE_FIELDS {
        let line = take_line(fields);
        lines.push(line)?;
    }
    Ok(Some(StatusOrder {
        o_id,
        entry_d,
        carrier_id,
        lines: Lines::new(lines),
    }))
}

// Takes the three empty fields of a reply without an order.
fn take_no_order(fields: &mut Fields)
    ensures taken { Takes fields.old fields.new (IsStatusOrder None) }
    ensures columns { TakesColumns (null ∷ null ∷ null ∷ []) fields.old fields.new }
{
    take_null(fields);
    take_null(fields);
    take_null(fields);
}

// Takes an empty field. Another one is the fault `NotOfKind`.
fn take_null(fields: &mut Fields)
    ensures taken { TakesWell fields.old fields.new [] }
    ensures column { TakesColumn null fields.old fields.new }
{
    if !fields.word().is_empty() {
        fields.note(FaultKind::NotOfKind);
    }
}

fn take_line(fields: &mut Fields) -> StatusLine
    ensures taken { Takes fields.old fields.new (IsStatusLine result) }
    ensures columns { TakesColumns status_columns fields.old fields.new }
{
    StatusLine {
        i_id: fields.whole(0, u32::MAX),
        supply_w_id: fields.whole(0, u32::MAX),
        quantity: fields.ranged(),
        amount: fields.ranged(),
        delivery_d: fields.optional_moment(),
    }
}

/// Adds the fields of the reply to an Order-Status, including its letter.
pub fn put_reply(row: &mut NewRecord, shown: &OrderStatusReply) -> Result<(), NoMemory>
    ensures { OnOk result (AddsFields row.old row.new (IsOrderStatusReply shown.now)) }
{
    row.push("O")?;
    row.push_number(u64::from(shown.c_id))?;
    row.push(shown.first.as_str())?;
    row.push(shown.middle.as_str())?;
    row.push(shown.last.as_str())?;
    row.push_signed(shown.balance.get())?;
    put_order(row, &shown.order)
}

fn put_order(row: &mut NewRecord, order: &Option<StatusOrder>) -> Result<(), NoMemory>
    ensures { OnOk result (AddsFields row.old row.new (IsStatusOrder order.now)) }
{
    match order {
        Some(order) => {
            row.push_number(u64::from(order.o_id))?;
            row.push(moment_text(order.entry_d).as_str())?;
            put_carrier(row, order.carrier_id)?;
            put_lines(row, order.lines.as_slice())
        }
        None => {
            row.push("")?;
            row.push("")?;
            row.push("")
        }
    }
}

fn put_lines(row: &mut NewRecord, lines: &[StatusLine]) -> Result<(), NoMemory>
    ensures { OnOk result (AddsFields row.old row.new (AreStatusLines lines.now)) }
{
    for line in lines {
        put_line(row, line)?;
    }
    Ok(())
}

fn put_line(row: &mut NewRecord, line: &StatusLine) -> Result<(), NoMemory>
    ensures { OnOk result (AddsFields row.old row.new (IsStatusLine line.now)) }
{
    row.push_number(u64::from(line.i_id))?;
    row.push_number(u64::from(line.supply_w_id))?;
    row.push_number(u64::from(line.quantity.get()))?;
    row.push_number(u64::from(line.amount.get()))?;
    put_delivery(row, line.delivery_d)
}

// Adds O_CARRIER_ID, or the empty field if the order is not delivered.
fn put_carrier(row: &mut NewRecord, carrier: Option<CarrierId>) -> Result<(), NoMemory>
    ensures { OnOk result (row.new ≡ row.old ++ (nullable_text carrier ∷ [])) }
{
    match carrier {
        Some(carrier) => row.push_number(u64::from(carrier.get())),
        None => row.push(""),
    }
}

// Adds OL_DELIVERY_D, or the empty field if the line is not delivered.
fn put_delivery(row: &mut NewRecord, delivery: Option<Moment>) -> Result<(), NoMemory>
    ensures { OnOk result ((text : List ℕ) × IsNullableMoment text delivery
        × (row.new ≡ row.old ++ (text ∷ []))) }
{
    match delivery {
        Some(moment) => row.push(moment_text(moment).as_str()),
        None => row.push(""),
    }
}
