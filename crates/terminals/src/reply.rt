ghost use Rattle.std.specs.Prelude.{◌≡◌, ◌≢◌, ◌∷◌, ◌++◌, None, OnOk, IfOk, IfSome, IfNone};
ghost use Rattle.files.specs.FieldRead.{fields_view};
ghost use Rattle.files.specs.Taken.{fault_of, TakesAll, Takes};
ghost use Rattle.files.specs.Written.{AddsFields};
ghost use Rattle.terminals.specs.ReplyColumns.{after_reply, after_why};
ghost use Rattle.terminals.specs.ReplyFields.{IsReply, IsShown, fault_fields};

use crate::{delivery, new_order, order_status, payment, stock_level};
use files::{FaultKind, Fields, NewRecord, credit_word};
use requests::{Fault, Reply, Shown};
use schema::NoMemory;
use std::alloc::Global;

/// Takes the fields of a reply after its letter. Returns `None` if the letter, or the word after `X`, is unknown, with the
/// fault `WrongShape`. Only the lines of an order and C_DATA allocate memory.
pub fn take(alloc: Global, letter: &str, fields: &mut Fields) -> Result<Option<Reply>, NoMemory>
    ensures taken { IfOk result (λ taken. IfSome taken (λ reply.
        Takes fields.old fields.new (λ said. IsReply reply (letter.now ∷ said)))) }
    ensures unknown { IfOk result (λ taken. IfNone taken (fault_of fields.new ≢ None)) }
    ensures columns { OnOk result
        (fields_view fields.new ≡ after_reply letter.now (fields_view fields.old)) }
{
    match letter {
        "N" => {
            let shown = new_order::take_reply(alloc, fields)?;
            Ok(Some(Reply::Done(Shown::NewOrder(shown))))
        }
        "P" => {
            let shown = payment::take_reply(alloc, fields)?;
            Ok(Some(Reply::Done(Shown::Payment(shown))))
        }
        "O" => {
            let shown = order_status::take_reply(alloc, fields)?;
            Ok(Some(Reply::Done(Shown::OrderStatus(shown))))
        }
        "D" => {
            let shown = delivery::take_reply(fields);
            Ok(Some(Reply::Done(Shown::Delivery(shown))))
        }
        "L" => {
            let shown = stock_level::take_reply(fields);
            Ok(Some(Reply::Done(Shown::StockLevel(shown))))
        }
        "X" => match take_fault(fields) {
            Some(fault) => Ok(Some(Reply::RolledBack(fault))),
            None => Ok(None),
        },
        _ => {
            fields.note(FaultKind::WrongShape);
            Ok(None)
        }
    }
}

// Takes the reason of a rollback. Returns `None` if the word is unknown, with the fault `WrongShape`.
fn take_fault(fields: &mut Fields) -> Option<Fault>
    ensures taken { IfSome result (λ fault. TakesAll fields.old fields.new (fault_fields fault)) }
    ensures unknown { IfNone result (fault_of fields.new ≢ None) }
    ensures columns { fields_view fields.new ≡ after_why (fields_view fields.old) }
{
    match fields.word() {
        "nocustomer" => Some(Fault::NoCustomer),
        "noitem" => Some(Fault::NoItem {
            last: fields.text(),
            credit: fields.credit(),
            o_id: fields.whole(1, 10_000_000),
        }),
        "range" => Some(Fault::Range),
        _ => {
            fields.note(FaultKind::WrongShape);
            None
        }
    }
}

/// Adds the fields of the reply, including its letter.
pub fn put(row: &mut NewRecord, reply: &Reply) -> Result<(), NoMemory>
    ensures { OnOk result (AddsFields row.old row.new (IsReply reply.now)) }
{
    match reply {
        Reply::Done(shown) => put_shown(row, shown),
        Reply::RolledBack(fault) => {
            row.push("X")?;
            put_fault(row, fault)
        }
    }
}

// Adds the fields of what is shown, including the letter of its kind.
fn put_shown(row: &mut NewRecord, shown: &Shown) -> Result<(), NoMemory>
    ensures { OnOk result (AddsFields row.old row.new (IsShown shown.now)) }
{
    match shown {
        Shown::NewOrder(shown) => new_order::put_reply(row, shown),
        Shown::Payment(shown) => payment::put_reply(row, shown),
        Shown::OrderStatus(shown) => order_status::put_reply(row, shown),
        Shown::Delivery(shown) => delivery::put_reply(row, shown),
        Shown::StockLevel(shown) => stock_level::put_reply(row, shown),
    }
}

// Adds the reason of a rollback.
fn put_fault(row: &mut NewRecord, fault: &Fault) -> Result<(), NoMemory>
    ensures { OnOk result (row.new ≡ row.old ++ fault_fields fault.now) }
{
    match fault {
        Fault::NoCustomer => row.push("nocustomer"),
        Fault::NoItem { last, credit, o_id } => {
            row.push("noitem")?;
            row.push(last.as_str())?;
            row.push(credit_word(*credit))?;
            row.push_number(u64::from(*o_id))
        }
        Fault::Range => row.push("range"),
    }
}
