//! The fields of a payment and of its reply.
ghost use Rattle.std.specs.Prelude.{◌≡◌, ◌∷◌, ◌++◌, IfOk, OnOk, codes};
ghost use Rattle.files.specs.Taken.{Takes};
ghost use Rattle.files.specs.Written.{AddsFields};
ghost use Rattle.files.specs.Columns.{TakesColumns};
ghost use Rattle.terminals.specs.Payment.{IsPayment, payment_reply_fields};
ghost use Rattle.terminals.specs.ReplyColumns.{payment_shown};
ghost use Rattle.terminals.specs.RequestColumns.{payment_columns};

use crate::choice;
use crate::request::{put_district, take_district};
use files::{Fields, NewRecord, credit_word, moment_text};
use requests::{Payment, PaymentReply, ShownData};
use schema::NoMemory;
use std::alloc::Global;

/// The number of fields of a payment, including its letter.
pub const FIELDS: u64 = 8;

/// Takes the fields of a payment after its letter.
pub fn take(fields: &mut Fields) -> Payment
    ensures taken { Takes fields.old fields.new (λ said. IsPayment result (codes "P" ∷ said)) }
    ensures columns { TakesColumns payment_columns fields.old fields.new }
{
    Payment {
        home: take_district(fields),
        customer_home: take_district(fields),
        customer: choice::take(fields),
        amount: fields.whole(0, u32::MAX),
        moment: fields.moment(),
    }
}

/// Adds the fields of a payment, including its letter.
pub fn put(row: &mut NewRecord, payment: &Payment) -> Result<(), NoMemory>
    ensures { OnOk result (AddsFields row.old row.new (IsPayment payment.now)) }
{
    row.push("P")?;
    put_district(row, payment.home)?;
    put_district(row, payment.customer_home)?;
    choice::put(row, &payment.customer)?;
    row.push_number(u64::from(payment.amount))?;
    row.push(moment_text(payment.moment).as_str())
}

/// Takes the fields of the reply to a payment after its letter.
pub fn take_reply(alloc: Global, fields: &mut Fields) -> Result<PaymentReply, NoMemory>
    ensures taken { IfOk result (λ shown.
        Takes fields.old fields.new (λ said. codes "P" ∷ said ≡ payment_reply_fields shown)) }
    ensures columns { OnOk result (TakesColumns payment_shown fields.old fields.new) }
{
    Ok(PaymentReply {
        c_id: fields.whole(0, u32::MAX),
        first: fields.text(),
        middle: fields.text(),
        last: fields.text(),
        credit: fields.credit(),
        discount: fields.rate(),
        balance: fields.cents(),
        data: ShownData::new(alloc, fields.text())?,
    })
}

/// Adds the fields of the reply to a payment, including its letter.
pub fn put_reply(row: &mut NewRecord, shown: &PaymentReply) -> Result<(), NoMemory>
    ensures { OnOk result (row.new ≡ row.old ++ payment_reply_fields shown.now) }
{
    row.push("P")?;
    row.push_number(u64::from(shown.c_id))?;
    row.push(shown.first.as_str())?;
    row.push(shown.middle.as_str())?;
    row.push(shown.last.as_str())?;
    row.push(credit_word(shown.credit))?;
    row.push_number(u64::from(shown.discount.get()))?;
    row.push_signed(shown.balance.get())?;
    row.push(shown.data.as_str())
}
