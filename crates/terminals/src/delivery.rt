//! The fields of a Delivery, of a district or of a warehouse, and of its reply.
ghost use Rattle.std.specs.Prelude.{◌≡◌, [], ◌∷◌, ◌++◌, OnOk, codes};
ghost use Rattle.files.specs.Columns.{MaybeWhole, TakesColumn, TakesColumns};
ghost use Rattle.files.specs.Taken.{TakesWell, Takes};
ghost use Rattle.files.specs.Written.{AddsFields};
ghost use Rattle.terminals.specs.ReplyColumns.{delivery_shown};
ghost use Rattle.terminals.specs.RequestColumns.{delivery_columns, warehouse_delivery_columns};
ghost use Rattle.terminals.specs.Nullable.{nullable_text};
ghost use Rattle.terminals.specs.Delivery.{IsDelivery, IsWarehouseDelivery, delivery_reply_fields};

use crate::request::{put_district, take_district};
use files::{Fields, NewRecord, moment_text};
use requests::{Delivery, DeliveryReply, WarehouseDelivery};
use schema::{NoMemory, Ranged};

/// The number of fields of a Delivery, including its letter.
pub const FIELDS: u64 = 5;

/// Takes the fields of a Delivery after its letter.
pub fn take(fields: &mut Fields) -> Delivery
    ensures taken { Takes fields.old fields.new (λ said. IsDelivery result (codes "D" ∷ said)) }
    ensures columns { TakesColumns delivery_columns fields.old fields.new }
{
    Delivery {
        home: take_district(fields),
        carrier_id: fields.whole(0, u32::MAX),
        moment: fields.moment(),
    }
}

/// Adds the fields of a Delivery, including its letter.
pub fn put(row: &mut NewRecord, asked: &Delivery) -> Result<(), NoMemory>
    ensures { OnOk result (AddsFields row.old row.new (IsDelivery asked.now)) }
{
    row.push("D")?;
    put_district(row, asked.home)?;
    row.push_number(u64::from(asked.carrier_id))?;
    row.push(moment_text(asked.moment).as_str())
}

/// Takes the fields of a Delivery of a warehouse after its letter.
pub fn take_of_warehouse(fields: &mut Fields) -> WarehouseDelivery
    ensures taken { Takes fields.old fields.new
        (λ said. IsWarehouseDelivery result (codes "D" ∷ said)) }
    ensures columns { TakesColumns warehouse_delivery_columns fields.old fields.new }
{
    WarehouseDelivery {
        w_id: fields.whole(0, u32::MAX),
        carrier_id: fields.whole(0, u32::MAX),
        moment: fields.moment(),
    }
}

/// Adds the fields of a Delivery of a warehouse, including its letter.
pub fn put_of_warehouse(row: &mut NewRecord, asked: &WarehouseDelivery) -> Result<(), NoMemory>
    ensures { OnOk result (AddsFields row.old row.new (IsWarehouseDelivery asked.now)) }
{
    row.push("D")?;
    row.push_number(u64::from(asked.w_id))?;
    row.push_number(u64::from(asked.carrier_id))?;
    row.push(moment_text(asked.moment).as_str())
}

/// Takes the fields of the reply to a Delivery after its letter.
pub fn take_reply(fields: &mut Fields) -> DeliveryReply
    ensures taken { Takes fields.old fields.new
        (λ said. codes "D" ∷ said ≡ delivery_reply_fields result) }
    ensures columns { TakesColumns delivery_shown fields.old fields.new }
{
    DeliveryReply {
        d_id: fields.whole(1, 10),
        carrier_id: fields.whole(1, 10),
        order: take_order(fields),
    }
}

// Takes the number of an order, 1 to 9,999,999. Returns `None` for the empty field.
fn take_order(fields: &mut Fields) -> Option<u32>
    ensures taken { TakesWell fields.old fields.new (nullable_text result) }
    ensures column { TakesColumn (MaybeWhole 1 9999999) fields.old fields.new }
{
    let number: Option<Ranged<1, 9_999_999>> = fields.optional_ranged();
    Some(number?.get())
}

/// Adds the fields of the reply to a Delivery, including its letter.
pub fn put_reply(row: &mut NewRecord, shown: &DeliveryReply) -> Result<(), NoMemory>
    ensures { OnOk result (row.new ≡ row.old ++ delivery_reply_fields shown.now) }
{
    row.push("D")?;
    row.push_number(u64::from(shown.d_id))?;
    row.push_number(u64::from(shown.carrier_id))?;
    put_order(row, shown.order)
}

// Adds the number of an order, or the empty field.
fn put_order(row: &mut NewRecord, order: Option<u32>) -> Result<(), NoMemory>
    ensures { OnOk result (row.new ≡ row.old ++ (nullable_text order ∷ [])) }
{
    match order {
        Some(number) => row.push_number(u64::from(number)),
        None => row.push(""),
    }
}
