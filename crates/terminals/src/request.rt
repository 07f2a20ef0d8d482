ghost use Rattle.std.specs.Prelude.{◌≡◌, ◌≢◌, ℕ, List, [], ◌∷◌, ◌++◌, length, None, OnOk, IfOk, IfSome, IfNone};
ghost use Rattle.std.specs.Fmt.{decimal};
ghost use Rattle.files.specs.FieldRead.{fields_view};
ghost use Rattle.files.specs.Taken.{fault_of, fields_left, TakesAll, Takes};
ghost use Rattle.files.specs.Written.{AddsFields};
ghost use Rattle.files.specs.Columns.{TakesColumns};
ghost use Rattle.terminals.specs.RequestColumns.{after_request, number, request_columns, request_size, HasColumns};
ghost use Rattle.terminals.specs.RequestFields.{IsRequest};

use crate::{delivery, new_order, order_status, payment, stock_level};
use files::{FaultKind, Fields, NewRecord};
use requests::Request;
use schema::{DistrictKey, NoMemory};
use std::alloc::Global;

/// Takes the fields of a request after its letter. `count` is the number of fields it should have, including the letter; it
/// determines the number of an order's lines. Returns `None` if the letter is unknown, with the fault `WrongShape`. Only the
/// lines of an order allocate memory.
pub fn take(
    alloc: Global,
    count: u64,
    letter: &str,
    fields: &mut Fields,
) -> Result<Option<Request>, NoMemory>
    ensures taken { IfOk result (λ taken. IfSome taken (λ request.
        Takes fields.old fields.new (λ said. IsRequest request (letter.now ∷ said)))) }
    ensures unknown { IfOk result (λ taken. IfNone taken (fault_of fields.new ≢ None)) }
    ensures columns { OnOk result
        (fields_view fields.new ≡ after_request count letter.now (fields_view fields.old)) }
    ensures size { IfOk result (λ taken.
        HasColumns taken (request_columns count letter.now (length (fields_left fields.old)))) }
{
    match letter {
        "N" => {
            let asked = new_order::take(alloc, count, fields)?;
            Ok(Some(Request::NewOrder(asked)))
        }
        "P" => Ok(Some(Request::Payment(payment::take(fields)))),
        "O" => Ok(Some(Request::OrderStatus(order_status::take(fields)))),
        "D" => Ok(Some(Request::Delivery(delivery::take(fields)))),
        "L" => Ok(Some(Request::StockLevel(stock_level::take(fields)))),
        _ => {
            fields.note(FaultKind::WrongShape);
            Ok(None)
        }
    }
}

/// Takes the numbers of a warehouse and a district.
pub(crate) fn take_district(fields: &mut Fields) -> DistrictKey
    ensures taken { TakesAll fields.old fields.new
        (decimal result.w_id ∷ decimal result.d_id ∷ []) }
    ensures columns { TakesColumns (number ∷ number ∷ []) fields.old fields.new }
{
    DistrictKey {
        w_id: fields.whole(0, u32::MAX),
        d_id: fields.whole(0, u32::MAX),
    }
}

/// The number of fields of the request, including its letter.
pub fn field_count(request: &Request) -> u64
    ensures fields { (fields : List (List ℕ)) → IsRequest request.now fields
        → length fields ≡ result }
    ensures size { result ≡ request_size request.now }
{
    match request {
        Request::NewOrder(asked) => new_order::field_count(asked),
        Request::Payment(_) => payment::FIELDS,
        Request::OrderStatus(_) => order_status::FIELDS,
        Request::Delivery(_) => delivery::FIELDS,
        Request::StockLevel(_) => stock_level::FIELDS,
    }
}

/// Adds the fields of the request, including its letter.
pub fn put(row: &mut NewRecord, request: &Request) -> Result<(), NoMemory>
    ensures { OnOk result (AddsFields row.old row.new (IsRequest request.now)) }
{
    match request {
        Request::NewOrder(asked) => new_order::put(row, asked),
        Request::Payment(asked) => payment::put(row, asked),
        Request::OrderStatus(asked) => order_status::put(row, asked),
        Request::Delivery(asked) => delivery::put(row, asked),
        Request::StockLevel(asked) => stock_level::put(row, asked),
    }
}

/// Adds the numbers of a warehouse and a district.
pub(crate) fn put_district(row: &mut NewRecord, district: DistrictKey) -> Result<(), NoMemory>
    ensures { OnOk result
        (row.new ≡ row.old ++ (decimal district.w_id ∷ decimal district.d_id ∷ [])) }
{
    row.push_number(u64::from(district.w_id))?;
    row.push_number(u64::from(district.d_id))
}
