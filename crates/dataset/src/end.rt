ghost use Rattle.std.specs.Prelude.{◌≡◌, [], ◌∷◌, OnOk};
ghost use Rattle.files.specs.Taken.{Takes};
ghost use Rattle.dataset.specs.Records.{AreSpelt, Number};
ghost use Rattle.dataset.specs.Payments.{AreCountable, payment_count};
ghost use Rattle.dataset.specs.Writing.{Adds, count_columns, count_fields, row_counts};
ghost use Rattle.files.specs.Columns.{take_columns, Count};
ghost use Rattle.files.specs.FieldRead.{fields_view};

use crate::histories;
use files::{FaultKind, Fields, NewRecord};
use schema::{HistoryList, NoMemory, TableRows};

/// Takes the counts of an end record, from its second field on. Notes `WrongCount` if a count is not
/// the number of rows that were read.
pub fn check(fields: &mut Fields, rows: &TableRows)
    ensures columns { AreCountable rows.now.histories.items
        → fields_view fields.new ≡ take_columns (count_columns rows.now) (fields_view fields.old) }
    ensures taken { Takes fields.old fields.new (AreSpelt (row_counts rows.now)) }
{
    fields.expect_count(rows.items.len() as u64);
    fields.expect_count(rows.warehouses.len() as u64);
    fields.expect_count(rows.districts.len() as u64);
    fields.expect_count(rows.stocks.len() as u64);
    fields.expect_count(rows.customers.len() as u64);
    check_payments(fields, &rows.histories);
    fields.expect_count(rows.orders.len() as u64);
    fields.expect_count(rows.new_orders.len() as u64);
    fields.expect_count(rows.lines.len() as u64);
}

// Takes the count of HISTORY. If there are more payments than fit in a `u64`, no field can have their
// number.
fn check_payments(fields: &mut Fields, lists: &[HistoryList])
    ensures columns { AreCountable lists.now → fields_view fields.new
        ≡ take_columns (Count (payment_count lists.now) ∷ []) (fields_view fields.old) }
    ensures taken { Takes fields.old fields.new (AreSpelt (Number (payment_count lists.now) ∷ [])) }
{
    match u64::try_from(histories::count(lists)) {
        Ok(count) => fields.expect_count(count),
        Err(_) => fields.note(FaultKind::WrongCount),
    }
}

/// Appends the fields of the end record.
pub fn put(out: &mut NewRecord, rows: &TableRows) -> Result<(), NoMemory>
    ensures { OnOk result (Adds (count_fields rows.now) out.old out.new) }
{
    out.push("END")?;
    out.push_number(rows.items.len() as u64)?;
    out.push_number(rows.warehouses.len() as u64)?;
    out.push_number(rows.districts.len() as u64)?;
    out.push_number(rows.stocks.len() as u64)?;
    out.push_number(rows.customers.len() as u64)?;
    out.push_display(&histories::count(&rows.histories))?;
    out.push_number(rows.orders.len() as u64)?;
    out.push_number(rows.new_orders.len() as u64)?;
    out.push_number(rows.lines.len() as u64)
}
