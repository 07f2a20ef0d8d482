ghost use Rattle.std.specs.Prelude.{[], ◌∷◌, IfOk, OnOk};
ghost use Rattle.files.specs.Columns.{Reads};
ghost use Rattle.dataset.specs.Records.{Number, delivery_field, line_columns, lines_fields};
ghost use Rattle.dataset.specs.Columns.{Lines as LinesTable, line_row_columns};
ghost use Rattle.dataset.specs.TableRow.{line_row_of};
ghost use Rattle.dataset.specs.TakenAs.{TakesLines, TakesRow};
ghost use Rattle.dataset.specs.Writing.{Adds};

use crate::loader::Loader;
use crate::moments::put_moment;
use crate::place::Place;
use files::{Fields, NewRecord};
use rows::{Moment, OrderKey, OrderLine, OrderLineKey};
use schema::{Lines, NoMemory, Scale};

/// Takes the fields of a record of ORDER-LINE after its letter, which is of format 1. If the record has
/// no fault, adds its row. Returns `NoMemory` if an allocation fails.
pub fn take(loader: &mut Loader, fields: &mut Fields) -> Result<(), NoMemory>
    ensures { OnOk result (TakesRow LinesTable loader.old loader.new fields.old fields.new) }
{
    let key = OrderLineKey {
        w_id: fields.whole(1, loader.scale.warehouses),
        d_id: fields.whole(1, 10),
        o_id: fields.whole(1, 9_999_999),
        number: fields.whole(1, loader.format.most_lines()),
    };
    let row = take_row(fields, loader.scale);
    if loader.stand_at(Place::Line(key), fields) {
        loader.rows.lines.insert(key, row)?;
    }
    Ok(())
}

/// Takes the lines that are left in the record of an order, as many as the fields that are left make,
/// and adds them, whether or not the record has a fault. Returns whether their numbers ascend. Returns
/// `NoMemory` if an allocation fails.
pub fn take_all(loader: &mut Loader, fields: &mut Fields, order: OrderKey) -> Result<bool, NoMemory>
    ensures { IfOk result (λ ascending.
        TakesLines order ascending loader.old loader.new fields.old fields.new) }
{
    let mut last = 0;
    let mut ascend = true;
    for _ in 0..loader.format.line_count(fields.left()) {
        let number = fields.whole(1, loader.format.most_lines());
        let row = take_row(fields, loader.scale);
        let key = OrderLineKey {
            w_id: order.w_id,
            d_id: order.d_id,
            o_id: order.o_id,
            number,
        };
        loader.rows.lines.insert(key, row)?;
        ascend = ascend && last < number;
        last = number;
    }
    Ok(ascend)
}

// Takes the columns of ORDER-LINE after its key. OL_DELIVERY_D is null if the field is empty.
#[inline(always)]
fn take_row(fields: &mut Fields, scale: Scale) -> OrderLine
    ensures { Reads (line_row_columns scale.items scale.warehouses)
        (line_row_of scale.items scale.warehouses) result fields.old fields.new }
{
    OrderLine {
        i_id: fields.whole(1, scale.items),
        supply_w_id: fields.whole(1, scale.warehouses),
        delivery_d: fields.optional_moment(),
        quantity: fields.ranged(),
        amount: fields.ranged(),
        dist_info: fields.text(),
    }
}

/// Appends the lines of an order to its record.
pub fn put_all(out: &mut NewRecord, lines: Lines<'_>) -> Result<(), NoMemory>
    ensures { OnOk result (Adds (lines_fields lines.entry) out.old out.new) }
{
    for (key, row) in lines {
        put_line(out, key.number, row)?;
    }
    Ok(())
}

// Appends OL_NUMBER and the columns of ORDER-LINE.
fn put_line(out: &mut NewRecord, number: u32, row: &OrderLine) -> Result<(), NoMemory>
    ensures { OnOk result (Adds (Number number ∷ line_columns row.now) out.old out.new) }
{
    out.push_number(u64::from(number))?;
    out.push_number(u64::from(row.i_id))?;
    out.push_number(u64::from(row.supply_w_id))?;
    put_delivery(out, row.delivery_d)?;
    out.push_number(u64::from(row.quantity.get()))?;
    out.push_number(u64::from(row.amount.get()))?;
    out.push(row.dist_info.as_str())
}

// Appends OL_DELIVERY_D; the field is empty if it is null.
fn put_delivery(out: &mut NewRecord, delivery: Option<Moment>) -> Result<(), NoMemory>
    ensures { OnOk result (Adds (delivery_field delivery ∷ []) out.old out.new) }
{
    match delivery {
        Some(moment) => put_moment(out, moment),
        None => out.push(""),
    }
}
