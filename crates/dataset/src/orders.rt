ghost use Rattle.std.specs.Prelude.{[], ◌∷◌, IfErr, OnErr, OnOk};
ghost use Rattle.files.specs.Failure.{IsOfWriting};
ghost use Rattle.dataset.specs.Records.{carrier_field, order_key_fields, order_record};
ghost use Rattle.dataset.specs.Columns.{Orders, order_key};
ghost use Rattle.dataset.specs.TableRow.{order_key_of};
ghost use Rattle.dataset.specs.TakenAs.{TakesRow};
ghost use Rattle.files.specs.Columns.{Reads};
ghost use Rattle.dataset.specs.Writing.{Adds, Puts, StopsIn, records_with};

use crate::lines;
use crate::loader::Loader;
use crate::moments::put_moment;
use crate::place::Place;
use files::{Fields, FileError, NewRecord, RecordWriter};
use rows::{CarrierId, LineCount, Order, OrderKey};
use schema::{Lines, NoMemory, OrderLines, Orders, Scale};
use std::io::Write;

/// Takes the fields of a record of ORDER after its letter, with the lines of the order in format 2. If
/// the record has no fault, adds its row and those of its lines. O_CARRIER_ID is null if the field is
/// empty, and O_ALL_LOCAL is 1 or 0. Returns `NoMemory` if an allocation fails.
pub fn take(loader: &mut Loader, fields: &mut Fields) -> Result<(), NoMemory>
    ensures { OnOk result (TakesRow Orders loader.old loader.new fields.old fields.new) }
{
    let key = key(fields, loader.scale);
    let row = Order {
        c_id: fields.whole(1, loader.scale.customers),
        entry_d: fields.moment(),
        carrier_id: fields.optional_ranged(),
        ol_cnt: LineCount::new(fields.whole(1, loader.format.most_lines())),
        all_local: fields.whole(0, 1) == 1,
    };
    let lines_ascend = lines::take_all(loader, fields, key)?;
    if loader.stand_in_order(Place::Order(key), lines_ascend, fields) {
        loader.rows.orders.insert(key, row)?;
    }
    Ok(())
}

/// Takes the three fields of an order's key. O_ID is 1 to 9,999,999.
pub fn key(fields: &mut Fields, scale: Scale) -> OrderKey
    ensures { Reads (order_key scale.warehouses) (order_key_of scale.warehouses)
        result fields.old fields.new }
{
    OrderKey {
        w_id: fields.whole(1, scale.warehouses),
        d_id: fields.whole(1, 10),
        o_id: fields.whole(1, 9_999_999),
    }
}

/// Appends the three fields of an order's key.
pub fn put_key(out: &mut NewRecord, key: OrderKey) -> Result<(), NoMemory>
    ensures { OnOk result (Adds (order_key_fields key) out.old out.new) }
{
    out.push_number(u64::from(key.w_id))?;
    out.push_number(u64::from(key.d_id))?;
    out.push_number(u64::from(key.o_id))
}

/// Writes the records of all orders, by ascending keys, each with its lines.
pub fn write<W: Write>(
    writer: &mut RecordWriter,
    sink: &mut W,
    out: &mut NewRecord,
    orders: Orders<'_>,
    lines: &OrderLines,
) -> Result<(), FileError>
    ensures written { OnOk result
        (Puts (W.contents sink.old) (W.contents sink.new) writer.old.text writer.new.text
        (records_with lines.now orders.entry)) }
    ensures begun { OnErr result
        (StopsIn (W.contents sink.old) (W.contents sink.new) writer.old.text
        (records_with lines.now orders.entry)) }
    ensures failed { IfErr result IsOfWriting }
{
    for (key, row) in orders {
        write_order(writer, sink, out, key, row, lines.of_order(key))?;
    }
    Ok(())
}

// Writes the record of an order.
fn write_order<W: Write>(
    writer: &mut RecordWriter,
    sink: &mut W,
    out: &mut NewRecord,
    key: OrderKey,
    row: &Order,
    lines: Lines<'_>,
) -> Result<(), FileError>
    ensures written { OnOk result
        (Puts (W.contents sink.old) (W.contents sink.new) writer.old.text writer.new.text
        (order_record key row.now lines.entry ∷ [])) }
    ensures begun { OnErr result
        (StopsIn (W.contents sink.old) (W.contents sink.new) writer.old.text
        (order_record key row.now lines.entry ∷ [])) }
    ensures failed { IfErr result IsOfWriting }
{
    out.clear();
    put(out, key, row, lines)?;
    writer.write(sink, out)
}

// Appends the fields of an order's record.
fn put(out: &mut NewRecord, key: OrderKey, row: &Order, lines: Lines<'_>) -> Result<(), NoMemory>
    ensures { OnOk result (Adds (order_record key row.now lines.entry) out.old out.new) }
{
    out.push("O")?;
    put_key(out, key)?;
    out.push_number(u64::from(row.c_id))?;
    put_moment(out, row.entry_d)?;
    put_carrier(out, row.carrier_id)?;
    out.push_number(u64::from(row.ol_cnt.get()))?;
    out.push_number(u64::from(row.all_local))?;
    lines::put_all(out, lines)
}

// Appends O_CARRIER_ID; the field is empty if it is null.
fn put_carrier(out: &mut NewRecord, carrier: Option<CarrierId>) -> Result<(), NoMemory>
    ensures { OnOk result (Adds (carrier_field carrier ∷ []) out.old out.new) }
{
    match carrier {
        Some(carrier) => out.push_number(u64::from(carrier.get())),
        None => out.push(""),
    }
}
