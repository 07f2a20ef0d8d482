ghost use Rattle.std.specs.Prelude.{◌≤◌, List, length, IfErr, OnErr, OnOk};
ghost use Rattle.std.specs.Iterator.{IsFinite};
ghost use Rattle.std.specs.List.{zip};
ghost use Rattle.files.specs.Failure.{IsOfWriting};
ghost use Rattle.files.specs.Sending.{BeginsToWrite, Writes};
ghost use Rattle.dataset.specs.Entries.{GivesEntries};
ghost use Rattle.dataset.specs.declared.format.Format.TheVariants.{Two};
ghost use Rattle.dataset.specs.Records.{AreFirstRecords2, AreRecords2, records, row_records};
ghost use Rattle.dataset.specs.Writing.{Puts, StopsIn};

use crate::recorded::{Dense, Recorded, write_row};
use crate::{end, header, histories, orders};
use files::{FileError, NewRecord, RecordWriter};
use schema::{Entries, Scale, Tables};
use std::alloc::Global;
use std::io::Write;

/// Writes the dataset of the tables, in format 2, to the sink.
///
/// Returns `NoMemory` if an allocation for a record fails. Returns `Failed`, with the number of the
/// current record, if the sink fails; since records are gathered before they are sent, the record that
/// was not taken may be an earlier one. After an error, the sink has received a prefix of the text.
pub fn write<W: Write>(alloc: Global, sink: &mut W, tables: &Tables) -> Result<(), FileError>
    ensures written { OnOk result
        (Writes (W.contents sink.old) (W.contents sink.new) (AreRecords2 tables.now)) }
    ensures begun { OnErr result
        (BeginsToWrite (W.contents sink.old) (W.contents sink.new) (AreFirstRecords2 tables.now)) }
    ensures failed { IfErr result IsOfWriting }
{
    let mut writer = RecordWriter::new(alloc);
    put_tables(alloc, &mut writer, sink, tables)?;
    writer.finish(sink)
}

// Writes the records of the tables.
fn put_tables<W: Write>(
    alloc: Global,
    writer: &mut RecordWriter,
    sink: &mut W,
    tables: &Tables,
) -> Result<(), FileError>
    ensures written { OnOk result
        (Puts (W.contents sink.old) (W.contents sink.new) writer.old.text writer.new.text
        (records Two tables.now)) }
    ensures begun { OnErr result
        (StopsIn (W.contents sink.old) (W.contents sink.new) writer.old.text
        (records Two tables.now)) }
    ensures failed { IfErr result IsOfWriting }
{
    let scale = tables.scale();
    let rows = tables.rows();
    let mut out = NewRecord::new(alloc);
    header::put(&mut out, scale)?;
    writer.write(sink, &out)?;
    write_dense(writer, sink, &mut out, scale, &rows.items)?;
    write_dense(writer, sink, &mut out, scale, &rows.warehouses)?;
    write_dense(writer, sink, &mut out, scale, &rows.districts)?;
    write_dense(writer, sink, &mut out, scale, &rows.stocks)?;
    write_dense(writer, sink, &mut out, scale, &rows.customers)?;
    histories::write(writer, sink, &mut out, scale, &rows.histories)?;
    let orders = Entries::of_map(rows.orders.range(..));
    orders::write(writer, sink, &mut out, orders, &rows.lines)?;
    // Called for its postcondition: the lines are in key order.
    let _ = rows.lines.len();
    let new_orders = Entries::of_map(rows.new_orders.range(..));
    write_ordered(writer, sink, &mut out, new_orders)?;
    out.clear();
    end::put(&mut out, rows)?;
    writer.write(sink, &out)
}

// Writes the rows of a table whose rows are in the order of the scale's keys.
fn write_dense<W: Write, K, T: Dense<K>>(
    writer: &mut RecordWriter,
    sink: &mut W,
    out: &mut NewRecord,
    scale: Scale,
    rows: &[T],
) -> Result<(), FileError>
    requires count { length rows.now ≤ length (T.keys scale) }
    ensures written { OnOk result
        (Puts (W.contents sink.old) (W.contents sink.new) writer.old.text writer.new.text
        (row_records T.fields (zip (T.keys scale) rows.now))) }
    ensures begun { OnErr result
        (StopsIn (W.contents sink.old) (W.contents sink.new) writer.old.text
        (row_records T.fields (zip (T.keys scale) rows.now))) }
    ensures failed { IfErr result IsOfWriting }
{
    for (place, row) in rows.iter().enumerate() {
        write_row(writer, sink, out, T::key_at(scale, place), row)?;
    }
    Ok(())
}

// Writes the rows of a table in the order of the iterator, with their keys.
fn write_ordered<
    'a,
    W: Write,
    K: Copy + Drop,
    T: Recorded<K> + 'a,
    I: Iterator<Item = (K, &'a T)> + Drop,
>(writer: &mut RecordWriter, sink: &mut W, out: &mut NewRecord, rows: I) -> Result<(), FileError>
    requires can { I.can_next rows }
    requires ends { IsFinite (I.remaining rows) }
    ensures written { (left : I → List (K × T)) → GivesEntries I.next_gives left → OnOk result
        (Puts (W.contents sink.old) (W.contents sink.new) writer.old.text writer.new.text
        (row_records T.fields (left rows))) }
    ensures begun { (left : I → List (K × T)) → GivesEntries I.next_gives left → OnErr result
        (StopsIn (W.contents sink.old) (W.contents sink.new) writer.old.text
        (row_records T.fields (left rows))) }
    ensures failed { IfErr result IsOfWriting }
{
    for (key, row) in rows {
        write_row(writer, sink, out, key, row)?;
    }
    Ok(())
}
