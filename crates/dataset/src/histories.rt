ghost use Rattle.std.specs.Prelude.{◌≡◌, ◌<◌, ◌≤◌, ◌^◌, length, map, Some, IfErr, OnErr, OnOk};
ghost use Rattle.std.specs.List.{zip};
ghost use Rattle.schema.specs.Scale.{district_keys};
ghost use Rattle.files.specs.Failure.{IsOfWriting};
ghost use Rattle.dataset.specs.Payments.{Opens, Pays, payment_count};
ghost use Rattle.dataset.specs.Records.{history_fields, payment_records};
ghost use Rattle.dataset.specs.TakenAs.{TakesRow};
ghost use Rattle.dataset.specs.Writing.{Puts, StopsIn};
ghost use Rattle.dataset.specs.Columns.{Histories};

use crate::loader::Loader;
use crate::moments::put_moment;
use crate::place::Place;
use crate::recorded::{Dense, Recorded, write_row};
use crate::{customers, districts};
use files::{Fields, FileError, NewRecord, RecordWriter};
use rows::{District, DistrictKey, History};
use schema::{HistoryList, NoMemory, Scale};
use std::alloc::Global;
use std::io::Write;

/// Takes the fields of a record of HISTORY after its letter. If the record has no fault, appends its
/// row to its district's list. Returns `NoMemory` if an allocation fails.
pub fn take(loader: &mut Loader, fields: &mut Fields) -> Result<(), NoMemory>
    ensures { OnOk result (TakesRow Histories loader.old loader.new fields.old fields.new) }
{
    let home = districts::key(fields, loader.scale);
    let row = History {
        customer: customers::key(fields, loader.scale),
        date: fields.moment(),
        amount: fields.cents(),
        data: fields.text(),
    };
    if !loader.stand_at(Place::History(home), fields) {
        return Ok(());
    }
    match loader.scale.district_slot(home) {
        Some(place) => push(loader.alloc, &mut loader.rows.histories, place, row),
        None => Ok(()),
    }
}

// Appends the row to the list at this index. Adds empty lists up to it if they are missing.
fn push(
    alloc: Global,
    lists: &mut Vec<HistoryList>,
    place: usize,
    row: History,
) -> Result<(), NoMemory>
    requires { place < 2 ^ 32 }
    ensures { OnOk result (Pays (Some place) row lists.old.items lists.new.items) }
{
    open(alloc, lists, place + 1)?;
    lists[place].push(row)
}

/// Adds empty lists until there are at least `count` lists. Returns `NoMemory` if an allocation fails.
pub fn open(alloc: Global, lists: &mut Vec<HistoryList>, count: usize) -> Result<(), NoMemory>
    ensures { OnOk result (Opens count lists.old.items lists.new.items) }
{
    while lists.len() < count {
        lists.push(HistoryList::new(alloc))?;
    }
    Ok(())
}

impl Recorded<DistrictKey> for History {
    ghost fields = { history_fields };

    fn put(&self, home: DistrictKey, out: &mut NewRecord) -> Result<(), NoMemory> {
        out.push("H")?;
        districts::put_key(out, home)?;
        customers::put_key(out, self.customer)?;
        put_moment(out, self.date)?;
        out.push_signed(self.amount.get())?;
        out.push(self.data.as_str())
    }
}

/// Writes the payments of all districts, those of each district in the order of its list.
pub fn write<W: Write>(
    writer: &mut RecordWriter,
    sink: &mut W,
    out: &mut NewRecord,
    scale: Scale,
    lists: &[HistoryList],
) -> Result<(), FileError>
    requires count { length lists.now ≤ length (district_keys scale) }
    ensures written { OnOk result
        (Puts (W.contents sink.old) (W.contents sink.new) writer.old.text writer.new.text
        (payment_records (zip (district_keys scale) lists.now))) }
    ensures begun { OnErr result
        (StopsIn (W.contents sink.old) (W.contents sink.new) writer.old.text
        (payment_records (zip (district_keys scale) lists.now))) }
    ensures failed { IfErr result IsOfWriting }
{
    for (place, list) in lists.iter().enumerate() {
        write_list(
            writer,
            sink,
            out,
            District::key_at(scale, place),
            list.rows(),
        )?;
    }
    Ok(())
}

// Writes the payments of a district.
fn write_list<W: Write>(
    writer: &mut RecordWriter,
    sink: &mut W,
    out: &mut NewRecord,
    home: DistrictKey,
    payments: &[History],
) -> Result<(), FileError>
    ensures written { OnOk result
        (Puts (W.contents sink.old) (W.contents sink.new) writer.old.text writer.new.text
        (map (history_fields home) payments.now)) }
    ensures begun { OnErr result
        (StopsIn (W.contents sink.old) (W.contents sink.new) writer.old.text
        (map (history_fields home) payments.now)) }
    ensures failed { IfErr result IsOfWriting }
{
    for payment in payments {
        write_row(writer, sink, out, home, payment)?;
    }
    Ok(())
}

/// The number of payments. The type is wide enough for any lists.
pub fn count(lists: &[HistoryList]) -> u128
    ensures { result ≡ payment_count lists.now }
{
    let mut count = 0;
    for list in lists {
        count += list.rows().len() as u128;
    }
    count
}
