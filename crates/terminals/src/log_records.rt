ghost use Rattle.std.specs.Prelude.{◌≡◌, ◌≢◌, ◌<◌, ◌-◌, ◌^◌, length, None, IfOk, IfErr, IfSome, IfNone, OnErr, OnOk};
ghost use Rattle.std.specs.Fmt.{decimal};
ghost use Rattle.csv.specs.Records.{fields_of};
ghost use Rattle.files.specs.Columns.{found};
ghost use Rattle.files.specs.FieldRead.{fields_view, whole_read};
ghost use Rattle.files.specs.Failure.{IsOfText, IsOfWriting};
ghost use Rattle.files.specs.Taken.{fields_left, fault_of, TakesWell, Takes};
ghost use Rattle.files.specs.Sending.{BeginsToWrite, Writes};
ghost use Rattle.files.specs.Written.{AddsFields};
ghost use Rattle.files.specs.Place.{Gives, ForRecords};
ghost use Rattle.files.specs.FirstFault.{ReportsFirst};
ghost use Rattle.terminals.specs.FirstFault.{after_entry, log_fault, other_place, pass_over, IsCounted, IsAsked};
ghost use Rattle.terminals.specs.LogRecord.{BeginsLog, IsLog, IsLogRecord};
ghost use Rattle.terminals.specs.RequestFields.{IsRequest};

use crate::listing::{Listed, WrittenRecord};
use crate::{listing, reply, request};
use commit_log::Entry;
use csv::ByteRecord;
use files::{FaultKind, Fields, FileError, Input, NewRecord, parse_whole};
use requests::Request;
use schema::NoMemory;
use std::alloc::Global;
use std::io::Write;

/// Reads the log of `source`, in the format of `write_log`.
///
/// A fault is returned with its record: that of the first faulty record, and of its faults the least. Nothing else is returned
/// then. The place of each record must be its index, from 0; otherwise the fault is `OutOfOrder`. The number of request fields
/// must be that of the request's kind; otherwise it is `WrongShape`. Not checked: whether a session is one of 64, whether the
/// numbers fit a scale, and whether a reply is of its request's kind.
///
/// Returns NoMemory if there is no memory for a record or for the entries. Returns Failed if a read of `source` fails, and only
/// then, with the number of the current record. Neither error says anything about the text, and nothing else is returned with
/// it. After an error it is unspecified how far `source` was read. Memory is allocated entry by entry.
pub fn read_log<R: Input + Drop>(alloc: Global, source: R) -> Result<Vec<Entry>, FileError>
    ensures log { IfOk result (λ entries. Gives (R.remaining source) (IsLog entries.items)) }
    ensures first { ForRecords (R.remaining source) (λ rows. length rows < 2 ^ 64 - 1
        → ReportsFirst result (log_fault rows)) }
    ensures lasts { R.lasts source → IfErr result IsOfText }
{
    listing::read(alloc, source)
}

impl Listed for Entry {
    ghost is_record = { IsLogRecord };

    ghost after = { after_entry };

    fn take(
        alloc: Global,
        place: u64,
        first: &str,
        fields: &mut Fields,
    ) -> Result<Option<Entry>, NoMemory> {
        expect_place(place, first, fields);
        let session = fields.whole(0, u32::MAX);
        let number = fields.whole(0, u32::MAX);
        let Some(count) = take_count(fields) else {
            pass_over_rest(fields);
            return Ok(None);
        };
        let Some(request) = take_request(alloc, count, fields)? else {
            return Ok(None);
        };
        let letter = fields.word();
        match reply::take(alloc, letter, fields)? {
            Some(reply) => Ok(Some(Entry {
                session,
                number,
                request,
                reply,
            })),
            None => Ok(None),
        }
    }
}

// Records a fault if the field is not this place: `OutOfOrder` if it is another number.
fn expect_place(place: u64, field: &str, fields: &mut Fields)
    ensures place { fault_of fields.new ≡ None
        → (fault_of fields.old ≡ None) × (field.now ≡ decimal place) }
    ensures left { fields_left fields.new ≡ fields_left fields.old }
    ensures fault { fields_view fields.new
        ≡ found (other_place place (whole_read 0 4294967295 field.now)) (fields_view fields.old) }
{
    match parse_whole(field, 0, u64::from(u32::MAX)) {
        Ok(number) => {
            if number != place {
                fields.note(FaultKind::OutOfOrder);
            }
        }
        Err(kind) => fields.note(kind),
    }
}

// Takes the number of the request's fields. Returns `None` if it is no number, with the fault `NotOfKind`, or greater than any
// record's, with the fault `WrongShape`.
fn take_count(fields: &mut Fields) -> Option<u64>
    ensures taken { IfSome result (λ count. TakesWell fields.old fields.new (decimal count)) }
    ensures unknown { IfNone result (fault_of fields.new ≢ None) }
    ensures counted { IsCounted result (fields_view fields.old) (fields_view fields.new) }
{
    match parse_whole(fields.word(), 0, u64::MAX) {
        Ok(count) => Some(count),
        Err(FaultKind::OutOfRange) => {
            fields.note(FaultKind::WrongShape);
            None
        }
        Err(kind) => {
            fields.note(kind);
            None
        }
    }
}

// Skips the fields after a faulty count: it is unknown which of them are the request's.
fn pass_over_rest(fields: &mut Fields)
    ensures stays { fault_of fields.old ≢ None → fault_of fields.new ≢ None }
    ensures columns { fields_view fields.new ≡ pass_over (fields_view fields.old) }
{
    for _ in 0..fields.left() {
        fields.word();
    }
}

// Takes the fields of a request, including its letter. If their number is not `count`, the fault is `WrongShape`. Returns
// `None` if the letter is unknown, with the same fault.
fn take_request(alloc: Global, count: u64, fields: &mut Fields) -> Result<Option<Request>, NoMemory>
    ensures taken { IfOk result (λ taken. IfSome taken (λ request. Takes fields.old fields.new
        (λ asked. IsRequest request asked × (length asked ≡ count)))) }
    ensures unknown { IfOk result (λ taken. IfNone taken (fault_of fields.new ≢ None)) }
    ensures asked { IfOk result (λ taken.
        IsAsked taken count (fields_view fields.old) (fields_view fields.new)) }
{
    let letter = fields.word();
    let Some(request) = request::take(alloc, count, letter, fields)? else {
        return Ok(None);
    };
    if request::field_count(&request) != count {
        fields.note(FaultKind::WrongShape);
    }
    Ok(Some(request))
}

/// The record of the log's entry at this place.
pub fn log_record(alloc: Global, place: u32, entry: &Entry) -> Result<ByteRecord, NoMemory>
    ensures { IfOk result (λ row. IsLogRecord place entry.now (fields_of row)) }
{
    let mut row = NewRecord::new(alloc);
    put_entry(&mut row, u64::from(place), entry)?;
    Ok(row.into_byte_record())
}

/// Writes a log to the sink: the record of each entry, whose place is its index, and then the end record.
///
/// Returns NoMemory if there is no memory for a record. Returns Failed if the sink fails, with the number of the current
/// record; because records are buffered, what was not written may be of an earlier record. After an error the sink has got a
/// beginning of the text.
pub fn write_log<W: Write>(alloc: Global, sink: &mut W, entries: &[Entry]) -> Result<(), FileError>
    ensures written { OnOk result (Writes (W.contents sink.old) (W.contents sink.new)
        (IsLog entries.now)) }
    ensures begun { OnErr result (BeginsToWrite (W.contents sink.old) (W.contents sink.new)
        (BeginsLog entries.now)) }
    ensures failed { IfErr result IsOfWriting }
{
    listing::write(alloc, sink, entries)
}

impl WrittenRecord for Entry {
    ghost is_record = { IsLogRecord };

    fn put(&self, place: u64, row: &mut NewRecord) -> Result<(), NoMemory> {
        put_entry(row, place, self)
    }
}

// Adds the fields of an entry.
fn put_entry(row: &mut NewRecord, place: u64, entry: &Entry) -> Result<(), NoMemory>
    ensures { OnOk result (AddsFields row.old row.new (IsLogRecord place entry.now)) }
{
    row.push_number(place)?;
    row.push_number(u64::from(entry.session))?;
    row.push_number(u64::from(entry.number))?;
    row.push_number(request::field_count(&entry.request))?;
    request::put(row, &entry.request)?;
    reply::put(row, &entry.reply)
}
