ghost use Rattle.std.specs.Prelude.{◌≡◌, ◌≢◌, ◌<◌, ◌-◌, ◌^◌, ℕ, List, [], ◌∷◌, length, None, IfOk, IfErr, IfSome, IfNone, OnErr, OnOk, MatchResult};
ghost use Rattle.files.specs.FieldRead.{FieldsView, fields_view};
ghost use Rattle.files.specs.FirstFault.{ReportsFault, ReportsFirst};
ghost use Rattle.files.specs.Failure.{IsOfText, IsOfWriting, LastsThrough};
ghost use Rattle.files.specs.Place.{input, HasLeft, HasRead, record_fields, record_number, Gives, ForRecords, Rows};
ghost use Rattle.files.specs.Taken.{fault_of, Takes};
ghost use Rattle.files.specs.Sending.{BeginsToWrite, Writes};
ghost use Rattle.files.specs.Written.{AddsFields};
ghost use Rattle.terminals.specs.FirstFault.{IsReadAs, ReachesEnd, listing_fault};
ghost use Rattle.terminals.specs.Listing.{BeginsListing, IsListing, end_fields};

use files::{FaultKind, Fields, FileError, Input, NewRecord, RecordWriter, Records};
use schema::NoMemory;
use std::alloc::Global;
use std::io::Write;

/// An item that is read from a record, in a file that ends with its number of records.
pub trait Listed: Drop {
    // These are the fields of the record of the item at this place, from 0.
    ghost is_record: { ℕ → Self → List (List ℕ) → Type 0 };

    // What has been read of the record at this place once its fields are taken. The second argument is its first field.
    ghost after: { ℕ → List ℕ → FieldsView → FieldsView };

    /// Takes the fields after the first one, of the record at this place, from 0. Returns `None` if the first fields do not
    /// determine the others; then a fault is recorded.
    fn take(
        alloc: Global,
        place: u64,
        first: &str,
        fields: &mut Fields,
    ) -> Result<Option<Self>, NoMemory>
        ensures taken { IfOk result (λ taken. IfSome taken (λ item.
            Takes fields.old fields.new (λ said. is_record place item (first.now ∷ said)))) }
        ensures unknown { IfOk result (λ taken. IfNone taken (fault_of fields.new ≢ None)) }
        ensures columns { OnOk result
            (fields_view fields.new ≡ after place first.now (fields_view fields.old)) };
}

/// Reads the items of `source`, one from each record before the end record.
///
/// A fault is returned with its record: that of the first faulty record, and of its faults the least. Nothing else is returned
/// then. NoMemory and Failed are as for `Records`. Memory is allocated item by item.
pub fn read<T: Listed, R: Input + Drop>(alloc: Global, source: R) -> Result<Vec<T>, FileError>
    ensures listed { IfOk result (λ listed.
        Gives (R.remaining source) (IsListing T.is_record listed.items)) }
    ensures first { ForRecords (R.remaining source) (λ rows. length rows < 2 ^ 64 - 1
        → ReportsFirst result (listing_fault T.after 0 rows)) }
    ensures lasts { R.lasts source → IfErr result IsOfText }
{
    let mut records = Records::new(alloc, source);
    let items = read_items(alloc, &mut records)?;
    records.expect_end()?;
    Ok(items)
}

// Reads the items up to the end record, which is the current one then.
fn read_items<T: Listed, R: Input + Drop>(
    alloc: Global,
    records: &mut Records<R>,
) -> Result<Vec<T>, FileError>
    ensures listed { IfOk result (λ listed. (text : List ℕ)
        → HasRead R.remaining text [] records.old → (rows : Rows)
        × HasRead R.remaining text rows records.new × IsListing T.is_record listed.items rows) }
    ensures first { (rows : Rows) → length rows < 2 ^ 64 - 1 → record_number records.old ≡ 0
        → HasLeft R.remaining rows records.old
        → MatchResult result (λ _. ReachesEnd R.remaining T.after rows records.new)
        (λ error. ReportsFault error (listing_fault T.after 0 rows)) }
    ensures lasts { LastsThrough R.lasts (input records.old) (input records.new) result IsOfText }
{
    let mut items = Vec::new(alloc);
    for _ in 0..u64::MAX {
        if !records.advance()? {
            break;
        }
        match parse(alloc, records, items.len() as u64)? {
            Some(item) => {
                if items.push(item).is_err() {
                    return Err(FileError::NoMemory);
                }
            }
            None => return Ok(items),
        }
    }
    Err(records.fault(FaultKind::NoEnd))
}

// The item of the current record. Returns `None` for the end record after `count` items.
fn parse<T: Listed, R: Input + Drop>(
    alloc: Global,
    records: &Records<R>,
    count: u64,
) -> Result<Option<T>, FileError>
    ensures item { IfOk result (λ said.
        IfSome said (λ item. T.is_record count item (record_fields records.now))) }
    ensures end { IfOk result (λ said. IfNone said (record_fields records.now ≡ end_fields count)) }
    ensures exact { IsReadAs T.after count
        (record_fields records.now) (record_number records.now) result }
    ensures of_text { IfErr result IsOfText }
{
    let mut fields = records.fields();
    let item = match fields.word() {
        "END" => {
            fields.expect_count(count);
            None
        }
        first => T::take(alloc, count, first, &mut fields)?,
    };
    match fields.finish() {
        Some(kind) => Err(records.fault(kind)),
        None => Ok(item),
    }
}

/// An item that is written as a record, in a file that ends with its number of records.
pub trait WrittenRecord {
    // These are the fields of the record of the item at this place, from 0.
    ghost is_record: { ℕ → Self → List (List ℕ) → Type 0 };

    /// Adds the fields of the record at this place, from 0.
    fn put(&self, place: u64, row: &mut NewRecord) -> Result<(), NoMemory>
        ensures { OnOk result (AddsFields row.old row.new (is_record place self.now)) };
}

/// Writes the record of each item, and then the end record, to the sink. Errors are as for `RecordWriter`. After an error the
/// sink has got a beginning of the text.
pub fn write<T: WrittenRecord, W: Write>(
    alloc: Global,
    sink: &mut W,
    items: &[T],
) -> Result<(), FileError>
    ensures written { OnOk result (Writes (W.contents sink.old) (W.contents sink.new)
        (IsListing T.is_record items.now)) }
    ensures begun { OnErr result (BeginsToWrite (W.contents sink.old) (W.contents sink.new)
        (BeginsListing T.is_record items.now)) }
    ensures failed { IfErr result IsOfWriting }
{
    let mut writer = RecordWriter::new(alloc);
    let mut row = NewRecord::new(alloc);
    for (place, item) in items.iter().enumerate() {
        row.clear();
        item.put(place as u64, &mut row)?;
        writer.write(sink, &row)?;
    }
    row.clear();
    row.push("END")?;
    row.push_number(items.len() as u64)?;
    writer.write(sink, &row)?;
    writer.finish(sink)
}
