ghost use Rattle.std.specs.Prelude.{◌≡◌, ◌+◌, ◌-◌, ◌^◌, ◌<◌, ℕ, List, [], length, None, IfOk, IfErr, MatchResult, OnOk};
ghost use Rattle.std.specs.Option.{ForSome};
ghost use Rattle.files.specs.Failure.{IsOfText, LastsThrough};
ghost use Rattle.files.specs.Place.{Rows, input, IsCsv, ForRecords, Gives, HasRead, HasLeft, record_fields, record_number};
ghost use Rattle.dataset.specs.Columns.{sizes};
ghost use Rattle.dataset.specs.FirstFault.{HasNoTables, IsFault, Reports, first_fault, header_first, rows_fault};
ghost use Rattle.dataset.specs.TakenAs.{BeginsDataset, IsDone, IsReadAs, ReachesEnd, ReportsEnd};
ghost use Rattle.files.specs.FirstFault.{ReportsFault};
ghost use Rattle.dataset.specs.Loading.{HasLoaded, HasEnded, HasReadHeader};
ghost use Rattle.dataset.specs.Payments.{AreCountable};
ghost use Rattle.dataset.specs.Records.{AreRecordsIn, AreRecordsOfEither};
ghost use Rattle.dataset.specs.FirstRecord.{BeginsWithHeader, HasNoHeader};

use crate::header::{self, Header};
use crate::loader::{Loader, Taken};
use files::{FaultKind, FileError, FileFault, Input, Records};
use schema::{Scale, Tables};
use std::alloc::Global;

/// Reads the tables of the dataset in `source`, which is of either format.
///
/// Returns a fault, with the number of its record, only if no tables have the records of the text. It
/// is the first fault of the text: that of the first faulty record, and of its faults the least. The
/// rules of the scale are checked after the whole file is read, and a broken one is reported at the end
/// record. This holds for a text of fewer than 2^64 - 1 records.
///
/// Returns `NoMemory` if an allocation for a record or for the rows fails. Returns `Failed`, with the
/// number of the current record, if a read of `source` fails, and only then. Neither implies anything
/// about the text. After any error, no tables are returned, and it is not specified how far `source`
/// was read. Memory is allocated row by row. The numbers of the header determine only how many empty
/// lists of payments are allocated: one for each district, at most 2,560.
pub fn read<R: Input + Drop>(alloc: Global, source: R) -> Result<Tables, FileError>
    ensures tables { IfOk result (λ tables. Gives (R.remaining source) (AreRecordsOfEither tables)) }
    ensures first { ForRecords (R.remaining source) (λ rows. length rows < 2 ^ 64 - 1
        → MatchResult result (λ _. first_fault rows ≡ None) (λ error. Reports rows error)) }
    ensures fault { IfErr result (λ error. IsFault error
        → ForRecords (R.remaining source) (λ rows. length rows < 2 ^ 64 - 1 → HasNoTables rows)) }
    ensures lasts { R.lasts source → IfErr result IsOfText }
{
    let mut records = Records::new(alloc, source);
    let header = read_header(&mut records)?;
    let mut loader = Loader::new(alloc, header);
    read_rows(&mut records, &mut loader)?;
    finish(records, loader)
}

/// Reads the scale of the dataset in `source`, from the header alone.
///
/// A fault is one of the header, which is the first record. It is returned only if the text does not
/// begin with a header.
///
/// Returns `NoMemory` if an allocation for the record fails. Returns `Failed`, with its number, 1, if a
/// read of `source` fails, and only then. Neither implies anything about the text. After any error, no
/// scale is returned, and it is not specified how far `source` was read.
pub fn read_scale<R: Input + Drop>(alloc: Global, source: R) -> Result<Scale, FileError>
    ensures first { ForRecords (R.remaining source) (λ rows.
        IfErr result (λ error. ReportsFault error (first_fault rows))) }
    ensures scale { IfOk result (λ scale. ForSome (R.remaining source) (BeginsWithHeader scale)) }
    ensures fault { IfErr result (λ error. IsFault error
        → ForSome (R.remaining source) HasNoHeader) }
    ensures lasts { R.lasts source → IfErr result IsOfText }
{
    let mut records = Records::new(alloc, source);
    let header = read_header(&mut records)?;
    Ok(header.scale)
}

// Reads the header, which is the first record.
fn read_header<R: Input + Drop>(records: &mut Records<R>) -> Result<Header, FileError>
    ensures first { (rows : Rows) → record_number records.old ≡ 0
        → HasLeft R.remaining rows records.old
        → MatchResult result (λ header. BeginsDataset R.remaining header rows records.new)
        (λ error. ReportsFault error (header_first rows)) }
    ensures read { IfOk result (λ header. (text : List ℕ) → HasRead R.remaining text [] records.old
        → HasReadHeader R.remaining text header records.new) }
    ensures lasts { LastsThrough R.lasts (input records.old) (input records.new) result IsOfText }
{
    if !records.advance()? {
        return Err(records.fault(FaultKind::NoHeader));
    }
    match header::parse(&mut records.fields()) {
        Ok(header) => Ok(header),
        Err(kind) => Err(records.fault(kind)),
    }
}

// Takes the records up to the end record, which is the current record afterwards.
fn read_rows<R: Input + Drop>(
    records: &mut Records<R>,
    loader: &mut Loader,
) -> Result<(), FileError>
    ensures first { (read rows : Rows) → length read + length rows < 2 ^ 64 - 1
        → HasLoaded loader.old read → record_number records.old ≡ length read
        → HasLeft R.remaining rows records.old → MatchResult result
        (λ _. ReachesEnd R.remaining (sizes loader.old.format loader.old.scale) read rows loader.new records.new)
        (λ error. ReportsFault error (rows_fault (sizes loader.old.format loader.old.scale) read rows)) }
    ensures read { OnOk result ((text : List ℕ) (read : Rows)
        → HasRead R.remaining text read records.old → HasLoaded loader.old read
        → HasEnded R.remaining text loader.new records.new) }
    ensures lasts { LastsThrough R.lasts (input records.old) (input records.new) result IsOfText }
{
    for _ in 0..u64::MAX {
        if !records.advance()? {
            break;
        }
        match read_record(records, loader)? {
            Taken::Row => {}
            Taken::End => return Ok(()),
        }
    }
    Err(records.fault(FaultKind::NoEnd))
}

// Takes the current record.
fn read_record<R: Input + Drop>(
    records: &Records<R>,
    loader: &mut Loader,
) -> Result<Taken, FileError>
    ensures exact { AreCountable loader.old.rows.histories.items
        → IsReadAs result loader.old (record_fields records.now) (record_number records.now) }
    ensures done { IfOk result (λ taken.
        IsDone taken loader.old loader.new (record_fields records.now)) }
    ensures of_text { IfErr result IsOfText }
{
    let mut fields = records.fields();
    let taken = loader.take(&mut fields)?;
    match fields.fault() {
        Some(kind) => Err(records.fault(kind)),
        None => Ok(taken),
    }
}

// The tables, after the end record, which must be the last record.
fn finish<R: Input + Drop>(mut records: Records<R>, loader: Loader) -> Result<Tables, FileError>
    ensures none_left { OnOk result ((more : Rows)
        → HasLeft R.remaining more records → more ≡ []) }
    ensures first { IfErr result (λ error. (more : Rows) → HasLeft R.remaining more records
        → record_number records < 2 ^ 64 - 1
        → ReportsEnd error loader more (record_number records)) }
    ensures tables { IfOk result (λ tables. (text : List ℕ)
        → HasEnded R.remaining text loader records
        → (rows : Rows) × IsCsv text rows × AreRecordsIn loader.format tables rows) }
    ensures lasts { R.lasts (input records) → IfErr result IsOfText }
{
    let end = records.number();
    records.expect_end()?;
    match loader.finish()? {
        Ok(tables) => Ok(tables),
        Err(_) => Err(FileError::File(FileFault {
            kind: FaultKind::ScaleBroken,
            record: end,
        })),
    }
}
