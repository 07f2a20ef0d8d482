//! The explanation of a fault on a terminal: the line of the file as an editor counts, what was found there, and what
//! would be right.

use crate::command_fault::CommandFault;
use crate::escaped::Escaped;
use crate::lines::Lines;
use crate::meaning::formats::Before;
use crate::meaning::search::{Found, Search};
use crate::trouble::Trouble;
use files::{FaultKind, Fields, FileError, FileFault, Reader, Records};
use std::io::{Read, Write};
use std::rt::Files;
use std::{fs, io};

mod formats;
mod listings;
mod replies;
mod search;
mod spelling;
mod tables;

pub use formats::{Format, Inputs};

// How many fields of a record are shown, and how many bytes of a field.
const MOST_FIELDS: usize = 12;

const MOST_BYTES: usize = 24;

/// Prints what the fault means. An error in printing is ignored.
pub fn report_meaning<R: Files + AllocGlobal, W: Write>(
    rt: &R,
    sink: &mut W,
    fault: CommandFault<'_>,
    inputs: Inputs<'_>,
    trouble: &Trouble,
) {
    match fault {
        CommandFault::NoMemory => print(
            sink,
            "more memory is needed, or a smaller scale: docs/COSTS.md",
        ),
        CommandFault::NoThread => print(
            sink,
            "fewer executors are needed, or more threads for the process",
        ),
        CommandFault::Unsettled => print(
            sink,
            "not all was back when the executors had ended, so nothing that they did is shown",
        ),
        CommandFault::NotIdle => print(
            sink,
            "a transaction is active or a move outstanding at the end, so there are no tables: end the schedule with R",
        ),
        CommandFault::NotConsistent(_) => print(
            sink,
            "the condition of TPC-C 5.11, clause 3.3.2: `tpcc check` tells of all that are broken",
        ),
        CommandFault::BadMove(_) => print(
            sink,
            "moves count from 0; each is lo,hi,to: from warehouse lo, 1 or more, to hi, and an executor from 0",
        ),
        CommandFault::NoWarehouse(_) => print(
            sink,
            "the dataset's first record tells how many warehouses there are: its third field",
        ),
        CommandFault::Failed { path, record: _ } => report_trouble(sink, path, trouble),
        CommandFault::File { path, fault } => {
            let before = Before::new(inputs.format(path));
            if report_place(rt, sink, path, fault, before).is_err() {
                return;
            }
            print(sink, meaning(fault));
        }
    }
}

fn print<W: Write>(sink: &mut W, words: &str) {
    let _ = writeln!(sink, "  {words}");
}

// Prints the system's message, and the name under which a log was left.
fn report_trouble<W: Write>(sink: &mut W, path: &str, trouble: &Trouble) {
    if let Some(code) = trouble.code() {
        let error = io::Error::from_raw_os_error(code);
        let path = Escaped(path);
        let _ = writeln!(sink, "  {path}: {error}");
    }
    if let Some(number) = trouble.left() {
        let _ = writeln!(
            sink,
            "  not all was printed, so the log has not its name: it is whole, with `.tpcc-{number}` after its name"
        );
    }
}

// Prints the line where the record begins, as an editor counts, the fields of the record, and which field has the
// fault. At most one readable record of the file is in memory.
fn report_place<R: Files + AllocGlobal, W: Write>(
    rt: &R,
    sink: &mut W,
    path: &str,
    fault: FileFault,
    mut before: Before,
) -> io::Result<()> {
    let record = fault.record;
    if !fs::metadata(rt, path)?.is_file() {
        return Ok(());
    }
    let source = Reader {
        source: fs::open(rt, path)?,
    };
    let mut records = Records::new(rt.alloc(), source);
    for passed in 0..record {
        if passed > 0 {
            before.pass(records.fields());
        }
        match records.advance() {
            Ok(true) => {}
            Ok(false) => return writeln!(sink, "  after the last line of the file"),
            Err(FileError::File(long)) if long.record == record => {
                let line = line_of(rt, path, record)?;
                return writeln!(sink, "  line {line}: a record of more than 65,536 bytes");
            }
            Err(_) => return Ok(()),
        }
    }
    let line = line_of(rt, path, record)?;
    write!(sink, "  line {line}: ")?;
    report_fields(sink, records.fields())?;
    let first = records.fields().word();
    let mut search = Search::new(records.fields(), fault.kind);
    before.search(&mut search, first);
    if let Some(found) = search.found() {
        report_found(sink, records.fields(), found)
    } else if let Some(place) = search.first_too_many() {
        writeln!(sink, "  field {place} is one too many")
    } else if let Some(names) = before.key_names(fault.kind, first) {
        writeln!(sink, "  its key is {names}")
    } else {
        Ok(())
    }
}

// The line where the record of that number, from 1, begins.
fn line_of<R: Files>(rt: &R, path: &str, record: u64) -> io::Result<u64> {
    let mut file = fs::open(rt, path)?;
    let mut lines = Lines::new();
    let mut room = [0u8; 4096];
    for _ in 0..u64::MAX {
        let count = file.read(&mut room)?;
        if count == 0 {
            break;
        }
        for byte in &room[..count] {
            lines.pass(*byte);
            if lines.records == record {
                return Ok(lines.line);
            }
        }
    }
    Ok(lines.line)
}

// Prints the first fields of a record.
fn report_fields<W: Write>(sink: &mut W, mut fields: Fields<'_>) -> io::Result<()> {
    let count = fields.count();
    for place in 0..count.min(MOST_FIELDS) {
        if place > 0 {
            write!(sink, ",")?;
        }
        report_field(sink, fields.bytes())?;
    }
    if count > MOST_FIELDS {
        write!(sink, ",..")?;
    }
    writeln!(sink)
}

// Prints which field of the record has the fault, what is there, and what would be right.
fn report_found<W: Write>(sink: &mut W, mut fields: Fields<'_>, found: Found) -> io::Result<()> {
    let Found {
        place,
        name,
        spelling,
    } = found;
    write!(sink, "  field {place}, {name}, is ")?;
    for _ in 1..place {
        fields.bytes();
    }
    if fields.left() == 0 {
        write!(sink, "missing")?;
    } else if fields.next_is_empty() {
        write!(sink, "empty")?;
    } else {
        report_field(sink, fields.bytes())?;
    }
    writeln!(sink, ": it should be {spelling}")
}

// Prints the first bytes of a field.
fn report_field<W: Write>(sink: &mut W, field: &[u8]) -> io::Result<()> {
    match str::from_utf8(&field[..field.len().min(MOST_BYTES)]) {
        Ok(text) => {
            let text = Escaped(text);
            write!(sink, "{text}")?;
        }
        Err(_) => write!(sink, "?")?,
    }
    if field.len() > MOST_BYTES {
        write!(sink, "..")?;
    }
    Ok(())
}

// The explanation of a fault of that kind.
fn meaning(fault: FileFault) -> &'static str {
    match fault.kind {
        FaultKind::NoHeader => {
            "no header of a dataset: it begins with TPCC,2, or TPCC,1, and how many warehouses, items and customers"
        }
        FaultKind::WrongShape => {
            "an unknown letter at the front, or a wrong number of fields: docs/FORMATS.md has each record"
        }
        FaultKind::NotOfKind => {
            "a field is no number, moment or text of its kind: 7 and not 07, 2024-05-01T12:00:00, printable ASCII"
        }
        FaultKind::OutOfRange =>
            "a value out of its column's range: docs/FORMATS.md has the ranges",
        FaultKind::OutOfOrder => {
            "a record out of order, or a key twice: keys ascend, an order's lines by number, and a log's places are 0, 1, 2 and so on"
        }
        FaultKind::ScaleBroken => {
            "a row is missing or too many for the header's scale, or one refers to a row that is not there"
        }
        FaultKind::NoEnd =>
            "the end record is missing: the file was cut, or needs END and its counts",
        FaultKind::WrongCount => "a count of the end record is not how many there are",
        FaultKind::AfterEnd => "a record after the end record: were two files joined?",
    }
}
