//! Reads and writes the files of several commands. A fault contains the path of the file.
ghost use Rattle.std.specs.Prelude.{◌≡◌, ◌⊎◌, ◌++◌, ◌∷◌, [], Some, Ok, Err, option_map, is_some, true, IfOk, IfErr, IfSome, OnOk, OnErr, string_bytes};
ghost use Rattle.std.specs.Io.KnownBytes.{Appends};
ghost use Rattle.dataset.specs.FirstFault.{IsFaultOf};
ghost use Rattle.dataset.specs.Records.{AreRecords2, AreRecordsOfEither};
ghost use Rattle.files.specs.Sending.{Begins, Writes};
ghost use Rattle.terminals.specs.LogRecord.{IsLog};
ghost use Rattle.terminals.specs.Script.{AreAsked};
ghost use Rattle.tpcc.specs.OutputFiles.{Shelves};
ghost use Rattle.files.specs.Place.{Gives};
ghost use Rattle.tpcc.specs.Edges.{NamesFile, HasWritten, IsNamed, OfLines};
ghost use Rattle.tpcc.specs.Faults.{IsOfReading, IsOfWriting, IsOfWritingSome, standard_output};

use crate::command_fault::CommandFault;
use crate::output_files::OutputFiles;
use commit_log::Entry;
use files::{Input, send};
use requests::TerminalRequest;
use schema::{NoMemory, Tables};
use std::alloc::Global;
use std::fmt::Display;
use std::io::Write;
use terminals::{write_log, write_script};

/// The path of the standard output in a fault.
pub const STANDARD_OUTPUT: &str = "-";

/// Reads the tables of the dataset of that path, which is of either format.
pub fn read_tables<'a, D: Input + Drop>(
    alloc: Global,
    path: &'a str,
    data: D,
) -> Result<Tables, CommandFault<'a>>
    ensures tables { IfOk result
        (λ tables. Gives (D.remaining «data») (AreRecordsOfEither tables)) }
    ensures fault { IfErr result
        (IsOfReading path.now (D.remaining «data») (D.lasts «data») IsFaultOf) }
{
    match dataset::read(alloc, data) {
        Ok(tables) => Ok(tables),
        Err(error) => Err(CommandFault::of_file(path, error)),
    }
}

/// Writes the entries to the log, if there is one, brings it to the disk and returns it with its path. It has not got
/// its name yet, even after an error.
pub fn write_entries<'a, L: Write + Drop, N: OutputFiles<L>>(
    alloc: Global,
    path: Option<&'a str>,
    log: Option<L>,
    entries: &[Entry],
    output_files: &mut N,
) -> Result<Option<(&'a str, L)>, CommandFault<'a>>
    requires { is_some log ≡ is_some path }
    ensures path { IfOk result (λ whole. option_map (λ named. named.0) whole ≡ path.entry) }
    ensures written { IfOk result (HasWritten L.contents log (IsLog entries.now)) }
    ensures same { N.named output_files.new ≡ N.named output_files.old }
    ensures fault { IfErr result (IsOfWritingSome path.entry) }
{
    let Some(sink) = log else {
        return Ok(None);
    };
    let Some(path) = path else { unreachable!() };
    let whole = whole_log(alloc, path, sink, entries, output_files)?;
    Ok(Some((path, whole)))
}

// Writes the entries to the log and brings it to the disk.
fn whole_log<'a, L: Write + Drop, N: OutputFiles<L>>(
    alloc: Global,
    path: &'a str,
    sink: L,
    entries: &[Entry],
    output_files: &mut N,
) -> Result<L, CommandFault<'a>>
    ensures text { IfOk result
        (λ whole. Writes (L.contents sink) (L.contents whole) (IsLog entries.now)) }
    ensures same { N.named output_files.new ≡ N.named output_files.old }
    ensures fault { IfErr result (IsOfWriting path.now) }
{
    let mut whole = sink;
    match write_log(alloc, &mut whole, entries) {
        Ok(()) => settled(path, whole, output_files),
        Err(error) => Err(CommandFault::of_file(path, error)),
    }
}

/// Writes the tables in format 2 to their file, if there is one, and gives it its name. After an error it has not got its name.
pub fn write_tables<'a, T: Write + Drop, N: OutputFiles<T>>(
    alloc: Global,
    path: Option<&'a str>,
    sink: Option<T>,
    tables: &Tables,
    output_files: &mut N,
) -> Result<(), CommandFault<'a>>
    requires { is_some sink ≡ is_some path }
    ensures asked { OnErr result (is_some sink ≡ true) }
    ensures named { OnOk result (NamesFile T.contents sink
        (N.named output_files.old) (N.named output_files.new) (AreRecords2 tables.now)) }
    ensures err { OnErr result (N.named output_files.new ≡ N.named output_files.old) }
    ensures fault { IfErr result (IsOfWritingSome path.entry) }
{
    let Some(sink) = sink else {
        return Ok(());
    };
    let Some(path) = path else { unreachable!() };
    name_tables(alloc, path, sink, tables, output_files)
}

/// Writes the tables in format 2, brings the file to the disk and gives it its name. After an error it has not got its name.
pub fn name_tables<'a, T: Write + Drop, N: OutputFiles<T>>(
    alloc: Global,
    path: &'a str,
    sink: T,
    tables: &Tables,
    output_files: &mut N,
) -> Result<(), CommandFault<'a>>
    ensures ok { OnOk result (NamesFile T.contents (Some sink)
        (N.named output_files.old) (N.named output_files.new) (AreRecords2 tables.now)) }
    ensures err { OnErr result (N.named output_files.new ≡ N.named output_files.old) }
    ensures fault { IfErr result (IsOfWriting path.now) }
{
    let mut whole = sink;
    match dataset::write(alloc, &mut whole, tables) {
        Ok(()) => finished(path, whole, output_files),
        Err(error) => Err(CommandFault::of_file(path, error)),
    }
}

/// Writes the script of these requests, brings the file to the disk and gives it its name. After an error it has not got its name.
pub fn write_requests<'a, T: Write + Drop, N: OutputFiles<T>>(
    alloc: Global,
    path: &'a str,
    sink: T,
    asked: &[TerminalRequest],
    output_files: &mut N,
) -> Result<(), CommandFault<'a>>
    ensures ok { OnOk result (NamesFile T.contents (Some sink)
        (N.named output_files.old) (N.named output_files.new) (AreAsked asked.now)) }
    ensures err { OnErr result (N.named output_files.new ≡ N.named output_files.old) }
    ensures fault { IfErr result (IsOfWriting path.now) }
{
    let mut whole = sink;
    match write_script(alloc, &mut whole, asked) {
        Ok(()) => finished(path, whole, output_files),
        Err(error) => Err(CommandFault::of_file(path, error)),
    }
}

// Brings the file to the disk.
fn settled<'a, F: Write + Drop, N: OutputFiles<F>>(
    path: &'a str,
    mut file: F,
    output_files: &mut N,
) -> Result<F, CommandFault<'a>>
    ensures text { IfOk result (λ whole. F.contents whole ≡ F.contents file) }
    ensures same { N.named output_files.new ≡ N.named output_files.old }
    ensures fault { IfErr result (IsOfWriting path.now) }
{
    match output_files.settle(&mut file) {
        Ok(()) => Ok(file),
        Err(_) => Err(CommandFault::not_opened(path)),
    }
}

/// Brings the file to the disk and gives it its name. After an error it has not got its name.
pub fn finished<'a, F: Write + Drop, N: OutputFiles<F>>(
    path: &'a str,
    file: F,
    output_files: &mut N,
) -> Result<(), CommandFault<'a>>
    ensures ok { OnOk result
        (Shelves (N.named output_files.old) (N.named output_files.new) (F.contents file)) }
    ensures err { OnErr result (N.named output_files.new ≡ N.named output_files.old) }
    ensures fault { IfErr result (IsOfWriting path.now) }
{
    let whole = settled(path, file, output_files)?;
    named(path, whole, output_files)
}

// Gives the file its name.
fn named<'a, F: Write + Drop, N: OutputFiles<F>>(
    path: &'a str,
    file: F,
    output_files: &mut N,
) -> Result<(), CommandFault<'a>>
    ensures ok { OnOk result
        (Shelves (N.named output_files.old) (N.named output_files.new) (F.contents file)) }
    ensures err { OnErr result (N.named output_files.new ≡ N.named output_files.old) }
    ensures fault { IfErr result (IsOfWriting path.now) }
{
    match output_files.give_name(file) {
        Ok(()) => Ok(()),
        Err(_) => Err(CommandFault::not_opened(path)),
    }
}

/// If everything was printed (`printed` is `Ok`), gives the log, if there is one, its name. Otherwise leaves the log
/// under its other name, since some of its answers may have been seen, and returns the fault of printing.
pub fn name_printed<'a, L: Write + Drop, N: OutputFiles<L>>(
    printed: Result<(), CommandFault<'a>>,
    log: Option<(&'a str, L)>,
    output_files: &mut N,
) -> Result<(), CommandFault<'a>>
    ensures printed { OnOk result (printed.entry ≡ Ok tt) }
    ensures named { OnOk result (IsNamed L.contents log.entry
        (N.named output_files.old) (N.named output_files.new)) }
    ensures err { OnErr result (N.named output_files.new ≡ N.named output_files.old) }
    ensures fault { IfErr result (λ fault. (printed.entry ≡ Err fault)
        ⊎ IsOfWritingSome (option_map (λ named. named.0) log.entry) fault) }
{
    match (printed, log) {
        (Ok(()), Some((path, log))) => named(path, log, output_files),
        (Err(fault), Some((_, log))) => {
            output_files.leave(log);
            Err(fault)
        }
        (printed, None) => printed,
    }
}

/// Prints each of these on a line of its own. A failure to write is `Failed` at the last line. After an error a
/// beginning of the lines was printed.
pub fn print_lines<A: Write, L: Display>(
    alloc: Global,
    sink: &mut A,
    lines: &[L],
) -> Result<(), CommandFault<'static>>
    ensures printed { OnOk result
        (OfLines L.output lines.now (Appends (A.contents sink.old) (A.contents sink.new))) }
    ensures begun { OnErr result
        (OfLines L.output lines.now (Begins (A.contents sink.old) (A.contents sink.new))) }
    ensures fault { IfErr result (IsOfWriting standard_output) }
{
    let text = text_of(alloc, lines)?;
    match send(sink, text.as_bytes()) {
        Ok(()) => Ok(()),
        Err(_) => Err(CommandFault::Failed {
            path: STANDARD_OUTPUT,
            record: lines.len() as u64,
        }),
    }
}

// The text of the lines, with a line feed behind each.
fn text_of<L: Display>(alloc: Global, lines: &[L]) -> Result<String, NoMemory>
    ensures { IfOk result
        (λ whole. OfLines L.output lines.now (λ text. string_bytes whole ≡ text)) }
{
    let mut whole = String::new(alloc);
    for line in lines {
        push_line(&mut whole, line)?;
    }
    Ok(whole)
}

// Appends the line and a line feed.
fn push_line<L: Display>(whole: &mut String, line: &L) -> Result<(), NoMemory>
    ensures { OnOk result (IfSome (L.output line.now)
        (λ text. string_bytes whole.new ≡ string_bytes whole.old ++ (text ++ 10 ∷ []))) }
{
    writeln!(whole, "{line}")
}
