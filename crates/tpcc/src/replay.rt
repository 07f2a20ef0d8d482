ghost use Rattle.std.specs.Prelude.{◌≡◌, is_some, IfOk, IfErr, OnErr};
ghost use Rattle.files.specs.Sending.{Begins};
ghost use Rattle.terminals.specs.FirstFault.{log_fault};
ghost use Rattle.terminals.specs.LogRecord.{IsLog};
ghost use Rattle.files.specs.Place.{Gives};
ghost use Rattle.tpcc.specs.Effects.{change, output_of, source_of};
ghost use Rattle.tpcc.specs.EarlyEnds.{IsOfReplaying, ReplayMayReport};
ghost use Rattle.tpcc.specs.Faults.{IsFirst, IsOfReading};
ghost use Rattle.schema.specs.Database.{Database};
ghost use Rattle.commit_log.specs.Replay.{IsReplayOf};
ghost use Rattle.tpcc.specs.Replay.{ReportsReplay, ReplayEnds, ReplaysSome, found_line, found_of, replay_streams};

use crate::command_fault::CommandFault;
use crate::output_files::OutputFiles;
use crate::report::Report;
use crate::stopwatch::Stopwatch;
use crate::streams::{print_lines, read_tables, write_tables};
use crate::summary::Summary;
use crate::tally::Tally;
use command_line::{ReplaySettings, Status};
use commit_log::{Entry, Replay, replay};
use files::Input;
use std::alloc::Global;
use std::io::Write;
use std::rt::Clock;
use std::{fmt, mem};
use terminals::read_log;

/// Runs the requests of a log one at a time, in log order, on the dataset, compares the replies and returns the exit
/// status.
///
/// `data` is read first, then the log. The first fault ends the command, and nothing is run. If each of the N entries
/// is the machine's, `equal N` is printed to `found`, and the last tables are written to `tables` and get their name on
/// `output_files`. Otherwise `differs P` is printed, with the first place whose request is refused or whose reply
/// differs.
///
/// A fault is reported to `errors`: of a file, or out of memory. A beginning of the line may have been printed then,
/// and the tables have not got their name.
pub fn replay_over<
    R: Clock,
    D: Input + Drop,
    L: Input + Drop,
    A: Write,
    T: Write + Drop,
    N: OutputFiles<T>,
    E: Report,
>(
    rt: &R,
    alloc: Global,
    settings: &ReplaySettings,
    data: D,
    log: L,
    found: &mut A,
    tables: Option<T>,
    output_files: &mut N,
    errors: &mut E,
) -> Status
    requires { is_some tables ≡ is_some settings.now.tables }
    ensures { ReplayEnds T.contents settings.entry.now (replay_streams
        (source_of D.remaining D.lasts «data») (source_of L.remaining L.lasts log) tables)
        (output_of A.contents found.old found.new N.named output_files.old output_files.new)
        (change E.reported errors.old errors.new) result }
{
    match replay_log(
        rt,
        alloc,
        settings,
        data,
        log,
        found,
        tables,
        output_files,
        errors,
    ) {
        Ok(status) => status,
        Err(fault) => errors.report(fault),
    }
}

// The exit status of a replay. After an error the tables have not got their name.
fn replay_log<
    'a,
    R: Clock,
    D: Input + Drop,
    L: Input + Drop,
    A: Write,
    T: Write + Drop,
    N: OutputFiles<T>,
    E: Report,
>(
    rt: &R,
    alloc: Global,
    settings: &ReplaySettings<'a>,
    data: D,
    log: L,
    found: &mut A,
    tables: Option<T>,
    output_files: &mut N,
    errors: &mut E,
) -> Result<Status, CommandFault<'a>>
    requires { is_some tables ≡ is_some settings.now.tables }
    ensures ends { IfOk result (ReplayEnds T.contents settings.entry.now (replay_streams
        (source_of D.remaining D.lasts «data») (source_of L.remaining L.lasts log) tables)
        (output_of A.contents found.old found.new N.named output_files.old output_files.new)
        (change E.reported errors.old errors.new)) }
    ensures named { OnErr result (N.named output_files.new ≡ N.named output_files.old) }
    ensures some { OnErr result (ReplaysSome (D.remaining «data») (L.remaining log)
        (change A.contents found.old found.new)) }
    ensures reported { OnErr result (E.reported errors.new ≡ E.reported errors.old) }
    ensures fault { IfErr result (IsOfReplaying settings.entry.now
        (source_of D.remaining D.lasts «data») (source_of L.remaining L.lasts log)) }
{
    let opening = read_tables(alloc, settings.data, data)?;
    let entries = read_entries(alloc, settings.log, log)?;
    errors.begin("replaying", entries.len(), "entries");
    let stopwatch = Stopwatch::start(rt);
    let came_to = replay(alloc, opening, entries.as_slice())?;
    let replayed_for = stopwatch.nanoseconds().unwrap_or(0);
    let equal = equal_entries(&came_to, entries.as_slice());
    let status = print(
        alloc,
        settings,
        came_to,
        entries.as_slice(),
        found,
        tables,
        output_files,
    )?;
    sum_up(alloc, equal, replayed_for, errors);
    Ok(status)
}

// The entries before the first one that differs from the machine's.
fn equal_entries<'a>(came_to: &Replay, entries: &'a [Entry]) -> &'a [Entry]
    requires { (opening : Database) × IsReplayOf opening entries.now came_to.now }
{
    match came_to {
        Replay::Equal(_) => entries,
        Replay::Differs(place) => &entries[..*place],
    }
}

// Prints the result of the replay, writes the last tables if all entries are equal, and returns the exit status.
fn print<'a, A: Write, T: Write + Drop, N: OutputFiles<T>>(
    alloc: Global,
    settings: &ReplaySettings<'a>,
    came_to: Replay,
    entries: &[Entry],
    found: &mut A,
    tables: Option<T>,
    output_files: &mut N,
) -> Result<Status, CommandFault<'a>>
    requires { is_some tables ≡ is_some settings.now.tables }
    ensures reports { IfOk result (ReportsReplay T.contents tables
        (output_of A.contents found.old found.new N.named output_files.old output_files.new)
        entries.now came_to) }
    ensures named { OnErr result (N.named output_files.new ≡ N.named output_files.old) }
    ensures begun { OnErr result (Begins (A.contents found.old) (A.contents found.new)
        (found_line (found_of entries.now came_to))) }
    ensures fault { IfErr result (ReplayMayReport settings.entry.now) }
{
    match came_to {
        Replay::Equal(last) => {
            print_lines(alloc, found, &[Found::Equal(entries.len())])?;
            write_tables(alloc, settings.tables, tables, &last, output_files)?;
            // The end of the process frees all rows at once.
            mem::forget(last);
            Ok(Status::Success)
        }
        Replay::Differs(place) => {
            print_lines(alloc, found, &[Found::Differs(place)])?;
            Ok(Status::NotConsistent)
        }
    }
}

// Reports how these entries ended, if a summary is wanted.
fn sum_up<E: Report>(alloc: Global, entries: &[Entry], served_for: u64, errors: &mut E)
    ensures { E.reported errors.new ≡ E.reported errors.old }
{
    if !errors.sums_up() {
        return;
    }
    // If an allocation fails there is no summary.
    if let Ok(tally) = Tally::of_entries(alloc, entries) {
        errors.sum_up(&Summary {
            tally: &tally,
            records: None,
            served_for,
            times: &[],
        });
    }
}

// Reads the entries of the log of that path.
fn read_entries<'a, L: Input + Drop>(
    alloc: Global,
    path: &'a str,
    log: L,
) -> Result<Vec<Entry>, CommandFault<'a>>
    ensures entries { IfOk result (λ entries. Gives (L.remaining log) (IsLog entries.items)) }
    ensures fault { IfErr result
        (IsOfReading path.now (L.remaining log) (L.lasts log) (IsFirst log_fault)) }
{
    match read_log(alloc, log) {
        Ok(entries) => Ok(entries),
        Err(error) => Err(CommandFault::of_file(path, error)),
    }
}

// The result of a replay: how many entries are equal, or the first place that differs.
#[derive(Clone, Copy, Debug, PartialEq, Eq)]
enum Found {
    Equal(usize),
    Differs(usize),
}

impl fmt::Display for Found {
    ghost use Rattle.std.specs.Prelude.{Some};
    ghost use Rattle.tpcc.specs.Replay.{found_text};

    ghost output = { λ found. Some (found_text found) };

    fn fmt<W: fmt::Write>(&self, f: &mut fmt::Formatter<W>) -> fmt::Result {
        match self {
            Found::Equal(entries) => write!(f, "equal {entries}"),
            Found::Differs(place) => write!(f, "differs {place}"),
        }
    }
}
