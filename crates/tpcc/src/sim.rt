ghost use Rattle.std.specs.Prelude.{◌≡◌, ◌⊎◌, is_some, IfOk, IfErr, OnOk, OnErr};
ghost use Rattle.terminals.specs.FirstFault.{schedule_fault};
ghost use Rattle.terminals.specs.LockChanges.{AreLines, lines};
ghost use Rattle.terminals.specs.Outputs.{NameEntries};
ghost use Rattle.terminals.specs.Schedule.{IsSchedule};
ghost use Rattle.files.specs.Sending.{BeginsToWrite, OfFirst, Writes};
ghost use Rattle.files.specs.Place.{Gives};
ghost use Rattle.tpcc.specs.Effects.{change, output_of, source_of};
ghost use Rattle.tpcc.specs.EarlyEnds.{IsOfGathering, IsOfShowing, IsOfSimulating};
ghost use Rattle.tpcc.specs.Faults.{IsFirst, IsOfReading, IsOfWriting, IsOfWritingSome, standard_output, EndsEarly};
ghost use Rattle.command_line.specs.Settings.{IsPlayable};
ghost use Rattle.tpcc.specs.Sim.{NamesPicture, NamesTables, Shows, ShowsSome, SimulatesAll, SimulatesSome, played_schedule, setup_of, sim_inputs, sim_outputs};

use crate::command_fault::CommandFault;
use crate::output_files::OutputFiles;
use crate::report::Report;
use crate::streams::{
    STANDARD_OUTPUT, finished, name_printed, read_tables, write_entries, write_tables,
};
use command_line::{SimSettings, Status};
use commit_log::{Entry, Limits};
use files::Input;
use history::{LockChange, Output, Scheduled};
use picture::write_picture;
use schema::{Scale, Tables};
use std::alloc::Global;
use std::io::Write;
use terminals::{read_schedule, write_outputs};
use world::{GatherFault, OpenFault, Setup, Simulation, simulate};

/// Simulates a schedule on the dataset, event by event. An error is the exit status.
///
/// Input: `data` is read first, then the schedule. The first fault ends the command, and nothing is run.
///
/// Output: the log is written to `log` and brought to the disk; the records of all outputs are printed to `reported`, with
/// `--locks` also the lock tables that events have changed, after the output of the event; the log gets its name on `output_files`; the picture of the schedule and its outputs is written to `picture` and
/// gets its name; the tables are written to `tables` and get theirs. There are no tables if a transaction is active or
/// a move outstanding at the end, or if an allocation for them fails; that is a fault only if tables are asked for.
///
/// A fault is reported to `errors`: of a file, tables that are not consistent, an active transaction or an outstanding
/// move, or out of memory. Then at most a beginning of the records was printed, and no file has its name; or all were
/// printed, the log, if there is one, has its name, and the picture may have.
pub fn sim_over<
    D: Input + Drop,
    S: Input + Drop,
    A: Write,
    F: Write + Drop,
    N: OutputFiles<F>,
    E: Report,
>(
    alloc: Global,
    settings: &SimSettings,
    data: D,
    schedule: S,
    reported: &mut A,
    log: Option<F>,
    picture: Option<F>,
    tables: Option<F>,
    output_files: &mut N,
    errors: &mut E,
) -> Result<(), Status>
    requires limits { IsPlayable settings.now }
    requires log { is_some log ≡ is_some settings.now.log }
    requires picture { is_some picture ≡ is_some settings.now.picture }
    requires tables { is_some tables ≡ is_some settings.now.tables }
    ensures simulates { OnOk result (SimulatesAll F.contents (setup_of settings.entry.now)
        (sim_inputs (source_of D.remaining D.lasts «data») (source_of S.remaining S.lasts schedule))
        (sim_outputs log picture tables)
        (output_of A.contents reported.old reported.new N.named output_files.old output_files.new)
        (change E.reported errors.old errors.new)) }
    ensures some { OnErr result (SimulatesSome F.contents (setup_of settings.entry.now)
        (sim_inputs (source_of D.remaining D.lasts «data») (source_of S.remaining S.lasts schedule))
        (sim_outputs log picture tables)
        (output_of A.contents reported.old reported.new
        N.named output_files.old output_files.new)) }
    ensures early { IfErr result (EndsEarly (IsOfSimulating settings.entry.now (sim_inputs
        (source_of D.remaining D.lasts «data») (source_of S.remaining S.lasts schedule)))
        (E.reported errors.old) (E.reported errors.new)) }
{
    match sim(
        alloc,
        settings,
        data,
        schedule,
        reported,
        log,
        picture,
        tables,
        output_files,
        errors,
    ) {
        Ok(()) => Ok(()),
        Err(fault) => Err(errors.report(fault)),
    }
}

fn sim<
    'a,
    D: Input + Drop,
    S: Input + Drop,
    A: Write,
    F: Write + Drop,
    N: OutputFiles<F>,
    E: Report,
>(
    alloc: Global,
    settings: &SimSettings<'a>,
    data: D,
    schedule: S,
    reported: &mut A,
    log: Option<F>,
    picture: Option<F>,
    tables: Option<F>,
    output_files: &mut N,
    errors: &mut E,
) -> Result<(), CommandFault<'a>>
    requires limits { IsPlayable settings.now }
    requires log { is_some log ≡ is_some settings.now.log }
    requires picture { is_some picture ≡ is_some settings.now.picture }
    requires tables { is_some tables ≡ is_some settings.now.tables }
    ensures simulates { OnOk result (SimulatesAll F.contents (setup_of settings.entry.now)
        (sim_inputs (source_of D.remaining D.lasts «data») (source_of S.remaining S.lasts schedule))
        (sim_outputs log picture tables)
        (output_of A.contents reported.old reported.new N.named output_files.old output_files.new)
        (change E.reported errors.old errors.new)) }
    ensures some { OnErr result (SimulatesSome F.contents (setup_of settings.entry.now)
        (sim_inputs (source_of D.remaining D.lasts «data») (source_of S.remaining S.lasts schedule))
        (sim_outputs log picture tables)
        (output_of A.contents reported.old reported.new
        N.named output_files.old output_files.new)) }
    ensures reported { OnErr result (E.reported errors.new ≡ E.reported errors.old) }
    ensures fault { IfErr result (IsOfSimulating settings.entry.now (sim_inputs
        (source_of D.remaining D.lasts «data») (source_of S.remaining S.lasts schedule))) }
{
    let opening = read_tables(alloc, settings.data, data)?;
    let scale = opening.scale();
    let schedule = read_items(alloc, settings.schedule, schedule)?;
    errors.begin("playing", schedule.len(), "items");
    let setup = Setup {
        executors: settings.executors,
        limits: Limits {
            log: settings.log_limit,
            inbox: settings.inbox,
        },
    };
    let watches_locks = settings.locks;
    let simulation = match simulate(alloc, opening, &setup, schedule.as_slice(), watches_locks) {
        Ok(simulation) => simulation,
        Err(OpenFault::NoMemory) => return Err(CommandFault::NoMemory),
        Err(OpenFault::NotConsistent(number)) => return Err(CommandFault::NotConsistent(number)),
        Err(OpenFault::BadExecutors | OpenFault::BadLimit) => unreachable!(),
    };
    show(
        alloc,
        settings,
        schedule.as_slice(),
        &scale,
        &simulation,
        reported,
        log,
        picture,
        tables,
        output_files,
    )
}

// Writes the log, prints the outputs of the schedule, gives the log its name, draws the picture and writes the tables,
// and gives each its name.
fn show<'a, A: Write, F: Write + Drop, N: OutputFiles<F>>(
    alloc: Global,
    settings: &SimSettings<'a>,
    schedule: &[Scheduled],
    scale: &Scale,
    simulation: &Simulation,
    reported: &mut A,
    log: Option<F>,
    picture: Option<F>,
    tables: Option<F>,
    output_files: &mut N,
) -> Result<(), CommandFault<'a>>
    requires limits { IsPlayable settings.now }
    requires entries { NameEntries simulation.now.log.items simulation.now.outputs.items }
    requires log { is_some log ≡ is_some settings.now.log }
    requires picture { is_some picture ≡ is_some settings.now.picture }
    requires tables { is_some tables ≡ is_some settings.now.tables }
    ensures all { OnOk result (Shows F.contents (setup_of settings.entry.now)
        schedule.now simulation.now (sim_outputs log picture tables)
        (output_of A.contents reported.old reported.new
        N.named output_files.old output_files.new)) }
    ensures some { OnErr result (ShowsSome F.contents (setup_of settings.entry.now)
        schedule.now simulation.now (sim_outputs log picture tables)
        (output_of A.contents reported.old reported.new
        N.named output_files.old output_files.new)) }
    ensures fault { IfErr result
        (λ fault. IsOfGathering (is_some settings.now.tables) simulation.now.tables fault
        ⊎ IsOfShowing settings.now fault) }
{
    let entries = simulation.log.as_slice();
    let outputs = simulation.outputs.as_slice();
    let log = write_entries(alloc, settings.log, log, entries, output_files)?;
    let locks = simulation.locks.as_slice();
    let printed = print_outputs(alloc, reported, outputs, locks, entries);
    name_printed(printed, log, output_files)?;
    draw(
        alloc,
        settings,
        picture,
        schedule,
        outputs,
        entries,
        scale,
        output_files,
    )?;
    name_gathered(
        alloc,
        settings.tables,
        tables,
        &simulation.tables,
        output_files,
    )
}

// Reads the schedule of that path.
fn read_items<'a, S: Input + Drop>(
    alloc: Global,
    path: &'a str,
    schedule: S,
) -> Result<Vec<Scheduled>, CommandFault<'a>>
    ensures items { IfOk result (λ items. Gives (S.remaining schedule) (IsSchedule items.items)) }
    ensures fault { IfErr result
        (IsOfReading path.now (S.remaining schedule) (S.lasts schedule) (IsFirst schedule_fault)) }
{
    match read_schedule(alloc, schedule) {
        Ok(schedule) => Ok(schedule),
        Err(error) => Err(CommandFault::of_file(path, error)),
    }
}

// Prints the outputs of the schedule, with the lock tables that have changed among them. After an error a beginning of them was
// printed.
fn print_outputs<A: Write>(
    alloc: Global,
    sink: &mut A,
    outputs: &[Output],
    locks: &[LockChange],
    entries: &[Entry],
) -> Result<(), CommandFault<'static>>
    requires { NameEntries entries.now outputs.now }
    ensures printed { OnOk result (Writes (A.contents sink.old) (A.contents sink.new)
        (AreLines entries.now (lines 0 outputs.now locks.now))) }
    ensures begun { OnErr result (BeginsToWrite (A.contents sink.old) (A.contents sink.new)
        (OfFirst (AreLines entries.now) (lines 0 outputs.now locks.now))) }
    ensures fault { IfErr result (IsOfWriting standard_output) }
{
    match write_outputs(alloc, sink, outputs, locks, entries) {
        Ok(()) => Ok(()),
        Err(error) => Err(CommandFault::of_file(STANDARD_OUTPUT, error)),
    }
}

// Writes the gathered tables to their file, if there is one, and gives it its name.
fn name_gathered<'a, F: Write + Drop, N: OutputFiles<F>>(
    alloc: Global,
    path: Option<&'a str>,
    tables: Option<F>,
    gathered: &Result<Tables, GatherFault>,
    output_files: &mut N,
) -> Result<(), CommandFault<'a>>
    requires { is_some tables ≡ is_some path }
    ensures named { OnOk result (NamesTables F.contents tables
        (N.named output_files.old) (N.named output_files.new) gathered.now) }
    ensures err { OnErr result (N.named output_files.new ≡ N.named output_files.old) }
    ensures fault { IfErr result (λ fault. IsOfWritingSome path.entry fault
        ⊎ IsOfGathering (is_some path.entry) gathered.now fault) }
{
    match gathered {
        Ok(last) => Ok(write_tables(alloc, path, tables, last, output_files)?),
        Err(_) if tables.is_none() => Ok(()),
        Err(GatherFault::NotIdle) => Err(CommandFault::NotIdle),
        Err(GatherFault::NoMemory) => Err(CommandFault::NoMemory),
    }
}

// Writes the picture of the schedule to its file, if there is one, and gives it its name.
fn draw<'a, F: Write + Drop, N: OutputFiles<F>>(
    alloc: Global,
    settings: &SimSettings<'a>,
    picture: Option<F>,
    schedule: &[Scheduled],
    outputs: &[Output],
    entries: &[Entry],
    scale: &Scale,
    output_files: &mut N,
) -> Result<(), CommandFault<'a>>
    requires limits { IsPlayable settings.now }
    requires asked { is_some picture ≡ is_some settings.now.picture }
    ensures named { OnOk result (NamesPicture F.contents picture
        (N.named output_files.old) (N.named output_files.new)
        (played_schedule settings.entry.now.executors schedule.now outputs.now entries.now)) }
    ensures err { OnErr result (N.named output_files.new ≡ N.named output_files.old) }
    ensures fault { IfErr result (IsOfWritingSome settings.now.picture) }
{
    let Some(sink) = picture else {
        return Ok(());
    };
    let Some(path) = settings.picture else {
        unreachable!()
    };
    let mut whole = sink;
    let executors = settings.executors;
    match write_picture(
        alloc, &mut whole, schedule, outputs, entries, scale, executors,
    ) {
        Ok(()) => finished(path, whole, output_files),
        Err(error) => Err(CommandFault::of_file(path, error)),
    }
}
