ghost use Rattle.std.specs.Prelude.{◌≡◌, ◌⊎◌, ◌≤◌, length, map, is_some, IfOk, IfErr, OnOk, OnErr};
ghost use Rattle.std.specs.List.{AllZip};
ghost use Rattle.std.specs.Option.{option_map};
ghost use Rattle.terminals.specs.Answers.{AreAnswers, AreInLog};
ghost use Rattle.terminals.specs.Script.{IsScript};
ghost use Rattle.files.specs.Sending.{BeginsToWrite, OfFirst, Writes};
ghost use Rattle.files.specs.Place.{Gives};
ghost use Rattle.tpcc.specs.Effects.{change, output_of, source_of};
ghost use Rattle.tpcc.specs.EarlyEnds.{IsOfAnswering, IsOfMoves, IsOfRunning, IsOfScripts};
ghost use Rattle.tpcc.specs.Faults.{IsOfWriting, standard_output, EndsEarly};
ghost use Rattle.tpcc.specs.Run.{AreAllAnswered, AreAllAnswers, AreAllInLog, BeginAllAnswers, GivesMoves, HandsOut, HandsOutSome, Serves, ServesSome, run_inputs, run_outputs, texts_of};
ghost use Rattle.command_line.specs.Settings.{IsRunnable};

use crate::command_fault::CommandFault;
use crate::latencies::record_count;
use crate::output_files::OutputFiles;
use crate::report::Report;
use crate::streams::{STANDARD_OUTPUT, name_printed, read_tables, write_entries, write_tables};
use crate::summary::Summary;
use crate::tally::Tally;
use crate::watch::Watch;
use command_line::{RunSettings, Status};
use commit_log::{Entry, Limits};
use engine::{Answers, NoClient, Outcome, ServeOptions, serve};
use files::Input;
use range_moves::MoveOrder;
use requests::{Part, Script};
use rows::SESSIONS;
use schema::NoMemory;
use std::alloc::Global;
use std::io::Write;
use std::mem;
use std::rt::Clock;
use std::sync::Wait;
use std::thread::Threads;
use terminals::{read_moves, read_script, write_answers};

/// Serves the scripts on the dataset by as many executors as the settings ask for, within their limits. An error is the exit status.
///
/// Input: `data` is read first, then the scripts in order, then the moves. The first fault ends the command, and
/// nothing is run.
///
/// Output: the log is written to `log` and brought to the disk; the answers are printed to `answers`, by session and
/// number, with the replies of the log; the log gets its name on `output_files`; the last tables are written to
/// `tables` and get their name. `watch` observes the serving, and a summary goes to `errors` if that wants one.
///
/// A fault is reported to `errors`: of a file, an impossible move, tables that are not consistent, no thread,
/// something that was not back at the end, or out of memory. Then at most a beginning of the answers was printed, and
/// no file has its name; or tables are asked for, all answers were printed, and the log, if there is one, has its name.
pub fn run_over<
    R: Clock + Threads + Wait + Sync,
    D: Input + Drop,
    S: Input + Drop,
    A: Write,
    F: Write + Drop,
    N: OutputFiles<F>,
    E: Report,
>(
    rt: &R,
    alloc: Global,
    settings: &RunSettings,
    data: D,
    scripts: &mut [S],
    moves: Option<S>,
    answers: &mut A,
    log: Option<F>,
    tables: Option<F>,
    output_files: &mut N,
    watch: Watch<'_, R>,
    errors: &mut E,
) -> Result<(), Status>
    requires limits { IsRunnable settings.now }
    requires sources { length scripts.old ≡ length settings.now.scripts.items }
    requires moves { is_some moves ≡ is_some settings.now.moves }
    requires log { is_some log ≡ is_some settings.now.log }
    requires tables { is_some tables ≡ is_some settings.now.tables }
    ensures serves { OnOk result (Serves F.contents settings.now
        (texts_of (D.remaining «data») (map S.remaining scripts.old) (option_map S.remaining moves))
        (run_outputs log tables)
        (output_of A.contents answers.old answers.new N.named output_files.old output_files.new)
        (change E.reported errors.old errors.new)) }
    ensures some { OnErr result (ServesSome F.contents settings.now
        (texts_of (D.remaining «data») (map S.remaining scripts.old) (option_map S.remaining moves))
        (run_outputs log tables)
        (output_of A.contents answers.old answers.new N.named output_files.old output_files.new)) }
    ensures early { IfErr result (EndsEarly (IsOfRunning S.remaining S.lasts settings.now
        (run_inputs (source_of D.remaining D.lasts «data») scripts.old moves))
        (E.reported errors.old) (E.reported errors.new)) }
{
    match run(
        rt,
        alloc,
        settings,
        data,
        scripts,
        moves,
        answers,
        log,
        tables,
        output_files,
        watch,
        errors,
    ) {
        Ok(()) => Ok(()),
        Err(fault) => Err(errors.report(fault)),
    }
}

fn run<
    'a,
    R: Clock + Threads + Wait + Sync,
    D: Input + Drop,
    S: Input + Drop,
    A: Write,
    F: Write + Drop,
    N: OutputFiles<F>,
    E: Report,
>(
    rt: &R,
    alloc: Global,
    settings: &RunSettings<'a>,
    data: D,
    scripts: &mut [S],
    moves: Option<S>,
    answers: &mut A,
    log: Option<F>,
    tables: Option<F>,
    output_files: &mut N,
    mut watch: Watch<'_, R>,
    errors: &mut E,
) -> Result<(), CommandFault<'a>>
    requires limits { IsRunnable settings.now }
    requires sources { length scripts.old ≡ length settings.now.scripts.items }
    requires moves { is_some moves ≡ is_some settings.now.moves }
    requires log { is_some log ≡ is_some settings.now.log }
    requires tables { is_some tables ≡ is_some settings.now.tables }
    ensures serves { OnOk result (Serves F.contents settings.now
        (texts_of (D.remaining «data») (map S.remaining scripts.old) (option_map S.remaining moves))
        (run_outputs log tables)
        (output_of A.contents answers.old answers.new N.named output_files.old output_files.new)
        (change E.reported errors.old errors.new)) }
    ensures some { OnErr result (ServesSome F.contents settings.now
        (texts_of (D.remaining «data») (map S.remaining scripts.old) (option_map S.remaining moves))
        (run_outputs log tables)
        (output_of A.contents answers.old answers.new N.named output_files.old output_files.new)) }
    ensures reported { OnErr result (E.reported errors.new ≡ E.reported errors.old) }
    ensures fault { IfErr result (IsOfRunning S.remaining S.lasts settings.now
        (run_inputs (source_of D.remaining D.lasts «data») scripts.old moves)) }
{
    let opening = read_tables(alloc, settings.data, data)?;
    let scripts = read_scripts(alloc, &settings.scripts, scripts)?;
    let moves = read_orders(alloc, settings.moves, moves)?;
    let _ = watch.prepare(alloc, scripts.as_slice());
    let options = ServeOptions {
        scripts: scripts.as_slice(),
        sessions: 0,
        executors: settings.executors,
        tries: settings.tries,
        limits: Limits {
            log: settings.log_limit,
            inbox: settings.inbox,
        },
        moves: moves.as_slice(),
    };
    let outcome = match serve(rt, alloc, opening, &options, &watch, &NoClient) {
        Ok(outcome) => outcome,
        Err(fault) => return Err(CommandFault::of_serving(fault)),
    };
    watch.end();
    hand_out(
        alloc,
        settings,
        scripts.as_slice(),
        &outcome,
        answers,
        log,
        tables,
        output_files,
    )?;
    sum_up(alloc, &watch, scripts.as_slice(), &outcome, errors);
    // The end of the process frees all rows, entries and answers at once.
    mem::forget(outcome);
    Ok(())
}

// Writes the log, prints the answers, gives the log its name, writes the tables and gives them theirs.
fn hand_out<'a, A: Write, F: Write + Drop, N: OutputFiles<F>>(
    alloc: Global,
    settings: &RunSettings<'a>,
    scripts: &[Script],
    outcome: &Outcome,
    answers: &mut A,
    log: Option<F>,
    tables: Option<F>,
    output_files: &mut N,
) -> Result<(), CommandFault<'a>>
    requires few { length outcome.now.answers.items ≤ SESSIONS }
    requires each { AreAllAnswered scripts.now outcome.now.answers.items }
    requires placed { AreAllInLog outcome.now.log.items outcome.now.answers.items }
    requires log { is_some log ≡ is_some settings.now.log }
    requires tables { is_some tables ≡ is_some settings.now.tables }
    ensures all { OnOk result (HandsOut F.contents (run_outputs log tables)
        (output_of A.contents answers.old answers.new N.named output_files.old output_files.new)
        scripts.now outcome.now.log.items outcome.now.tables outcome.now.answers.items) }
    ensures some { OnErr result (HandsOutSome F.contents (run_outputs log tables)
        (output_of A.contents answers.old answers.new N.named output_files.old output_files.new)
        scripts.now outcome.now.log.items outcome.now.answers.items) }
    ensures fault { IfErr result (IsOfAnswering settings.now) }
{
    let entries = outcome.log.as_slice();
    let log = write_entries(alloc, settings.log, log, entries, output_files)?;
    let printed = print_answers(alloc, answers, scripts, outcome.answers.as_slice(), entries);
    name_printed(printed, log, output_files)?;
    write_tables(
        alloc,
        settings.tables,
        tables,
        &outcome.tables,
        output_files,
    )
}

// Reads the scripts of these paths.
fn read_scripts<'a, S: Input + Drop>(
    alloc: Global,
    paths: &[&'a str],
    sources: &mut [S],
) -> Result<Vec<Script>, CommandFault<'a>>
    requires { length sources.old ≡ length paths.now }
    ensures count { IfOk result (λ scripts. length scripts.items ≡ length paths.now) }
    ensures scripts { IfOk result
        (λ scripts. AllZip (λ source script. Gives source (IsScript script))
        (map S.remaining sources.old) scripts.items) }
    ensures fault { IfErr result (λ fault. (fault ≡ CommandFault.NoMemory)
        ⊎ IsOfScripts S.remaining S.lasts paths.now sources.old fault) }
{
    let mut scripts = Vec::new(alloc);
    for (session, source) in sources.iter_mut().enumerate() {
        match read_script(alloc, source) {
            Ok(script) => scripts.push(script)?,
            Err(fault) => return Err(CommandFault::of_file(paths[session], fault)),
        }
    }
    Ok(scripts)
}

// Reads the moves of this path, if there is one.
fn read_orders<'a, S: Input + Drop>(
    alloc: Global,
    path: Option<&'a str>,
    source: Option<S>,
) -> Result<Vec<MoveOrder>, CommandFault<'a>>
    requires { is_some source ≡ is_some path }
    ensures moves { IfOk result (λ moves. GivesMoves (option_map S.remaining source) moves.items) }
    ensures fault { IfErr result (IsOfMoves S.remaining S.lasts path.entry source) }
{
    let Some(source) = source else {
        return Ok(Vec::new(alloc));
    };
    let Some(path) = path else { unreachable!() };
    match read_moves(alloc, source) {
        Ok(moves) => Ok(moves),
        Err(fault) => Err(CommandFault::of_file(path, fault)),
    }
}

// Prints the records of all answers. After an error a beginning of them was printed.
fn print_answers<A: Write>(
    alloc: Global,
    sink: &mut A,
    scripts: &[Script],
    answers: &[Answers],
    log: &[Entry],
) -> Result<(), CommandFault<'static>>
    requires few { length answers.now ≤ SESSIONS }
    requires each { AreAllAnswered scripts.now answers.now }
    requires placed { AreAllInLog log.now answers.now }
    ensures printed { OnOk result (Writes (A.contents sink.old) (A.contents sink.new)
        (AreAllAnswers log.now scripts.now 0 answers.now)) }
    ensures begun { OnErr result (BeginsToWrite (A.contents sink.old) (A.contents sink.new)
        (BeginAllAnswers log.now scripts.now 0 answers.now)) }
    ensures fault { IfErr result (IsOfWriting standard_output) }
{
    for (session, reported) in answers.iter().enumerate() {
        let script = scripts[session].parts();
        print_session(alloc, sink, session as u32, script, reported, log)?;
    }
    Ok(())
}

// Prints the records of the answers to a session's script. After an error a beginning of them was printed.
fn print_session<A: Write>(
    alloc: Global,
    sink: &mut A,
    session: u32,
    script: &[Part],
    reported: &Answers,
    log: &[Entry],
) -> Result<(), CommandFault<'static>>
    requires each { length reported.now ≡ length script.now }
    requires placed { AreInLog log.now reported.now }
    ensures printed { OnOk result (Writes (A.contents sink.old) (A.contents sink.new)
        (AreAnswers log.now session script.now reported.now)) }
    ensures begun { OnErr result (BeginsToWrite (A.contents sink.old) (A.contents sink.new)
        (OfFirst (AreAnswers log.now session script.now) reported.now)) }
    ensures fault { IfErr result (IsOfWriting standard_output) }
{
    match write_answers(alloc, sink, session, script, reported.as_slice(), log) {
        Ok(()) => Ok(()),
        Err(error) => Err(CommandFault::of_file(STANDARD_OUTPUT, error)),
    }
}

// Reports how the requests ended and how long they took, if a summary is wanted.
fn sum_up<R: Clock, E: Report>(
    alloc: Global,
    watch: &Watch<'_, R>,
    scripts: &[Script],
    outcome: &Outcome,
    errors: &mut E,
)
    ensures { E.reported errors.new ≡ E.reported errors.old }
{
    if !errors.sums_up() {
        return;
    }
    // If an allocation fails there is no summary.
    let Ok(tally) = tally_of(alloc, scripts, outcome) else {
        return;
    };
    if let Ok(times) = watch.sorted_times(alloc) {
        errors.sum_up(&Summary {
            tally: &tally,
            records: Some(records_in(scripts)),
            served_for: watch.served_for(),
            times: times.as_slice(),
        });
    }
}

// How many records the scripts have.
fn records_in(scripts: &[Script]) -> usize {
    let mut records = 0usize;
    for script in scripts {
        records = records.saturating_add(record_count(script));
    }
    records
}

// How the requests of all scripts ended.
fn tally_of(alloc: Global, scripts: &[Script], outcome: &Outcome) -> Result<Tally, NoMemory> {
    let mut tally = Tally::new(alloc);
    for (script, reported) in scripts.iter().zip(outcome.answers.as_slice()) {
        tally.add(&Tally::of_answers(
            alloc,
            script.parts(),
            reported.as_slice(),
            outcome.log.as_slice(),
        )?)?;
    }
    Ok(tally)
}
