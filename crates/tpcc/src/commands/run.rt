ghost use Rattle.std.specs.Prelude.{◌≡◌, length, is_some, IfOk};
ghost use Rattle.command_line.specs.Settings.{IsRunnable};

use crate::command_fault::CommandFault;
use crate::commands::ended;
use crate::meaning::{Format, Inputs};
use crate::opening::{Opener, Watched};
use crate::output::{Folders, NewFile};
use crate::progress::NotingWriter;
use crate::report::{FaultReporter, Report};
use crate::run::run_over;
use crate::trouble::Trouble;
use crate::watch::Watch;
use command_line::{RunSettings, Status};
use std::io::{Stderr, Stdout};
use std::rt::{Clock, Files};
use std::sync::Wait;
use std::thread::Threads;

/// Opens the command's files, carries it out and returns the exit status.
pub fn carry_out<R: Files + AllocGlobal + Clock + Threads + Wait + Sync>(
    rt: &R,
    stdout: Stdout,
    stderr: Stderr,
    settings: &RunSettings,
) -> Status
    requires { IsRunnable settings.now }
{
    let trouble = Trouble::new();
    let inputs = Inputs {
        data: settings.data,
        moves: settings.moves,
        others: Format::Script,
    };
    let mut fault_reporter = FaultReporter::new(
        rt,
        stderr,
        settings.quiet,
        settings.summary,
        inputs,
        &trouble,
    );
    let opener = Opener::new(rt, stderr, settings.quiet, &trouble);
    match RunFiles::open(&opener, settings) {
        Ok(
            RunFiles {
                data,
                mut scripts,
                moves,
                log,
                tables,
            },
        ) => ended(run_over(
            rt,
            rt.alloc(),
            settings,
            data,
            scripts.as_mut_slice(),
            moves,
            &mut NotingWriter::new(stdout, &trouble),
            log,
            tables,
            &mut Folders,
            Watch::new(rt, rt.alloc(), opener.terminal, fault_reporter.sums_up()),
            &mut fault_reporter,
        )),
        Err(fault) => fault_reporter.report(fault),
    }
}

// The files of a run: those that are read, and those that are written.
struct RunFiles<'a, R: Files> {
    data: Watched<'a, R::File>,
    scripts: Vec<Watched<'a, R::File>>,
    moves: Option<Watched<'a, R::File>>,
    log: Option<NewFile<'a, R>>,
    tables: Option<NewFile<'a, R>>,
}

impl<'a, R: Files + AllocGlobal> RunFiles<'a, R> {
    fn open(
        opener: &Opener<'a, R>,
        settings: &'a RunSettings<'a>,
    ) -> Result<RunFiles<'a, R>, CommandFault<'a>>
        ensures scripts { IfOk result
            (λ files. length files.scripts.items ≡ length settings.now.scripts.items) }
        ensures moves { IfOk result (λ files. is_some files.moves ≡ is_some settings.now.moves) }
        ensures log { IfOk result (λ files. is_some files.log ≡ is_some settings.now.log) }
        ensures tables { IfOk result (λ files. is_some files.tables ≡ is_some settings.now.tables) }
    {
        let data = opener.open(settings.data)?;
        let mut scripts = Vec::new(opener.rt.alloc());
        for path in &settings.scripts {
            scripts.push(opener.open(path)?)?;
        }
        let moves = opener.open_some(settings.moves)?;
        let log = opener.make(settings.log)?;
        let tables = opener.make(settings.tables)?;
        Ok(RunFiles {
            data,
            scripts,
            moves,
            log,
            tables,
        })
    }
}
