ghost use Rattle.std.specs.Prelude.{◌≡◌, is_some, IfOk};
ghost use Rattle.command_line.specs.Settings.{IsPlayable};

use crate::command_fault::CommandFault;
use crate::commands::ended;
use crate::meaning::{Format, Inputs};
use crate::opening::{Opener, Watched};
use crate::output::{Folders, NewFile};
use crate::progress::NotingWriter;
use crate::report::{FaultReporter, Report};
use crate::sim::sim_over;
use crate::trouble::Trouble;
use command_line::{SimSettings, Status};
use std::io::{Stderr, Stdout};
use std::rt::Files;

/// Opens the command's files, carries it out and returns the exit status.
pub fn carry_out<R: Files + AllocGlobal>(
    rt: &R,
    stdout: Stdout,
    stderr: Stderr,
    settings: &SimSettings,
) -> Status
    requires { IsPlayable settings.now }
{
    let trouble = Trouble::new();
    let inputs = Inputs {
        data: settings.data,
        moves: None,
        others: Format::Schedule,
    };
    let mut fault_reporter = FaultReporter::new(
        rt,
        stderr,
        settings.quiet,
        false,
        inputs,
        &trouble,
    );
    let opener = Opener::new(rt, stderr, settings.quiet, &trouble);
    match SimFiles::open(&opener, settings) {
        Ok(
            SimFiles {
                data,
                schedule,
                log,
                picture,
                tables,
            },
        ) => ended(sim_over(
            rt.alloc(),
            settings,
            data,
            schedule,
            &mut NotingWriter::new(stdout, &trouble),
            log,
            picture,
            tables,
            &mut Folders,
            &mut fault_reporter,
        )),
        Err(fault) => fault_reporter.report(fault),
    }
}

// The files of a simulation: those that are read, and those that are written.
struct SimFiles<'a, R: Files> {
    data: Watched<'a, R::File>,
    schedule: Watched<'a, R::File>,
    log: Option<NewFile<'a, R>>,
    picture: Option<NewFile<'a, R>>,
    tables: Option<NewFile<'a, R>>,
}

impl<'a, R: Files + AllocGlobal> SimFiles<'a, R> {
    fn open(
        opener: &Opener<'a, R>,
        settings: &SimSettings<'a>,
    ) -> Result<SimFiles<'a, R>, CommandFault<'a>>
        ensures log { IfOk result (λ files. is_some files.log ≡ is_some settings.now.log) }
        ensures picture { IfOk result
            (λ files. is_some files.picture ≡ is_some settings.now.picture) }
        ensures tables { IfOk result (λ files. is_some files.tables ≡ is_some settings.now.tables) }
    {
        let data = opener.open(settings.data)?;
        let schedule = opener.open(settings.schedule)?;
        let log = opener.make(settings.log)?;
        let picture = opener.make(settings.picture)?;
        let tables = opener.make(settings.tables)?;
        Ok(SimFiles {
            data,
            schedule,
            log,
            picture,
            tables,
        })
    }
}
