ghost use Rattle.std.specs.Prelude.{◌≡◌, is_some, IfOk};

use crate::command_fault::CommandFault;
use crate::meaning::{Format, Inputs};
use crate::opening::{Opener, Watched};
use crate::output::{Folders, NewFile};
use crate::progress::NotingWriter;
use crate::replay::replay_over;
use crate::report::{FaultReporter, Report};
use crate::trouble::Trouble;
use command_line::{ReplaySettings, Status};
use std::io::{Stderr, Stdout};
use std::rt::{Clock, Files};

/// Opens the command's files, carries it out and returns the exit status.
pub fn carry_out<R: Files + AllocGlobal + Clock>(
    rt: &R,
    stdout: Stdout,
    stderr: Stderr,
    settings: &ReplaySettings,
) -> Status {
    let trouble = Trouble::new();
    let inputs = Inputs {
        data: settings.data,
        moves: None,
        others: Format::Log,
    };
    let mut fault_reporter = FaultReporter::new(
        rt,
        stderr,
        settings.quiet,
        settings.summary,
        inputs,
        &trouble,
    );
    let opener = Opener::new(rt, stderr, settings.quiet, &trouble);
    match ReplayFiles::open(&opener, settings) {
        Ok(ReplayFiles { data, log, tables }) => replay_over(
            rt,
            rt.alloc(),
            settings,
            data,
            log,
            &mut NotingWriter::new(stdout, &trouble),
            tables,
            &mut Folders,
            &mut fault_reporter,
        ),
        Err(fault) => fault_reporter.report(fault),
    }
}

// The files of a replay: those that are read, and the one that is written.
struct ReplayFiles<'a, R: Files> {
    data: Watched<'a, R::File>,
    log: Watched<'a, R::File>,
    tables: Option<NewFile<'a, R>>,
}

impl<'a, R: Files + AllocGlobal> ReplayFiles<'a, R> {
    fn open(
        opener: &Opener<'a, R>,
        settings: &ReplaySettings<'a>,
    ) -> Result<ReplayFiles<'a, R>, CommandFault<'a>>
        ensures { IfOk result (λ files. is_some files.tables ≡ is_some settings.now.tables) }
    {
        let data = opener.open(settings.data)?;
        let log = opener.open(settings.log)?;
        let tables = opener.make(settings.tables)?;
        Ok(ReplayFiles { data, log, tables })
    }
}
