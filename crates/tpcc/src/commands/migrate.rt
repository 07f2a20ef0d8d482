use crate::command_fault::CommandFault;
use crate::meaning::Inputs;
use crate::migrate::migrate_over;
use crate::opening::{Opener, Watched};
use crate::output::{Folders, NewFile, make};
use crate::report::{FaultReporter, Report};
use crate::trouble::Trouble;
use command_line::{MigrateSettings, Status};
use std::io::Stderr;
use std::rt::Files;

/// Opens the command's files, carries it out and returns the exit status.
pub fn carry_out<R: Files + AllocGlobal>(
    rt: &R,
    stderr: Stderr,
    settings: &MigrateSettings,
) -> Status {
    let trouble = Trouble::new();
    let inputs = Inputs::dataset(settings.data);
    let mut fault_reporter = FaultReporter::new(
        rt,
        stderr,
        settings.quiet,
        false,
        inputs,
        &trouble,
    );
    let opener = Opener::new(rt, stderr, settings.quiet, &trouble);
    match MigrateFiles::open(&opener, settings) {
        Ok(MigrateFiles { data, file }) => migrate_over(
            rt.alloc(),
            settings,
            data,
            file,
            &mut Folders,
            &mut fault_reporter,
        ),
        Err(fault) => fault_reporter.report(fault),
    }
}

// The files of the command: the dataset that is read, with its progress on a terminal, and the one that is written.
struct MigrateFiles<'a, R: Files> {
    data: Watched<'a, R::File>,
    file: NewFile<'a, R>,
}

impl<'a, R: Files + AllocGlobal> MigrateFiles<'a, R> {
    fn open(
        opener: &Opener<'a, R>,
        settings: &MigrateSettings<'a>,
    ) -> Result<MigrateFiles<'a, R>, CommandFault<'a>> {
        let data = opener.open(settings.data)?;
        let file = make(opener.rt, settings.file, opener.terminal, opener.trouble)?;
        Ok(MigrateFiles { data, file })
    }
}
