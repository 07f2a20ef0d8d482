use crate::meaning::Inputs;
use crate::opening::Opener;
use crate::output::{Folders, make};
use crate::populate::populate_over;
use crate::report::{FaultReporter, Report};
use crate::trouble::Trouble;
use command_line::{PopulateSettings, Status};
use std::io::Stderr;
use std::rt::Files;

/// Opens the command's files, carries it out and returns the exit status.
pub fn carry_out<R: Files + AllocGlobal>(
    rt: &R,
    stderr: Stderr,
    settings: &PopulateSettings,
) -> Status {
    let trouble = Trouble::new();
    let inputs = Inputs::none();
    let mut fault_reporter = FaultReporter::new(
        rt,
        stderr,
        settings.quiet,
        false,
        inputs,
        &trouble,
    );
    let opener = Opener::new(rt, stderr, settings.quiet, &trouble);
    match make(rt, settings.file, opener.terminal, &trouble) {
        Ok(file) => populate_over(
            rt.alloc(),
            settings,
            file,
            &mut Folders,
            &mut fault_reporter,
        ),
        Err(fault) => fault_reporter.report(fault),
    }
}
