use crate::check::check_over;
use crate::meaning::Inputs;
use crate::opening::Opener;
use crate::progress::NotingWriter;
use crate::report::{FaultReporter, Report};
use crate::trouble::Trouble;
use command_line::{CheckSettings, Status};
use std::io::{Stderr, Stdout};
use std::rt::Files;

/// Opens the command's files, carries it out and returns the exit status.
pub fn carry_out<R: Files + AllocGlobal>(
    rt: &R,
    stdout: Stdout,
    stderr: Stderr,
    settings: &CheckSettings,
) -> Status {
    let trouble = Trouble::new();
    let inputs = Inputs::dataset(settings.data);
    let mut fault_reporter = FaultReporter::new(
        rt,
        stderr,
        settings.quiet,
        false,
        inputs,
        &trouble,
    );
    let opener = Opener::new(rt, stderr, settings.quiet, &trouble);
    match opener.open(settings.data) {
        Ok(data) => check_over(
            rt.alloc(),
            settings,
            data,
            &mut NotingWriter::new(stdout, &trouble),
            &mut fault_reporter,
        ),
        Err(fault) => fault_reporter.report(fault),
    }
}
