ghost use Rattle.std.specs.Prelude.{◌≡◌, IfErr, OnOk};
ghost use Rattle.command_line.specs.Settings.{IsWithinLimits};

use crate::meaning::Inputs;
use crate::progress::NotingWriter;
use crate::report::{FaultReporter, Report};
use crate::streams::STANDARD_OUTPUT;
use crate::trouble::Trouble;
use command_line::{Settings, Status};
use files::send;
use std::io::{Stderr, Stdout};
use std::rt::{Clock, Files};
use std::sync::Wait;
use std::thread::Threads;

mod check;
mod migrate;
mod populate;
mod replay;
mod run;
mod script;
mod sim;

/// Carries out the command of the settings on files and returns the exit status. The input files are opened
/// first, in the order in which they are read; then the output files are made. So a file that can't be opened
/// or made is found before anything is read.
pub fn carry_out<R: Files + AllocGlobal + Clock + Threads + Wait + Sync>(
    rt: &R,
    stdout: Stdout,
    stderr: Stderr,
    settings: &Settings,
) -> Status
    requires { IsWithinLimits settings.now }
{
    match settings {
        Settings::Run(run) => run::carry_out(rt, stdout, stderr, run),
        Settings::Sim(sim) => sim::carry_out(rt, stdout, stderr, sim),
        Settings::Populate(populate) => populate::carry_out(rt, stderr, populate),
        Settings::Script(script) => script::carry_out(rt, stderr, script),
        Settings::Check(check) => check::carry_out(rt, stdout, stderr, check),
        Settings::Migrate(migrate) => migrate::carry_out(rt, stderr, migrate),
        Settings::Replay(replay) => replay::carry_out(rt, stdout, stderr, replay),
        Settings::Text(text) => print_text(rt, stdout, stderr, text.as_str()),
    }
}

// The exit status of a command.
fn ended(end: Result<(), Status>) -> Status
    ensures done { OnOk end (result ≡ Status.Success) }
    ensures early { IfErr end (λ status. result ≡ status) }
{
    match end {
        Ok(()) => Status::Success,
        Err(status) => status,
    }
}

// Prints the text that was asked for.
fn print_text<R: Files + AllocGlobal>(
    rt: &R,
    stdout: Stdout,
    stderr: Stderr,
    text: &str,
) -> Status {
    let trouble = Trouble::new();
    match send(&mut NotingWriter::new(stdout, &trouble), text.as_bytes()) {
        Ok(()) => Status::Success,
        Err(error) => {
            let fault = trouble.not_opened(STANDARD_OUTPUT, &error);
            FaultReporter::new(rt, stderr, false, false, Inputs::none(), &trouble).report(fault)
        }
    }
}
