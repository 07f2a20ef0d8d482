//! `tpcc`: the order-entry engine on the command line.
#![tactic(auto)]

mod check;
mod command_fault;
mod commands;
mod escaped;
mod latencies;
mod lines;
mod meaning;
mod migrate;
mod opening;
mod other_name;
mod output;
mod output_files;
mod populate;
mod progress;
mod replay;
mod report;
mod run;
mod script;
mod sim;
mod stopwatch;
mod streams;
mod summary;
mod tally;
mod trouble;
mod verdicts;
mod watch;

use command_line::{Status, UsageFault, read_words, words_of};
use std::process::ExitCode;

fn main(rt: HostRuntime) -> ExitCode {
    let status = match words_of(&rt) {
        Ok(words) => match read_words(rt.alloc(), words.as_slice()) {
            Ok(settings) => commands::carry_out(&rt, rt.stdout(), rt.stderr(), &settings),
            Err(fault) => reported(&rt, fault),
        },
        Err(fault) => reported(&rt, fault),
    };
    ExitCode::from(status.code())
}

// Prints a mistake in the command line and returns the exit status.
fn reported(rt: &impl Eprint, fault: UsageFault) -> Status {
    let _ = rt.eprint(&fault);
    fault.status()
}
