ghost use Rattle.std.specs.Prelude.{◌≡◌, List, Option, None, OnOk};
ghost use Rattle.std.specs.Io.KnownBytes.{Appends};
ghost use Rattle.tpcc.specs.declared.command_fault.CommandFault as command_fault;
ghost use Rattle.tpcc.specs.Faults.{status_of, reported_line, Reports};

use crate::command_fault::CommandFault;
use crate::meaning::{Inputs, report_meaning};
use crate::summary::{Summary, report_summary};
use crate::trouble::Trouble;
use command_line::Status;
use std::io;
use std::io::{IsTerminal, Stderr, Write};
use std::rt::Files;

/// Receives the reports of a command: what it works on, the summary of its result, and why it ended early.
pub trait Report {
    // The faults reported so far, in order, where that is known.
    ghost reported: { Self → Option (List command_fault.CommandFault) };

    /// Reports the fault and returns the exit status. An error in printing it is ignored.
    fn report(&mut self, fault: CommandFault<'_>) -> Status
        ensures status { result ≡ status_of fault.entry }
        ensures reports { Reports (reported self.old) (reported self.new) fault.entry };

    /// Reports that work on so many items begins, if it may take a while: `doing` is the work, `of` the items.
    fn begin(&mut self, doing: &'static str, count: usize, of: &'static str)
        ensures { reported self.new ≡ reported self.old };

    /// Whether a summary is wanted.
    fn sums_up(&self) -> bool;

    /// Reports the summary.
    fn sum_up(&mut self, summary: &Summary)
        ensures { reported self.new ≡ reported self.old };
}

// Work on fewer items is not reported.
const MANY: usize = 20_000;

/// Reports on the standard error: a fault as a line that other programs can read and, on a terminal, what it means.
#[derive(Clone, Copy, Drop)]
pub struct FaultReporter<'a, R> {
    rt: &'a R,
    stderr: Stderr,
    // Where the beginning of work is reported, if anywhere.
    terminal: Option<Stderr>,
    sums_up: bool,
    inputs: Inputs<'a>,
    trouble: &'a Trouble,
}

impl<'a, R: Files + AllocGlobal> FaultReporter<'a, R> {
    /// A reporter on the standard error. It reports the beginning of work only if that is a terminal, and never if
    /// `quiet`; it reports the summary in the same cases, and if `summary` asks for it, unless `quiet`. `inputs` are
    /// the files that are read.
    pub fn new(
        rt: &'a R,
        stderr: Stderr,
        quiet: bool,
        summary: bool,
        inputs: Inputs<'a>,
        trouble: &'a Trouble,
    ) -> Self {
        let is_shown = !quiet && stderr.is_terminal();
        FaultReporter {
            rt,
            stderr,
            terminal: if is_shown { Some(stderr) } else { None },
            sums_up: is_shown || (summary && !quiet),
            inputs,
            trouble,
        }
    }
}

// Prints the line of the fault.
fn print<W: Write>(sink: &mut W, fault: CommandFault<'_>) -> io::Result<()>
    ensures { OnOk result
        (Appends (W.contents sink.old) (W.contents sink.new) (reported_line fault.entry)) }
{
    writeln!(sink, "tpcc: {fault}")
}

impl<R: Files + AllocGlobal> Report for FaultReporter<'_, R> {
    ghost reported = { λ _. None };

    fn report(&mut self, fault: CommandFault<'_>) -> Status {
        let _ = print(&mut self.stderr, fault);
        if self.stderr.is_terminal() {
            report_meaning(self.rt, &mut self.stderr, fault, self.inputs, self.trouble);
        }
        fault.status()
    }

    fn begin(&mut self, doing: &'static str, count: usize, of: &'static str) {
        if let Some(terminal) = &mut self.terminal {
            if count >= MANY {
                let _ = writeln!(terminal, "tpcc: {doing} {count} {of}");
            }
        }
    }

    fn sums_up(&self) -> bool {
        self.sums_up
    }

    fn sum_up(&mut self, summary: &Summary) {
        if self.sums_up {
            report_summary(&mut self.stderr, summary);
        }
    }
}
