ghost use Rattle.std.specs.Prelude.{IfOk, IfErr};
ghost use Rattle.clap.specs.Words.{found_of};
ghost use Rattle.command_line.specs.CommandLine.{alone, run_command, IsCommand};
ghost use Rattle.command_line.specs.Mistakes.{IsRunFault};
ghost use Rattle.command_line.specs.Settings.{IsRunnable};
ghost use Rattle.command_line.specs.Words.{AsksToRun};

use crate::settings::arguments::{
    arguments, counted, data, executors, inbox, log, log_limit, named, number, option, quiet, same,
    summary, word,
};
use crate::usage::UsageFault;
use clap::{ArgMatches, Command};
use routing::MOST_EXECUTORS;
use rows::{LARGEST_INBOX, LONGEST_LOG, SESSIONS};
use std::alloc::{AllocError, Global};

// The most times that a request is tried that died or ran out of memory.
const MOST_TRIES: u32 = 10_000;

/// The settings of `tpcc run`: paths of files, how many executors there are, the limits of the log and of the executors' inboxes,
/// and how often a request is tried.
#[derive(Debug, Drop)]
pub struct RunSettings<'a> {
    pub data: &'a str,
    /// 1 to 64 paths. Script s, from 0, is that of session s.
    pub scripts: Vec<&'a str>,
    /// 1 to 16.
    pub executors: u32,
    /// How many entries the log has room for: 1 to 16,777,216.
    pub log_limit: u32,
    /// How many messages the inbox of an executor has room for: 1 to 1,024.
    pub inbox: u32,
    /// How often a request is tried at most if it died or ran out of memory: 1 to 10,000.
    pub tries: u32,
    /// The file of the moves that are ordered while the scripts are served.
    pub moves: Option<&'a str>,
    pub log: Option<&'a str>,
    pub tables: Option<&'a str>,
    /// Whether a summary is printed.
    pub summary: bool,
    /// Whether only the result and faults are printed.
    pub quiet: bool,
}

/// The settings that the words of `tpcc run` ask for. An error is: not 1 to 64 scripts; one path for log and tables; the first of
/// executors, log limit, inbox and tries that is out of its range; or out of memory.
pub fn read<'a>(alloc: Global, matches: &ArgMatches<'a>) -> Result<RunSettings<'a>, UsageFault>
    ensures limits { IfOk result IsRunnable }
    ensures asked { IfOk result (AsksToRun (found_of matches.now)) }
    ensures mistake { IfErr result (IsRunFault (found_of matches.now)) }
{
    let scripts = matches.get_strs("SCRIPT").unwrap_or(&[]);
    if !(1..=SESSIONS).contains(&scripts.len()) {
        return Err(UsageFault::ScriptCount);
    }
    let log = matches.get_str("log");
    let tables = matches.get_str("tables");
    if same(log, tables) {
        return Err(UsageFault::SameOutput);
    }
    let executors = number(
        matches.get_str("executors"),
        2,
        1,
        MOST_EXECUTORS,
        "--executors",
    )?;
    let log_limit = number(
        matches.get_str("log-limit"),
        LONGEST_LOG,
        1,
        LONGEST_LOG,
        "--log-limit",
    )?;
    let inbox = number(
        matches.get_str("inbox"),
        LARGEST_INBOX,
        1,
        LARGEST_INBOX,
        "--inbox",
    )?;
    let tries = number(matches.get_str("tries"), 100, 1, MOST_TRIES, "--tries")?;
    Ok(RunSettings {
        data: word(matches, "DATA"),
        scripts: scripts.to_vec(alloc)?,
        executors,
        log_limit,
        inbox,
        tries,
        moves: matches.get_str("moves"),
        log,
        tables,
        summary: matches.get_flag("summary"),
        quiet: matches.get_flag("quiet"),
    })
}

/// The command with its arguments and options. Returns AllocError if an allocation fails.
pub fn command<'a>(alloc: Global) -> Result<Command<'a>, AllocError>
    ensures { IfOk result (IsCommand (alone run_command)) }
{
    let about = "Serves scripts of requests and prints their answers, by session and number";
    let scripts = arguments(
        alloc,
        "SCRIPT",
        "Scripts of requests, one for each session, at most 64",
    );
    let tries = counted(
        alloc,
        "tries",
        "How often a request is tried that died or found no memory, 1 to 10,000; 100 by default",
    );
    let moves = option(
        alloc,
        "moves",
        "FILE",
        "Moves of warehouses to other executors, made while the scripts are served",
    );
    let tables = option(
        alloc,
        "tables",
        "FILE",
        "Where the tables are written as they are left, as a dataset",
    );
    let command = named(alloc, "run", about, HELP)
        .arg(data(alloc))?
        .arg(scripts)?
        .arg(executors(alloc))?
        .arg(log_limit(alloc))?
        .arg(inbox(alloc))?
        .arg(tries)?
        .arg(moves)?
        .arg(log(alloc))?
        .arg(tables)?
        .arg(summary(alloc))?
        .arg(quiet(alloc))?;
    Ok(command)
}

// The text of `tpcc run --help` after the arguments.
const HELP: &str = "\
The first SCRIPT is session 0, the next session 1, and so on. They are served at the same time by executors,
each in the order of its records, numbered from 0. An executor has the warehouses between it and the next:
warehouse w is at executor (w-1)*executors/warehouses, from 0. A move `lo,hi,to` takes the warehouses from
number lo to number hi to executor to, while requests go on; moves are made one after the other, all of them.
Prints an answer for each record, and ten for a Delivery, one for each district in turn:
  session,number,done,place,..     it stands in the log at this place, from 0; then the reply
  session,number,refused,code,..   it is not in the log, and changed nothing: 1 to 8 what is wrong with it,
                                   11 it died each time it was tried, 12 no memory, 14 the log is full
Amounts and balances are in cents, discounts in ten-thousandths. A customer is `#` and a number; without `#`
it is a last name, and where nobody has it the request is rolled back, as X,nocustomer.

The log gets its name once all answers are printed, and then the tables get theirs. What had the name stays
as it was until then.

Exit statuses: 0 all were answered, 1 a fault of a file, no thread, `tpcc: bad move: N`: there can't be the move
of this place, from 0, or `tpcc: unsettled`: not all was back when the executors had ended, 2 the words are
wrong, 3 the dataset is not consistent, 4 no memory";
