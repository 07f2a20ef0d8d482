ghost use Rattle.std.specs.Prelude.{IfOk, IfErr};
ghost use Rattle.clap.specs.Words.{found_of};
ghost use Rattle.command_line.specs.CommandLine.{alone, sim_command, IsCommand};
ghost use Rattle.command_line.specs.Mistakes.{IsSimFault};
ghost use Rattle.command_line.specs.Settings.{IsPlayable};
ghost use Rattle.command_line.specs.Words.{AsksToSimulate};

use crate::settings::arguments::{
    argument, data, executors, flag, inbox, log, log_limit, named, number, option, quiet, same,
    word,
};
use crate::usage::UsageFault;
use clap::{ArgMatches, Command};
use routing::MOST_EXECUTORS;
use rows::{LARGEST_INBOX, LONGEST_LOG};
use std::alloc::{AllocError, Global};

/// The settings of `tpcc sim`: paths of files, how many executors there are, and the limits of the log and of
/// the executors' inboxes.
#[derive(Debug, Drop)]
pub struct SimSettings<'a> {
    pub data: &'a str,
    pub schedule: &'a str,
    /// 1 to 16.
    pub executors: u32,
    /// How many entries the log has room for: 1 to 16,777,216.
    pub log_limit: u32,
    /// How many messages the inbox of an executor has room for: 1 to 1,024.
    pub inbox: u32,
    /// Whether the lock tables are printed that an event has changed.
    pub locks: bool,
    pub log: Option<&'a str>,
    pub picture: Option<&'a str>,
    pub tables: Option<&'a str>,
    /// Whether only the result and faults are printed.
    pub quiet: bool,
}

/// The settings that the words of `tpcc sim` ask for. An error is: one path for two of log, picture and tables; or the first of
/// executors, log limit and inbox that is out of its range.
pub fn read<'a>(matches: &ArgMatches<'a>) -> Result<SimSettings<'a>, UsageFault>
    ensures limits { IfOk result IsPlayable }
    ensures asked { IfOk result (AsksToSimulate (found_of matches.now)) }
    ensures mistake { IfErr result (IsSimFault (found_of matches.now)) }
{
    let log = matches.get_str("log");
    let picture = matches.get_str("picture");
    let tables = matches.get_str("tables");
    if same(log, picture) || same(log, tables) || same(picture, tables) {
        return Err(UsageFault::SameOutput);
    }
    let executors = number(
        matches.get_str("executors"),
        2,
        1,
        MOST_EXECUTORS,
        "--executors",
    )?;
    let log_limit = number(
        matches.get_str("log-limit"),
        LONGEST_LOG,
        1,
        LONGEST_LOG,
        "--log-limit",
    )?;
    let inbox = number(
        matches.get_str("inbox"),
        LARGEST_INBOX,
        1,
        LARGEST_INBOX,
        "--inbox",
    )?;
    Ok(SimSettings {
        data: word(matches, "DATA"),
        schedule: word(matches, "SCHEDULE"),
        executors,
        log_limit,
        inbox,
        locks: matches.get_flag("locks"),
        log,
        picture,
        tables,
        quiet: matches.get_flag("quiet"),
    })
}

/// The command with its arguments and options. Returns AllocError if an allocation fails.
pub fn command<'a>(alloc: Global) -> Result<Command<'a>, AllocError>
    ensures { IfOk result (IsCommand (alone sim_command)) }
{
    let about = "Plays a schedule, event by event, and prints what comes of each event";
    let schedule = argument(
        alloc,
        "SCHEDULE",
        "What is to happen: submissions, moves, takes, sends and rounds, one after another",
    );
    let locks = flag(
        alloc,
        "locks",
        "Prints the lock table of a warehouse after each event that changed it",
    );
    let picture = option(
        alloc,
        "picture",
        "FILE",
        "Where a picture of the schedule is written, as SVG",
    );
    let tables = option(
        alloc,
        "tables",
        "FILE",
        "Where the tables are written, as a dataset, if no transaction is active and no move outstanding at the end",
    );
    let command = named(alloc, "sim", about, HELP)
        .arg(data(alloc))?
        .arg(schedule)?
        .arg(executors(alloc))?
        .arg(log_limit(alloc))?
        .arg(inbox(alloc))?
        .arg(locks)?
        .arg(log(alloc))?
        .arg(picture)?
        .arg(tables)?
        .arg(quiet(alloc))?;
    Ok(command)
}

// The text of `tpcc sim --help` after the arguments.
const HELP: &str = "\
Items of a schedule:
  S,session,number,..   the session, 0 to 63, submits the request that follows
  M,lo,hi,to            a move of the warehouses from lo to hi is ordered, at the executor to, to which they go
  T,executor            the executor, from 0, takes the first message of its inbox
  X,executor            the first item of its outbox is sent
  R                     rounds: each executor takes and sends in turn, until nothing can happen in a round, at most
                        100,000 rounds
Prints a record for each event: accepted, answered, ordered, took, sent, full, logged, moved or nothing; for R
only those that tell of a transaction or of the end of a move, and then quiet or limit.

With --log-limit N a log with N entries is full: a transaction that is to be logged is refused with code 14.
With --inbox N an inbox with N messages is full: a message for it goes back to the end of its outbox, and a
submission or a move whose inbox is full can't happen.

With --locks an event that changed the lock table of a warehouse is followed by the record locks,w and, for each
group that is held or waited for, its name, shared or exclusive with the ages of its holders, and waiting with the
ages of those that wait.

Exit statuses: 0 all was played, 1 a fault of a file, or `tpcc: not idle`: --tables was asked for and a
transaction is active or a move outstanding at the end, 2 the words are wrong, 3 the dataset is not consistent,
4 no memory";
