ghost use Rattle.std.specs.Prelude.{IfOk};
ghost use Rattle.clap.specs.Words.{found_of};
ghost use Rattle.command_line.specs.CommandLine.{alone, replay_command, IsCommand};
ghost use Rattle.command_line.specs.Words.{AsksToReplay};

use crate::settings::arguments::{argument, data, named, option, quiet, summary, word};
use clap::{ArgMatches, Command};
use std::alloc::{AllocError, Global};

/// The settings of `tpcc replay`: paths of files.
#[derive(Debug, Drop)]
pub struct ReplaySettings<'a> {
    pub data: &'a str,
    pub log: &'a str,
    pub tables: Option<&'a str>,
    /// Whether a summary is printed.
    pub summary: bool,
    /// Whether only the result and faults are printed.
    pub quiet: bool,
}

/// The settings that the words of `tpcc replay` ask for.
pub fn read<'a>(matches: &ArgMatches<'a>) -> ReplaySettings<'a>
    ensures { AsksToReplay (found_of matches.now) result }
{
    ReplaySettings {
        data: word(matches, "DATA"),
        log: word(matches, "LOG"),
        tables: matches.get_str("tables"),
        summary: matches.get_flag("summary"),
        quiet: matches.get_flag("quiet"),
    }
}

/// The command with its arguments and options. Returns AllocError if an allocation fails.
pub fn command<'a>(alloc: Global) -> Result<Command<'a>, AllocError>
    ensures { IfOk result (IsCommand (alone replay_command)) }
{
    let about = "Carries out a log's requests one at a time, and compares the replies";
    let entries = argument(
        alloc,
        "LOG",
        "The log of what was carried out from that dataset on",
    );
    let tables = option(
        alloc,
        "tables",
        "FILE",
        "Where the tables at the end are written, as a dataset, if the log is equal",
    );
    let command = named(alloc, "replay", about, HELP)
        .arg(data(alloc))?
        .arg(entries)?
        .arg(tables)?
        .arg(summary(alloc))?
        .arg(quiet(alloc))?;
    Ok(command)
}

// The text of `tpcc replay --help` after the arguments.
const HELP: &str = "\
Prints `equal N`, with the number of entries, or `differs P`, with the first place, from 0, whose request is
refused by its check or whose reply is another. FILE may be DATA: it gets its name once it is whole.

Exit statuses: 0 equal, 1 a fault of a file, 2 the words are wrong, 3 differs, 4 no memory";
