ghost use Rattle.std.specs.Prelude.{IfOk};
ghost use Rattle.clap.specs.Words.{found_of};
ghost use Rattle.command_line.specs.CommandLine.{alone, check_command, IsCommand};
ghost use Rattle.command_line.specs.Words.{AsksToCheck};

use crate::settings::arguments::{data, flag, named, quiet, word};
use clap::{ArgMatches, Command};
use std::alloc::{AllocError, Global};

/// The settings of `tpcc check`: the path of the dataset, and whether it is fresh and at full scale.
#[derive(Debug, Drop)]
pub struct CheckSettings<'a> {
    pub data: &'a str,
    pub fresh: bool,
    /// Whether only the result and faults are printed.
    pub quiet: bool,
}

/// The settings that the words of `tpcc check` ask for.
pub fn read<'a>(matches: &ArgMatches<'a>) -> CheckSettings<'a>
    ensures { AsksToCheck (found_of matches.now) result }
{
    CheckSettings {
        data: word(matches, "DATA"),
        fresh: matches.get_flag("fresh"),
        quiet: matches.get_flag("quiet"),
    }
}

/// The command with its arguments and options. Returns AllocError if an allocation fails.
pub fn command<'a>(alloc: Global) -> Result<Command<'a>, AllocError>
    ensures { IfOk result (IsCommand (alone check_command)) }
{
    let about =
        "Tells of each of the twelve conditions of consistency whether the dataset meets it";
    let fresh = flag(
        alloc,
        "fresh",
        "Asks condition 11 too, which holds of a fresh dataset at full scale",
    );
    let command = named(alloc, "check", about, HELP)
        .arg(data(alloc))?
        .arg(fresh)?
        .arg(quiet(alloc))?;
    Ok(command)
}

// The text of `tpcc check --help` after the arguments.
const HELP: &str = "\
Prints a line for each condition of TPC-C 5.11, clause 3.3.2: `1 ok` or `1 broken`, and so on to 12;
`11 skipped` without --fresh.

Exit statuses: 0 none is broken, 1 a fault of a file, 2 the words are wrong, 3 one is broken, 4 no memory";
