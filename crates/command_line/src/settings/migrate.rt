ghost use Rattle.std.specs.Prelude.{IfOk};
ghost use Rattle.clap.specs.Words.{found_of};
ghost use Rattle.command_line.specs.CommandLine.{alone, migrate_command, IsCommand};
ghost use Rattle.command_line.specs.Words.{AsksToMigrate};

use crate::settings::arguments::{argument, named, quiet, word};
use clap::{ArgMatches, Command};
use std::alloc::{AllocError, Global};

/// The settings of `tpcc migrate`: the paths of two datasets, which may be one path.
#[derive(Debug, Drop)]
pub struct MigrateSettings<'a> {
    /// OLD, which is read.
    pub data: &'a str,
    /// NEW, which is written.
    pub file: &'a str,
    /// Whether only faults are printed.
    pub quiet: bool,
}

/// The settings that the words of `tpcc migrate` ask for.
pub fn read<'a>(matches: &ArgMatches<'a>) -> MigrateSettings<'a>
    ensures { AsksToMigrate (found_of matches.now) result }
{
    MigrateSettings {
        data: word(matches, "OLD"),
        file: word(matches, "NEW"),
        quiet: matches.get_flag("quiet"),
    }
}

/// The command with its arguments and options. Returns AllocError if an allocation fails.
pub fn command<'a>(alloc: Global) -> Result<Command<'a>, AllocError>
    ensures { IfOk result (IsCommand (alone migrate_command)) }
{
    let about = "Reads a dataset of either format, and writes the same tables in format 2";
    let data = argument(alloc, "OLD", "The dataset, of format 1 or 2");
    let file = argument(alloc, "NEW", "Where the dataset is written in format 2");
    let command = named(alloc, "migrate", about, HELP)
        .arg(data)?
        .arg(file)?
        .arg(quiet(alloc))?;
    Ok(command)
}

// The text of `tpcc migrate --help` after the arguments.
const HELP: &str = "\
The tables stay as they are, whether they are consistent or not. A set of tables has one text in format 2, so
a dataset of format 2 that has no fault comes out with the same bytes, but for blank lines, a byte order mark,
quotation marks and line ends. NEW may be OLD: it gets its name once it is whole, and until then what had the
name stays as it was. Prints nothing.

Exit statuses: 0 the dataset is written, 1 a fault of a file, 2 the words are wrong, 4 no memory";
