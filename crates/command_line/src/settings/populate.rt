ghost use Rattle.std.specs.Prelude.{IfOk, IfErr};
ghost use Rattle.clap.specs.Words.{found_of};
ghost use Rattle.command_line.specs.CommandLine.{alone, populate_command, IsCommand};
ghost use Rattle.command_line.specs.Mistakes.{IsPopulateFault};
ghost use Rattle.command_line.specs.Words.{AsksToPopulate};

use crate::settings::arguments::{argument, counted, moment, named, number, option, quiet, word};
use crate::usage::UsageFault;
use clap::{ArgMatches, Command};
use rows::MOST_WAREHOUSES;
use schema::{Moment, Scale};
use std::alloc::{AllocError, Global};

/// The settings of `tpcc populate`: the path of the dataset, and its scale, seed and moment.
#[derive(Debug, Drop)]
pub struct PopulateSettings<'a> {
    pub file: &'a str,
    pub scale: Scale,
    pub seed: u32,
    /// The date and time of all rows.
    pub now: Moment,
    /// Whether only faults are printed.
    pub quiet: bool,
}

/// The settings that the words of `tpcc populate` ask for. An error is the first of the options, in the order of help,
/// that is out of its limits.
pub fn read<'a>(matches: &ArgMatches<'a>) -> Result<PopulateSettings<'a>, UsageFault>
    ensures asked { IfOk result (AsksToPopulate (found_of matches.now)) }
    ensures mistake { IfErr result (IsPopulateFault (found_of matches.now)) }
{
    let warehouses = number(
        matches.get_str("warehouses"),
        1,
        1,
        MOST_WAREHOUSES,
        "--warehouses",
    )?;
    let items = number(matches.get_str("items"), 100_000, 1, 100_000, "--items")?;
    let customers = number(matches.get_str("customers"), 3_000, 1, 3_000, "--customers")?;
    let Some(scale) = Scale::checked_new(warehouses, items, customers) else {
        unreachable!()
    };
    Ok(PopulateSettings {
        file: word(matches, "FILE"),
        scale,
        seed: number(matches.get_str("seed"), 1, 0, u32::MAX, "--seed")?,
        now: moment(matches.get_str("now"))?,
        quiet: matches.get_flag("quiet"),
    })
}

/// The command with its arguments and options. Returns AllocError if an allocation fails.
pub fn command<'a>(alloc: Global) -> Result<Command<'a>, AllocError>
    ensures { IfOk result (IsCommand (alone populate_command)) }
{
    let about = "Makes a dataset as the benchmark begins with, after clause 4.3";
    let command = named(alloc, "populate", about, HELP)
        .arg(argument(alloc, "FILE", "Where the dataset is written"))?
        .arg(counted(
            alloc,
            "warehouses",
            "How many warehouses, 1 to 256; 1 by default",
        ))?
        .arg(counted(
            alloc,
            "items",
            "How many items, 1 to 100,000; 100,000 by default",
        ))?
        .arg(counted(
            alloc,
            "customers",
            "How many customers a district has, 1 to 3,000; 3,000 by default",
        ))?
        .arg(counted(
            alloc,
            "seed",
            "The seed of all draws, 0 to 4,294,967,295; 1 by default",
        ))?
        .arg(option(
            alloc,
            "now",
            "MOMENT",
            "The date and time of all rows; 2024-01-01T00:00:00 by default",
        ))?
        .arg(quiet(alloc))?;
    Ok(command)
}

// The text of `tpcc populate --help` after the arguments.
const HELP: &str = "\
The same words give the same bytes. Prints nothing.

Exit statuses: 0 the dataset is written, 1 FILE can't be made or written, 2 the words are wrong, 4 no memory";
