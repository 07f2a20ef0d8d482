//! Options and arguments that several commands have.
ghost use Rattle.std.specs.Prelude.{◌≡◌, ◌≤◌, ◌↔◌, [], codes, option_copied, IfOk, IfErr, IsTrue, None, Ok};
ghost use Rattle.clap.specs.Words.{found_of};
ghost use Rattle.command_line.specs.CommandLine.{alone, argument, arguments, command, flag, option, IsArgument, IsCommand};
ghost use Rattle.command_line.specs.Mistakes.{AreOnePath, IsMomentFault, IsNumberFault, IsNumberWord};
ghost use Rattle.command_line.specs.Words.{word_of, IsNumber, IsMoment};

use crate::paths::are_one;
use crate::usage::UsageFault;
use clap::{Arg, ArgAction, ArgMatches, Command};
use files::{parse_moment, parse_whole};
use schema::Moment;
use std::alloc::Global;

/// A command with its help texts, `about` before the arguments and `after` behind them, and no arguments yet.
pub fn named<'a>(
    alloc: Global,
    name: &'static str,
    about: &'static str,
    after: &'static str,
) -> Command<'a>
    ensures { IsCommand (alone (command name.now [])) result }
{
    Command::new(alloc, name).about(about).after_help(after)
}

/// A required argument, recognized by its place.
pub fn argument<'a>(alloc: Global, id: &'static str, help: &'static str) -> Arg<'a>
    ensures { IsArgument (argument id.now) result }
{
    Arg::new(alloc, id).help(help).required(true)
}

/// One or more arguments, recognized by their place. At least one is required.
pub fn arguments<'a>(alloc: Global, id: &'static str, help: &'static str) -> Arg<'a>
    ensures { IsArgument (arguments id.now) result }
{
    Arg::new(alloc, id)
        .help(help)
        .required(true)
        .num_args(1..)
        .action(ArgAction::Append)
}

/// The option `--name`, which may be left out, with a value that help calls `value`.
pub fn option<'a>(
    alloc: Global,
    name: &'static str,
    value: &'static str,
    help: &'static str,
) -> Arg<'a>
    ensures { IsArgument (option name.now) result }
{
    Arg::new(alloc, name)
        .long(name)
        .value_name(value)
        .help(help)
}

/// The option `--name` without a value, which may be left out.
pub fn flag<'a>(alloc: Global, name: &'static str, help: &'static str) -> Arg<'a>
    ensures { IsArgument (flag name.now) result }
{
    Arg::new(alloc, name)
        .long(name)
        .help(help)
        .action(ArgAction::SetTrue)
}

/// The argument for the dataset that a command reads.
pub fn data<'a>(alloc: Global) -> Arg<'a>
    ensures { IsArgument (argument (codes "DATA")) result }
{
    argument(alloc, "DATA", "The dataset to start from")
}

/// The option for the log that a command writes.
pub fn log<'a>(alloc: Global) -> Arg<'a>
    ensures { IsArgument (option (codes "log")) result }
{
    option(
        alloc,
        "log",
        "FILE",
        "Where the log of what was carried out is written",
    )
}

/// The option that asks for a summary.
pub fn summary<'a>(alloc: Global) -> Arg<'a>
    ensures { IsArgument (flag (codes "summary")) result }
{
    flag(
        alloc,
        "summary",
        "Tells on the standard error what it came to, as on a terminal, unless --quiet",
    )
}

/// The option that turns off progress and summary.
pub fn quiet<'a>(alloc: Global) -> Arg<'a>
    ensures { IsArgument (flag (codes "quiet")) result }
{
    flag(
        alloc,
        "quiet",
        "Leaves out what is told on a terminal of progress, and any summary",
    )
}

/// An option whose value is a number.
pub fn counted<'a>(alloc: Global, name: &'static str, help: &'static str) -> Arg<'a>
    ensures { IsArgument (option name.now) result }
{
    option(alloc, name, "N", help)
}

/// The option for the number of executors.
pub fn executors<'a>(alloc: Global) -> Arg<'a>
    ensures { IsArgument (option (codes "executors")) result }
{
    counted(
        alloc,
        "executors",
        "How many executors there are, 1 to 16; 2 by default",
    )
}

/// The option for the limit of the log.
pub fn log_limit<'a>(alloc: Global) -> Arg<'a>
    ensures { IsArgument (option (codes "log-limit")) result }
{
    counted(
        alloc,
        "log-limit",
        "How many entries the log has room for, 1 to 16,777,216; 16,777,216 by default",
    )
}

/// The option for the limit of an inbox.
pub fn inbox<'a>(alloc: Global) -> Arg<'a>
    ensures { IsArgument (option (codes "inbox")) result }
{
    counted(
        alloc,
        "inbox",
        "How many messages the inbox of an executor has room for, 1 to 1,024; 1,024 by default",
    )
}

/// Whether both paths are there and are one path.
pub fn same(one: Option<&str>, other: Option<&str>) -> bool
    ensures { IsTrue result ↔ AreOnePath (option_copied one.entry) (option_copied other.entry) }
{
    match (one, other) {
        (Some(one), Some(other)) => are_one(one, other),
        _ => false,
    }
}

/// The word of an argument, or the empty word if it has none.
pub fn word<'a>(matches: &ArgMatches<'a>, id: &str) -> &'a str
    ensures { result.now ≡ word_of (found_of matches.now) id.now }
{
    match matches.get_str(id) {
        Some(word) => word,
        None => "",
    }
}

/// The number of an option, or `default` if the option is absent. Returns `UsageFault::Number` if its word is not a
/// number from `low` to `high`.
pub fn number(
    words: Option<&str>,
    default: u32,
    low: u32,
    high: u32,
    option: &'static str,
) -> Result<u32, UsageFault>
    requires { (low ≤ default) × (default ≤ high) }
    ensures limits { IfOk result (λ number. (low ≤ number) × (number ≤ high)) }
    ensures absent { words.entry ≡ None → result ≡ Ok default }
    ensures value { IfOk result (IsNumber (option_copied words.entry) default) }
    ensures fits { IfOk result (λ number. IsNumberWord low high (option_copied words.entry)) }
    ensures mistake { IfErr result
        (IsNumberFault option.entry.now low high (option_copied words.entry)) }
{
    let Some(words) = words else {
        return Ok(default);
    };
    match parse_whole(words, u64::from(low), u64::from(high)) {
        Ok(number) => Ok(number as u32),
        Err(_) => Err(UsageFault::Number { option, low, high }),
    }
}

/// The moment of an option, or the beginning of 2024 if the option is absent. Returns `UsageFault::Moment` if its word is
/// not a moment of the years 1970 to 9999.
pub fn moment(words: Option<&str>) -> Result<Moment, UsageFault>
    ensures value { IfOk result (IsMoment (option_copied words.entry)) }
    ensures mistake { IfErr result (IsMomentFault (option_copied words.entry)) }
{
    match words {
        None => Ok(Moment::new(1_704_067_200)),
        Some(words) => match parse_moment(words) {
            Ok(moment) => Ok(moment),
            Err(_) => Err(UsageFault::Moment),
        },
    }
}
