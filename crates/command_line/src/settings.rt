ghost use Rattle.std.specs.Prelude.{◌≡◌, ◌⊎◌, map, option_copied, string_bytes, IfOk, IfErr};
ghost use Rattle.clap.specs.Words.{fault_of, found_of, kind_of, IsAmong};
ghost use Rattle.command_line.specs.Asked.{AsksFor, IsAsked, IsFaultOf, IsMistake, IsTextFault, IsVersion, MistakesHelp, help_asked, help_words};
ghost use Rattle.command_line.specs.CommandLine.{alone, program, program_alone, IsCommand};
ghost use Rattle.command_line.specs.Mistakes.{IsNoMemory};
ghost use Rattle.command_line.specs.Settings.{IsWithinLimits};

use crate::help;
use crate::usage::UsageFault;
use clap::error::ErrorKind;
use clap::{ArgMatches, Command, Error};
use std::alloc::{AllocError, Global};

mod arguments;
mod check;
mod migrate;
mod mix;
mod populate;
mod replay;
mod run;
mod script;
mod sim;

pub use check::CheckSettings;
pub use migrate::MigrateSettings;
pub use populate::PopulateSettings;
pub use replay::ReplaySettings;
pub use run::RunSettings;
pub use script::ScriptSettings;
pub use sim::SimSettings;

/// What the command line asks the program to do.
#[derive(Debug, Drop)]
pub enum Settings<'a> {
    Run(RunSettings<'a>),
    Sim(SimSettings<'a>),
    Populate(PopulateSettings<'a>),
    Script(ScriptSettings<'a>),
    Check(CheckSettings<'a>),
    Migrate(MigrateSettings<'a>),
    Replay(ReplaySettings<'a>),
    /// The text of help or the version. It ends with a line feed.
    Text(String),
}

/// Reads the words of the command line, of which the first is the program's name, and returns the settings that they
/// ask for. The settings are within their limits. An error is a mistake in the words, or out of memory.
pub fn read_words<'a>(alloc: Global, words: &'a [String]) -> Result<Settings<'a>, UsageFault>
    ensures limits { IfOk result IsWithinLimits }
    ensures asked { IfOk result (IsAsked (map string_bytes words.now)) }
    ensures mistake { IfErr result (IsMistake (map string_bytes words.now)) }
{
    if let Some(command) = help_asked(words) {
        return Ok(Settings::Text(help_text(alloc, command)?));
    }
    let matches = match program(alloc)?.try_get_matches_from(words) {
        Ok(matches) => matches,
        Err(error) => return text_or_fault(alloc, error),
    };
    match matches.subcommand() {
        Some((name, found)) => settings_of(alloc, name, found),
        None => Err(UsageFault::NoCommand),
    }
}

// The text of the version, if clap was asked for it, or else the mistake that clap found.
fn text_or_fault<'a>(alloc: Global, error: Error) -> Result<Settings<'a>, UsageFault>
    ensures limits { IfOk result IsWithinLimits }
    ensures text { IfOk result
        (λ settings. IsVersion settings × (kind_of error ≡ ErrorKind.DisplayVersion)) }
    ensures mistake { IfErr result (λ fault. IsNoMemory fault ⊎ (fault ≡ UsageFault.Words error)) }
{
    match error.kind() {
        ErrorKind::DisplayVersion => Ok(Settings::Text(error.to_string(alloc)?)),
        _ => Err(UsageFault::from(error)),
    }
}

// The settings of the command of that name, from the words that clap found for it.
fn settings_of<'a>(
    alloc: Global,
    name: &str,
    found: &ArgMatches<'a>,
) -> Result<Settings<'a>, UsageFault>
    ensures limits { IfOk result IsWithinLimits }
    ensures asked { IfOk result (AsksFor name.now (found_of found.now)) }
    ensures mistake { IfErr result
        (λ fault. IsNoMemory fault ⊎ IsFaultOf name.now (found_of found.now) fault) }
{
    match name {
        "run" => Ok(Settings::Run(run::read(alloc, found)?)),
        "sim" => Ok(Settings::Sim(sim::read(found)?)),
        "populate" => Ok(Settings::Populate(populate::read(found)?)),
        "script" => Ok(Settings::Script(script::read(alloc, found)?)),
        "check" => Ok(Settings::Check(check::read(found))),
        "migrate" => Ok(Settings::Migrate(migrate::read(found))),
        "replay" => Ok(Settings::Replay(replay::read(found))),
        _ => Err(UsageFault::NoCommand),
    }
}

// The command of `tpcc help COMMAND`, and `--help` for `tpcc help`.
fn help_asked<'a>(words: &'a [String]) -> Option<&'a str>
    ensures { option_copied result ≡ help_asked (map string_bytes words.now) }
{
    match words {
        [_, word] if word.as_str() == "help" => Some("--help"),
        [_, word, command] if word.as_str() == "help" => Some(command.as_str()),
        _ => None,
    }
}

// The help text of that command.
fn help_text(alloc: Global, command: &str) -> Result<String, UsageFault>
    ensures text { IfOk result
        (λ text. IsAmong ErrorKind.DisplayHelp (fault_of program (help_words command.now))) }
    ensures mistake { IfErr result (MistakesHelp command.now) }
{
    let words = help_words(alloc, command)?;
    text_of(alloc, words.as_slice())
}

// The help text that the words ask for.
fn text_of<'a>(alloc: Global, words: &'a [String]) -> Result<String, UsageFault>
    ensures text { IfOk result
        (λ text. IsAmong ErrorKind.DisplayHelp (fault_of program (map string_bytes words.now))) }
    ensures mistake { IfErr result (IsTextFault (map string_bytes words.now)) }
{
    match program(alloc)?.try_get_matches_from(words) {
        Ok(_) => Err(UsageFault::NoCommand),
        Err(error) => match error.kind() {
            ErrorKind::DisplayHelp => Ok(error.to_string(alloc)?),
            _ => Err(UsageFault::from(error)),
        },
    }
}

// The words that ask for help of that command.
fn help_words(alloc: Global, command: &str) -> Result<Vec<String>, AllocError>
    ensures { IfOk result (λ words. map string_bytes words.items ≡ help_words command.now) }
{
    let mut words = Vec::new(alloc);
    words.push(String::from_str(alloc, "tpcc")?)?;
    words.push(String::from_str(alloc, command)?)?;
    words.push(String::from_str(alloc, "--help")?)?;
    Ok(words)
}

// The program's own command line, without its commands.
fn program_alone<'a>(alloc: Global) -> Command<'a>
    ensures { IsCommand (alone program_alone) result }
{
    Command::new(alloc, "tpcc")
        .about("An order-entry engine whose answers can be checked, after TPC Benchmark C")
        .subcommand_required(true)
        .arg_required_else_help(true)
        .disable_help_subcommand(true)
        .version(help::VERSION)
        .after_help(help::PROGRAM)
}

// The program's command line with its commands.
fn program<'a>(alloc: Global) -> Result<Command<'a>, AllocError>
    ensures { IfOk result (IsCommand program) }
{
    let program = program_alone(alloc)
        .subcommand(populate::command(alloc)?)?
        .subcommand(script::command(alloc)?)?
        .subcommand(check::command(alloc)?)?
        .subcommand(migrate::command(alloc)?)?
        .subcommand(run::command(alloc)?)?
        .subcommand(replay::command(alloc)?)?
        .subcommand(sim::command(alloc)?)?;
    Ok(program)
}
