ghost use Rattle.std.specs.Prelude.{◌≡◌, codes, false, map, option_copied, IfOk, IfErr, IsTrue, OnOk};
ghost use Rattle.clap.specs.Words.{found_of};
ghost use Rattle.command_line.specs.CommandLine.{alone, script_command, IsCommand};
ghost use Rattle.command_line.specs.Mistakes.{AreFiles, HasPathTwice, IsFilesFault, IsNumberFault, IsNumberWord, IsOptionFault, IsRemoteFault, IsRemoteWord, IsScriptFault};
ghost use Rattle.command_line.specs.Settings.{HasFiles};
ghost use Rattle.command_line.specs.Words.{all_words, AsksForScripts, IsHome, IsRemote};

use crate::paths::are_one;
use crate::settings::arguments::{
    arguments, counted, data, moment, named, number, option, quiet, word,
};
use crate::settings::mix::mix;
use crate::usage::UsageFault;
use clap::{ArgMatches, Command};
use rows::{LONGEST_LOG, MOST_WAREHOUSES, SESSIONS};
use schema::Moment;
use std::alloc::{AllocError, Global};
use workload::Mix;

// A script has no more records than a log has entries.
const MOST_REQUESTS: u32 = LONGEST_LOG;

/// The settings of `tpcc script`: paths of files, and the parameters of the scripts.
#[derive(Debug, Drop)]
pub struct ScriptSettings<'a> {
    pub data: &'a str,
    /// 1 to 64 paths, all different. File s, from 0, gets the script of session s.
    pub files: Vec<&'a str>,
    /// How many records each script has, 0 to 16,777,216.
    pub requests: u32,
    pub seed: u32,
    pub mix: Mix,
    /// The home warehouse of all sessions, 1 to 256; if `None`, each session has its own.
    pub home: Option<u32>,
    /// Whether other warehouses take part.
    pub remote: bool,
    /// The moment of each script's first request.
    pub start: Moment,
    /// Whether only faults are printed.
    pub quiet: bool,
}

/// The settings that the words of `tpcc script` ask for. An error is: not 1 to 64 files or two of one path, or else out
/// of memory, or the first option, in the order of help, that is out of its limits.
pub fn read<'a>(alloc: Global, matches: &ArgMatches<'a>) -> Result<ScriptSettings<'a>, UsageFault>
    ensures limits { IfOk result HasFiles }
    ensures asked { IfOk result (AsksForScripts (found_of matches.now)) }
    ensures mistake { IfErr result (IsScriptFault (found_of matches.now)) }
{
    let files = matches.get_strs("FILE").unwrap_or(&[]);
    check_files(files)?;
    with_files(matches, files.to_vec(alloc)?)
}

// Checks that there are 1 to 64 files, all of different paths.
fn check_files(files: &[&str]) -> Result<(), UsageFault>
    ensures fit { OnOk result (AreFiles (map (λ file. file.now) files.now)) }
    ensures mistake { IfErr result (IsFilesFault (map (λ file. file.now) files.now)) }
{
    if !(1..=SESSIONS).contains(&files.len()) {
        return Err(UsageFault::FileCount);
    }
    if has_twice(files) {
        return Err(UsageFault::SameFile);
    }
    Ok(())
}

// The settings with these files and what the options ask for.
#[tactic(auto, using(crate::proofs::ScriptFaults::of_mix, crate::proofs::ScriptFaults::of_home, crate::proofs::ScriptFaults::of_remote, crate::proofs::ScriptFaults::of_moment))]
fn with_files<'a>(
    matches: &ArgMatches<'a>,
    files: Vec<&'a str>,
) -> Result<ScriptSettings<'a>, UsageFault>
    requires { map (λ path. path.now) files.items
        ≡ all_words (found_of matches.now) (codes "FILE") }
    ensures same { IfOk result (λ settings. settings.files.items ≡ files.entry.items) }
    ensures asked { IfOk result (AsksForScripts (found_of matches.now)) }
    ensures mistake { IfErr result (IsOptionFault (found_of matches.now)) }
{
    Ok(ScriptSettings {
        data: word(matches, "DATA"),
        files,
        requests: number(
            matches.get_str("requests"),
            1_000,
            0,
            MOST_REQUESTS,
            "--requests",
        )?,
        seed: number(matches.get_str("seed"), 1, 0, u32::MAX, "--seed")?,
        mix: mix(matches.get_str("mix"))?,
        home: home(matches.get_str("home"))?,
        remote: remote(matches.get_str("remote"))?,
        start: moment(matches.get_str("now"))?,
        quiet: matches.get_flag("quiet"),
    })
}

// Whether two of the paths are one.
fn has_twice(files: &[&str]) -> bool
    ensures twice { IsTrue result → HasPathTwice (map (λ file. file.now) files.now) }
    ensures once { result ≡ false → HasPathTwice (map (λ file. file.now) files.now) → ⊥ }
{
    for (place, file) in files.iter().enumerate() {
        for earlier in &files[..place] {
            if are_one(earlier, file) {
                return true;
            }
        }
    }
    false
}

// The home warehouse of an option.
fn home(words: Option<&str>) -> Result<Option<u32>, UsageFault>
    ensures value { IfOk result (IsHome (option_copied words.entry)) }
    ensures fits { OnOk result (IsNumberWord 1 MOST_WAREHOUSES (option_copied words.entry)) }
    ensures mistake { IfErr result
        (IsNumberFault (codes "--home") 1 MOST_WAREHOUSES (option_copied words.entry)) }
{
    match words {
        None => Ok(None),
        words => Ok(Some(number(words, 1, 1, MOST_WAREHOUSES, "--home")?)),
    }
}

// Whether other warehouses take part. They do if the option is absent.
fn remote(words: Option<&str>) -> Result<bool, UsageFault>
    ensures value { IfOk result (IsRemote (option_copied words.entry)) }
    ensures fits { OnOk result (IsRemoteWord (option_copied words.entry)) }
    ensures mistake { IfErr result
        (λ fault. (fault ≡ UsageFault.Remote) × IsRemoteFault (option_copied words.entry)) }
{
    match words {
        None | Some("on") => Ok(true),
        Some("off") => Ok(false),
        Some(_) => Err(UsageFault::Remote),
    }
}

/// The command with its arguments and options. Returns AllocError if an allocation fails.
pub fn command<'a>(alloc: Global) -> Result<Command<'a>, AllocError>
    ensures { IfOk result (IsCommand (alone script_command)) }
{
    let about =
        "Makes scripts of requests as the benchmark's terminals would, after clauses 2.4 to 2.8";
    let files = arguments(
        alloc,
        "FILE",
        "Where the scripts are written, one for each session, at most 64",
    );
    let command = named(alloc, "script", about, HELP)
        .arg(data(alloc))?
        .arg(files)?
        .arg(counted(
            alloc,
            "requests",
            "How many records each script has, 0 to 16,777,216, of which a Delivery is ten requests; 1,000 by default",
        ))?
        .arg(counted(
            alloc,
            "seed",
            "The seed of all draws, 0 to 4,294,967,295; 1 by default",
        ))?
        .arg(option(
            alloc,
            "mix",
            "LIST",
            "How many cards of each kind a deck has; N=45,P=43,O=4,D=4,L=4 by default",
        ))?
        .arg(option(
            alloc,
            "home",
            "W",
            "The home warehouse of all sessions, 1 to 256; each has its own by default",
        ))?
        .arg(option(
            alloc,
            "remote",
            "WORD",
            "Whether other warehouses take part, on or off; on by default",
        ))?
        .arg(option(
            alloc,
            "now",
            "MOMENT",
            "The date and time of each first request; 2024-01-01T00:00:00 by default",
        ))?
        .arg(quiet(alloc))?;
    Ok(command)
}

// The text of `tpcc script --help` after the arguments.
const HELP: &str = "\
Of DATA the header is read, which tells the scale, and nothing behind it. The first FILE is session 0's, the
next session 1's, and so on, as `tpcc run DATA FILE..` takes them. Without --home session s is at home in
warehouse s + 1, and again from the first on behind the last. Each request comes a second after the one before.
The same words and the same scale give the same bytes; docs/FORMATS.md tells each draw. Prints nothing.

The kinds of a script are dealt from a shuffled deck of cards, and again from the deck shuffled anew: N a
New-Order, P a payment, O an Order-Status, D a Delivery, L a Stock-Level. A kind has 0 to 1,000 cards, none if it
is left out of LIST, and one is there at least.

Exit statuses: 0 the scripts are written, 1 a fault of a file, 2 the words are wrong, or `tpcc: no warehouse: W`:
DATA has fewer warehouses than --home names, 4 no memory";
