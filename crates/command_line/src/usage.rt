use crate::status::Status;
use clap::error::ErrorKind;
use std::alloc::AllocError;
use std::fmt;
use thiserror::Error;

/// A mistake in the words of the command line. Its `Display` is the text for the user, which ends with a line feed.
#[derive(Debug, Drop, Error)]
pub enum UsageFault {
    /// Clap's error: the words are not understood or ask for help, or an allocation failed.
    #[error(fmt = write_words)]
    Words(clap::Error),
    /// The word at this place is not UTF-8. The program's name is at place 0, and the words after it count from 1.
    /// `shown` is the word, with bytes that are not printable ASCII as numbers.
    #[error("error: argument {place} is not UTF-8: {shown}\n")]
    NotText {
        place: usize,
        shown: String,
    },
    /// A word of more than 4,096 bytes is not UTF-8, and all shorter ones are.
    #[error("error: an argument of more than 4096 bytes is not UTF-8\n")]
    LongNotText,
    /// The words name no command.
    #[error("error: no command: try `tpcc --help`\n")]
    NoCommand,
    /// The number of scripts of `tpcc run` is not 1 to 64.
    #[error("error: `tpcc run` takes 1 to 64 scripts\n")]
    ScriptCount,
    /// Two output files have one path.
    #[error("error: two files that are to be written have one path\n")]
    SameOutput,
    /// The number of files of `tpcc script` is not 1 to 64.
    #[error("error: `tpcc script` takes 1 to 64 files\n")]
    FileCount,
    /// Two files of `tpcc script` have one path.
    #[error("error: two scripts have the same file\n")]
    SameFile,
    /// The word of `--mix` is not a mix.
    #[error("error: --mix takes cards of kinds, 0 to 1000 of each and one at least, as N=45,P=43,O=4,D=4,L=4\n")]
    Mix,
    /// The word of `--remote` is neither `on` nor `off`.
    #[error("error: --remote takes on or off\n")]
    Remote,
    /// The word of this option is not a number from `low` to `high`.
    #[error("error: {option} takes a number from {low} to {high}\n")]
    Number {
        option: &'static str,
        low: u32,
        high: u32,
    },
    /// The word of `--now` is not a moment.
    #[error("error: --now takes a date and time, as 2024-01-01T00:00:00\n")]
    Moment,
}

// Writes the text of clap's error, or that there is no memory.
fn write_words<W: fmt::Write>(error: &clap::Error, f: &mut fmt::Formatter<W>) -> fmt::Result {
    match error.kind() {
        ErrorKind::OutOfMemory => f.write_str("tpcc: no memory\n"),
        _ => write!(f, "{error}"),
    }
}

impl UsageFault {
    ghost use Rattle.std.specs.Prelude.{◌≡◌};
    ghost use Rattle.command_line.specs.Status.{status_of_usage};

    /// How the program ends after this mistake.
    pub fn status(&self) -> Status
        ensures { result ≡ status_of_usage self.now }
    {
        match self {
            UsageFault::Words(error) if error.kind() == ErrorKind::OutOfMemory => Status::NoMemory,
            _ => Status::Usage,
        }
    }
}

impl From<clap::Error> for UsageFault {
    ghost use Rattle.std.specs.Prelude.{◌≡◌};
    ghost use Rattle.command_line.specs.declared.usage.UsageFault.TheVariants.{Words};

    ghost from_gives = { λ error fault. fault ≡ Words error };

    fn from(error: clap::Error) -> UsageFault {
        UsageFault::Words(error)
    }
}

impl From<AllocError> for UsageFault {
    ghost use Rattle.command_line.specs.Mistakes.{IsNoMemory};

    ghost from_gives = { λ _ fault. IsNoMemory fault };

    fn from(error: AllocError) -> UsageFault {
        UsageFault::Words(clap::Error::from(error))
    }
}
