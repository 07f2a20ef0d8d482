//! The command line of `tpcc`: its words, the settings that they ask for, the messages for words that ask for none, and
//! the exit statuses of the program.
#![tactic(auto)]

mod help;
mod paths;
mod settings;
mod status;
mod usage;
mod words;

pub use settings::{
    CheckSettings, MigrateSettings, PopulateSettings, ReplaySettings, RunSettings, ScriptSettings,
    Settings, SimSettings, read_words,
};
pub use status::Status;
pub use usage::UsageFault;
pub use words::words_of;
