//! The commit log: the transactions that were carried out, in order, and the reply to each; and the passes of its
//! sessions. A pass travels with its session's request. It records what the session has logged, and how far the log had
//! reached when the pass was last there, without access to the log.
#![tactic(auto)]

mod asking;
mod entry;
mod limits;
mod log;
mod log_book;
mod log_names;
mod mine;
mod names;
mod pass;
mod replaying;
mod session_seat;
mod unnamed_log;
mod verdict;

pub use asking::Asking;
pub use entry::Entry;
pub use limits::{InboxLimit, Limits, LogLimit};
pub use log::Log;
pub use log_book::{AppendFault, LogBook};
pub use log_names::LogNames;
pub use mine::{Item, Mine};
pub use names::Names;
pub use pass::{Pass, meet};
pub use replaying::replay;
pub use session_seat::SessionSeat;
pub use unnamed_log::UnnamedLog;
pub use verdict::Replay;
