//! Histories: the events, the transactions that follow from a list of events with their answers, and when a history
//! fits a log. Schedules: which events are to happen.
#![tactic(auto)]

mod event;
mod laws;
mod schedule;

pub use event::{Event, EventAnswer};
pub use laws::{
    admission_fits, answer_fits, empty_history_fits, entry_fits, quiet_event_fits,
    unanswered_in_any_order,
};
pub use schedule::{LockChange, MOST_ROUNDS, Output, Scheduled};
