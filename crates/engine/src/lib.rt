//! Executors in threads of their own that serve sessions, which ask scripts or interactively. `open` opens an engine over tables;
//! each executor works on messages and begins the requests of sessions; `close` returns the outcome once all executors have
//! ended. `serve` starts the threads; nothing else does.
#![tactic(auto)]

mod answers;
mod asking;
mod belongings;
mod client;
mod closed_engine;
mod closing;
mod engine;
mod executing;
mod gate;
mod idle;
mod message;
mod moves;
mod moving;
mod names;
mod opening;
mod opening_scale;
mod options;
mod outcome;
mod parking;
mod place;
mod serving;
mod session;
mod threads;

pub use answers::Answers;
pub use belongings::Executor;
pub use client::{Client, NoClient};
pub use closing::close;
pub use engine::Engine;
pub use executing::AtWork;
pub use gate::{Gate, OpenGate};
pub use idle::Idle;
pub use names::ServeNames;
pub use opening::{Opened, Opening, open};
pub use options::ServeOptions;
pub use outcome::{CloseFault, Outcome, ServeFault};
pub use range_moves::MoveOrder;
pub use routing::MOST_EXECUTORS;
pub use serving::serve;
pub use session::{AskFault, Left, Session, meet};
