//! The engine as a world of events. One event happens at a time, and its effect is specified exactly. However events are
//! interleaved, all logged replies and the tables are those of a machine that carries out the log's requests one at a time, in
//! log order.
//!
//! No thread owns a transaction. A transaction is a flow graph: the actions of each phase go as messages to the executor that
//! has the rows, and their reports meet. The last report of a phase starts the next phase or the commit. Each warehouse's rows
//! are a slice of their own. A message is processed in the slice of its warehouse, by the executor that has the slice.
#![tactic(auto)]

mod admitting;
mod beginning;
mod committing;
mod delivering;
mod desk;
mod flight;
mod gathering;
mod happening;
mod homes;
mod moving;
mod opening;
mod playing;
mod queue;
mod queues;
mod sending;
mod setup;
mod shards;
mod simulating;
mod slots;
mod transaction_meetings;
mod watching;
mod working;
mod world;

pub use desk::{Active, Desk, SessionDesk};
pub use flight::{
    Act, Carried, Commit, Envelope, Flow, Item, Load, Message, Outgoing, Report, SessionAnswer,
    Transaction,
};
pub use opening::{OpenFault, Opening};
pub use queue::Queue;
pub use queues::Queues;
pub use sending::Release;
pub use setup::Setup;
pub use simulating::{Simulation, simulate};
pub use slots::{MOST_ACTIVE, Slots};
pub use transaction_meetings::{Completion, CompletionConvener, PhaseMeeting};
pub use watching::LockWatch;
pub use world::{Core, GatherFault, Parts, World};
