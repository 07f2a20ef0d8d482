//! Executors as threads run them: the messages between executors, and the steps of a transaction. The type of each message
//! carries what is proved of it, as an invariant, and identifies nothing else that is in flight. So a call requires only facts of
//! its own arguments, and no step inspects the other transactions in flight.
//!
//! A transaction between two phases is a `Flow`. With its `PhaseOwner`, which has all places of its slot's meeting, it is `Paused`.
//! `Paused::run_here` runs the next phase without messages if all its shards are at this executor and no lock conflicts.
//! `Paused::send_out` convenes the meeting for the phase and gives a place in it to each action. An `Act` goes to the `CountedShard`
//! of its warehouse, does its work there or waits, and its `Report` goes to the meeting, without a lock. The last report gets all
//! reports, which are of one phase, and the right to convene the meeting again: it returns the next phase, a `Commit` or a `Release`.
//! `Commit::commit` returns a `Release`: the answer, the claims to give back, and the phase owner. Claims of shards at other executors
//! go back by messages, each with a place in the slot's completion meeting: the `Completion`. The last report that claims are back
//! gets the `CompletionOwner`, which the next transaction of the slot needs.
#![tactic(auto)]

mod act;
mod beginning;
mod committing;
mod completion;
mod counted_shard;
mod flow;
mod following;
mod giving_back;
mod paused;
mod phase_owner;
mod release;
mod shards;

pub use act::{Act, Carried, Report};
pub use committing::Commit;
pub use completion::{Completion, CompletionOwner, CompletionPlace};
pub use counted_shard::CountedShard;
pub use flow::Flow;
pub use following::Following;
pub use giving_back::{Settle, Undo};
pub use paused::{Paused, Tried};
pub use phase_owner::{AgreedPhase, PhaseOwner, PhasePlace, PhaseReceipt, Said};
pub use release::{GivenBack, Release, Returns, SessionAnswer};
pub use shards::ExecutorShards;
