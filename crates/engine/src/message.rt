//! The messages between executors.
use commit_log::Names;
use executor::{Act, CompletionPlace, CountedShard, GivenBack};
use range_moves::MoveOrder;

/// A message to an executor. What is proved of it is the invariant of its own type.
#[derive(Drop)]
pub(crate) enum Message<J: Names> {
    /// The session of this place is to begin its next request here.
    Begin(usize),
    /// The transaction of this place, which was begun here, is finished, and all its claims are given back.
    Over(usize),
    /// An action asks for its locks at the shard of its warehouse.
    Act(Act<J>),
    /// The claims of an action of a finished transaction go back to their shard; the action has this place in the completion
    /// meeting.
    GivenBack(GivenBack<J>, CompletionPlace),
    /// A move of warehouses to this executor begins.
    Move(MoveOrder),
    /// The shard of this warehouse is to go to executor `to`.
    Fetch { home: u32, to: u32 },
    /// The shard of a warehouse, which is here from now on.
    Parcel(Box<CountedShard<J>>),
}
