//! What is in flight: the messages in inboxes and the items in outboxes.
use crate::transaction_meetings::CompletionConvener;
use commit_log::{Names, Pass};
use range_moves::Moving;
use requests::{Refusal, Reply, Request};
use tickets::Claims;
use transactions::{HeldClaims, Progress, Ran, Work};

/// A transaction in flight, with its session's pass.
#[derive(Drop)]
pub struct Transaction<J: Names> {
    /// The number of transactions admitted before this one.
    pub age: u64,
    /// Its slot at the desk, 0 to 63.
    pub slot: usize,
    /// The number of the request, as it was submitted.
    pub number: u32,
    pub request: Request,
    pub pass: Pass<J>,
    /// The claims of the actions that have done their work, by place.
    pub held: HeldClaims<J>,
}

/// A transaction and its progress. It travels with the action of the least place of its phase.
#[derive(Drop)]
pub struct Flow<J: Names> {
    pub transaction: Transaction<J>,
    pub progress: Progress,
}

/// An action of a phase.
#[derive(Drop)]
pub struct Act<J: Names> {
    /// Its place among all actions of its transaction, from 0. Places count on from phase to phase.
    pub place: usize,
    /// The age and slot of its transaction.
    pub age: u64,
    pub slot: usize,
    pub work: Work,
    /// Only the action of the least place of its phase carries the transaction.
    pub flow: Option<Flow<J>>,
}

/// What a waiting action keeps beside its work.
#[derive(Drop)]
pub struct Carried<J: Names> {
    /// The slot of its transaction.
    pub slot: usize,
    pub flow: Option<Flow<J>>,
}

/// A message to an executor.
#[derive(Drop)]
pub enum Message<J: Names> {
    /// The first phase of a transaction, with the works of its actions, by place.
    Start(Flow<J>, Vec<Work>),
    Act(Act<J>),
    /// Give the claims of an action back: its changes are committed. The first field is the slot of its transaction.
    Settle(usize, Claims<J>),
    /// Undo the changes of an action and give its claims back. The first field is the slot of its transaction.
    Undo(usize, Claims<J>),
}

/// The report of an action to the rendezvous of its phase.
#[derive(Drop)]
pub struct Report<J: Names> {
    /// The place and slot of the action.
    pub place: usize,
    pub slot: usize,
    pub flow: Option<Flow<J>>,
    pub ran: Ran<J>,
}

/// A transaction that was carried out and is to be logged.
#[derive(Drop)]
pub struct Commit<J: Names> {
    pub transaction: Transaction<J>,
    pub reply: Reply,
    pub completion: CompletionConvener,
}

/// An answer to a session, with the session's pass: the place of the entry in the log, or why the request was refused.
#[derive(Drop)]
pub struct SessionAnswer<J: Names> {
    pub age: u64,
    pub number: u32,
    pub pass: Pass<J>,
    pub answer: Result<u32, Refusal>,
}

/// What an event puts into an outbox, to be sent.
#[derive(Drop)]
pub enum Item<J: Names> {
    /// To the inbox of the executor to which messages for its warehouse are routed.
    Push(Message<J>),
    /// To the rendezvous of its phase.
    Report(Report<J>),
    /// An action of the transaction in this slot has given its claims back.
    Ended(usize),
    /// To the log.
    Commit(Commit<J>),
    /// To the session.
    Reply(SessionAnswer<J>),
}

/// An entry of an executor's inbox.
#[derive(Drop)]
pub struct Envelope<J: Names> {
    /// The executor that receives it.
    pub to: u32,
    pub load: Load<J>,
}

/// The content of an envelope.
#[derive(Drop)]
pub enum Load<J: Names> {
    /// Work for a transaction.
    Work(Message<J>),
    /// Work for a move.
    Move(Moving),
}

/// An entry of an executor's outbox.
#[derive(Drop)]
pub enum Outgoing<J: Names> {
    /// To an executor's inbox. The destination was read from the routing when this was made.
    Envelope(Envelope<J>),
    /// Any item but a push.
    Item(Item<J>),
    /// The slice of a warehouse has arrived where its move takes it.
    Arrived,
}
