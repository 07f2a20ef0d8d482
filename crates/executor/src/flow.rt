//! A transaction between two phases.
ghost use Rattle.std.specs.Prelude.{◌≡◌, IfErr, IfOk};
ghost use Rattle.requests.specs.Check.{IsAccepted};
ghost use Rattle.transactions.specs.Progresses.{IsStartOf};
ghost use Rattle.executor.specs.Flows.{HasBegun, IsAskedBy};
ghost use Rattle.executor.specs.Transactions.{transaction_view};

use commit_log::{LogNames, Names, Pass};
use requests::{Fault, Reply, Request, StockLevel};
use schema::{DistrictKey, NoMemory};
use std::alloc::Global;
use std::marker::Model;
use std::mem;
use tickets::GroupNames;
use transactions::{HeldClaims, Progress, stock_level};

/// The large parts of a transaction, in a box. The box is made as the transaction begins and dropped when its entry or its
/// refusal is made, so a step that passes the transaction on copies none of it.
#[derive(Drop)]
pub(crate) struct FlowBody {
    pub(crate) request: Request,
    /// How far it has come, while it is in flight.
    pub(crate) progress: Progress,
    /// Its reply, once it was carried out.
    pub(crate) reply: Reply,
}

/// The identity of a transaction, its body, and its session's pass.
#[derive(Drop)]
pub(crate) struct Transaction<J: LogNames + GroupNames> {
    pub(crate) age: u64,
    pub(crate) slot: usize,
    pub(crate) number: u32,
    pub(crate) body: Box<FlowBody>,
    pub(crate) pass: Pass<J>,
}

/// A transaction between two phases, with its session's pass and the claims of the actions of its earlier phases.
///
/// Contracts see its age, its slot, the number of its request, the request, the pass, those claims by place, and
/// how far it has come. Invariant: its session has asked the request with this pass, and the pass is unchanged since; the request
/// has come so far under these claims; and all that was done under them can be undone.
#[derive(Drop)]
pub struct Flow<J: LogNames + GroupNames> {
    pub(crate) transaction: Transaction<J>,
    // The claims of the actions of earlier phases, by place.
    pub(crate) held: HeldClaims<J>,
}

impl<J: LogNames + GroupNames> Model for Flow<J> {
    ghost use Rattle.std.specs.Coded.{codes};
    ghost use Rattle.groups.specs.contracts.content.Content as content;
    ghost use Rattle.executor.specs.Flows.{FlowView};

    ghost Value = { FlowView };

    ghost coded = { Prim.hlevel (codes, content.the_row.coded) };

    ghost use Rattle.partitions.specs.Parts.{shared_of};
    ghost use Rattle.executor.specs.Flows.{CarriesFlow, flow_view};

    ghost view = { λ j. flow_view j.transaction j.held };

    ghost invariant = { λ j. CarriesFlow (shared_of J.opening) (flow_view j.transaction j.held) };
}

impl<J: Names> Flow<J> {
    /// Begins a transaction of this age in this slot. Requires that its session has asked the request with this pass and that the
    /// check accepts the request. If an allocation fails, returns the pass.
    pub fn begin(
        alloc: Global,
        age: u64,
        slot: usize,
        number: u32,
        request: &Request,
        pass: Pass<J>,
    ) -> Result<Flow<J>, Pass<J>>
        requires accepted { IsAccepted J.opening.scale request.now }
        requires asked { IsAskedBy number request.now pass }
        ensures begun { IfOk result (HasBegun age slot number request.now pass) }
        ensures err { IfErr result (λ back. back ≡ pass) }
    {
        let Ok(own) = request.try_clone() else {
            return Err(pass);
        };
        let Ok(given) = request.try_clone() else {
            return Err(pass);
        };
        let Ok(held) = HeldClaims::open(alloc) else {
            return Err(pass);
        };
        let Ok(body) = FlowBody::begin(alloc, own, given) else {
            return Err(pass);
        };
        Ok(Flow {
            transaction: Transaction {
                age,
                slot,
                number,
                body,
                pass,
            },
            held,
        })
    }

    /// Its age.
    pub fn age(&self) -> u64
        ensures { result ≡ self.now.age }
    {
        self.transaction.age
    }

    /// Its slot.
    pub fn slot(&self) -> usize
        ensures { result ≡ self.now.slot }
    {
        self.transaction.slot
    }
}

impl FlowBody {
    // The body of a transaction that begins with this request. The request is passed twice.
    fn begin(alloc: Global, request: Request, given: Request) -> Result<Box<FlowBody>, NoMemory>
        ensures request { IfOk result (λ body. body.value.request ≡ request) }
        ensures reached { IfOk result (λ body. IsStartOf given body.value.progress) }
    {
        let body = FlowBody {
            request,
            progress: Progress::begin(given),
            reply: no_reply(),
        };
        Ok(Box::new(alloc, body)?)
    }

    // Moves the request out. A placeholder is left.
    pub(crate) fn take_request(&mut self) -> Request
        ensures request { result ≡ self.old.request }
        ensures reply { self.new.reply ≡ self.old.reply }
    {
        mem::replace(&mut self.request, Request::StockLevel(nothing_asked()))
    }

    // Moves the reply out. A placeholder is left.
    pub(crate) fn take_reply(&mut self) -> Reply
        ensures { result ≡ self.old.reply }
    {
        mem::replace(&mut self.reply, no_reply())
    }
}

impl<J: Names> Transaction<J> {
    // Moves the progress out. A placeholder is left.
    pub(crate) fn take_progress(&mut self) -> Progress
        ensures progress { result ≡ self.old.body.value.progress }
        ensures same { transaction_view self.new ≡ transaction_view self.old }
    {
        let begun = stock_level::Progress::ReadNext(nothing_asked());
        mem::replace(&mut self.body.progress, Progress::StockLevel(begun))
    }

    // Sets how far it has come.
    #[inline(never)]
    pub(crate) fn put_progress(&mut self, progress: Progress)
        ensures progress { self.new.body.value.progress ≡ progress }
        ensures same { transaction_view self.new ≡ transaction_view self.old }
    {
        self.body.progress = progress;
    }

    // Sets its reply.
    #[inline(never)]
    pub(crate) fn put_reply(&mut self, reply: Reply)
        ensures reply { self.new.body.value.reply ≡ reply }
        ensures same { transaction_view self.new ≡ transaction_view self.old }
    {
        self.body.reply = reply;
    }
}

// A placeholder for a request.
fn nothing_asked() -> StockLevel {
    StockLevel {
        home: DistrictKey { w_id: 0, d_id: 0 },
        threshold: 0,
    }
}

// A placeholder for a reply.
fn no_reply() -> Reply {
    Reply::RolledBack(Fault::Range)
}
