//! A finished transaction: its answer, and the claims to give back.
ghost use Rattle.std.specs.Prelude.{◌≡◌, [], All, IfNone, IfSome, length};
ghost use Rattle.executor.specs.Flows.{IsAskedBy};
ghost use Rattle.transactions.specs.Acting.{AreUndoneBy};
ghost use Rattle.executor.specs.Answers.{AreGiven, IsGiven, IsRecordedBy, MayBeRefused, returns_view};
ghost use Rattle.executor.specs.AgreedPhases.{OwnsPhaseOf};
ghost use Rattle.transactions.specs.Works.{home_of_claims};
ghost use Rattle.executor.specs.Released.{IsGivenBack, IsGivenFor, giving_of, refused};
ghost use Rattle.executor.specs.Transactions.{transaction_view};

use crate::flow::Transaction;
use crate::{PhaseOwner, Settle, Undo};
use commit_log::{Names, Pass};
use requests::Refusal;
use std::marker::Model;
use tickets::Claims;
use transactions::HeldClaims;

/// The answer to a session, with the session's pass: the place of the transaction's entry in the log, or why it was refused. The
/// entry contains the reply.
///
/// Contracts see the transaction's age, the number of the request, the pass, and the answer. Invariant: the pass
/// has seen and logged what it had when the session asked, and this answer; and a refused request may be refused for this reason.
#[derive(Drop)]
pub struct SessionAnswer<J: Names> {
    pub(crate) age: u64,
    pub(crate) number: u32,
    pub(crate) pass: Pass<J>,
    pub(crate) answer: Result<u32, Refusal>,
}

impl<J: Names> Model for SessionAnswer<J> {
    ghost use Rattle.executor.specs.Answers.{AnswerView};

    ghost Value = { AnswerView };

    ghost use Rattle.executor.specs.Answers.{CarriesAnswer, answer_view};

    ghost view = { λ t. answer_view t.age t.number t.pass t.answer };

    ghost invariant = { λ t. CarriesAnswer J.most (answer_view t.age t.number t.pass t.answer) };
}

impl<J: Names> SessionAnswer<J> {
    /// The session to which it goes.
    pub fn session(&self) -> u32
        ensures { result ≡ self.now.pass.session }
    {
        self.pass.session()
    }

    /// The number of the request, which the ten Deliveries of a record share.
    pub fn number(&self) -> u32
        ensures { result ≡ self.now.number }
    {
        self.number
    }

    /// Its parts: the pass, and the answer to the request that the session asked with it.
    pub fn into_parts(self) -> (Pass<J>, Result<u32, Refusal>)
        ensures pass { result.0 ≡ self.pass }
        ensures answer { result.1 ≡ self.answer }
        ensures recorded { IsRecordedBy J.most self.pass.asks self.pass self.answer }
    {
        (self.pass, self.answer)
    }
}

/// The claims of a finished transaction that are still to give back, one action after another.
///
/// Contracts see the slot of the transaction, whether the claims are settled, and the claims of each action, by place. Invariant:
/// if they are settled, what they left is committed; else all that was done under them can be undone.
#[derive(Drop)]
pub struct Returns<J: Names> {
    slot: usize,
    is_settled: bool,
    held: HeldClaims<J>,
}

impl<J: Names> Model for Returns<J> {
    ghost use Rattle.std.specs.Coded.{codes};
    ghost use Rattle.groups.specs.contracts.content.Content as content;
    ghost use Rattle.executor.specs.Answers.{ReturnsView};

    ghost Value = { ReturnsView };

    ghost coded = { Prim.hlevel (codes, content.the_row.coded) };

    ghost use Rattle.executor.specs.Answers.{AreGiven, returns_view};

    ghost view = { λ r. returns_view r.slot r.is_settled r.held };

    ghost invariant = { λ r. AreGiven r.is_settled r.held };
}

/// The claims of an action on their way back.
#[derive(Drop)]
pub enum GivenBack<J: Names> {
    Settle(Settle<J>),
    Undo(Undo<J>),
}

impl<J: Names> GivenBack<J> {
    /// The slot of their transaction.
    pub fn slot(&self) -> usize
        ensures { result ≡ (giving_of self.now).slot }
    {
        match self {
            GivenBack::Settle(settle) => settle.slot(),
            GivenBack::Undo(undo) => undo.slot(),
        }
    }

    /// The W_ID of the warehouse of the claims' slice.
    pub fn home(&self) -> u32
        ensures { result ≡ home_of_claims (giving_of self.now).claims }
    {
        match self {
            GivenBack::Settle(settle) => settle.home(),
            GivenBack::Undo(undo) => undo.home(),
        }
    }
}

impl<J: Names> Returns<J> {
    pub(crate) fn new(slot: usize, is_settled: bool, held: HeldClaims<J>) -> Returns<J>
        requires { AreGiven is_settled held }
        ensures { result ≡ returns_view slot is_settled held }
    {
        Returns {
            slot,
            is_settled,
            held,
        }
    }

    /// The slot of the transaction.
    pub fn slot(&self) -> usize
        ensures { result ≡ self.now.slot }
    {
        self.slot
    }

    /// The number of actions whose claims are still to give back.
    pub fn len(&self) -> usize
        ensures { result ≡ length self.now.held }
    {
        self.held.len()
    }

    /// The claims of the last action that has some, to give back. Never allocates.
    pub fn next_back(&mut self) -> Option<GivenBack<J>>
        ensures some { IfSome result (IsGivenBack self.old self.new) }
        ensures none { IfNone result ((self.old.held ≡ []) × (self.new ≡ self.old)) }
    {
        match self.held.take_last() {
            Some(claims) => Some(given_back(self.slot, self.is_settled, claims)),
            None => None,
        }
    }
}

// Makes the message that gives the claims of an action back.
fn given_back<J: Names>(slot: usize, is_settled: bool, claims: Claims<J>) -> GivenBack<J>
    requires { IsGiven is_settled claims }
    ensures { IsGivenFor slot is_settled claims result }
{
    if is_settled {
        GivenBack::Settle(Settle { slot, claims })
    } else {
        GivenBack::Undo(Undo { slot, claims })
    }
}

/// A finished transaction.
///
/// Contracts see its answer, the claims to give back, and its phase owner. Invariant: the phase owner is that of the
/// transaction's slot. The next transaction may take the slot once all claims are given back.
#[derive(Drop)]
pub struct Release<J: Names> {
    pub(crate) recorded: SessionAnswer<J>,
    pub(crate) returns: Returns<J>,
    pub(crate) phase_owner: PhaseOwner<J>,
}

impl<J: Names> Model for Release<J> {
    ghost use Rattle.std.specs.Coded.{codes};
    ghost use Rattle.groups.specs.contracts.content.Content as content;
    ghost use Rattle.executor.specs.Answers.{ReleaseView};

    ghost Value = { ReleaseView };

    ghost coded = { Prim.hlevel (codes, content.the_row.coded) };

    ghost use Rattle.executor.specs.Answers.{release_view};
    ghost use Rattle.executor.specs.AgreedPhases.{OwnsPhaseOf};

    ghost view = { λ r. release_view r.recorded r.returns r.phase_owner };

    ghost invariant = { λ r. OwnsPhaseOf r.returns.slot r.phase_owner };
}

impl<J: Names> Release<J> {
    // Refuses a transaction whose actions hold these claims.
    pub(crate) fn refused(
        phase_owner: PhaseOwner<J>,
        transaction: Transaction<J>,
        held: HeldClaims<J>,
        why: Refusal,
    ) -> Release<J>
        requires asked { IsAskedBy transaction.number transaction.body.value.request
            transaction.pass }
        requires may { MayBeRefused J.most transaction.pass.reached transaction.body.value.request why }
        requires undone { All (AreUndoneBy transaction.age) held }
        requires whole { OwnsPhaseOf transaction.slot phase_owner }
        ensures { result ≡ refused phase_owner (transaction_view transaction) held why }
    {
        let Transaction {
            age,
            slot,
            number,
            body: _,
            pass,
        } = transaction;
        let recorded = SessionAnswer {
            age,
            number,
            pass,
            answer: Err(why),
        };
        Release {
            recorded,
            returns: Returns::new(slot, false, held),
            phase_owner,
        }
    }

    /// Its parts: the answer, the claims to give back, and the phase owner, which is that of the transaction's slot.
    pub fn into_parts(self) -> (SessionAnswer<J>, Returns<J>, PhaseOwner<J>)
        ensures recorded { result.0 ≡ self.recorded }
        ensures returns { result.1 ≡ self.returns }
        ensures phase_owner { result.2 ≡ self.phase_owner }
        ensures whole { OwnsPhaseOf self.returns.slot self.phase_owner }
    {
        (self.recorded, self.returns, self.phase_owner)
    }
}
