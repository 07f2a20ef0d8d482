//! Appends a transaction to the log.
ghost use Rattle.std.specs.Prelude.{◌≡◌, ◌<◌, All};
ghost use Rattle.requests.specs.Check.{IsAccepted};
ghost use Rattle.tickets.specs.Claims.{all_claims};
ghost use Rattle.commit_log.specs.Claimed.{IsCarriedOut};
ghost use Rattle.executor.specs.Commits.{Commits, commit_view};
ghost use Rattle.executor.specs.AgreedPhases.{OwnsPhaseOf};
ghost use Rattle.executor.specs.Flows.{IsAskedBy};
ghost use Rattle.transactions.specs.Acting.{AreUndoneBy};
ghost use Rattle.executor.specs.Transactions.{transaction_view};

use crate::flow::Transaction;
use crate::release::Returns;
use crate::{PhaseOwner, Release, SessionAnswer};
use commit_log::{Entry, Log, Names};
use requests::Request;
use std::marker::Model;
use transactions::{HeldClaims, Logged};

/// A transaction that was carried out and is to be logged.
///
/// Contracts see the transaction's age, its slot, the number of its request, the request, the pass, the claims of
/// its actions, by place, the reply, and the phase owner. Invariant: its session has asked it with this pass, and the pass is
/// unchanged since; the check accepts the request; the request was carried out under these claims with this reply; all that was
/// done under them can be undone; and the phase owner is that of the transaction's slot.
#[derive(Drop)]
pub struct Commit<J: Names> {
    transaction: Transaction<J>,
    held: HeldClaims<J>,
    phase_owner: PhaseOwner<J>,
}

impl<J: Names> Model for Commit<J> {
    ghost use Rattle.std.specs.Coded.{codes};
    ghost use Rattle.groups.specs.contracts.content.Content as content;
    ghost use Rattle.executor.specs.Commits.{CommitView};

    ghost Value = { CommitView };

    ghost coded = { Prim.hlevel (codes, content.the_row.coded) };

    ghost use Rattle.executor.specs.Commits.{CarriesCommit, commit_view};
    ghost use Rattle.executor.specs.Transactions.{transaction_view};

    ghost view = { λ c. commit_view c.phase_owner (transaction_view c.transaction) c.held c.transaction.body.value.reply };

    ghost invariant = { λ c. CarriesCommit J.opening (commit_view c.phase_owner (transaction_view c.transaction) c.held c.transaction.body.value.reply) };
}

impl<J: Names> Commit<J> {
    // Makes the commit of a transaction that was carried out under these claims.
    pub(crate) fn new(
        phase_owner: PhaseOwner<J>,
        transaction: Transaction<J>,
        held: HeldClaims<J>,
    ) -> Commit<J>
        requires asked { IsAskedBy transaction.number transaction.body.value.request
            transaction.pass }
        requires accepted { IsAccepted J.opening.scale transaction.body.value.request }
        requires carried_out { IsCarriedOut J.opening transaction.body.value.request
            (all_claims held) transaction.body.value.reply }
        requires undone { All (AreUndoneBy transaction.age) held }
        requires whole { OwnsPhaseOf transaction.slot phase_owner }
        ensures { result ≡ commit_view phase_owner (transaction_view transaction) held
            transaction.body.value.reply }
    {
        Commit {
            transaction,
            held,
            phase_owner,
        }
    }

    /// The session of the transaction.
    pub fn session(&self) -> u32
        ensures { result ≡ self.now.pass.session }
    {
        self.transaction.pass.session()
    }

    /// The number of the request, which the ten Deliveries of a record share.
    pub fn number(&self) -> u32
        ensures { result ≡ self.now.number }
    {
        self.transaction.number
    }

    /// The request.
    pub fn request(&self) -> &Request
        ensures { result.now ≡ self.now.request }
    {
        &self.transaction.body.request
    }

    /// Appends the transaction's entry to the log, or refuses the transaction if an allocation fails or the log is full. Returns
    /// its release: the claims are to be settled if it was logged and not rolled back, and else to be undone.
    pub fn commit(self, log: &mut Log<J>) -> Release<J>
        ensures { Commits J.most self log.old result log.new }
    {
        let Commit {
            transaction,
            mut held,
            phase_owner,
        } = self;
        let Transaction {
            age,
            slot,
            number,
            mut body,
            pass,
        } = transaction;
        let entry = Entry {
            session: pass.session(),
            number,
            request: body.take_request(),
            reply: body.take_reply(),
        };
        let Logged {
            answer,
            pass,
            is_settled,
        } = held.log(log, pass, entry);
        Release {
            recorded: SessionAnswer {
                age,
                number,
                pass,
                answer,
            },
            returns: Returns::new(slot, is_settled, held),
            phase_owner,
        }
    }
}
