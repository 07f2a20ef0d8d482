//! Appends a transaction to the log.
ghost use Rattle.std.specs.Prelude.{◌≡◌};
ghost use Rattle.requests.specs.Check.{IsAccepted};
ghost use Rattle.tickets.specs.Claims.{all_claims};
ghost use Rattle.commit_log.specs.Claimed.{IsCarriedOut};
ghost use Rattle.transactions.specs.Logged as spec;
ghost use Rattle.transactions.specs.Logged.{Logs, log_and_claims};

use crate::HeldClaims;
use commit_log::{AppendFault, Entry, Log, Names, Pass};
use requests::{Refusal, Reply};

/// The result of `HeldClaims::log`.
#[derive(Drop)]
pub struct Logged<J: Names> {
    /// The place of the transaction's entry in the log, or why it is refused.
    pub answer: Result<u32, Refusal>,
    /// The pass of its session, after that.
    pub pass: Pass<J>,
    /// Whether the claims of its actions are to be settled; else what was done under them is to be undone.
    pub is_settled: bool,
}

impl<J: Names> HeldClaims<J> {
    /// Appends the entry, which was carried out under these claims, to the log: from then on what they left is committed, unless
    /// the entry is a rollback. Refuses it if an allocation fails or the log is full; the log and the claims are unchanged then.
    pub fn log(&mut self, log: &mut Log<J>, pass: Pass<J>, entry: Entry) -> Logged<J>
        requires session { entry.session ≡ pass.session }
        requires number { pass.asks.number ≡ entry.number }
        requires request { pass.asks.request ≡ entry.request }
        requires accepted { IsAccepted J.opening.scale entry.request }
        requires carried_out { IsCarriedOut J.opening entry.request
            (all_claims self.old) entry.reply }
        ensures { Logs J.most entry pass (log_and_claims log.old self.old) result
            (log_and_claims log.new self.new) }
    {
        let is_settled = is_settled(&entry.reply);
        match log.append(&mut self.places, pass, entry) {
            Ok((place, pass)) => Logged {
                answer: Ok(place),
                pass,
                is_settled,
            },
            Err((fault, pass)) => Logged {
                answer: Err(why_refused(fault)),
                pass,
                is_settled: false,
            },
        }
    }
}

// Whether the claims are to be settled: those of a rollback are to be undone.
fn is_settled(reply: &Reply) -> bool
    ensures { result ≡ spec.is_settled reply.now }
{
    !matches!(reply, Reply::RolledBack(_))
}

// The refusal for a fault of the log.
fn why_refused(fault: AppendFault) -> Refusal
    ensures { result ≡ spec.why_refused fault }
{
    match fault {
        AppendFault::NoMemory => Refusal::NoMemory,
        AppendFault::LogFull => Refusal::LogFull,
    }
}
