//! The commit of a transaction.
ghost use Rattle.std.specs.Prelude.{◌≡◌, ◌≤◌, ◌+◌, length};
ghost use Rattle.world.specs.Events as spec;
ghost use Rattle.world.specs.Events.{CanCommit, Commits};

use crate::flight::{Commit, Transaction};
use crate::sending::Release;
use crate::world::Parts;
use commit_log::{Entry, Names};
use history::EventAnswer;
use requests::Refusal;
use transactions::{Logged, MOST_ACTIONS};

impl<J: Names> Parts<J> {
    // Logs the transaction. Refuses it if there is no memory for the entry or the log is full.
    pub(crate) fn commit(&mut self, commit: Commit<J>) -> EventAnswer
        requires room { length self.old.outbox + (MOST_ACTIONS + 1) ≤ 4096 }
        requires can { CanCommit J.opening commit }
        ensures { Commits J.most commit self.old result self.new }
    {
        let Commit {
            transaction,
            reply,
            completion,
        } = commit;
        let Transaction {
            age,
            slot,
            number,
            request,
            pass,
            mut held,
        } = transaction;
        let entry = Entry {
            session: pass.session(),
            number,
            request,
            reply,
        };
        let Logged {
            answer,
            pass,
            is_settled,
        } = held.log(&mut self.log, pass, entry);
        let over = Release {
            age,
            slot,
            number,
            pass,
            answer,
            held,
            completion,
        };
        self.release(over, is_settled);
        recorded_of(answer)
    }
}

// The answer to a commit: `Logged` with the place of the entry, or `Sent`, as for any other item, if the log refused it.
fn recorded_of(answer: Result<u32, Refusal>) -> EventAnswer
    ensures { result ≡ spec.recorded_of answer }
{
    match answer {
        Ok(place) => EventAnswer::Logged { place },
        Err(_) => EventAnswer::Sent,
    }
}
