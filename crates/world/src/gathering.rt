//! The end of a phase: all its actions have reported.
ghost use Rattle.std.specs.Prelude.{◌≡◌, ◌⊎◌, false, ◌≤◌, ◌<◌, ◌+◌, [], length, None};
ghost use Rattle.world.specs.Following as spec;
ghost use Rattle.world.specs.Following.{CarriesFirst, found_in, held_in, holding_more, refusal_of, refused, releasing};
ghost use Rattle.transactions.specs.Progresses.{works_of};
ghost use Rattle.transactions.specs.SortedOut.{IsReadyFor};
ghost use Rattle.world.specs.Events.{CanMeet, MeetsAs, goes_on};

use crate::desk::Active;
use crate::flight::{Commit, Flow, Item, Report, Transaction};
use crate::sending::Release;
use crate::slots::MOST_ACTIVE;
use crate::transaction_meetings::{CompletionConvener, Meetings, PhaseResults};
use crate::world::Parts;
use commit_log::Names;
use requests::{Refusal, Reply};
use std::alloc::Global;
use transactions::{Gathered, MOST_ACTIONS, Ran, Sorted, phases_have_actions};

impl<J: Names> Parts<J> {
    // All actions of a phase have reported. If an action died, the transaction is refused for the first death by place;
    // otherwise, if an action found no memory, for that. Otherwise what the actions found is gathered, and the next phase
    // begins or the transaction is to be logged. It is refused if there is no memory for this.
    pub(crate) fn follow(
        &mut self,
        alloc: Global,
        mut results: PhaseResults<J>,
        completion: CompletionConvener,
    )
        requires room { length self.old.outbox + (MOST_ACTIONS + 1) ≤ 4096 }
        requires can { CanMeet results }
        ensures { MeetsAs results self.old self.new }
    {
        let start = Sorted::start(alloc, results.len());
        let (flow, sorted) = sort_out(&mut results, start);
        let phases = results.finish();
        let Flow {
            transaction,
            progress,
        } = flow;
        match sorted.follow(alloc, progress) {
            Ok(Gathered::Next(progress)) => self.begin_next_phase(
                alloc,
                Flow {
                    transaction,
                    progress,
                },
                Meetings { phases, completion },
            ),
            Ok(Gathered::Finish(reply)) => self.put_commit(transaction, reply, completion),
            Err(why) => self.release(Release::refused(transaction, why, completion), false),
        }
    }

    // Starts the transaction's next phase. Refuses the transaction if there is no memory for it.
    fn begin_next_phase(&mut self, alloc: Global, flow: Flow<J>, meetings: Meetings<J>)
        requires room { length self.old.outbox + (MOST_ACTIONS + 1) ≤ 4096 }
        requires held { length flow.transaction.held ≤ MOST_ACTIONS }
        requires slot { flow.transaction.slot < MOST_ACTIVE }
        requires few { length (works_of flow.progress) ≤ MOST_ACTIONS }
        ensures { (self.new ≡ releasing false (refused flow.transaction Refusal.NoMemory) self.old)
            ⊎ (self.new ≡ goes_on flow.transaction (Gathered.Next flow.progress) self.old) }
    {
        match flow.progress.works(alloc) {
            Ok(works) => {
                phases_have_actions();
                let first = flow.transaction.held.len();
                let meeting = meetings.convene(works.len());
                let acting = Active::Acting { first, meeting };
                self.desk.active.put(flow.transaction.slot, Some(acting));
                self.put_acts(flow, works);
            }
            Err(_) => {
                let Meetings { completion, .. } = meetings;
                let over = Release::refused(flow.transaction, Refusal::NoMemory, completion);
                self.release(over, false)
            }
        }
    }

    // The transaction was carried out and is to be logged.
    fn put_commit(
        &mut self,
        transaction: Transaction<J>,
        reply: Reply,
        completion: CompletionConvener,
    )
        requires room { length self.old.outbox + 1 ≤ 4096 }
        requires slot { transaction.slot < MOST_ACTIVE }
        ensures { self.new ≡ spec.committing transaction reply self.old }
    {
        self.desk
            .active
            .put(transaction.slot, Some(Active::Committing));
        self.outbox.put(Item::Commit(Commit {
            transaction,
            reply,
            completion,
        }));
    }
}

// Takes out all reports. Adds the claims of the actions to the transaction, which the first report carries, and collects what they
// found, in order, unless the transaction is refused.
fn sort_out<J: Names>(results: &mut PhaseResults<J>, mut sorted: Sorted) -> (Flow<J>, Sorted)
    requires can { CanMeet results.old }
    requires found { IsReadyFor (length results.old) sorted }
    ensures flow { CarriesFirst results.old
        (λ flow. result.0 ≡ holding_more flow (held_in results.old)) }
    ensures refusal { result.1.refusal ≡ refusal_of sorted.refusal results.old }
    ensures found { result.1.refusal ≡ None → result.1.found.items ≡ found_in results.old }
    ensures all { results.new ≡ [] }
{
    let Some(first) = results.next() else {
        unreachable!()
    };
    let Report {
        place: _,
        slot: _,
        flow,
        ran,
    } = first;
    let Some(mut flow) = flow else { unreachable!() };
    sorted.sort_one(ran, &mut flow.transaction.held);
    while let Some(report) = results.next() {
        sorted.sort_one(ran_of(report), &mut flow.transaction.held);
    }
    (flow, sorted)
}

// The outcome of an action whose report is not the first of its phase. Such a report carries no transaction.
fn ran_of<J: Names>(report: Report<J>) -> Ran<J>
    ensures { result ≡ report.ran }
{
    report.ran
}
