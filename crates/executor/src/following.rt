//! The step after a phase.
ghost use Rattle.std.specs.Prelude.{◌≡◌, ◌≤◌, ◌+◌, ◌++◌, [], ◌∷◌, All, IfSome, None, is_some, length};
ghost use Rattle.partitions.specs.Parts.{shared_of};
ghost use Rattle.rendezvous.specs.Stages.{is_last};
ghost use Rattle.executor.specs.Flows.{IsAskedBy, flow_view};
ghost use Rattle.transactions.specs.Acting.{AreUndoneBy};
ghost use Rattle.executor.specs.Answers.{MayBeRefused};
ghost use Rattle.executor.specs.Followed.{FollowsMeeting, FollowsUnless, HasMetUnder};
ghost use Rattle.executor.specs.Carrying.{AreSaidIn};
ghost use Rattle.executor.specs.Phases.{last_report_view, rans_said};
ghost use Rattle.transactions.specs.SortedOut.{IsReadyFor, found_in, held_in, refusal_of};

use crate::flow::Transaction;
use crate::phase_owner::{LastReport, PhaseReceipt, Said};
use crate::{Commit, Flow, Paused, PhaseOwner, Release, Report};
use commit_log::Names;
use std::alloc::Global;
use transactions::{
    Gathered, HeldClaims, MOST_ACTIONS, Ran, Sorted, claims_are_of_the_footprint,
    phases_have_actions, reached_requests_are_accepted, transactions_have_few_actions,
};

/// The step after a phase of which all actions have reported.
#[derive(Drop)]
pub enum Following<J: Names> {
    /// The next phase is to begin.
    Next(Paused<J>),
    /// It was carried out and is to be logged.
    Commit(Commit<J>),
    /// It is refused.
    Over(Release<J>),
}

impl<J: Names> Report<J> {
    /// Reports to the meeting of its phase, without a lock. If another action of the phase has not reported yet, returns `None`. The
    /// last report returns the step after the phase. Which it was is in the receipt: of the receipts of all actions of the phase
    /// exactly one is of the last report (`rendezvous::Meeting::compare`). If an action died, the transaction is refused for the first death by place;
    /// else, if an action found no memory, it is refused with NoMemory. Else the results are gathered: the next phase begins or the
    /// transaction is to be logged, or it is refused with NoMemory if an allocation fails. Never waits.
    pub fn report(self, alloc: Global) -> (Option<Following<J>>, PhaseReceipt<J>)
        ensures follows { IfSome result.0 (FollowsMeeting (shared_of J.opening) self.slot) }
        ensures last { is_some result.0 ≡ is_last result.1.stage }
    {
        let Report { ran, place, flow } = self;
        let (last, receipt) = place.report(Said { ran, flow });
        match last {
            Some(last) => (Some(last.follow(alloc)), receipt),
            None => (None, receipt),
        }
    }
}

impl<J: Names> LastReport<J> {
    // The step after the phase.
    fn follow(self, alloc: Global) -> Following<J>
        requires all { AreSaidIn (shared_of J.opening) self.slot self.items }
        ensures { FollowsMeeting (shared_of J.opening) self.slot result }
    {
        phases_have_actions();
        transactions_have_few_actions();
        claims_are_of_the_footprint();
        let mut last = self;
        let start = Sorted::start(alloc, last.len());
        let Some(Said { ran, flow }) = last.next() else {
            unreachable!()
        };
        let Some(flow) = flow else { unreachable!() };
        let Flow { transaction, held } = flow;
        let (held, sorted) = sort_out(&mut last, ran, held, start);
        following_of(alloc, last.finish(), transaction, held, sorted)
    }
}

// Adds the claims of the actions to those of the transaction, and collects what they found in order, unless the transaction is
// refused. The first action's result was taken out.
fn sort_out<J: Names>(
    rest: &mut LastReport<J>,
    first: Ran<J>,
    mut held: HeldClaims<J>,
    mut sorted: Sorted,
) -> (HeldClaims<J>, Sorted)
    requires room { length held + (length rest.old.items + 1) ≤ MOST_ACTIONS }
    requires found { IsReadyFor (length rest.old.items + 1) sorted }
    ensures same { rest.new ≡ last_report_view rest.old.slot [] }
    ensures held { result.0 ≡ held ++ held_in (first ∷ rans_said rest.old.items) }
    ensures refusal { result.1.refusal
        ≡ refusal_of sorted.refusal (first ∷ rans_said rest.old.items) }
    ensures found { result.1.refusal ≡ None
        → result.1.found.items ≡ found_in (first ∷ rans_said rest.old.items) }
{
    sorted.sort_one(first, &mut held);
    while let Some(said) = rest.next() {
        sorted.sort_one(ran_of(said), &mut held);
    }
    (held, sorted)
}

// The result of an action that is not the first of its phase. It carries no transaction.
fn ran_of<J: Names>(said: Said<J>) -> Ran<J>
    ensures { result ≡ said.ran }
{
    said.ran
}

// The step after a phase whose actions hold the last of these claims.
pub(crate) fn following_of<J: Names>(
    alloc: Global,
    phase_owner: PhaseOwner<J>,
    mut transaction: Transaction<J>,
    held: HeldClaims<J>,
    sorted: Sorted,
) -> Following<J>
    requires slot { transaction.slot ≡ phase_owner.slot }
    requires asked { IsAskedBy transaction.number transaction.body.value.request
        transaction.pass }
    requires undone { All (AreUndoneBy transaction.age) held }
    requires may { IfSome sorted.refusal
        (MayBeRefused J.most transaction.pass.reached transaction.body.value.request) }
    requires met { sorted.refusal ≡ None
        → HasMetUnder (shared_of J.opening) transaction.body.value.request
        transaction.body.value.progress held sorted.found.items }
    ensures { FollowsUnless sorted.refusal phase_owner (flow_view transaction held)
        sorted.found.items result }
{
    reached_requests_are_accepted();
    let progress = transaction.take_progress();
    match sorted.follow(alloc, progress) {
        Ok(Gathered::Next(progress)) => {
            transaction.put_progress(progress);
            Following::Next(Paused::between(Flow { transaction, held }, phase_owner))
        }
        Ok(Gathered::Finish(reply)) => {
            transaction.put_reply(reply);
            Following::Commit(Commit::new(phase_owner, transaction, held))
        }
        Err(why) => Following::Over(Release::refused(phase_owner, transaction, held, why)),
    }
}
