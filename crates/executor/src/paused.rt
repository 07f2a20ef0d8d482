//! A transaction between two phases with its phase owner, and the fast path of a phase.
ghost use Rattle.std.specs.Prelude.{◌≡◌, ◌≤◌, ◌+◌, [], All, IfErr, IfOk, IfSome, length, take, vec_capacity};
ghost use Rattle.partitions.specs.Parts.{shared_of};
ghost use Rattle.transactions.specs.Works.{CanDo};
ghost use Rattle.executor.specs.AtOnce.{HaveDoneAtOnce, RunsHere, phase_to_run};
ghost use Rattle.executor.specs.AgreedPhases.{OwnsPhaseOf};
ghost use Rattle.transactions.specs.Acting.{AreUndoneBy, CanAllBeUndone};
ghost use Rattle.executor.specs.PausedView.{paused_view};

use crate::following::following_of;
use crate::{CompletionOwner, ExecutorShards, Flow, Following, GivenBack, PhaseOwner, Undo};
use commit_log::Names;
use std::alloc::Global;
use std::marker::Model;
use transactions::{
    Found, HeldClaims, MOST_ACTIONS, Sorted, Work, actions_can_do_their_work,
    transactions_have_few_actions,
};
use wait_die::{Age, Holder};

/// A transaction between two phases: no action of it is in flight, and its phase owner has all places of its meeting.
///
/// Contracts see the transaction and its phase owner. Invariant: the phase owner is that of the transaction's slot.
#[derive(Drop)]
pub struct Paused<J: Names> {
    flow: Flow<J>,
    phase_owner: PhaseOwner<J>,
}

impl<J: Names> Model for Paused<J> {
    ghost use Rattle.std.specs.Coded.{codes};
    ghost use Rattle.groups.specs.contracts.content.Content as content;
    ghost use Rattle.executor.specs.PausedView.{PausedView};

    ghost Value = { PausedView };

    ghost coded = { Prim.hlevel (codes, content.the_row.coded) };

    ghost use Rattle.executor.specs.AgreedPhases.{OwnsPhaseOf};
    ghost use Rattle.executor.specs.PausedView.{paused_view};

    ghost view = { λ p. paused_view p.phase_owner p.flow };

    ghost invariant = { λ p. OwnsPhaseOf p.flow.slot p.phase_owner };
}

/// The result of `Paused::run_here`.
#[derive(Drop)]
pub enum Tried<J: Names> {
    /// All actions have done their work; this is the next step.
    Done(Following<J>),
    /// A shard is at another executor, or a holder conflicts, or an allocation failed: nothing was done.
    Apart(Paused<J>),
}

impl<J: Names> Paused<J> {
    /// A transaction before its first phase, with its phase owner. The owner of the completion meeting is there: no claims of an
    /// earlier transaction in the slot are on their way back by messages. Returns `None` if an owner is of another slot.
    pub fn new(
        flow: Flow<J>,
        phase_owner: PhaseOwner<J>,
        completion: &CompletionOwner,
    ) -> Option<Paused<J>>
        ensures paused { IfSome result (λ paused. paused ≡ paused_view phase_owner flow) }
        ensures free { IfSome result (λ _. completion.now.slot ≡ flow.slot) }
    {
        if phase_owner.slot() != flow.slot() || completion.slot() != flow.slot() {
            return None;
        }
        Some(Paused::between(flow, phase_owner))
    }

    // A transaction between two phases.
    pub(crate) fn between(flow: Flow<J>, phase_owner: PhaseOwner<J>) -> Paused<J>
        requires { OwnsPhaseOf flow.slot phase_owner }
        ensures { result ≡ paused_view phase_owner flow }
    {
        Paused { flow, phase_owner }
    }

    // The transaction and its phase owner.
    pub(crate) fn into_parts(self) -> (Flow<J>, PhaseOwner<J>)
        ensures flow { result.0 ≡ self.flow }
        ensures phase_owner { result.1 ≡ self.phase_owner }
        ensures whole { OwnsPhaseOf self.flow.slot self.phase_owner }
    {
        (self.flow, self.phase_owner)
    }

    /// Fast path. If all shards of the next phase are here and no holder conflicts, it runs the actions of the phase inline, by
    /// place, without messages and without the meeting. Else, or if an allocation fails before all are done, it
    /// returns the transaction unchanged.
    pub fn run_here(self, alloc: Global, shards: &mut ExecutorShards<J>) -> Tried<J>
        ensures { RunsHere (shared_of J.opening) self result }
    {
        actions_can_do_their_work();
        transactions_have_few_actions();
        let (flow, phase_owner) = self.into_parts();
        let Ok(works) = flow.transaction.body.progress.works(alloc) else {
            return Tried::Apart(Paused::between(flow, phase_owner));
        };
        if !shards.have_all(&works) {
            return Tried::Apart(Paused::between(flow, phase_owner));
        }
        let Ok(found) = Vec::with_capacity(alloc, works.len()) else {
            return Tried::Apart(Paused::between(flow, phase_owner));
        };
        let Flow { transaction, held } = flow;
        match do_all(
            alloc,
            shards,
            transaction.age,
            transaction.slot,
            held,
            works,
            found,
        ) {
            Ok((held, found)) => {
                let sorted = Sorted {
                    found,
                    refusal: None,
                };
                Tried::Done(following_of(alloc, phase_owner, transaction, held, sorted))
            }
            Err(held) => {
                let flow = Flow { transaction, held };
                Tried::Apart(Paused::between(flow, phase_owner))
            }
        }
    }
}

// Does these works one after another. If one can't be done, undoes the others' work and returns the claims that were held before.
fn do_all<J: Names>(
    alloc: Global,
    shards: &mut ExecutorShards<J>,
    age: Age,
    slot: usize,
    mut held: HeldClaims<J>,
    works: Vec<Work>,
    mut found: Vec<Found>,
) -> Result<(HeldClaims<J>, Vec<Found>), HeldClaims<J>>
    requires can { All (CanDo (shared_of J.opening)) works.items }
    requires undone { All (AreUndoneBy age) held }
    requires few { length held + length works.items ≤ MOST_ACTIONS }
    requires empty { found.items ≡ [] }
    requires room { length works.items ≤ vec_capacity found }
    ensures done { IfOk result (λ done.
        HaveDoneAtOnce (shared_of J.opening) (phase_to_run age works.items held) done.0
        done.1.items) }
    ensures err { IfErr result (λ back. back ≡ held) }
{
    let first = held.len();
    for work in works {
        let by = Holder {
            age,
            place: held.len(),
        };
        let Some((claims, one)) = shards.work_at_once(alloc, by, work) else {
            return Err(take_back(shards, slot, first, held));
        };
        held.put(claims);
        found.push_reserved(one);
    }
    Ok((held, found))
}

// Undoes what was done under all claims but the `first` ones, and gives these claims back to their shards.
fn take_back<J: Names>(
    shards: &mut ExecutorShards<J>,
    slot: usize,
    first: usize,
    held: HeldClaims<J>,
) -> HeldClaims<J>
    requires first { first ≤ length held }
    requires undone { All CanAllBeUndone held }
    ensures { result ≡ take first held }
{
    let mut held = held;
    while held.len() > first {
        let Some(claims) = held.take_last() else {
            unreachable!()
        };
        // (their shard is here: they were granted by it)
        let _ = shards.give_back(GivenBack::Undo(Undo { slot, claims }));
    }
    held
}
