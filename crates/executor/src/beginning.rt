//! Begins a phase by messages.
ghost use Rattle.std.specs.Prelude.{◌≡◌, ◌≤◌, [], length, vec_capacity, IfOk, IfErr};
ghost use Rattle.executor.specs.Begins.{acts_of};
ghost use Rattle.executor.specs.Carrying.{agreed_phase_of};
ghost use Rattle.executor.specs.AgreedPhases.{phase_places_view};
ghost use Rattle.executor.specs.Followed.{transaction_of};
ghost use Rattle.executor.specs.Released.{refused};
ghost use Rattle.transactions.specs.Progresses.{works_of};

use crate::phase_owner::PhasePlaces;
use crate::{Act, Flow, Paused, PhaseOwner, Release};
use commit_log::Names;
use requests::Refusal;
use std::alloc::Global;
use transactions::{
    Work, actions_can_do_their_work, phases_have_actions, transactions_have_few_actions,
};
use wait_die::Holder;

impl<J: Names> Paused<J> {
    /// Begins the next phase by messages. Returns its actions, by place. If an allocation fails it returns the transaction's
    /// release, refused with NoMemory.
    pub fn send_out(self, alloc: Global) -> Result<Vec<Act<J>>, Release<J>>
        ensures acts { IfOk result (λ acts. acts.items ≡ acts_of self.flow) }
        ensures err { IfErr result (λ release. release
            ≡ refused self.phase_owner (transaction_of self.flow) self.flow.held Refusal.NoMemory) }
    {
        let (flow, phase_owner) = self.into_parts();
        match begin(alloc, flow, phase_owner) {
            Ok(acts) => Ok(acts),
            Err((flow, phase_owner)) => {
                let Flow { transaction, held } = flow;
                Err(Release::refused(phase_owner, transaction, held, Refusal::NoMemory))
            }
        }
    }
}

// Begins a phase of a transaction: each action gets a place in the meeting of the phase, and the first one carries the transaction.
// If an allocation fails, returns the transaction and the phase owner unchanged.
fn begin<J: Names>(
    alloc: Global,
    flow: Flow<J>,
    phase_owner: PhaseOwner<J>,
) -> Result<Vec<Act<J>>, (Flow<J>, PhaseOwner<J>)>
    requires slot { flow.slot ≡ phase_owner.slot }
    ensures acts { IfOk result (λ acts. acts.items ≡ acts_of flow) }
    ensures err { IfErr result (λ back. (back.0 ≡ flow) × (back.1 ≡ phase_owner)) }
{
    phases_have_actions();
    transactions_have_few_actions();
    let Ok(works) = flow.transaction.body.progress.works(alloc) else {
        return Err((flow, phase_owner));
    };
    let count = works.len();
    let Ok(acts) = Vec::with_capacity(alloc, count) else {
        return Err((flow, phase_owner));
    };
    match phase_owner.begin(&flow, count) {
        Ok(places) => Ok(send_out(places, flow, works, acts)),
        Err(phase_owner) => Err((flow, phase_owner)),
    }
}

// Makes the actions in the order of their places.
fn send_out<J: Names>(
    mut places: PhasePlaces<J>,
    flow: Flow<J>,
    works: Vec<Work>,
    mut acts: Vec<Act<J>>,
) -> Vec<Act<J>>
    requires places { places
        ≡ phase_places_view flow.slot (agreed_phase_of flow) 0 (length works.items) }
    requires works { works.items ≡ works_of flow.progress }
    requires empty { acts.items ≡ [] }
    requires room { length works.items ≤ vec_capacity acts }
    ensures { result.items ≡ acts_of flow }
{
    actions_can_do_their_work();
    let age = flow.transaction.age;
    let first = flow.held.len();
    let mut number = 0;
    let mut carried = Some(flow);
    for work in works {
        let Some(place) = places.next() else {
            unreachable!()
        };
        let by = Holder {
            age,
            place: first + number,
        };
        acts.push_reserved(Act {
            by,
            work,
            place,
            flow: carried.take(),
        });
        number += 1;
    }
    acts
}
