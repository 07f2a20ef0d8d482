//! The meetings of a transaction. Its actions report to one of them, phase after phase, and to the other one when their claims are
//! back. Both are opened when the transaction is admitted.
ghost use Rattle.std.specs.Prelude.{◌≡◌, ◌≤◌, ◌-◌, replicate, None};
ghost use Rattle.world.specs.Following as spec;

use crate::Report;
use crate::desk::Active;
use commit_log::Names;
use rendezvous::{SoleConvener, SoleMeeting, SoleReported, SoleResults};
use schema::NoMemory;
use std::alloc::Global;
use std::marker::Model;
use transactions::MOST_ACTIONS;

/// The right to convene the meeting of the next phase.
pub(crate) type PhaseConvener<J> = SoleConvener<Report<J>, MOST_ACTIONS>;

/// What the actions of a phase have reported.
pub(crate) type PhaseResults<J> = SoleResults<Report<J>, MOST_ACTIONS>;

/// The right to convene the completion meeting.
pub type CompletionConvener = SoleConvener<(), MOST_ACTIONS>;

/// The meetings of a transaction between two phases. Only `open` allocates.
#[derive(Drop)]
pub(crate) struct Meetings<J: Names> {
    pub(crate) phases: PhaseConvener<J>,
    pub(crate) completion: CompletionConvener,
}

impl<J: Names> Meetings<J> {
    /// Opens the meetings of a transaction. Returns NoMemory if an allocation fails; nothing is left then.
    pub(crate) fn open(alloc: Global) -> Result<Meetings<J>, NoMemory> {
        let phases = SoleConvener::open(alloc)?;
        let completion = SoleConvener::open(alloc)?;
        Ok(Meetings { phases, completion })
    }

    /// Convenes the meeting of a phase of this many actions. None of them has reported.
    pub(crate) fn convene(self, actions: usize) -> PhaseMeeting<J>
        requires some { 1 ≤ actions }
        requires few { actions ≤ MOST_ACTIONS }
        ensures { result ≡ replicate actions None }
    {
        let Meetings { phases, completion } = self;
        PhaseMeeting {
            reports: phases.convene(actions),
            completion,
        }
    }
}

/// The meetings of a transaction of which a phase is in flight.
///
/// Contracts see the reports of the phase: each action's, in the order of the places, if it has reported.
#[derive(Drop)]
pub struct PhaseMeeting<J: Names> {
    pub(crate) reports: SoleMeeting<Report<J>, MOST_ACTIONS>,
    pub(crate) completion: CompletionConvener,
}

impl<J: Names> Model for PhaseMeeting<J> {
    ghost use Rattle.std.specs.Prelude.{List, Option};
    ghost use Rattle.std.specs.Coded.{codes};
    ghost use Rattle.groups.specs.contracts.content.Content as content;
    ghost use Rattle.world.specs.declared.flight.Report.{Report as Reported};

    ghost Value = { List (Option (Reported J)) };

    ghost coded = { Prim.hlevel (codes, content.the_row.coded) };

    ghost view = { λ m. m.reports };
}

/// The completion meeting of a transaction that is over. Its places report in the order in which its actions give their claims
/// back.
///
/// Contracts see the number of actions that have yet to give their claims back, which is at least 1.
#[derive(Drop)]
pub struct Completion {
    meeting: SoleMeeting<(), MOST_ACTIONS>,
    // The first place that has not reported, and the number of such places.
    next: usize,
    left: usize,
}

impl Model for Completion {
    ghost use Rattle.std.specs.Prelude.{ℕ};
    ghost use Rattle.world.specs.Completions.{AwaitsFrom};

    ghost Value = { ℕ };

    ghost view = { λ c. c.left };

    ghost invariant = { λ c. AwaitsFrom c.next c.left c.meeting };
}

impl Completion {
    /// Convenes the completion meeting for this many actions, whose claims are to go back.
    pub(crate) fn begin(convener: CompletionConvener, actions: usize) -> Completion
        requires some { 1 ≤ actions }
        requires few { actions ≤ MOST_ACTIONS }
        ensures { result ≡ actions }
    {
        Completion {
            meeting: convener.convene(actions),
            next: 0,
            left: actions,
        }
    }

    /// An action reports that its claims are back. Returns the state of the transaction afterwards: it is active until the last
    /// action has reported. Never allocates.
    pub(crate) fn report<J: Names>(self) -> Option<Active<J>>
        ensures { result ≡ spec.ending (self - 1) }
    {
        let Completion {
            mut meeting,
            next,
            left,
        } = self;
        match meeting.report(next, ()) {
            SoleReported::NotLast => Some(Active::Ending(Completion {
                meeting,
                next: next + 1,
                left: left - 1,
            })),
            SoleReported::Last(_) => None,
        }
    }
}
