//! The phase of a transaction, its owner, and the places of its actions in the meeting to which they report.
ghost use Rattle.std.specs.Prelude.{◌≡◌, ◌↔◌, ◌<◌, ◌≤◌, ◌++◌, [], IfErr, IfNone, IfOk, IfSome, IsSome, is_some, length, option_to_list};
ghost use Rattle.std.specs.Arc.{arc_value};
ghost use Rattle.rendezvous.specs.Stages.{is_last};
ghost use Rattle.partitions.specs.Parts.{shared_of};
ghost use Rattle.executor.specs.AgreedPhases.{phase_owner_view, phase_place_view, phase_places_view, without_next, AreHandles};
ghost use Rattle.executor.specs.Carrying.{agreed_phase_of, AreAllSaid, IsSaidAt};
ghost use Rattle.transactions.specs.Progresses.{works_of};

use crate::Flow;
use arrayvec::ArrayVec;
use commit_log::{LogNames, Names};
use rendezvous::{Convener, Meeting, Place, Places, Receipt, Reported, Results, Topic};
use schema::NoMemory;
use std::alloc::Global;
use std::marker::{Brand, Model};
use std::sync::Arc;
use tickets::GroupNames;
use transactions::{MOST_ACTIONS, Progress, Ran};

/// How far a transaction has come, which is what a round of a meeting is about. Ghost data: only contracts use it, and no value of
/// it is made.
pub struct AgreedPhase {
    /// The slot of the transaction.
    pub slot: usize,
    /// The age of the transaction.
    pub age: u64,
    /// How many actions its earlier phases had.
    pub first: usize,
    /// Its phase.
    pub progress: Progress,
}

/// What an action reports: its result, and the transaction if the action carries it.
#[derive(Drop)]
pub struct Said<J: LogNames + GroupNames> {
    pub(crate) ran: Ran<J>,
    pub(crate) flow: Option<Flow<J>>,
}

impl<J: LogNames + GroupNames> Topic<Said<J>> for AgreedPhase {
    ghost use Rattle.partitions.specs.Parts.{shared_of};
    ghost use Rattle.executor.specs.Carrying.{IsSaidAt};

    ghost suits = { λ phase number said. IsSaidAt (shared_of J.opening) phase number said };
}

/// The meeting to which the actions of the transactions in a slot report, phase after phase.
pub(crate) type SlotMeeting<J> = Meeting<Said<J>, AgreedPhase>;

/// What is left of an action's place once it has reported. Of the receipts of all places of a phase exactly one is of the last report
/// (`rendezvous::Meeting::compare`). It has no bytes, and nobody has to keep it.
pub type PhaseReceipt<J> = Receipt<Said<J>, AgreedPhase>;

/// Has all places of the meeting of a slot. While it is there, no action of a transaction is in flight in the slot, and it alone can
/// begin the next phase of one.
///
/// Contracts see the slot.
#[derive(Drop)]
pub struct PhaseOwner<J: Names> {
    slot: usize,
    meeting: Arc<SlotMeeting<J>, Global>,
    convener: Convener<Said<J>, AgreedPhase>,
}

impl<J: Names> Model for PhaseOwner<J> {
    ghost use Rattle.std.specs.Coded.{codes};
    ghost use Rattle.groups.specs.contracts.content.Content as content;
    ghost use Rattle.std.specs.Arc.{arc_value};
    ghost use Rattle.executor.specs.AgreedPhases.{PhaseOwnerView, phase_owner_view, IsOwnerOf};

    ghost Value = { PhaseOwnerView };

    ghost coded = { Prim.hlevel (codes, content.the_row.coded) };

    ghost view = { λ o. phase_owner_view o.slot };

    ghost invariant = { λ o. IsOwnerOf (arc_value o.meeting) o.convener };
}

/// The place of an action in the meeting of its phase. It is spent by the action's report.
///
/// Contracts see the slot of the transaction, the number of the action in its phase, from 0, and the phase.
#[derive(Drop)]
pub struct PhasePlace<J: Names> {
    slot: usize,
    meeting: Arc<SlotMeeting<J>, Global>,
    place: Place<Said<J>, AgreedPhase>,
}

impl<J: Names> Model for PhasePlace<J> {
    ghost use Rattle.std.specs.Coded.{codes};
    ghost use Rattle.groups.specs.contracts.content.Content as content;
    ghost use Rattle.std.specs.Arc.{arc_value};
    ghost use Rattle.executor.specs.AgreedPhases.{PhasePlaceView, phase_place_view, phase_in, IsPlaceIn};

    ghost Value = { PhasePlaceView };

    ghost coded = { Prim.hlevel (codes, content.the_row.coded) };

    ghost view = { λ p. phase_place_view p.slot p.place.number (phase_in p.place.of_round.topic) };

    ghost invariant = { λ p. IsPlaceIn (arc_value p.meeting) p.slot p.place };
}

impl<J: Names> PhaseOwner<J> {
    /// Opens the meeting of a slot. Returns NoMemory if an allocation fails; nothing is left then.
    pub fn open(alloc: Global, slot: usize) -> Result<PhaseOwner<J>, NoMemory>
        ensures { IfOk result (λ phase_owner. phase_owner ≡ phase_owner_view slot) }
    {
        let (meeting, convener) = Meeting::open(alloc.clone()?, MOST_ACTIONS)?;
        let meeting = Arc::new(alloc, meeting)?;
        Ok(PhaseOwner {
            slot,
            meeting,
            convener,
        })
    }

    /// Its slot.
    pub fn slot(&self) -> usize
        ensures { result ≡ self.now.slot }
    {
        self.slot
    }
}

// Owner's handles of the meeting. They lie where their list does, so no phase takes memory for them. None is `None`: only the
// places of the list that are free are.
type Handles<J> = ArrayVec<Option<Arc<SlotMeeting<J>, Global>>, MOST_ACTIONS>;

/// The places of a phase that begins, as many as it has actions.
///
/// Contracts see the slot, the phase, the number of the next place, and how many are left.
#[derive(Drop)]
pub(crate) struct PhasePlaces<J: Names> {
    slot: usize,
    meeting: Arc<SlotMeeting<J>, Global>,
    // The meeting once more for each place that is left.
    handles: Handles<J>,
    places: Places<Said<J>, AgreedPhase>,
}

impl<J: Names> Model for PhasePlaces<J> {
    ghost use Rattle.std.specs.Coded.{codes};
    ghost use Rattle.groups.specs.contracts.content.Content as content;
    ghost use Rattle.std.specs.Arc.{arc_value};
    ghost use Rattle.executor.specs.AgreedPhases.{PhasePlacesView, phase_places_view, phase_in, ArePlacesIn};

    ghost Value = { PhasePlacesView };

    ghost coded = { Prim.hlevel (codes, content.the_row.coded) };

    ghost view = { λ p. phase_places_view p.slot (phase_in p.places.of_round.topic) p.places.next p.places.left };

    ghost invariant = { λ p. ArePlacesIn arc_value p.meeting p.handles.items p.slot p.places };
}

impl<J: Names> PhaseOwner<J> {
    /// Begins the next phase of a transaction, of this many actions. Returns the places of the phase. An error is that the meeting
    /// can't have as many owners more; it returns the phase owner unchanged. Never allocates.
    pub(crate) fn begin(self, flow: &Flow<J>, count: usize) -> Result<PhasePlaces<J>, PhaseOwner<J>>
        requires slot { flow.now.slot ≡ self.slot }
        requires count { count ≡ length (works_of flow.now.progress) }
        requires some { 1 ≤ count }
        requires few { count ≤ MOST_ACTIONS }
        ensures begun { IfOk result (λ places.
            places ≡ phase_places_view self.slot (agreed_phase_of flow.now) 0 count) }
        ensures err { IfErr result (λ back. back ≡ self) }
    {
        let Ok(handles) = handles_of(&self.meeting, count) else {
            return Err(self);
        };
        let PhaseOwner {
            slot,
            meeting,
            convener,
        } = self;
        let places = meeting.convene::<Flow<J>, Brand>(convener, count, flow);
        Ok(PhasePlaces {
            slot,
            meeting,
            handles,
            places,
        })
    }
}

// The meeting so many times more. An error is that it can't have as many owners more.
fn handles_of<J: Names>(
    meeting: &Arc<SlotMeeting<J>, Global>,
    count: usize,
) -> Result<Handles<J>, NoMemory>
    requires few { count ≤ MOST_ACTIONS }
    ensures each { IfOk result (λ handles.
        AreHandles arc_value (arc_value meeting.now) handles.items) }
    ensures count { IfOk result (λ handles. length handles.items ≡ count) }
{
    let mut handles = ArrayVec::new();
    for _ in 0..count {
        handles.push(Some(Arc::try_clone(meeting)?));
    }
    Ok(handles)
}

impl<J: Names> PhasePlaces<J> {
    /// Hands out the next place. Returns `None` if all are handed out.
    pub(crate) fn next(&mut self) -> Option<PhasePlace<J>>
        ensures none { IfNone result (self.old.left ≡ 0) }
        ensures some { IfSome result (λ place.
            (place ≡ phase_place_view self.old.slot self.old.next self.old.agreed_phase)
            × (self.new ≡ without_next self.old)) }
    {
        let place = self.meeting.hand_out(&mut self.places)?;
        let Some(handle) = self.handles.pop() else {
            unreachable!()
        };
        let Some(meeting) = handle else {
            unreachable!()
        };
        Some(PhasePlace {
            slot: self.slot,
            meeting,
            place,
        })
    }
}

impl<J: Names> PhasePlace<J> {
    /// The slot of its transaction.
    pub fn slot(&self) -> usize
        ensures { result ≡ self.now.slot }
    {
        self.slot
    }

    /// Reports for its action. The last report of a phase gets all reports; another one gets `None`. Which it was is in the receipt.
    /// Never allocates or waits.
    pub(crate) fn report(self, said: Said<J>) -> (Option<LastReport<J>>, PhaseReceipt<J>)
        requires said { IsSaidAt (shared_of J.opening) self.agreed_phase self.number said }
        ensures slot { IfSome result.0 (λ last.
            (last.slot ≡ self.slot) × (self.agreed_phase.slot ≡ self.slot)) }
        ensures all { IfSome result.0 (λ last.
            AreAllSaid (shared_of J.opening) self.agreed_phase last.items) }
        ensures last { is_some result.0 ≡ is_last result.1.stage }
    {
        let PhasePlace {
            slot,
            meeting,
            place,
        } = self;
        let (reported, receipt) = meeting.report(place, said);
        let Reported::Last(results) = reported else {
            return (None, receipt);
        };
        let last = LastReport {
            slot,
            meeting,
            results,
        };
        (Some(last), receipt)
    }
}

/// The reports of all actions of a phase.
///
/// Contracts see the slot, and the reports that are left, by place.
#[derive(Drop)]
pub(crate) struct LastReport<J: Names> {
    slot: usize,
    meeting: Arc<SlotMeeting<J>, Global>,
    results: Results<Said<J>, AgreedPhase>,
}

impl<J: Names> Model for LastReport<J> {
    ghost use Rattle.std.specs.Coded.{codes};
    ghost use Rattle.groups.specs.contracts.content.Content as content;
    ghost use Rattle.std.specs.Arc.{arc_value};
    ghost use Rattle.executor.specs.Phases.{LastReportView, last_report_view, IsLastReport};

    ghost Value = { LastReportView J };

    ghost coded = { Prim.hlevel (codes, content.the_row.coded) };

    ghost view = { λ l. last_report_view l.slot l.results.items };

    ghost invariant = { λ l. IsLastReport (arc_value l.meeting) l.results };
}

impl<J: Names> LastReport<J> {
    /// Returns the number of reports that are left.
    pub(crate) fn len(&self) -> usize
        ensures { result ≡ length self.now.items }
    {
        self.results.len()
    }

    /// Takes out the report of the first action that has one left. Never allocates or waits.
    pub(crate) fn next(&mut self) -> Option<Said<J>>
        ensures slot { self.new.slot ≡ self.old.slot }
        ensures items { self.old.items ≡ option_to_list result ++ self.new.items }
        ensures some { IsSome result ↔ (0 < length self.old.items) }
    {
        self.meeting.next_result(&mut self.results)
    }

    /// Returns the phase owner. All reports were taken out.
    pub(crate) fn finish(self) -> PhaseOwner<J>
        requires { self.items ≡ [] }
        ensures { result ≡ phase_owner_view self.slot }
    {
        let LastReport {
            slot,
            meeting,
            results,
        } = self;
        PhaseOwner {
            slot,
            meeting,
            convener: results.finish(),
        }
    }
}
