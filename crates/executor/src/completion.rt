//! The completion of a transaction: the claims that go back by messages, and the meeting to which their actions report.
ghost use Rattle.std.specs.Prelude.{◌≡◌, ◌↔◌, IfErr, IfNone, IfOk, IfSome, IsSome, Some, is_some};
ghost use Rattle.rendezvous.specs.Stages.{is_last};
ghost use Rattle.executor.specs.Completions.{IsNextBack, MayComplete, completion_owner_view, completion_place_view, completion_view, going};
ghost use Rattle.executor.specs.Released.{giving_of};

use crate::{GivenBack, Returns};
use commit_log::Names;
use rendezvous::{Anything, Convener, Meeting, Place, Places, Receipt, Reported};
use schema::NoMemory;
use std::alloc::Global;
use std::marker::{Brand, Model};
use std::sync::Arc;
use transactions::MOST_ACTIONS;

/// The meeting to which the actions of the finished transactions of a slot report, one transaction after another.
type CompletionMeeting = Meeting<(), Anything>;

/// Has all places of the completion meeting of a slot. While it is there, no claims of a transaction in the slot are on their way
/// back, and it alone can begin the completion of the next one.
///
/// Contracts see the slot.
#[derive(Drop)]
pub struct CompletionOwner {
    slot: usize,
    meeting: Arc<CompletionMeeting, Global>,
    convener: Convener<(), Anything>,
}

impl Model for CompletionOwner {
    ghost use Rattle.std.specs.Arc.{arc_value};
    ghost use Rattle.executor.specs.AgreedPhases.{IsOwnerOf};
    ghost use Rattle.executor.specs.Completions.{CompletionOwnerView, completion_owner_view};

    ghost Value = { CompletionOwnerView };

    ghost view = { λ o. completion_owner_view o.slot };

    ghost invariant = { λ o. IsOwnerOf (arc_value o.meeting) o.convener };
}

/// The place of an action in the completion meeting of its transaction. The message that carries the action's claims back carries
/// it, and the report that they are back spends it.
///
/// Contracts see the slot.
#[derive(Drop)]
pub struct CompletionPlace {
    slot: usize,
    meeting: Arc<CompletionMeeting, Global>,
    place: Place<(), Anything>,
}

impl Model for CompletionPlace {
    ghost use Rattle.std.specs.Arc.{arc_value};
    ghost use Rattle.executor.specs.Completions.{CompletionPlaceView, IsPlaceAt, completion_place_view};

    ghost Value = { CompletionPlaceView };

    ghost view = { λ p. completion_place_view p.slot };

    ghost invariant = { λ p. IsPlaceAt (arc_value p.meeting) p.place };
}

/// The claims of a finished transaction that go back by messages, and the places of their actions in its completion meeting.
///
/// Contracts see the claims that go next, if they were taken out of the others, and the others. Invariant: there is a place for
/// the claims of each action.
#[derive(Drop)]
pub struct Completion<J: Names> {
    first: Option<GivenBack<J>>,
    returns: Returns<J>,
    meeting: Arc<CompletionMeeting, Global>,
    places: Places<(), Anything>,
    // The number of actions whose claims are left.
    left: usize,
}

impl<J: Names> Model for Completion<J> {
    ghost use Rattle.std.specs.Coded.{codes};
    ghost use Rattle.groups.specs.contracts.content.Content as content;
    ghost use Rattle.std.specs.Arc.{arc_value};
    ghost use Rattle.executor.specs.Completions.{CompletionView, ArePlacesFor, completion_view};

    ghost Value = { CompletionView J };

    ghost coded = { Prim.hlevel (codes, content.the_row.coded) };

    ghost view = { λ c. completion_view c.first c.returns };

    ghost invariant = { λ c. ArePlacesFor (arc_value c.meeting) (completion_view c.first c.returns) c.places c.left };
}

impl CompletionOwner {
    /// Opens the completion meeting of a slot. Returns NoMemory if an allocation fails; nothing is left then.
    pub fn open(alloc: Global, slot: usize) -> Result<CompletionOwner, NoMemory>
        ensures { IfOk result (λ owner. owner ≡ completion_owner_view slot) }
    {
        let (meeting, convener) = Meeting::open(alloc.clone()?, MOST_ACTIONS)?;
        let meeting = Arc::new(alloc, meeting)?;
        Ok(CompletionOwner {
            slot,
            meeting,
            convener,
        })
    }

    /// Its slot.
    pub fn slot(&self) -> usize
        ensures { result ≡ self.now.slot }
    {
        self.slot
    }

    /// Begins the completion of a transaction, whose claims go back by messages: first these, which were taken out of the others,
    /// then the others. Returns `None` exactly if they are of another slot, or of more actions than a transaction has. Never
    /// allocates or waits.
    pub fn begin<J: Names>(self, first: GivenBack<J>, returns: Returns<J>) -> Option<Completion<J>>
        ensures some { IfSome result (λ completion. completion ≡ completion_view (Some first) returns) }
        ensures exact { IsSome result ↔ MayComplete self.slot first returns }
    {
        let CompletionOwner {
            slot,
            meeting,
            convener,
        } = self;
        let others = returns.len();
        if first.slot() != slot || returns.slot() != slot || others >= MOST_ACTIONS {
            return None;
        }
        let left = others + 1;
        let places = meeting.convene::<(), Brand>(convener, left, &());
        Some(Completion {
            first: Some(first),
            returns,
            meeting,
            places,
            left,
        })
    }
}

impl<J: Names> Completion<J> {
    /// Returns the claims of the next action, and the action's place. Returns `None` if the claims of all were returned. An error
    /// is that the meeting can't have one owner more; nothing has changed then. Never allocates or waits.
    pub fn next(&mut self) -> Result<Option<(GivenBack<J>, CompletionPlace)>, NoMemory>
        ensures some { IfOk result (λ next. IfSome next (λ pair.
            IsNextBack self.old self.new pair.0)) }
        ensures place { IfOk result (λ next. IfSome next (λ pair.
            pair.1 ≡ completion_place_view (giving_of pair.0).slot)) }
        ensures none { IfOk result (λ next. IfNone next (going self.old ≡ 0)) }
        ensures err { IfErr result (λ _. self.new ≡ self.old) }
    {
        if self.left == 0 {
            return Ok(None);
        }
        let meeting = Arc::try_clone(&self.meeting)?;
        let Some(place) = self.meeting.hand_out(&mut self.places) else {
            unreachable!()
        };
        self.left -= 1;
        let Some(given) = next_of(&mut self.first, &mut self.returns) else {
            unreachable!()
        };
        let place = CompletionPlace {
            slot: given.slot(),
            meeting,
            place,
        };
        Ok(Some((given, place)))
    }
}

// The claims that go next.
fn next_of<J: Names>(
    first: &mut Option<GivenBack<J>>,
    returns: &mut Returns<J>,
) -> Option<GivenBack<J>>
    ensures some { IfSome result (λ given. IsNextBack (completion_view first.old returns.old)
        (completion_view first.new returns.new) given) }
    ensures none { IfNone result (going (completion_view first.old returns.old) ≡ 0) }
{
    match first.take() {
        Some(given) => Some(given),
        None => returns.next_back(),
    }
}

impl CompletionPlace {
    /// The slot of its transaction.
    pub fn slot(&self) -> usize
        ensures { result ≡ self.now.slot }
    {
        self.slot
    }

    /// Reports that the claims of its action are back. The last report of a completion gets the completion owner; another one gets
    /// `None`. Which it was is in the receipt: of the receipts of all places exactly one is of the last report
    /// (`rendezvous::Meeting::compare`). Never allocates or waits.
    pub fn report(self) -> (Option<CompletionOwner>, Receipt<(), Anything>)
        ensures owner { IfSome result.0 (λ owner. owner ≡ completion_owner_view self.slot) }
        ensures last { is_some result.0 ≡ is_last result.1.stage }
    {
        let CompletionPlace {
            slot,
            meeting,
            place,
        } = self;
        let (reported, receipt) = meeting.report(place, ());
        let Reported::Last(mut results) = reported else {
            return (None, receipt);
        };
        while let Some(()) = meeting.next_result(&mut results) {}
        let owner = CompletionOwner {
            slot,
            meeting,
            convener: results.finish(),
        };
        (Some(owner), receipt)
    }
}
