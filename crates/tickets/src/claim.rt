ghost use Rattle.std.specs.Prelude.{◌≡◌};
ghost use Rattle.groups.specs.declared.group_wants.Mode.TheVariants.{Shared};
ghost use Rattle.groups.specs.Groups.{warehouse_of};
ghost use Rattle.tickets.specs.Places.{place_of, IsBetween, IsGroupOf};

use crate::work::{CommittedContent, Work};
use crate::{GroupNames, places};
use agreement::Seat;
use groups::{Mode, warehouse_of};
use requests::Group;
use std::marker::{Model, PhantomData};
use wait_die::Holder;

/// A claim on a group. While it is held, only the claim itself can change the committed content that it
/// records.
///
/// A shared claim holds one of the group's eight tickets, and an exclusive claim all eight with the
/// slice's seat. It records the action to which it was granted. It can't be copied, and is given back to
/// the `TicketBox` that granted it. If a claim is dropped, its group stays held for good.
#[derive(Drop)]
pub struct Claim<J: GroupNames> {
    pub(crate) by: Holder,
    pub(crate) group: Group,
    pub(crate) mode: Mode,
    pub(crate) tickets: Seat<CommittedContent>,
    pub(crate) work: Seat<Work>,
    pub(crate) names: PhantomData<J>,
}

impl<J: GroupNames> Model for Claim<J> {
    ghost use Rattle.std.specs.Coded.{codes};
    ghost use Rattle.groups.specs.contracts.content.Content as content;
    ghost use Rattle.tickets.specs.Claims.{ClaimView};

    ghost Value = { ClaimView };

    ghost coded = { Prim.hlevel (codes, content.the_row.coded) };

    ghost use Rattle.tickets.specs.Claims.{claim_view, HoldsClaim};
    ghost use Rattle.tickets.specs.Places.{IsGroupOf};

    ghost view = { λ c. claim_view c.by c.group c.mode c.tickets.value.content c.work.value };

    ghost invariant = { λ c. HoldsClaim (J.committed c.group) (J.work c.group) c.mode c.tickets c.work × IsGroupOf J.warehouses c.group };
}

impl<J: GroupNames> Claim<J> {
    /// Returns the action to which the claim was granted.
    pub fn by(&self) -> Holder
        ensures { result ≡ self.now.by }
    {
        self.by
    }

    /// Returns the group that is claimed.
    pub fn group(&self) -> Group
        ensures { result ≡ self.now.group }
    {
        self.group
    }

    /// Returns the warehouse of the claim's group, 1 to the number of warehouses.
    pub fn home(&self) -> u32
        ensures home { result ≡ warehouse_of self.now.group }
        ensures known { IsBetween 1 J.warehouses result }
    {
        warehouse_of(self.group)
    }

    /// Returns the place of the claim's group among those of all warehouses.
    pub fn place(&self) -> usize
        ensures known { IsGroupOf J.warehouses self.now.group }
        ensures place { result ≡ place_of self.now.group }
    {
        places::place_of::<J>(self.group)
    }

    /// Returns the mode of the claim.
    pub fn mode(&self) -> Mode
        ensures { result ≡ self.now.mode }
    {
        self.mode
    }

    /// Shows that a shared claim left its committed content unchanged, and leaves the same after an
    /// undo.
    pub fn look_untouched(&self)
        ensures left { self.now.mode ≡ Shared → self.now.left ≡ self.now.recorded }
        ensures back { self.now.mode ≡ Shared → self.now.back ≡ self.now.recorded }
    {
        let _ = &self.work;
    }
}
