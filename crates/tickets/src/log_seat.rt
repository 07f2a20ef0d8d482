ghost use Rattle.std.specs.Prelude.{◌≡◌};
ghost use Rattle.tickets.specs.Claims.{committed_by, settled};
ghost use Rattle.tickets.specs.LogSeats.{with_content};

use crate::work::CommittedContent;
use crate::{Claim, GroupNames};
use agreement::Seat;
use groups::Mode;
use requests::Group;
use std::marker::{Model, PhantomData};

/// The log's seat of a group. It records the group's committed content, which can't change without it.
#[derive(Drop)]
pub struct LogSeat<J: GroupNames> {
    pub(crate) group: Group,
    pub(crate) seat: Seat<CommittedContent>,
    pub(crate) names: PhantomData<J>,
}

impl<J: GroupNames> Model for LogSeat<J> {
    ghost use Rattle.std.specs.Coded.{codes};
    ghost use Rattle.groups.specs.contracts.content.Content as content;
    ghost use Rattle.tickets.specs.LogSeats.{CommittedGroup};

    ghost Value = { CommittedGroup };

    ghost coded = { Prim.hlevel (codes, content.the_row.coded) };

    ghost use Rattle.std.specs.Prelude.{◌≡◌};
    ghost use Rattle.tickets.specs.LogSeats.{committed};
    ghost use Rattle.tickets.specs.Places.{IsGroupOf};
    ghost use Rattle.tickets.specs.Seats.{committed_seat};

    ghost view = { λ l. committed l.group l.seat.value.content };

    ghost invariant = { λ l. (l.seat ≡ committed_seat (J.committed l.group) l.seat.value.content 1) × IsGroupOf J.warehouses l.group };
}

impl<J: GroupNames> LogSeat<J> {
    /// Returns the group.
    pub fn group(&self) -> Group
        ensures { result ≡ self.now.group }
    {
        self.group
    }

    /// Shows that a claim on the group records the committed content. Changes nothing.
    pub fn look(&mut self, claim: &mut Claim<J>)
        requires group { claim.old.group ≡ self.old.group }
        ensures recorded { claim.old.recorded ≡ self.old.content }
        ensures same { (self.new ≡ self.old) × (claim.new ≡ claim.old) }
    {
        self.seat.look(&mut claim.tickets);
    }

    /// Commits what an exclusive claim left in the group. A shared claim changes nothing.
    pub fn settle(&mut self, claim: &mut Claim<J>)
        requires group { claim.old.group ≡ self.old.group }
        ensures recorded { claim.old.recorded ≡ self.old.content }
        ensures content { self.new
            ≡ with_content self.old (committed_by claim.old.mode claim.old.left self.old.content) }
        ensures claim { claim.new ≡ settled claim.old }
    {
        match claim.mode {
            Mode::Shared => self.seat.look(&mut claim.tickets),
            Mode::Exclusive => self.seat.change_together(&mut claim.tickets, &claim.work),
        }
    }
}
