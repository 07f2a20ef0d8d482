//! The lock of a group: its ticket box, and the holders of the claims on it that are out.
ghost use Rattle.std.specs.Prelude.{◌≡◌, [], ◌∷◌, ◌++◌, Contains, IfNone, IfSome, slice_index_or, length, ◌<◌, ◌+◌};
ghost use Rattle.std.specs.List.Sorted.{IsPermutation};
ghost use Rattle.groups.specs.declared.group_wants.Mode.TheVariants.{Shared, Exclusive};
ghost use Rattle.tickets.specs.Boxes.{sharing, taken_back, with_left};
ghost use Rattle.tickets.specs.Claims.{fresh, leaving};
ghost use Rattle.local_locks.specs.EntryPlaces.{is_lent, mode_lent};
ghost use Rattle.local_locks.specs.Locks.{conflicting, given_out, lock_view, IsLocked};

use agreement::Change;
use arrayvec::ArrayVec;
use groups::{Content, Mode};
use requests::Group;
use std::marker::Model;
use tickets::{Claim, GroupNames, TicketBox};
use wait_die::Holder;

/// A group's ticket box, and the holders of its claims that are out: one exclusive claim, or up to eight
/// shared ones.
#[derive(Drop)]
pub(crate) struct Lock<J: GroupNames> {
    ticket_box: TicketBox<J>,
    holders: ArrayVec<Holder, 8>,
}

impl<J: GroupNames> Model for Lock<J> {
    ghost use Rattle.std.specs.Coded.{codes};
    ghost use Rattle.groups.specs.contracts.content.Content as content;
    ghost use Rattle.local_locks.specs.Locks.{LockView, lock_view, IsLocked};

    ghost Value = { LockView };

    ghost coded = { Prim.hlevel (codes, content.the_row.coded) };

    ghost view = { λ l. lock_view l.ticket_box l.holders.items };

    ghost invariant = { λ l. IsLocked (lock_view l.ticket_box l.holders.items) };
}

impl<J: GroupNames> Lock<J> {
    /// The lock of a group with no claim out.
    pub(crate) fn new(ticket_box: TicketBox<J>) -> Lock<J>
        requires { ticket_box ≡ sharing ticket_box.group ticket_box.left 0 }
        ensures { result ≡ lock_view ticket_box [] }
    {
        Lock {
            ticket_box,
            holders: ArrayVec::new(),
        }
    }

    /// Returns the group.
    pub(crate) fn group(&self) -> Group
        ensures { result ≡ self.now.ticket_box.group }
    {
        self.ticket_box.group()
    }

    /// Returns whether a claim is out.
    pub(crate) fn is_lent(&self) -> bool
        ensures { result ≡ is_lent self.now }
    {
        !self.holders.is_empty()
    }

    /// Returns the holders of the claims that are out, in the order in which they were granted.
    pub(crate) fn holders(&self) -> &[Holder]
        ensures { result.now ≡ self.now.holders }
    {
        self.holders.as_slice()
    }

    /// Returns the mode of the claims that are out; `None` if there is none.
    pub(crate) fn mode(&self) -> Option<Mode>
        ensures { result ≡ mode_lent self.now }
    {
        self.is_lent().then_some(self.ticket_box.mode())
    }

    /// Returns the holders that conflict with a want of this mode.
    pub(crate) fn conflicting(&self, mode: Mode) -> &[Holder]
        ensures { result.now ≡ conflicting mode self.now }
    {
        let is_taken = match (mode, self.ticket_box.mode()) {
            (Mode::Shared, Mode::Shared) => self.holders.is_full(),
            _ => true,
        };
        if is_taken {
            self.holders.as_slice()
        } else {
            &[]
        }
    }

    /// Grants a claim of this mode to `by`.
    pub(crate) fn grant(&mut self, mode: Mode, by: Holder) -> Claim<J>
        requires { conflicting mode self.old ≡ [] }
        ensures claim { result ≡ fresh by self.old.ticket_box.group mode self.old.ticket_box.left }
        ensures lock { self.new
            ≡ lock_view (given_out mode self.old.ticket_box) (self.old.holders ++ by ∷ []) }
        ensures agree { IsLocked self.old × IsLocked self.new }
    {
        let granted = match mode {
            Mode::Shared => self.ticket_box.share(by),
            Mode::Exclusive => self.ticket_box.grant(by),
        };
        let Some(claim) = granted else { unreachable!() };
        self.holders.push(by);
        claim
    }

    /// Takes back a claim, and removes its holder. What an exclusive claim left must be committed. If
    /// that holder has no claim here, another holder is removed, so that there are as many holders as
    /// claims.
    pub(crate) fn take_back(&mut self, claim: Claim<J>)
        requires group { claim.group ≡ self.old.ticket_box.group }
        requires committed { claim.mode ≡ Exclusive → claim.recorded ≡ claim.left }
        ensures mode { claim.mode ≡ self.old.ticket_box.mode }
        ensures ticket_box { self.new.ticket_box ≡ taken_back self.old.ticket_box }
        ensures fewer { length self.new.holders + 1 ≡ length self.old.holders }
        ensures holders { Contains self.old.holders claim.by
            → IsPermutation self.old.holders (claim.by ∷ self.new.holders) }
        ensures agree { IsLocked self.old × IsLocked self.new }
    {
        let by = claim.by();
        self.ticket_box.take_back(claim);
        let index = index_of(self.holders.as_slice(), by).unwrap_or(0);
        self.holders.remove(index);
    }

    /// Shows that what a claim on the group left is the group's content. Changes nothing.
    pub(crate) fn look(&mut self, claim: &mut Claim<J>)
        requires group { claim.old.group ≡ self.old.ticket_box.group }
        ensures mode { claim.old.mode ≡ self.old.ticket_box.mode }
        ensures left { claim.old.left ≡ self.old.ticket_box.left }
        ensures back { claim.old.back ≡ self.old.ticket_box.back }
        ensures same { (self.new ≡ self.old) × (claim.new ≡ claim.old) }
    {
        self.ticket_box.look(claim);
    }

    /// Changes what an exclusive claim leaves in the group.
    pub(crate) fn leave<C: Change<Content>>(&mut self, claim: &mut Claim<J>, change: &C)
        requires group { claim.old.group ≡ self.old.ticket_box.group }
        requires exclusive { claim.old.mode ≡ Exclusive }
        ensures left { claim.old.left ≡ self.old.ticket_box.left }
        ensures claim { claim.new ≡ leaving claim.old (C.changed change.now claim.old.left) }
        ensures lock { self.new ≡ lock_view
            (with_left self.old.ticket_box (C.changed change.now self.old.ticket_box.left))
            self.old.holders }
        ensures agree { IsLocked self.new }
    {
        self.ticket_box.leave(claim, change);
    }

    /// Undoes all that was done under an exclusive claim.
    pub(crate) fn undo(&mut self, claim: &mut Claim<J>)
        requires group { claim.old.group ≡ self.old.ticket_box.group }
        requires exclusive { claim.old.mode ≡ Exclusive }
        ensures back { claim.old.back ≡ self.old.ticket_box.back }
        ensures claim { claim.new ≡ leaving claim.old claim.old.back }
        ensures lock { self.new ≡ lock_view
            (with_left self.old.ticket_box self.old.ticket_box.back) self.old.holders }
        ensures agree { IsLocked self.new }
    {
        self.ticket_box.undo(claim);
    }
}

// Returns the place of `by` among the holders, `None` if it is not one of them.
fn index_of(holders: &[Holder], by: Holder) -> Option<usize>
    ensures inside { IfSome result (λ index. index < length holders.now) }
    ensures is { IfSome result (λ index. slice_index_or holders.now index by ≡ by) }
    ensures none { IfNone result (Contains holders.now by → ⊥) }
{
    holders.iter().position(|holder| *holder == by)
}
