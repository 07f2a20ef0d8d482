ghost use Rattle.std.specs.Prelude.{◌≡◌, ◌<◌, ◌≤◌, ◌+◌, ◌⊎◌, List, [], ◌∷◌, IfSome, IfNone};
ghost use Rattle.groups.specs.declared.group_wants.Mode.TheVariants.{Shared, Exclusive};
ghost use Rattle.tickets.specs.Claims.{fresh, leaving, HoldsClaim};
ghost use Rattle.tickets.specs.Boxes.{BoxKeepsCommitted, sharing, lent, taken_back, with_left};

use crate::work::{CommittedContent, Leaves, Undone, Work};
use crate::{Claim, GroupNames};
use agreement::{Change, Seat};
use groups::{Content, Mode};
use requests::Group;
use std::marker::{Model, PhantomData};
use wait_die::Holder;

/// The maximum number of shared claims on a group at a time: one for each ticket.
pub const TICKETS: u32 = 8;

/// The slice's side of a group's tickets. It grants claims on the group, and takes them back.
///
/// In contracts: the group, whether an exclusive claim is out, the number of shared claims that are out,
/// the group's content now, and its content after an undo of all that was done under the exclusive
/// claim.
#[derive(Drop)]
pub struct TicketBox<J: GroupNames> {
    pub(crate) group: Group,
    pub(crate) mode: Mode,
    pub(crate) shared: u32,
    pub(crate) tickets: Seat<CommittedContent>,
    pub(crate) work: Seat<Work>,
    pub(crate) spare: Vec<(Seat<CommittedContent>, Seat<Work>)>,
    pub(crate) names: PhantomData<J>,
}

impl<J: GroupNames> Model for TicketBox<J> {
    ghost use Rattle.std.specs.Coded.{codes};
    ghost use Rattle.groups.specs.contracts.content.Content as content;
    ghost use Rattle.tickets.specs.Boxes.{TicketBoxView};

    ghost Value = { TicketBoxView };

    ghost coded = { Prim.hlevel (codes, content.the_row.coded) };

    ghost use Rattle.std.specs.Prelude.{◌≤◌, vec_len, vec_capacity};
    ghost use Rattle.tickets.specs.Boxes.{ticket_box_view, group_tables, HoldsBox, AreSpent};
    ghost use Rattle.tickets.specs.Places.{IsGroupOf};

    ghost view = { λ b. ticket_box_view b.group b.mode b.shared b.work.value };

    ghost invariant = { λ b. HoldsBox (group_tables (J.committed b.group) (J.work b.group))
        b.mode b.shared b.tickets b.work (vec_len b.spare)
        × ((8 ≤ vec_capacity b.spare) × AreSpent (J.committed b.group) (J.work b.group) b.spare.items)
        × IsGroupOf J.warehouses b.group };
}

impl<J: GroupNames> TicketBox<J> {
    /// Returns the group.
    pub fn group(&self) -> Group
        ensures { result ≡ self.now.group }
    {
        self.group
    }

    /// Returns `Exclusive` while an exclusive claim is out, else `Shared`.
    pub fn mode(&self) -> Mode
        ensures { result ≡ self.now.mode }
    {
        self.mode
    }

    /// Grants a shared claim to `by`. Returns `None`, and changes nothing, if an exclusive claim or
    /// eight shared ones are out.
    pub fn share(&mut self, by: Holder) -> Option<Claim<J>>
        ensures free { IfSome result (λ _. (self.old.mode ≡ Shared) × (self.old.shared < 8)) }
        ensures claim { IfSome result (λ c. c ≡ fresh by self.old.group Shared self.old.left) }
        ensures out { IfSome result (λ _.
            self.new ≡ sharing self.old.group self.old.left (self.old.shared + 1)) }
        ensures none { IfNone result ((self.old.mode ≡ Exclusive) ⊎ (self.old.shared ≡ 8)) }
        ensures same { IfNone result (self.new ≡ self.old) }
        ensures kept { IfSome result (λ c. BoxKeepsCommitted [] self.old (c ∷ []) self.new) }
    {
        if self.mode == Mode::Exclusive || self.shared >= TICKETS {
            return None;
        }
        let Some((mut tickets, mut work)) = self.spare.pop() else {
            unreachable!()
        };
        self.tickets.give::<1>(&mut tickets);
        self.work.give::<1>(&mut work);
        self.shared += 1;
        Some(Claim {
            by,
            group: self.group,
            mode: Mode::Shared,
            tickets,
            work,
            names: PhantomData,
        })
    }

    /// Grants an exclusive claim to `by`. Returns `None`, and changes nothing, if any claim is out.
    pub fn grant(&mut self, by: Holder) -> Option<Claim<J>>
        ensures free { IfSome result (λ _. (self.old.mode ≡ Shared) × (self.old.shared ≡ 0)) }
        ensures claim { IfSome result (λ c. c ≡ fresh by self.old.group Exclusive self.old.left) }
        ensures out { IfSome result (λ _. self.new ≡ lent self.old.group self.old.left) }
        ensures none { IfNone result ((self.old.mode ≡ Exclusive) ⊎ (0 < self.old.shared)) }
        ensures same { IfNone result (self.new ≡ self.old) }
        ensures kept { IfSome result (λ c. BoxKeepsCommitted [] self.old (c ∷ []) self.new) }
    {
        if self.mode == Mode::Exclusive || self.shared > 0 {
            return None;
        }
        let Some((mut tickets, mut work)) = self.spare.pop() else {
            unreachable!()
        };
        self.work.change(&Mode::Exclusive);
        self.tickets.give::<9>(&mut tickets);
        self.work.give::<8>(&mut work);
        self.mode = Mode::Exclusive;
        Some(Claim {
            by,
            group: self.group,
            mode: Mode::Exclusive,
            tickets,
            work,
            names: PhantomData,
        })
    }

    /// Shows that a claim on the group is one of those that are out, and that what it records as left is
    /// the group's content. Changes nothing.
    pub fn look(&mut self, claim: &mut Claim<J>)
        requires group { claim.old.group ≡ self.old.group }
        ensures mode { claim.old.mode ≡ self.old.mode }
        ensures left { claim.old.left ≡ self.old.left }
        ensures back { claim.old.back ≡ self.old.back }
        ensures same { (self.new ≡ self.old) × (claim.new ≡ claim.old) }
    {
        self.work.look(&mut claim.work);
    }

    /// Changes what an exclusive claim leaves in the group.
    pub fn leave<C: Change<Content>>(&mut self, claim: &mut Claim<J>, change: &C)
        requires group { claim.old.group ≡ self.old.group }
        requires exclusive { claim.old.mode ≡ Exclusive }
        ensures left { claim.old.left ≡ self.old.left }
        ensures out { self.old.mode ≡ Exclusive }
        ensures claim { claim.new ≡ leaving claim.old (C.changed change.now claim.old.left) }
        ensures ticket_box { self.new ≡ with_left self.old (C.changed change.now self.old.left) }
        ensures kept { BoxKeepsCommitted (claim.old ∷ []) self.old (claim.new ∷ []) self.new }
    {
        self.work.look(&mut claim.work);
        self.work
            .change_together(&mut claim.work, &Leaves { change });
    }

    /// Undoes all that was done under an exclusive claim.
    pub fn undo(&mut self, claim: &mut Claim<J>)
        requires group { claim.old.group ≡ self.old.group }
        requires exclusive { claim.old.mode ≡ Exclusive }
        ensures back { claim.old.back ≡ self.old.back }
        ensures out { self.old.mode ≡ Exclusive }
        ensures claim { claim.new ≡ leaving claim.old claim.old.back }
        ensures ticket_box { self.new ≡ with_left self.old self.old.back }
        ensures kept { BoxKeepsCommitted (claim.old ∷ []) self.old (claim.new ∷ []) self.new }
    {
        self.work.look(&mut claim.work);
        self.work.change_together(&mut claim.work, &Undone);
    }

    /// Takes a claim on the group back. What an exclusive claim left must be committed; a shared claim
    /// left nothing.
    pub fn take_back(&mut self, claim: Claim<J>)
        requires group { claim.group ≡ self.old.group }
        requires committed { claim.mode ≡ Exclusive → claim.recorded ≡ claim.left }
        ensures mode { claim.mode ≡ self.old.mode }
        ensures some { claim.mode ≡ Shared → (0 < self.old.shared) × (self.old.shared ≤ 8) }
        ensures alone { claim.mode ≡ Exclusive → self.old.shared ≡ 0 }
        ensures recorded { claim.recorded ≡ self.old.left }
        ensures ticket_box { self.new ≡ taken_back self.old }
        ensures kept { BoxKeepsCommitted (claim ∷ []) self.old [] self.new }
    {
        let Claim {
            by: _,
            group: _,
            mode,
            tickets,
            work,
            names: _,
        } = claim;
        match mode {
            Mode::Shared => self.take_shared(tickets, work),
            Mode::Exclusive => self.take_exclusive(tickets, work),
        }
    }

    // Takes back the seats of a shared claim.
    fn take_shared(&mut self, mut tickets: Seat<CommittedContent>, mut work: Seat<Work>)
        requires { HoldsClaim
            (J.committed self.old.group) (J.work self.old.group) Shared tickets work }
        ensures mode { self.old.mode ≡ Shared }
        ensures some { (0 < self.old.shared) × (self.old.shared ≤ 8) }
        ensures recorded { tickets.value.content ≡ self.old.left }
        ensures ticket_box { self.new ≡ taken_back self.old }
    {
        self.work.gather(&mut work);
        self.tickets.gather(&mut tickets);
        self.shared -= 1;
        self.spare.push_reserved((tickets, work));
    }

    // Takes back the seats of an exclusive claim, which left what is committed.
    fn take_exclusive(&mut self, mut tickets: Seat<CommittedContent>, mut work: Seat<Work>)
        requires holds { HoldsClaim
            (J.committed self.old.group) (J.work self.old.group) Exclusive tickets work }
        requires committed { tickets.value.content ≡ work.value.left }
        ensures mode { self.old.mode ≡ Exclusive }
        ensures alone { self.old.shared ≡ 0 }
        ensures recorded { tickets.value.content ≡ self.old.left }
        ensures ticket_box { self.new ≡ taken_back self.old }
    {
        self.work.gather(&mut work);
        tickets.give::<9>(&mut self.tickets);
        self.work.change(&Mode::Shared);
        self.mode = Mode::Shared;
        self.spare.push_reserved((tickets, work));
    }
}
