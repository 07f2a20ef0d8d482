ghost use Rattle.std.specs.Prelude.{◌≡◌, ◌≤◌, ◌++◌, ◌∷◌, [], All, Contains, IfNone, IfOk, IfSome, IsOk, OnErr, length, map, slice_get, slice_set, slice_index_or};
ghost use Rattle.std.specs.List.Sorted.{IsPermutation};
ghost use Rattle.groups.specs.Groups.{warehouse_of};
ghost use Rattle.groups.specs.declared.group_wants.Mode.TheVariants.{Exclusive};
ghost use Rattle.tickets.specs.Claims.{leaving};
ghost use Rattle.tickets.specs.Places.{IsGroupOf};
ghost use Rattle.local_locks.specs.Asking.{all_kept_after, held_by, kept_after, AreHeld, AreTogether, Answers, AnswersAtOnce, IsOfHome, IsSettled, StillWaits, TakesTurn, leaving_in};
ghost use Rattle.local_locks.specs.Conflicts.{NeedNotDie};
ghost use Rattle.local_locks.specs.Entries.{AreEntries, still_used};
ghost use Rattle.local_locks.specs.LockEntries.{IsEntryAt};
ghost use Rattle.local_locks.specs.Laws.{AreUntouched, CouldAsk, IsClaimOf, NoneConflict};
ghost use Rattle.local_locks.specs.LockTableView.{back_in, left_in, opened, AreBoxesOf, AreStandsOf};
ghost use Rattle.local_locks.specs.GroupWants.{CanAsk};

use crate::entries::{Entries, keep_used, leave_if_unused};
use crate::entry::{LockEntry, ages_of, ages_waiting_at};
use crate::granting::{count_of, grant_all};
use crate::lock::Lock;
use crate::places::place_of_claim;
use crate::rulings::{Ruling, ruling_on};
use crate::waiting::{Next, Waiter, next_of};
use agreement::Change;
use groups::{Content, Want};
use requests::Group;
use schema::NoMemory;
use std::alloc::Global;
use std::marker::Model;
use tickets::{Claim, GroupNames, TicketBox};
use wait_die::{Age, Holder};

/// The answer to an action that asks for groups.
#[derive(Drop)]
pub enum Asked<J: GroupNames> {
    /// Granted: a claim on each group, want by want; the claims of a prefix are in the order of groups.
    Granted(Vec<Claim<J>>),
    /// It waits. All conflicting holders are younger.
    Waits,
    /// It dies. Of the conflicting holders that are not younger, `group` is the first group that one
    /// holds, and `holder` the age of the oldest holder there.
    Dies { group: Group, holder: Age },
}

/// The turn of a waiting action. `index` is its place among the waiting actions, from 0, in the order in
/// which they asked.
#[derive(Drop)]
pub enum Turn<J: GroupNames> {
    /// It has a claim on each group, want by want; the claims of a prefix are in the order of groups.
    Granted {
        index: usize,
        by: Holder,
        claims: Vec<Claim<J>>,
    },
    /// It dies. `group` and `holder` are as in `Asked::Dies`.
    Dies {
        index: usize,
        by: Holder,
        group: Group,
        holder: Age,
    },
}

/// Who holds which groups of a warehouse, and who waits for them.
///
/// In contracts: the warehouse, the content of each group, all claims that are out, all waiting
/// actions, and the groups that are held or waited for, in the order in which they were taken.
#[derive(Drop)]
pub struct LockTable<J: GroupNames> {
    w_id: u32,
    locks: Vec<Lock<J>>,
    waiters: Vec<Waiter<J>>,
    entries: Entries,
}

impl<J: GroupNames> Model for LockTable<J> {
    ghost use Rattle.std.specs.Prelude.{All};
    ghost use Rattle.std.specs.Coded.{codes};
    ghost use Rattle.groups.specs.contracts.content.Content as content;
    ghost use Rattle.local_locks.specs.LockTableView.{LockTableView};
    ghost use Rattle.local_locks.specs.Locks.{locking, AreLocksOf, IsParked};
    ghost use Rattle.local_locks.specs.EntryPlaces.{AreEntryPlaces};

    ghost Value = { LockTableView };

    ghost coded = { Prim.hlevel (codes, content.the_row.coded) };

    ghost view = { λ t. locking t.w_id t.locks.items t.waiters.items t.entries };

    ghost invariant = { λ t. AreLocksOf J.warehouses t.w_id t.locks.items × All (IsParked J.warehouses t.w_id) t.waiters.items × AreEntryPlaces t.w_id t.locks.items t.waiters.items t.entries };
}

impl<J: GroupNames> LockTable<J> {
    /// Opens the table of a warehouse with these ticket boxes of its groups, in the order of groups.
    /// Returns NoMemory if an allocation fails; nothing stays allocated then.
    pub fn open(
        alloc: Global,
        w_id: u32,
        boxes: Vec<TicketBox<J>>,
    ) -> Result<LockTable<J>, NoMemory>
        requires { AreBoxesOf J.warehouses w_id boxes.items }
        ensures { IfOk result (λ table. table ≡ opened w_id boxes.items) }
    {
        let mut locks = Vec::with_capacity(alloc.clone()?, boxes.len())?;
        for ticket_box in boxes {
            locks.push(Lock::new(ticket_box))?;
        }
        Ok(LockTable {
            w_id,
            locks,
            waiters: Vec::new(alloc.clone()?),
            entries: Entries::open(alloc)?,
        })
    }

    /// An action asks for all its groups at once. It is granted all exactly if each is free, and none
    /// otherwise: then it waits or dies. If it is granted them or waits, each has an entry. Returns NoMemory
    /// if an allocation fails; the table is unchanged then. An action that must die, or that asks for
    /// nothing, never gets NoMemory.
    pub fn ask(&mut self, alloc: Global, by: Holder, wants: &[Want]) -> Result<Asked<J>, NoMemory>
        requires { CanAsk J.warehouses self.old.w_id wants.now }
        ensures answers { IfOk result (λ asked. Answers by wants.now self.old asked self.new) }
        ensures err { OnErr result (self.new ≡ self.old) }
        ensures death_takes_none { OnErr result (NeedNotDie self.old.holdings by.age wants.now) }
        ensures nothing_takes_none { wants.now ≡ [] → IsOk result }
    {
        match self.ask_at_once(alloc, by, wants)? {
            Asked::Waits => {
                let waiter = Waiter::new(alloc, by, wants, count_of::<J>(wants))?;
                self.waiters.reserve(1)?;
                self.entries.enter::<J>(wants)?;
                self.waiters.push_reserved(waiter);
                Ok(Asked::Waits)
            }
            answered => Ok(answered),
        }
    }

    /// As `ask`, for an action that doesn't wait: if it would have to, it gets `Waits`, and the table is
    /// unchanged.
    pub fn ask_at_once(
        &mut self,
        alloc: Global,
        by: Holder,
        wants: &[Want],
    ) -> Result<Asked<J>, NoMemory>
        requires { CanAsk J.warehouses self.old.w_id wants.now }
        ensures answers { IfOk result (λ asked.
            AnswersAtOnce by wants.now self.old asked self.new) }
        ensures err { OnErr result (self.new ≡ self.old) }
        ensures death_takes_none { OnErr result (NeedNotDie self.old.holdings by.age wants.now) }
        ensures nothing_takes_none { wants.now ≡ [] → IsOk result }
    {
        match ruling_on(&self.locks, by.age, wants) {
            Ruling::Free => {
                let mut claims = Vec::with_capacity(alloc, count_of::<J>(wants))?;
                self.entries.enter::<J>(wants)?;
                grant_all(&mut self.locks, wants, by, &mut claims);
                Ok(Asked::Granted(claims))
            }
            Ruling::Waits => Ok(Asked::Waits),
            Ruling::Dies(number, holder) => Ok(Asked::Dies {
                group: self.locks[number].group(),
                holder,
            }),
        }
    }

    /// Takes a claim back. What an exclusive claim left must be committed. The group's entry goes, if
    /// nobody holds it or waits for it then; the other entries keep their order. Never allocates. A caller
    /// need not show that the claim is out: its tickets prove that (`out`). If the holder that the claim
    /// records holds it, exactly that holding is removed (`holdings`).
    pub fn take_back(&mut self, claim: Claim<J>)
        requires home { IsOfHome self.old.w_id claim }
        requires committed { IsSettled claim }
        ensures out { AreTogether self.old.holdings (held_by claim ∷ []) self.new.holdings }
        ensures holdings { Contains self.old.holdings (held_by claim)
            → IsPermutation self.old.holdings (held_by claim ∷ self.new.holdings) }
        ensures stands { self.new.stands ≡ map (kept_after claim) self.old.stands }
        ensures waiters { self.new.waiters ≡ self.old.waiters }
        ensures entries { self.new.entries
            ≡ still_used self.new.holdings self.new.waiters self.old.entries }
        ensures warehouse { self.new.w_id ≡ self.old.w_id }
    {
        let number = place_of_claim(&claim);
        self.locks[number].take_back(claim);
        leave_if_unused(&mut self.entries, &self.locks, &self.waiters, number);
    }

    /// Takes claims back, each as `take_back` does. Never allocates.
    pub fn give_back(&mut self, claims: Vec<Claim<J>>)
        requires home { All (IsOfHome self.old.w_id) claims.items }
        requires committed { All IsSettled claims.items }
        ensures out { AreTogether self.old.holdings (map held_by claims.items) self.new.holdings }
        ensures holdings { AreHeld self.old.holdings claims.items
            → IsPermutation self.old.holdings (map held_by claims.items ++ self.new.holdings) }
        ensures stands { self.new.stands ≡ all_kept_after claims.items self.old.stands }
        ensures waiters { self.new.waiters ≡ self.old.waiters }
        ensures entries { self.new.entries
            ≡ still_used self.new.holdings self.new.waiters self.old.entries }
        ensures warehouse { self.new.w_id ≡ self.old.w_id }
    {
        // Each entry is used now.
        self.agree();
        for claim in claims {
            self.take_back(claim);
        }
    }

    /// Returns the turn of the oldest waiting action that need not wait any more; of one age, the one of
    /// the least place. It is granted or dies. The entries of the groups that only an action that dies
    /// waited for go; the others keep their order. `None` if all have to wait. Never allocates.
    pub fn next_grant(&mut self) -> Option<Turn<J>>
        ensures turn { IfSome result (λ turn. TakesTurn self.old turn self.new) }
        ensures none { IfNone result (All (StillWaits self.old.holdings) self.old.waiters) }
        ensures same { IfNone result (self.new ≡ self.old) }
    {
        let Next { index, by, ruling } = next_of(&self.locks, &self.waiters)?;
        let Waiter { by: _, wants, room } = self.waiters.remove(index);
        match ruling {
            Ruling::Free => {
                let mut claims = room;
                grant_all(&mut self.locks, &wants, by, &mut claims);
                Some(Turn::Granted { index, by, claims })
            }
            Ruling::Dies(number, holder) => {
                keep_used(&mut self.entries, &self.locks, &self.waiters);
                Some(Turn::Dies {
                    index,
                    by,
                    group: self.locks[number].group(),
                    holder,
                })
            }
            Ruling::Waits => unreachable!(),
        }
    }

    /// Returns the number of groups that are held or waited for: the entries. Never allocates.
    pub fn held(&self) -> usize
        ensures { result ≡ length self.now.entries }
    {
        self.entries.len()
    }

    /// Returns the group of entry `n`, from 0, in the order in which the groups were taken, and those of
    /// one action in the order of groups. `None` if there are fewer entries. Never allocates.
    pub fn held_at(&self, n: usize) -> Option<Group>
        ensures { result ≡ slice_get self.now.entries n }
    {
        let place = self.entries.get(n)?;
        Some(self.locks[place].group())
    }

    /// Returns entry `n`, from 0, with who holds its group and who waits for it. `None` if there are fewer
    /// entries. Returns NoMemory if an allocation fails.
    pub fn entry_at(&self, alloc: Global, n: usize) -> Result<Option<LockEntry>, NoMemory>
        ensures entry { IfOk result (λ entry. IfSome entry (IsEntryAt self.now n)) }
        ensures none { IfOk result (λ entry. IfNone entry (length self.now.entries ≤ n)) }
    {
        let Some(place) = self.entries.get(n) else {
            return Ok(None);
        };
        let lock = &self.locks[place];
        let entry = LockEntry {
            group: lock.group(),
            mode: lock.mode(),
            holders: ages_of(alloc, lock.holders())?,
            waiters: ages_waiting_at(alloc, &self.waiters, place)?,
        };
        Ok(Some(entry))
    }

    /// Shows that what a claim on one of the groups left is the content of that group. Changes nothing.
    pub fn look(&mut self, claim: &mut Claim<J>)
        requires { warehouse_of claim.old.group ≡ self.old.w_id }
        ensures known { IsGroupOf J.warehouses claim.old.group }
        ensures left { claim.old.left ≡ left_in self.old.stands claim.old.group }
        ensures back { claim.old.back ≡ back_in self.old.stands claim.old.group }
        ensures same { (self.new ≡ self.old) × (claim.new ≡ claim.old) }
    {
        let place = place_of_claim(claim);
        self.locks[place].look(claim);
    }

    /// Changes what an exclusive claim leaves in its group.
    pub fn leave<C: Change<Content>>(&mut self, claim: &mut Claim<J>, change: &C)
        requires here { warehouse_of claim.old.group ≡ self.old.w_id }
        requires exclusive { claim.old.mode ≡ Exclusive }
        ensures known { IsGroupOf J.warehouses claim.old.group }
        ensures left { claim.old.left ≡ left_in self.old.stands claim.old.group }
        ensures claim { claim.new ≡ leaving claim.old (C.changed change.now claim.old.left) }
        ensures table { self.new
            ≡ leaving_in self.old claim.old.group (C.changed change.now claim.old.left) }
    {
        let place = place_of_claim(claim);
        self.locks[place].leave(claim, change);
    }

    /// Undoes all that was done under an exclusive claim.
    pub fn undo(&mut self, claim: &mut Claim<J>)
        requires here { warehouse_of claim.old.group ≡ self.old.w_id }
        requires exclusive { claim.old.mode ≡ Exclusive }
        ensures known { IsGroupOf J.warehouses claim.old.group }
        ensures back { claim.old.back ≡ back_in self.old.stands claim.old.group }
        ensures claim { claim.new ≡ leaving claim.old claim.old.back }
        ensures table { self.new ≡ leaving_in self.old claim.old.group claim.old.back }
    {
        let place = place_of_claim(claim);
        self.locks[place].undo(claim);
    }

    /// Shows that the table has a content for each group of the warehouse, that all claims that are out
    /// are on these groups, and that no two of them conflict. A group with no exclusive claim out has
    /// nothing to undo. All waiting actions wait for groups that can be asked for. A group has an entry
    /// exactly if it is held or waited for, and no group has two.
    pub fn agree(&self)
        ensures stands { AreStandsOf J.warehouses self.now.w_id self.now.stands }
        ensures claims { All (IsClaimOf J.warehouses self.now.w_id) self.now.holdings }
        ensures none_conflict { NoneConflict self.now.holdings }
        ensures untouched { AreUntouched self.now.holdings self.now.stands }
        ensures waiters { All (CouldAsk J.warehouses self.now.w_id) self.now.waiters }
        ensures entries { AreEntries self.now }
    {
        let _ = &self.locks;
        self.entries.are_once();
    }
}
