//! Collects the results of a phase's actions, one after another.
ghost use Rattle.std.specs.Prelude.{◌≡◌, ◌<◌, ◌+◌, ◌++◌, length, vec_capacity, None, IfErr, IfOk, IfSome};
ghost use Rattle.transactions.specs.Progresses.{FollowsFrom, HasFound};
ghost use Rattle.transactions.specs.SortedOut.{IsReadyFor, IsRefusedFor, found_by, held_by, refused_by};

use crate::{Found, Gathered, HeldClaims, MOST_ACTIONS, Progress, Ran};
use requests::Refusal;
use std::alloc::Global;
use tickets::GroupNames;

/// The results of a phase's actions so far, without their claims.
#[derive(Drop)]
pub struct Sorted {
    /// What they found, by place, unless the transaction is refused.
    pub found: Vec<Found>,
    /// Why the transaction is refused, if it is.
    pub refusal: Option<Refusal>,
}

impl Sorted {
    /// No result yet, with capacity for what `count` actions find. If the allocation fails, the transaction is refused with
    /// NoMemory.
    pub fn start(alloc: Global, count: usize) -> Sorted
        ensures refusal { IfSome result.refusal (λ why. why ≡ Refusal.NoMemory) }
        ensures room { IsReadyFor count result }
    {
        match Vec::with_capacity(alloc, count) {
            Ok(found) => Sorted {
                found,
                refusal: None,
            },
            Err(_) => Sorted {
                found: Vec::new(alloc),
                refusal: Some(Refusal::NoMemory),
            },
        }
    }

    /// Adds the result of the next action by place: its claims to `held`, and what it found behind what the others found. The
    /// transaction is refused for the first death by place, or else with NoMemory if an action reports it.
    pub fn sort_one<J: GroupNames>(&mut self, ran: Ran<J>, held: &mut HeldClaims<J>)
        requires room { length held.old < MOST_ACTIONS }
        requires found { self.old.refusal ≡ None
            → length self.old.found.items < vec_capacity self.old.found }
        ensures held { held.new ≡ held.old ++ held_by ran }
        ensures refusal { self.new.refusal ≡ refused_by self.old.refusal ran }
        ensures found { self.new.refusal ≡ None
            → self.new.found.items ≡ self.old.found.items ++ found_by ran }
        ensures same { self.new.refusal ≡ None
            → vec_capacity self.new.found ≡ vec_capacity self.old.found }
    {
        match ran {
            Ran::Done(claims, one) => {
                held.put(claims);
                if self.refusal.is_none() {
                    self.found.push_reserved(one);
                }
            }
            Ran::Died { group, holder } => match &self.refusal {
                Some(Refusal::Died { .. }) => {}
                _ => self.refusal = Some(Refusal::Died { group, holder }),
            },
            Ran::NoMemory => {
                if self.refusal.is_none() {
                    self.refusal = Some(Refusal::NoMemory);
                }
            }
        }
    }

    /// The step after the phase, once the results of all its actions are added. If the transaction is refused, returns the
    /// reason. Else gathers what was found; returns NoMemory if an allocation fails.
    pub fn follow(self, alloc: Global, progress: Progress) -> Result<Gathered, Refusal>
        requires { self.refusal ≡ None → HasFound progress self.found.items }
        ensures refused { IfErr result (IsRefusedFor self.refusal) }
        ensures none { IfOk result (λ gathered. self.refusal ≡ None) }
        ensures gathered { IfOk result (FollowsFrom progress self.found.items) }
    {
        let Sorted { found, refusal } = self;
        if let Some(why) = refusal {
            return Err(why);
        }
        match progress.gather(alloc, found) {
            Ok(gathered) => Ok(gathered),
            Err(_) => Err(Refusal::NoMemory),
        }
    }
}
