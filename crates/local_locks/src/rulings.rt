//! The ruling on an action's wants.
ghost use Rattle.std.specs.Prelude.{◌≡◌, ◌<◌, ◌≤◌, ◌+◌, ◌∷◌, [], All, length};
ghost use Rattle.std.specs.List.{flat_map};
ghost use Rattle.local_locks.specs.Rulings.{IsRuling, joined, spot, spots_of};
ghost use Rattle.local_locks.specs.GroupWants.{IsWanted};

use crate::lock::Lock;
use crate::places::places_of;
use groups::{Mode, Want};
use tickets::GroupNames;
use wait_die::{Age, Decision, verdict};

/// The ruling on an action's wants.
#[derive(Clone, Copy, Debug, PartialEq, Eq)]
pub(crate) enum Ruling {
    Free,
    Waits,
    /// The first place at which a conflicting holder is not younger, and the age of the oldest one
    /// there.
    Dies(usize, Age),
}

impl Ruling {
    // Returns the ruling on both wants together.
    fn join(self, other: Ruling) -> Ruling
        ensures { result ≡ joined self other }
    {
        match (self, other) {
            (Ruling::Dies(number, _), Ruling::Dies(second, _)) => {
                if second < number { other } else { self }
            }
            (Ruling::Dies(..), _) => self,
            (Ruling::Waits, Ruling::Free) => self,
            _ => other,
        }
    }
}

// Returns the ruling on a want for the group at a place.
fn ruling_at<J: GroupNames>(locks: &[Lock<J>], age: Age, number: usize, mode: Mode) -> Ruling
    requires { number < length locks.now }
    ensures { IsRuling age locks.now (spot number mode ∷ []) result }
{
    match verdict(age, locks[number].conflicting(mode)) {
        Decision::Free => Ruling::Free,
        Decision::Waits => Ruling::Waits,
        Decision::Dies(holder) => Ruling::Dies(number, holder),
    }
}

// Returns the ruling on a want for each of its groups.
fn ruling_on_want<J: GroupNames>(locks: &[Lock<J>], age: Age, want: Want) -> Ruling
    requires there { IsWanted J.warehouses want }
    requires places { 105 ≤ length locks.now }
    ensures { IsRuling age locks.now (spots_of want) result }
{
    let (first, end) = places_of::<J>(want.extent);
    let mut ruling = Ruling::Free;
    for number in first..end {
        ruling = ruling.join(ruling_at(locks, age, number, want.mode));
    }
    ruling
}

/// Returns the ruling on the wants of an action of this age.
pub(crate) fn ruling_on<J: GroupNames>(locks: &[Lock<J>], age: Age, wants: &[Want]) -> Ruling
    requires there { All (IsWanted J.warehouses) wants.now }
    requires places { 105 ≤ length locks.now }
    ensures { IsRuling age locks.now (flat_map spots_of wants.now) result }
{
    let mut ruling = Ruling::Free;
    for want in wants {
        ruling = ruling.join(ruling_on_want(locks, age, *want));
    }
    ruling
}
