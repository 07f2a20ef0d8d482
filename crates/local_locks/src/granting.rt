//! Granting the wanted groups that are free.
ghost use Rattle.std.specs.Prelude.{◌≡◌, ◌<◌, ◌≤◌, ◌+◌, ◌∷◌, ◌++◌, [], All, AllPairs, length, vec_len, vec_capacity, map};
ghost use Rattle.std.specs.List.{flat_map};
ghost use Rattle.local_locks.specs.Granting.{AreElsewhere, AreGranted, IsOpen, claim_at};
ghost use Rattle.local_locks.specs.Locks.{stand_in};
ghost use Rattle.local_locks.specs.Rulings.{spot, spots_of};
ghost use Rattle.local_locks.specs.GroupWants.{IsWanted};

use crate::lock::Lock;
use crate::places::places_of;
use groups::{Mode, Want};
use tickets::{Claim, GroupNames};
use wait_die::Holder;

/// Returns the number of groups that are wanted.
pub(crate) fn count_of<J: GroupNames>(wants: &[Want]) -> usize
    requires there { All (IsWanted J.warehouses) wants.now }
    requires few { length (flat_map spots_of wants.now) ≤ 105 }
    ensures { result ≡ length (flat_map spots_of wants.now) }
{
    let mut count = 0;
    for want in wants {
        let (first, end) = places_of::<J>(want.extent);
        count += end - first;
    }
    count
}

// Grants the group at a place.
fn grant_at<J: GroupNames>(locks: &mut [Lock<J>], number: usize, mode: Mode, by: Holder) -> Claim<J>
    requires inside { number < length locks.old }
    requires open { IsOpen locks.old (spot number mode) }
    ensures claim { result ≡ claim_at by (map stand_in locks.old) (spot number mode) }
    ensures granted { AreGranted J.warehouses by (spot number mode ∷ []) locks.old locks.new }
{
    locks[number].grant(mode, by)
}

// Grants each group of the want.
fn grant_want<J: GroupNames>(
    locks: &mut [Lock<J>],
    want: Want,
    by: Holder,
    claims: &mut Vec<Claim<J>>,
)
    requires there { IsWanted J.warehouses want }
    requires places { 105 ≤ length locks.old }
    requires open { All (IsOpen locks.old) (spots_of want) }
    requires room { vec_len claims.old + length (spots_of want) ≤ vec_capacity claims.old }
    ensures claims { claims.new.items ≡ claims.old.items
        ++ map (claim_at by (map stand_in locks.old)) (spots_of want) }
    ensures count { vec_len claims.new ≡ vec_len claims.old + length (spots_of want) }
    ensures room { vec_capacity claims.new ≡ vec_capacity claims.old }
    ensures granted { AreGranted J.warehouses by (spots_of want) locks.old locks.new }
{
    let (first, end) = places_of::<J>(want.extent);
    for number in first..end {
        claims.push_reserved(grant_at(locks, number, want.mode, by));
    }
}

/// Grants all groups that are wanted. There must be room for the claims.
pub(crate) fn grant_all<J: GroupNames>(
    locks: &mut [Lock<J>],
    wants: &[Want],
    by: Holder,
    claims: &mut Vec<Claim<J>>,
)
    requires there { All (IsWanted J.warehouses) wants.now }
    requires places { 105 ≤ length locks.old }
    requires open { All (IsOpen locks.old) (flat_map spots_of wants.now) }
    requires once { AllPairs AreElsewhere (flat_map spots_of wants.now) }
    requires room { vec_len claims.old + length (flat_map spots_of wants.now)
        ≤ vec_capacity claims.old }
    ensures claims { claims.new.items ≡ claims.old.items
        ++ map (claim_at by (map stand_in locks.old)) (flat_map spots_of wants.now) }
    ensures granted { AreGranted J.warehouses by (flat_map spots_of wants.now) locks.old locks.new }
{
    for want in wants {
        grant_want(locks, *want, by, claims);
    }
}
