//! Which places an action's wants are for.
ghost use Rattle.std.specs.Prelude.{◌≡◌, ◌&&◌, ◌||◌, ℕ, ◌<◌, ◌≤◌, ◌⊎◌, false, [], All, nat_le, nat_lt, slice_index_or};
ghost use Rattle.local_locks.specs.EntryPlaces as spec;
ghost use Rattle.local_locks.specs.EntryPlaces.{covers_at, AreBounds, AreWantedPlaces};
ghost use Rattle.local_locks.specs.GroupWants.{IsWanted};

use crate::places::places_of;
use groups::Want;
use tickets::{GROUPS_PER_WAREHOUSE, GroupNames};

/// Returns whether one of the wants is for the group at a place.
pub(crate) fn is_wanted_at<J: GroupNames>(wants: &[Want], place: usize) -> bool
    requires { All (IsWanted J.warehouses) wants.now }
    ensures { result ≡ spec.is_wanted_at wants.now place }
{
    for want in wants {
        if covers_at::<J>(*want, place) {
            return true;
        }
    }
    false
}

// Returns whether the want covers a place.
fn covers_at<J: GroupNames>(want: Want, place: usize) -> bool
    requires { IsWanted J.warehouses want }
    ensures { result ≡ covers_at place want }
{
    let (first, end) = places_of::<J>(want.extent);
    first <= place && place < end
}

/// Returns for each place whether one of the wants is for the group there.
pub(crate) fn wanted_places<J: GroupNames>(wants: &[Want]) -> [bool; GROUPS_PER_WAREHOUSE]
    requires { All (IsWanted J.warehouses) wants.now }
    ensures { AreWantedPlaces wants.now result }
{
    let mut wanted = [false; GROUPS_PER_WAREHOUSE];
    for want in wants {
        let (first, end) = places_of::<J>(want.extent);
        mark(&mut wanted, first, end);
    }
    wanted
}

// Marks the places from the first of these on and before the second.
fn mark(places: &mut [bool; GROUPS_PER_WAREHOUSE], first: usize, end: usize)
    requires rising { first ≤ end }
    requires inside { end ≤ 105 }
    ensures { (place : ℕ) → place < 105 → slice_index_or places.new place false
        ≡ (slice_index_or places.old place false || (nat_le first place && nat_lt place end)) }
{
    for place in first..end {
        places[place] = true;
    }
}

/// Returns bounds of the places that are wanted: the first, and one after the last.
pub(crate) fn bounds_of<J: GroupNames>(wants: &[Want]) -> (usize, usize)
    requires { All (IsWanted J.warehouses) wants.now }
    ensures bounds { AreBounds result.0 result.1 wants.now }
    ensures none { wants.now ≡ [] → result.0 ≡ result.1 }
{
    let mut first = GROUPS_PER_WAREHOUSE;
    let mut end = 0;
    for want in wants {
        let (from, to) = places_of::<J>(want.extent);
        first = first.min(from);
        end = later_of(end, to);
    }
    (first.min(end), end)
}

// Returns the later of two places.
fn later_of(a: usize, b: usize) -> usize
    ensures both { (a ≤ result) × (b ≤ result) }
    ensures one { (result ≡ a) ⊎ (result ≡ b) }
{
    if a < b { b } else { a }
}
