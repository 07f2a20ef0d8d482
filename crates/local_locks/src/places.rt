//! The places of groups among the 105 of their warehouse.
ghost use Rattle.std.specs.Prelude.{◌≡◌, ◌+◌, ◌<◌, ◌≤◌};
ghost use Rattle.tickets.specs.Places as spec;
ghost use Rattle.tickets.specs.Places.{IsGroupOf};
ghost use Rattle.local_locks.specs.Rulings.{count_in, count_of, first_of, first_place};
ghost use Rattle.local_locks.specs.GroupWants.{IsThere};

use groups::{Extent, Kind};
use requests::Group;
use tickets::{Claim, GROUPS_PER_WAREHOUSE, GroupNames, place_of};

/// Returns the place of a group.
pub(crate) fn place_in_warehouse<J: GroupNames>(group: Group) -> usize
    requires { IsGroupOf J.warehouses group }
    ensures { result ≡ spec.place_in_warehouse group }
{
    place_of::<J>(group) % GROUPS_PER_WAREHOUSE
}

/// Returns the place of a claim's group.
pub(crate) fn place_of_claim<J: GroupNames>(claim: &Claim<J>) -> usize
    ensures known { IsGroupOf J.warehouses claim.now.group }
    ensures place { result ≡ spec.place_in_warehouse claim.now.group }
{
    claim.place() % GROUPS_PER_WAREHOUSE
}

/// Returns the places of an extent's groups: the first, and the one after the last.
pub(crate) fn places_of<J: GroupNames>(extent: Extent) -> (usize, usize)
    requires { IsThere J.warehouses extent }
    ensures first { result.0 ≡ first_place extent }
    ensures end { result.1 ≡ first_place extent + count_in extent }
{
    match extent {
        Extent::One(group) => {
            let place = place_in_warehouse::<J>(group);
            (place, place + 1)
        }
        Extent::Every(prefix) => places_under(prefix.kind),
    }
}

// Returns the places of all groups of a kind: the first, and the one after the last.
fn places_under(kind: Kind) -> (usize, usize)
    ensures first { result.0 ≡ first_of kind }
    ensures end { result.1 ≡ first_of kind + count_of kind }
{
    match kind {
        Kind::Warehouse => (0, 1),
        Kind::District => (1, 11),
        Kind::Customers => (11, 21),
        Kind::Orders => (21, 31),
        Kind::History => (31, 41),
        Kind::Stock => (41, GROUPS_PER_WAREHOUSE),
    }
}
