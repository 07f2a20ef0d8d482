//! The places of groups among those of all warehouses.
ghost use Rattle.std.specs.Prelude.{◌≡◌, ◌+◌, ◌-◌, ◌*◌, ◌<◌, ◌≤◌};
ghost use Rattle.tickets.specs.Places as spec;
ghost use Rattle.tickets.specs.Places.{IsGroupOf};

use crate::GroupNames;
use requests::Group;

/// The number of groups of a warehouse: its row; the rows, customers, orders and payments of its ten
/// districts; and the `STOCK_GROUPS` parts of its stock.
pub const GROUPS_PER_WAREHOUSE: usize = 105;

/// Returns the group at a place, among those of all warehouses.
pub fn group_at(warehouses: u32, place: usize) -> Group
    requires { place < 105 * warehouses }
    ensures known { IsGroupOf warehouses result }
    ensures place { spec.place_of result ≡ place }
{
    let w_id = (place / GROUPS_PER_WAREHOUSE + 1) as u32;
    let number = (place % GROUPS_PER_WAREHOUSE) as u32;
    if number == 0 {
        Group::Warehouse { w_id }
    } else if number <= 10 {
        Group::District { w_id, d_id: number }
    } else if number <= 20 {
        Group::Customers {
            w_id,
            d_id: number - 10,
        }
    } else if number <= 30 {
        Group::Orders {
            w_id,
            d_id: number - 20,
        }
    } else if number <= 40 {
        Group::History {
            w_id,
            d_id: number - 30,
        }
    } else {
        Group::Stock {
            w_id,
            residue: number - 41,
        }
    }
}

/// Returns the place of a group.
pub fn place_of<J: GroupNames>(group: Group) -> usize
    requires { IsGroupOf J.warehouses group }
    ensures { result ≡ spec.place_of group }
{
    match group {
        Group::Warehouse { w_id } => place_in(w_id, 0),
        Group::District { w_id, d_id } => place_in(w_id, d_id),
        Group::Customers { w_id, d_id } => place_in(w_id, 10 + d_id),
        Group::Orders { w_id, d_id } => place_in(w_id, 20 + d_id),
        Group::History { w_id, d_id } => place_in(w_id, 30 + d_id),
        Group::Stock { w_id, residue } => place_in(w_id, 41 + residue),
    }
}

// Returns the place in the block of a warehouse.
fn place_in(w_id: u32, place: u32) -> usize
    requires { 1 ≤ w_id }
    ensures { result ≡ 105 * (w_id - 1) + place }
{
    (w_id as usize - 1) * GROUPS_PER_WAREHOUSE + place as usize
}
