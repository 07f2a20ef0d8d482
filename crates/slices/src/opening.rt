//! The seats of the groups of new tables.
ghost use Rattle.std.specs.Prelude.{◌≡◌, ◌<◌, IfOk};
ghost use Rattle.slices.specs.Openings.{AreOpenedFor};

use crate::changes::ContentOf;
use schema::{NoMemory, Tables};
use std::alloc::Global;
use tickets::{GROUPS_PER_WAREHOUSE, GroupSeats, group_at};

/// Returns the seats of all groups, opened with the contents of each in the tables. Returns NoMemory if an allocation
/// fails; nothing is left then.
pub fn open_groups(alloc: Global, tables: &Tables) -> Result<Vec<GroupSeats>, NoMemory>
    ensures { IfOk result (λ seats. AreOpenedFor tables.now seats.items) }
{
    let warehouses = tables.scale().warehouses;
    let mut openings = Vec::new(alloc);
    for place in 0..warehouses as usize * GROUPS_PER_WAREHOUSE {
        let group = group_at(warehouses, place);
        openings.push(GroupSeats::open(
            alloc,
            &ContentOf {
                rows: tables,
                group,
            },
        )?)?;
    }
    Ok(openings)
}
