//! The groups that Stock-Level claims.
ghost use Rattle.std.specs.Prelude.{◌≡◌, IfOk};
ghost use Rattle.groups.specs.StockLevel.{stock_level_footprint};

use crate::GroupWant;
use requests::{Group, StockLevel};
use rows::STOCK_GROUPS;
use schema::{DistrictKey, NoMemory};
use std::alloc::Global;

/// Returns the groups of the rows that Stock-Level reads, all shared. Returns NoMemory if an allocation
/// fails; nothing stays allocated then.
pub(crate) fn group_wants(alloc: Global, asked: &StockLevel) -> Result<Vec<GroupWant>, NoMemory>
    ensures { IfOk result (λ group_wants. group_wants.items ≡ stock_level_footprint asked.now) }
{
    let DistrictKey { w_id, d_id } = asked.home;
    let mut group_wants = Vec::with_capacity(alloc, 2 + STOCK_GROUPS as usize)?;
    group_wants.push(GroupWant::shared(Group::District { w_id, d_id }))?;
    group_wants.push(GroupWant::shared(Group::Orders { w_id, d_id }))?;
    for residue in 0..STOCK_GROUPS {
        group_wants.push(GroupWant::shared(Group::Stock { w_id, residue }))?;
    }
    Ok(group_wants)
}
