//! The groups that New-Order claims.
ghost use Rattle.std.specs.Prelude.{◌≡◌, IfOk};
ghost use Rattle.std.specs.List.{list_any};
ghost use Rattle.groups.specs.Groups.{is_same};
ghost use Rattle.groups.specs.NewOrder.{group_of_supply, new_order_footprint};

use crate::{GroupWant, group_of_stock};
use requests::{Group, NewOrder, OrderedLine};
use schema::{DistrictKey, NoMemory, StockKey};
use std::alloc::Global;

/// Returns the groups of the rows that New-Order reads, shared, and of those that it changes, exclusive.
/// A group of stock is claimed once, for the first line that it supplies. Returns NoMemory if an
/// allocation fails; nothing stays allocated then.
pub(crate) fn group_wants(alloc: Global, order: &NewOrder) -> Result<Vec<GroupWant>, NoMemory>
    ensures { IfOk result (λ group_wants. group_wants.items ≡ new_order_footprint order.now) }
{
    let DistrictKey { w_id, d_id } = order.home;
    let mut group_wants = Vec::new(alloc);
    group_wants.push(GroupWant::shared(Group::Warehouse { w_id }))?;
    group_wants.push(GroupWant::exclusively(Group::District { w_id, d_id }))?;
    group_wants.push(GroupWant::shared(Group::Customers { w_id, d_id }))?;
    for line in order.lines.as_slice() {
        let group = group_of_supply(*line);
        if !is_wanted_group(group_wants.as_slice(), group) {
            group_wants.push(GroupWant::exclusively(group))?;
        }
    }
    group_wants.push(GroupWant::exclusively(Group::Orders { w_id, d_id }))?;
    Ok(group_wants)
}

// The group of the row of STOCK that supplies the line.
fn group_of_supply(line: OrderedLine) -> Group
    ensures { result ≡ group_of_supply line }
{
    group_of_stock(StockKey {
        w_id: line.supply_w_id,
        i_id: line.i_id,
    })
}

// Returns whether one of the wants is for the group.
fn is_wanted_group(group_wants: &[GroupWant], group: Group) -> bool
    ensures { result ≡ list_any (λ group_want. is_same group_want.group group) group_wants.now }
{
    for group_want in group_wants {
        if group_want.group == group {
            return true;
        }
    }
    false
}
