//! Cutting tables into slices, and making whole tables of slices.
ghost use Rattle.std.specs.Prelude.{◌≡◌, map, IfOk};
ghost use Rattle.partitions.specs.Parts.{shared_of, parts_of};
ghost use Rattle.slices.specs.Openings.{AreBoxesOf};
ghost use Rattle.slices.specs.SliceView.{at_rest, joined, AreSlicesOf};

use crate::Slice;
use partitions::Catalog;
use schema::{NoMemory, Tables};
use std::alloc::Global;
use tickets::{GROUPS_PER_WAREHOUSE, GroupNames, TicketBox};

/// Returns the catalog, and a slice for each warehouse of the tables, in order, with the boxes of its groups. The rows
/// are moved, none is copied. Returns NoMemory if an allocation fails; nothing is left then.
pub fn cut<J: GroupNames>(
    alloc: Global,
    tables: Tables,
    mut boxes: Vec<TicketBox<J>>,
) -> Result<(Catalog, Vec<Slice<J>>), NoMemory>
    requires warehouses { J.warehouses ≡ tables.scale.warehouses }
    requires boxes { AreBoxesOf tables boxes.items }
    ensures catalog { IfOk result (λ made. made.0 ≡ shared_of tables) }
    ensures slices { IfOk result (λ made. made.1.items ≡ map at_rest (parts_of tables)) }
{
    let (catalog, mut parts) = partitions::cut(alloc, tables)?;
    let mut slices = Vec::with_capacity(alloc, parts.len())?;
    // The last warehouse comes first; its boxes are the last ones.
    while let Some(partition) = parts.pop() {
        let own = boxes.split_off(parts.len() * GROUPS_PER_WAREHOUSE)?;
        slices.push(Slice::open(alloc, partition, own)?)?;
    }
    slices.reverse();
    Ok((catalog, slices))
}

/// Returns the tables of the slices, with their current rows. The rows are moved, none is copied. Returns NoMemory if
/// an allocation fails; nothing is left then.
pub fn whole<J: GroupNames>(catalog: Catalog, slices: Vec<Slice<J>>) -> Result<Tables, NoMemory>
    requires { AreSlicesOf catalog slices.items }
    ensures { IfOk result (λ tables. tables ≡ (joined catalog slices.items).tables) }
{
    let mut parts = Vec::with_capacity(*slices.allocator(), slices.len())?;
    for slice in slices {
        parts.push(slice.into_partition())?;
    }
    partitions::whole(catalog, parts)
}
