ghost use Rattle.std.specs.Prelude.{◌≡◌, IfOk};
ghost use Rattle.partitions.specs.Parts.{shared_of, parts_of};

use crate::homes::Homes;
use crate::{Catalog, Partition};
use schema::{NoMemory, Tables};
use std::alloc::Global;
use std::sync::Arc;

/// Cuts the tables into a partition for each warehouse. The rows are moved, table by table: no row is
/// copied, and at any time at most one table takes its memory twice. An error drops the rows.
pub fn cut(alloc: Global, tables: Tables) -> Result<(Catalog, Vec<Partition>), NoMemory>
    ensures catalog { IfOk result (λ made. made.0 ≡ shared_of tables) }
    ensures parts { IfOk result (λ made. made.1.items ≡ parts_of tables) }
{
    let (scale, rows) = tables.into_rows();
    let (items, mut homes) = Homes::split(alloc, scale, rows)?;
    let catalog = Catalog {
        scale,
        items: Arc::new(alloc, items)?,
    };
    let mut parts = Vec::with_capacity(alloc, scale.warehouses as usize)?;
    for place in 0..scale.warehouses {
        parts.push(Partition {
            catalog: catalog.share()?,
            home: place + 1,
            rows: homes.take_first(),
        })?;
    }
    Ok((catalog, parts))
}
