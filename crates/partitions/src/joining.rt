ghost use Rattle.std.specs.Prelude.{◌≡◌, length, IfOk};
ghost use Rattle.std.specs.List.{zip};
ghost use Rattle.std.specs.FinMap as map;
ghost use Rattle.schema.specs.Scale.{item_ids};
ghost use Rattle.partitions.specs.Parts.{ArePartsOf, whole_of};

use crate::appends::append_home;
use crate::{Catalog, Partition};
use schema::{Item, NoMemory, TableRows, Tables};
use std::sync::Arc;

/// Joins the partitions of all warehouses to the tables. The rows are moved, one partition after the
/// other, behind those of the first, whose vectors are kept. An error drops the rows.
pub fn whole(catalog: Catalog, parts: Vec<Partition>) -> Result<Tables, NoMemory>
    requires { ArePartsOf catalog parts.items }
    ensures { IfOk result (λ tables. tables ≡ whole_of catalog parts.items) }
{
    let scale = catalog.scale;
    let mut rows = TableRows::new(*parts.allocator());
    for part in parts {
        append_home(&mut rows, scale, part.rows)?;
    }
    rows.items = into_items(catalog)?;
    Ok(Tables::from_fitting(scale, rows))
}

// Returns the rows of ITEM: moved if nothing else shares them, else copied.
fn into_items(catalog: Catalog) -> Result<Vec<Item>, NoMemory>
    ensures rows { IfOk result (λ items.
        map.from_entries (zip (item_ids catalog.scale) items.items) ≡ catalog.items) }
    ensures count { IfOk result (λ items. length items.items ≡ catalog.scale.items) }
{
    Ok(Arc::unwrap_or_clone(catalog.items)?)
}
