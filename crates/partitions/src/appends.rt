//! Appends the rows of one more warehouse to those of the warehouses before it. The rows are moved.
ghost use Rattle.std.specs.Prelude.{◌≡◌, ◌*◌, ◌^◌, ◌<◌, ◌≤◌, ◌++◌, length, OnOk};
ghost use Rattle.partitions.specs.Partitions.{HasCountsOf};
ghost use Rattle.partitions.specs.Appends.{AppendsHome};

use crate::home_rows::HomeRows;
use schema::{NoMemory, Scale, TableRows};

// Appends the rows of a part to those of the parts before it. The first part's vector is kept, with room
// for all parts.
fn append<T: Drop>(rows: &mut Vec<T>, part: Vec<T>, parts: usize) -> Result<(), NoMemory>
    requires few { length part.items * parts < 2 ^ 63 }
    requires some { 1 ≤ parts }
    ensures { OnOk result (rows.new.items ≡ rows.old.items ++ part.items) }
{
    let mut part = part;
    if rows.is_empty() {
        part.reserve_exact(part.len() * (parts - 1))?;
        *rows = part;
    } else {
        rows.append(&mut part)?;
    }
    Ok(())
}

/// Appends the rows of one more warehouse to those of the warehouses before it. After an error some rows
/// are left out.
pub(crate) fn append_home(
    rows: &mut TableRows,
    scale: Scale,
    home: HomeRows,
) -> Result<(), NoMemory>
    requires { HasCountsOf scale home }
    ensures { OnOk result (AppendsHome rows.old home rows.new) }
{
    let parts = scale.warehouses as usize;
    let mut home = home;
    rows.warehouses.push(home.warehouse)?;
    append(&mut rows.districts, home.districts, parts)?;
    append(&mut rows.stocks, home.stocks, parts)?;
    append(&mut rows.customers, home.customers, parts)?;
    append(&mut rows.histories, home.histories, parts)?;
    rows.orders.append(&mut home.orders)?;
    home.new_orders.append_to(&mut rows.new_orders)?;
    rows.lines.append(home.lines)?;
    Ok(())
}
