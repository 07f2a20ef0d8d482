use super::*;
use partitions::{cut, cut_parts_make_the_tables, whole};
use schema::TableRows;
use std::alloc::Global;

const SPARE: usize = 1_000;

// Tables of one warehouse whose vectors each have capacity for SPARE more rows.
fn with_spare_room(alloc: Global) -> Result<Tables, Fail> {
    let (scale, mut rows) = warehouses(alloc, 1)?.into_rows();
    rows.items.reserve(SPARE)?;
    rows.districts.reserve(SPARE)?;
    rows.stocks.reserve(SPARE)?;
    rows.customers.reserve(SPARE)?;
    rows.histories.reserve(SPARE)?;
    Ok(Tables::checked(scale, rows)?)
}

// The capacity of each vector.
fn rooms(rows: &TableRows) -> [usize; 5] {
    [
        rows.items.capacity(),
        rows.districts.capacity(),
        rows.stocks.capacity(),
        rows.customers.capacity(),
        rows.histories.capacity(),
    ]
}

// The rows of one warehouse stay where they are as tables are cut and made whole: each vector still has its spare capacity, which
// a new vector would not have.
#[test]
fn rows_of_one_warehouse_stay_where_they_are(rt: HostRuntime) -> Result<(), Fail> {
    let tables = with_spare_room(rt.alloc())?;
    let before = rooms(tables.rows());
    assert!(rt; before.iter().all(|room| *room >= SPARE));
    // (their invariant: tables are within their scale, so their parts are those of all warehouses)
    let _ = tables.scale();
    cut_parts_make_the_tables();
    let (catalog, parts) = cut(rt.alloc(), tables)?;
    let tables = whole(catalog, parts)?;
    assert_eq!(rt; rooms(tables.rows()), before);
    assert_eq!(rt; tables.rows().customers.len(), 50);
    Ok(())
}
