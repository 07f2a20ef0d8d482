use super::*;
use amounts::{Cents, Rate, line_amount, order_total};
use schema::{LineQuantity, OrderKey, OrderLineKey, StockQuantity, last_name, restock};

// A total is rounded to the nearest cent, halves up.
#[test]
fn totals_of_orders(rt: HostRuntime) {
    let total = order_total(
        Cents::new(333),
        Rate::new(1_250),
        Rate::new(333),
        Rate::new(777),
    );
    assert_eq!(rt; total.get(), 324);
    let half = order_total(Cents::new(1), Rate::new(5_000), Rate::new(0), Rate::new(0));
    assert_eq!(rt; half.get(), 1);
    assert_eq!(rt; line_amount(3, Cents::new(100)).get(), 300);
}

// A stock that would be below 10 is filled up by 91.
#[test]
fn stocks_after_an_order(rt: HostRuntime) {
    let left = restock(StockQuantity::new(20), LineQuantity::new(10));
    assert_eq!(rt; left.get(), 10);
    let left = restock(StockQuantity::new(19), LineQuantity::new(10));
    assert_eq!(rt; left.get(), 100);
    let left = restock(StockQuantity::new(10), LineQuantity::new(1));
    assert_eq!(rt; left.get(), 100);
}

#[test]
fn last_names(rt: HostRuntime) {
    assert_eq!(rt; last_name(0).as_str(), "BARBARBAR");
    assert_eq!(rt; last_name(371).as_str(), "PRICALLYOUGHT");
    assert_eq!(rt; last_name(999).as_str(), "EINGEINGEING");
}

// A payment of each customer, the newest order, and a line of it.
#[test]
fn rows_are_looked_up(rt: HostRuntime) -> Result<(), Fail> {
    let tables = warehouses(rt.alloc(), 1)?;
    let (w_id, d_id, o_id, number) = (1, 1, 5, 4);
    let payments = tables.history(DistrictKey { w_id, d_id });
    assert_eq!(rt; payments.map(|rows| rows.len()), Some(5));
    let order = OrderKey { w_id, d_id, o_id };
    assert!(rt; tables.new_order(order).is_some());
    let line = tables.line(OrderLineKey {
        w_id,
        d_id,
        o_id,
        number,
    });
    assert_eq!(rt; line.map(|row| row.i_id), Some(4));
    Ok(())
}

#[test]
fn a_copy_of_tables_has_their_rows(rt: HostRuntime) -> Result<(), Fail> {
    let tables = warehouses(rt.alloc(), 1)?;
    let copy = tables.try_clone()?;
    assert_eq!(rt; copy.scale(), tables.scale());
    assert_eq!(rt; copy.warehouse(1), tables.warehouse(1));
    assert!(rt; copy.rows().customers == tables.rows().customers);
    assert_eq!(rt; copy.rows().histories.len(), 10);
    assert_eq!(rt; copy.lines().count(), 250);
    Ok(())
}
