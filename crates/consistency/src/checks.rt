ghost use Rattle.std.specs.Prelude.{IfOk};
ghost use Rattle.consistency.specs.Conditions.{AreExact};

use crate::balances::{balances_are_owed, balances_are_paid};
use crate::carriers::new_orders_have_no_carrier;
use crate::deliveries::read_deliveries;
use crate::line_counts::{districts_count_lines, orders_count_lines};
use crate::order_numbers::{new_orders_have_no_gap, next_orders_follow, orders_are_fresh};
use crate::payments::{districts_sum_payments, warehouses_sum_districts, warehouses_sum_payments};
use schema::{NoMemory, Tables};
use std::alloc::Global;

/// Which of the twelve conditions of clause 3.3.2 the tables meet. The element at index n - 1 is true
/// exactly if condition n holds. Condition 11 applies to fresh tables at full scale; a caller with
/// other tables ignores it.
///
/// Returns `NoMemory` if an allocation fails. Allocates two totals for each customer. The time grows
/// with the number of rows.
pub fn check(alloc: Global, tables: &Tables) -> Result<[bool; 12], NoMemory>
    ensures { IfOk result (λ answers. AreExact tables.now answers) }
{
    let deliveries = read_deliveries(tables, alloc)?;
    Ok([
        warehouses_sum_districts(tables),
        next_orders_follow(tables),
        new_orders_have_no_gap(tables),
        districts_count_lines(tables),
        new_orders_have_no_carrier(tables),
        orders_count_lines(tables),
        deliveries.come_with_orders,
        warehouses_sum_payments(tables),
        districts_sum_payments(tables),
        balances_are_owed(tables, &deliveries.totals, alloc)?,
        orders_are_fresh(tables),
        balances_are_paid(tables, &deliveries.totals),
    ])
}
