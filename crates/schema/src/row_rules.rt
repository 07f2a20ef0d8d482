ghost use Rattle.std.specs.Prelude.{◌≡◌, is_some};
ghost use Rattle.std.specs.List.{list_all};
ghost use Rattle.std.specs.BTreeMap.{IsOrdered, get};
ghost use Rattle.std.specs.List.Sorted.{IsStrictlySortedBy};
ghost use Rattle.std.specs.Map.{keys_of};
ghost use Rattle.rows.specs.Keys.{order_cmp, line_cmp};
ghost use Rattle.schema.specs.Scale.{has_item, has_warehouse, has_customer};
ghost use Rattle.schema.specs.Database.{customer_of_order, is_order_id, is_line_number, are_payers_known};

use crate::{HistoryList, OrderLines, Scale};
use rows::{CustomerKey, LAST_LINE, NewOrder, Order, OrderKey};
use std::collections::BTreeMap;

/// Whether every payment refers to a customer of the scale.
pub fn name_payers_customers(histories: &[HistoryList], scale: Scale) -> bool
    ensures { result ≡ list_all (are_payers_known scale) histories.now }
{
    histories.iter().all(|list| list.are_payers_known(scale))
}

/// Whether every O_ID is in its range.
pub fn are_orders_numbered(orders: &BTreeMap<OrderKey, Order>) -> bool
    ensures each { result ≡ list_all (λ e. is_order_id e.0.o_id) orders.now.entries }
    ensures ordered { IsOrdered order_cmp orders.now }
{
    orders
        .iter()
        .all(|(key, _)| (1..=9_999_999).contains(&key.o_id))
}

/// Whether every order refers to a customer of the scale.
pub fn have_orders_customers(orders: &BTreeMap<OrderKey, Order>, scale: Scale) -> bool
    ensures each { result
        ≡ list_all (λ e. has_customer scale (customer_of_order e.0 e.1)) orders.now.entries }
    ensures ordered { IsOrdered order_cmp orders.now }
{
    orders.iter().all(|(key, row)| {
        scale.has_customer(CustomerKey {
            w_id: key.w_id,
            d_id: key.d_id,
            c_id: row.c_id,
        })
    })
}

/// Whether every row of NEW-ORDER has its row of ORDER.
pub fn have_new_orders_orders(
    new_orders: &BTreeMap<OrderKey, NewOrder>,
    orders: &BTreeMap<OrderKey, Order>,
) -> bool
    ensures each { result
        ≡ list_all (λ e. is_some (get order_cmp orders.now e.0)) new_orders.now.entries }
    ensures ordered { IsOrdered order_cmp new_orders.now }
{
    new_orders.iter().all(|(key, _)| orders.contains_key(key))
}

/// Which rules hold for all lines.
#[derive(Clone, Copy, Debug)]
pub struct LineRules {
    /// Every OL_NUMBER is in its range.
    pub are_numbered: bool,
    /// Every line orders an item of the scale.
    pub have_items: bool,
    /// A warehouse of the scale supplies every line.
    pub have_suppliers: bool,
}

/// Checks the rules on lines in one pass, except the rule that every line has its order.
pub fn line_rules(lines: &OrderLines, scale: Scale) -> LineRules
    ensures numbered { result.are_numbered ≡ list_all (λ e. is_line_number e.0.number) lines.now }
    ensures items { result.have_items ≡ list_all (λ e. has_item scale e.1.i_id) lines.now }
    ensures suppliers { result.have_suppliers
        ≡ list_all (λ e. has_warehouse scale e.1.supply_w_id) lines.now }
    ensures ordered { IsStrictlySortedBy line_cmp (keys_of lines.now) }
{
    let mut are_numbered = true;
    let mut have_items = true;
    let mut have_suppliers = true;
    for (key, row) in lines.entries() {
        are_numbered &= (1..=LAST_LINE).contains(&key.number);
        have_items &= scale.has_item(row.i_id);
        have_suppliers &= scale.has_warehouse(row.supply_w_id);
    }
    LineRules {
        are_numbered,
        have_items,
        have_suppliers,
    }
}
