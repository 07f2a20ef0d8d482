//! The undo records of the steps under a claim.
ghost use Rattle.std.specs.Prelude.{◌≡◌, []};
ghost use Rattle.requests.specs.declared.group.Group.{Group as AnyGroup};
ghost use Rattle.groups.specs.Content.{content};
ghost use Rattle.slices.specs.Undo as spec;

use crate::indexed::IndexedRows;
use partitions::BeforeDelivery;
use schema::{
    Customer, CustomerKey, District, DistrictKey, OrderKey, Replaced, Stock, StockKey, Warehouse,
};

/// An undo record: the data that undoes one step.
#[derive(Drop)]
pub(crate) enum UndoRecord {
    /// The warehouse's row before the step. The same for the next three.
    Warehouse(u32, Warehouse),
    District(DistrictKey, District),
    Stock(StockKey, Stock),
    Customer(CustomerKey, Customer),
    /// The step added a payment to the district's list.
    NoPayment(DistrictKey),
    /// The step added an order, and replaced these rows.
    Order(OrderKey, Replaced),
    /// The step delivered the order, and replaced these values.
    Delivery(OrderKey, BeforeDelivery),
}

impl UndoRecord {
    /// Undoes the step.
    pub(crate) fn put_back(self, rows: &mut IndexedRows)
        requires { spec.CanPutBack rows.old.tables.scale self
            (content rows.old.tables (spec.group_of_kept self)) }
        ensures { spec.ChangesGroup
            (spec.group_of_kept self) (spec.put_back_in self) rows.old rows.new }
    {
        match self {
            UndoRecord::Warehouse(w_id, row) => {
                rows.replace_warehouse(w_id, row);
            }
            UndoRecord::District(key, row) => {
                rows.replace_district(key, row);
            }
            UndoRecord::Stock(key, row) => {
                rows.replace_stock(key, row);
            }
            UndoRecord::Customer(key, row) => {
                rows.replace_customer(key, row);
            }
            UndoRecord::NoPayment(key) => rows.pop_history(key),
            UndoRecord::Order(key, replaced) => {
                // Called for its contract: the rows are the warehouse's.
                let _ = rows.partition();
                rows.take_back_order(key, replaced);
            }
            UndoRecord::Delivery(key, before) => rows.take_back_delivery(key, before),
        }
    }
}

/// Undoes all steps of a group, from the last to the first. No undo record is left.
pub(crate) fn put_all_back(undo: &mut Vec<UndoRecord>, rows: &mut IndexedRows)
    requires { (group : AnyGroup) × spec.AreKeptIn rows.old group undo.old.items }
    ensures rows { spec.AreUndone undo.old.items rows.old rows.new }
    ensures none { undo.new.items ≡ [] }
{
    while let Some(kept) = undo.pop() {
        kept.put_back(rows);
    }
}
