//! The kinds of steps, and the change of each.
ghost use Rattle.std.specs.Prelude.{IsTrue};
ghost use Rattle.std.specs.FinMap as map;
ghost use Rattle.schema.specs.OrderRows.{with_delivery, with_order};
ghost use Rattle.schema.specs.Scale.{has_customer};
ghost use Rattle.partitions.specs.RowChanges.{with_warehouse_row, with_district_row, with_stock_row, with_customer_row, with_history_row};
ghost use Rattle.groups.specs.Groups.{group_of_warehouse, group_of_district, group_of_customer, group_of_order, group_of_history, group_of_stock};
ghost use Rattle.groups.specs.Laws.{with_warehouse, with_district, with_customer, with_stock};
ghost use Rattle.slices.specs.Undo.{AreNamesAt, IsOrderFor, with_order_delivered, with_order_more, with_payment_more};
ghost use Rattle.slices.specs.HomeRows.{home_of_warehouse, home_of_district, home_of_stock, home_of_customer, home_of_order};

use crate::indexed::IndexedRows;
use crate::step::Step;
use crate::undo_record::UndoRecord;
use schema::{
    CarrierId, Customer, CustomerKey, District, DistrictKey, History, Moment, NoMemory, Order,
    OrderKey, OrderLine, Stock, StockKey, Warehouse,
};

/// Replaces the warehouse's row.
#[derive(Drop)]
pub(crate) struct PutWarehouse {
    pub(crate) w_id: u32,
    pub(crate) row: Warehouse,
}

impl Step for PutWarehouse {
    ghost group = { λ step. group_of_warehouse step.w_id };

    ghost changed = { λ step. with_warehouse step.row };

    ghost done = { λ step t. with_warehouse_row t step.w_id step.row };

    ghost is_possible = { λ step p. IsTrue (map.contains_key p.tables.warehouses step.w_id) };

    ghost at_home = { λ step p is can. home_of_warehouse p is step.w_id can };

    fn run(self, rows: &mut IndexedRows) -> Result<UndoRecord, NoMemory> {
        let old = rows.replace_warehouse(self.w_id, self.row);
        Ok(UndoRecord::Warehouse(self.w_id, old))
    }
}

/// Replaces the district's row.
#[derive(Drop)]
pub(crate) struct PutDistrict {
    pub(crate) key: DistrictKey,
    pub(crate) row: District,
}

impl Step for PutDistrict {
    ghost group = { λ step. group_of_district step.key };

    ghost changed = { λ step. with_district step.row };

    ghost done = { λ step t. with_district_row t step.key step.row };

    ghost is_possible = { λ step p. IsTrue (map.contains_key p.tables.districts step.key) };

    ghost at_home = { λ step p is can. home_of_district p is step.key can };

    fn run(self, rows: &mut IndexedRows) -> Result<UndoRecord, NoMemory> {
        let old = rows.replace_district(self.key, self.row);
        Ok(UndoRecord::District(self.key, old))
    }
}

/// Replaces a row of STOCK.
#[derive(Drop)]
pub(crate) struct PutStock {
    pub(crate) key: StockKey,
    pub(crate) row: Stock,
}

impl Step for PutStock {
    ghost group = { λ step. group_of_stock step.key };

    ghost changed = { λ step. with_stock step.key step.row };

    ghost done = { λ step t. with_stock_row t step.key step.row };

    ghost is_possible = { λ step p. IsTrue (map.contains_key p.tables.stocks step.key) };

    ghost at_home = { λ step p is can. home_of_stock p is step.key can };

    fn run(self, rows: &mut IndexedRows) -> Result<UndoRecord, NoMemory> {
        let old = rows.replace_stock(self.key, self.row);
        Ok(UndoRecord::Stock(self.key, old))
    }
}

/// Replaces the customer's row by one with the same names.
#[derive(Drop)]
pub(crate) struct PutCustomer {
    pub(crate) key: CustomerKey,
    pub(crate) row: Customer,
}

impl Step for PutCustomer {
    ghost group = { λ step. group_of_customer step.key };

    ghost changed = { λ step. with_customer step.key step.row };

    ghost done = { λ step t. with_customer_row t step.key step.row };

    ghost is_possible = { λ step p. IsTrue (map.contains_key p.tables.customers step.key)
        × AreNamesAt p.tables step.key step.row };

    ghost at_home = { λ step p is can. home_of_customer p is step.key can.0 };

    fn run(self, rows: &mut IndexedRows) -> Result<UndoRecord, NoMemory> {
        let old = rows.replace_customer(self.key, self.row);
        Ok(UndoRecord::Customer(self.key, old))
    }
}

/// Adds a payment at the end of the district's list.
#[derive(Drop)]
pub(crate) struct AddPayment {
    pub(crate) key: DistrictKey,
    pub(crate) row: History,
}

impl Step for AddPayment {
    ghost group = { λ step. group_of_history step.key };

    ghost changed = { λ step. with_payment_more step.row };

    ghost done = { λ step t. with_history_row t step.key step.row };

    ghost is_possible = { λ step p. IsTrue (map.contains_key p.tables.districts step.key)
        × IsTrue (has_customer p.tables.scale step.row.customer) };

    ghost at_home = { λ step p is can. home_of_district p is step.key can.0 };

    fn run(self, rows: &mut IndexedRows) -> Result<UndoRecord, NoMemory> {
        rows.push_history(self.key, self.row)?;
        Ok(UndoRecord::NoPayment(self.key))
    }
}

/// Adds an order with all its rows.
#[derive(Drop)]
pub(crate) struct AddOrder {
    pub(crate) key: OrderKey,
    pub(crate) order: Order,
    pub(crate) lines: Vec<OrderLine>,
}

impl Step for AddOrder {
    ghost group = { λ step. group_of_order step.key };

    ghost changed = { λ step. with_order_more step.key step.order step.lines.items };

    ghost done = { λ step t. with_order t step.key step.order step.lines.items };

    ghost is_possible = { λ step p. IsOrderFor p step.key step.order step.lines.items };

    ghost at_home = { λ step p is can. can.home };

    fn run(self, rows: &mut IndexedRows) -> Result<UndoRecord, NoMemory> {
        let replaced = rows.add_order(self.key, self.order, self.lines)?;
        Ok(UndoRecord::Order(self.key, replaced))
    }
}

/// Delivers an order.
#[derive(Drop)]
pub(crate) struct DeliverOrder {
    pub(crate) key: OrderKey,
    pub(crate) carrier: CarrierId,
    pub(crate) moment: Moment,
}

impl Step for DeliverOrder {
    ghost group = { λ step. group_of_order step.key };

    ghost changed = { λ step. with_order_delivered step.key step.carrier step.moment };

    ghost done = { λ step t. with_delivery t step.key step.carrier step.moment };

    ghost is_possible = { λ step p. IsTrue (map.contains_key p.tables.orders step.key) };

    ghost at_home = { λ step p is can. home_of_order p is step.key can };

    fn run(self, rows: &mut IndexedRows) -> Result<UndoRecord, NoMemory> {
        let before = rows.deliver_order(self.key, self.carrier, self.moment)?;
        Ok(UndoRecord::Delivery(self.key, before))
    }
}
