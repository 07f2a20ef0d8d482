ghost use Rattle.std.specs.Prelude.{MatchOption, IfOk};
ghost use Rattle.schema.specs.Rows.{HasCounts, FitsScale, Breaks, AreNoRows, AreSameRows};

use crate::row_rules::{
    LineRules, are_orders_numbered, have_new_orders_orders, have_orders_customers, line_rules,
    name_payers_customers,
};
use crate::{HistoryList, NoMemory, OrderLines, Scale, ScaleFault};
use rows::{Customer, District, Item, NewOrder, Order, OrderKey, Stock, Warehouse};
use std::alloc::Global;
use std::collections::BTreeMap;

/// The rows of the nine tables, not checked against a scale. The rows of the six tables whose keys are
/// exactly the scale's are in ascending key order, without their keys.
#[derive(Drop)]
pub struct TableRows {
    /// By I_ID.
    pub items: Vec<Item>,
    /// By W_ID.
    pub warehouses: Vec<Warehouse>,
    /// By (D_W_ID, D_ID).
    pub districts: Vec<District>,
    /// By (S_W_ID, S_I_ID).
    pub stocks: Vec<Stock>,
    /// By (C_W_ID, C_D_ID, C_ID).
    pub customers: Vec<Customer>,
    /// By (H_W_ID, H_D_ID).
    pub histories: Vec<HistoryList>,
    pub orders: BTreeMap<OrderKey, Order>,
    pub new_orders: BTreeMap<OrderKey, NewOrder>,
    pub lines: OrderLines,
}

impl TableRows {
    /// No rows. Does not allocate.
    pub fn new(alloc: Global) -> Self
        ensures { AreNoRows result }
    {
        TableRows {
            items: Vec::new(alloc),
            warehouses: Vec::new(alloc),
            districts: Vec::new(alloc),
            stocks: Vec::new(alloc),
            customers: Vec::new(alloc),
            histories: Vec::new(alloc),
            orders: BTreeMap::new(alloc),
            new_orders: BTreeMap::new(alloc),
            lines: OrderLines::new(alloc),
        }
    }

    /// Returns equal rows, or `NoMemory` if an allocation fails.
    pub fn try_clone(&self) -> Result<TableRows, NoMemory>
        ensures { IfOk result (AreSameRows self.now) }
    {
        Ok(TableRows {
            items: self.items.clone()?,
            warehouses: self.warehouses.clone()?,
            districts: self.districts.clone()?,
            stocks: self.stocks.clone()?,
            customers: self.customers.clone()?,
            histories: self.histories.clone()?,
            orders: self.orders.clone()?,
            new_orders: self.new_orders.clone()?,
            lines: self.lines.try_clone()?,
        })
    }

    /// A rule of the scale that the rows break, or `None` if they form tables within the scale.
    pub fn fault(&self, scale: Scale) -> Option<ScaleFault>
        ensures { MatchOption result (FitsScale scale self.now)
            (λ fault. Breaks fault scale self.now) }
    {
        match self.count_fault(scale) {
            Some(fault) => Some(fault),
            None => self.reference_fault(scale),
        }
    }

    // Returns a fault if one of the six tables has too few or too many rows.
    fn count_fault(&self, scale: Scale) -> Option<ScaleFault>
        ensures { MatchOption result (HasCounts scale self.now)
            (λ fault. Breaks fault scale self.now) }
    {
        let items = scale.items as usize;
        let warehouses = scale.warehouses as usize;
        let districts = warehouses * 10;
        if self.items.len() != items {
            return Some(ScaleFault::ItemCount);
        }
        if self.warehouses.len() != warehouses {
            return Some(ScaleFault::WarehouseCount);
        }
        if self.districts.len() != districts {
            return Some(ScaleFault::DistrictCount);
        }
        if self.stocks.len() != warehouses * items {
            return Some(ScaleFault::StockCount);
        }
        if self.customers.len() != districts * scale.customers as usize {
            return Some(ScaleFault::CustomerCount);
        }
        if self.histories.len() != districts {
            return Some(ScaleFault::HistoryCount);
        }
        None
    }

    // Returns a fault if a row refers to a row that does not exist, or if a number in a key is out of
    // its range.
    fn reference_fault(&self, scale: Scale) -> Option<ScaleFault>
        requires { HasCounts scale self.now }
        ensures { MatchOption result (FitsScale scale self.now)
            (λ fault. Breaks fault scale self.now) }
    {
        if !name_payers_customers(&self.histories, scale) {
            return Some(ScaleFault::HistoryCustomer);
        }
        if !are_orders_numbered(&self.orders) {
            return Some(ScaleFault::OrderNumber);
        }
        if !have_orders_customers(&self.orders, scale) {
            return Some(ScaleFault::OrderCustomer);
        }
        if !have_new_orders_orders(&self.new_orders, &self.orders) {
            return Some(ScaleFault::NewOrderOrder);
        }
        if !self.lines.have_orders(&self.orders) {
            return Some(ScaleFault::LineOrder);
        }
        let LineRules {
            are_numbered,
            have_items,
            have_suppliers,
        } = line_rules(&self.lines, scale);
        if !are_numbered {
            return Some(ScaleFault::LineNumber);
        }
        if !have_items {
            return Some(ScaleFault::LineItem);
        }
        if !have_suppliers {
            return Some(ScaleFault::LineSupplier);
        }
        None
    }
}
