ghost use Rattle.std.specs.Prelude.{IfOk};
ghost use Rattle.partitions.specs.Partitions.{AreSameHomeRows};

use crate::new_order_rows::NewOrderRows;
use schema::{
    Customer, District, HistoryList, NoMemory, Order, OrderKey, OrderLines, Stock, Warehouse,
};
use std::collections::BTreeMap;

/// The rows of one warehouse. The scale fixes the keys of districts, stocks, customers and histories:
/// their rows are stored without keys, in ascending order of the keys.
#[derive(Drop)]
pub struct HomeRows {
    pub warehouse: Warehouse,
    /// By D_ID.
    pub districts: Vec<District>,
    /// By S_I_ID.
    pub stocks: Vec<Stock>,
    /// By (C_D_ID, C_ID).
    pub customers: Vec<Customer>,
    /// By H_D_ID.
    pub histories: Vec<HistoryList>,
    pub orders: BTreeMap<OrderKey, Order>,
    pub new_orders: NewOrderRows,
    pub lines: OrderLines,
}

impl HomeRows {
    /// Returns an equal copy. Returns NoMemory if an allocation fails; nothing stays allocated then.
    pub fn try_clone(&self) -> Result<HomeRows, NoMemory>
        ensures { IfOk result (AreSameHomeRows self.now) }
    {
        Ok(HomeRows {
            warehouse: self.warehouse.copy(),
            districts: self.districts.clone()?,
            stocks: self.stocks.clone()?,
            customers: self.customers.clone()?,
            histories: self.histories.clone()?,
            orders: self.orders.clone()?,
            new_orders: self.new_orders.try_clone()?,
            lines: self.lines.try_clone()?,
        })
    }
}
