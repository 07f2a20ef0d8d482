ghost use Rattle.std.specs.Prelude.{◌≡◌, IfOk};
ghost use Rattle.schema.specs.Rows.{HasCounts};
ghost use Rattle.partitions.specs.Splits.{AreRowsOfWarehouses, AreHomesFrom, HasHome, TakesFirstHome};

use crate::home_rows::HomeRows;
use crate::new_order_rows::NewOrderRows;
use crate::splits::{split, split_by_warehouse};
use schema::{
    Customer, District, HistoryList, Item, NewOrder, NoMemory, Order, OrderKey, OrderLines, Scale,
    Stock, TableRows, Warehouse,
};
use std::alloc::Global;
use std::collections::BTreeMap;

/// The rows of each table but ITEM, split by warehouse. The last warehouse's rows are first.
#[derive(Drop)]
pub(crate) struct Homes {
    pub(crate) warehouses: Vec<Warehouse>,
    pub(crate) districts: Vec<Vec<District>>,
    pub(crate) stocks: Vec<Vec<Stock>>,
    pub(crate) customers: Vec<Vec<Customer>>,
    pub(crate) histories: Vec<Vec<HistoryList>>,
    pub(crate) orders: Vec<BTreeMap<OrderKey, Order>>,
    pub(crate) new_orders: Vec<BTreeMap<OrderKey, NewOrder>>,
    pub(crate) lines: Vec<OrderLines>,
}

impl Homes {
    /// Returns the rows of ITEM, and those of the other tables split by warehouse, one table after the
    /// other. An error drops all rows.
    pub(crate) fn split(
        alloc: Global,
        scale: Scale,
        rows: TableRows,
    ) -> Result<(Vec<Item>, Homes), NoMemory>
        requires counts { HasCounts scale rows }
        requires within { AreRowsOfWarehouses scale rows }
        ensures items { IfOk result (λ made. made.0.items ≡ rows.items.items) }
        ensures homes { IfOk result (λ made. AreHomesFrom scale rows 0 made.1) }
    {
        let count = scale.warehouses as usize;
        let mut warehouses = rows.warehouses;
        warehouses.reverse();
        let homes = Homes {
            warehouses,
            districts: split(alloc, rows.districts, 10, count)?,
            stocks: split(alloc, rows.stocks, scale.items as usize, count)?,
            customers: split(alloc, rows.customers, 10 * scale.customers as usize, count)?,
            histories: split(alloc, rows.histories, 10, count)?,
            orders: split_by_warehouse(alloc, rows.orders, scale.warehouses)?,
            new_orders: split_by_warehouse(alloc, rows.new_orders, scale.warehouses)?,
            lines: split_by_warehouse(alloc, rows.lines, scale.warehouses)?,
        };
        Ok((rows.items, homes))
    }

    /// Removes and returns the rows of the first warehouse that is left.
    pub(crate) fn take_first(&mut self) -> HomeRows
        requires { HasHome self.old }
        ensures { TakesFirstHome self.old result self.new }
    {
        HomeRows {
            warehouse: self.warehouses.pop().unwrap(),
            districts: self.districts.pop().unwrap(),
            stocks: self.stocks.pop().unwrap(),
            customers: self.customers.pop().unwrap(),
            histories: self.histories.pop().unwrap(),
            orders: self.orders.pop().unwrap(),
            new_orders: NewOrderRows::new(self.new_orders.pop().unwrap()),
            lines: self.lines.pop().unwrap(),
        }
    }
}
