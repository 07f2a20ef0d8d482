ghost use Rattle.std.specs.Prelude.{◌≡◌, ◌↔◌, ◌^◌, ◌<◌, ◌≤◌, length, IsTrue, is_some, IfSome, IsOk, IfOk, IfErr, OnOk, OnErr};
ghost use Rattle.std.specs.Option.{option_copied};
ghost use Rattle.std.specs.FinMap as map;
ghost use Rattle.std.specs.List.{list_all};
ghost use Rattle.rows.specs.declared.limits.TheConstants.{MOST_LINES};
ghost use Rattle.schema.specs.Scale.{has_customer, has_district, customer_key};
ghost use Rattle.schema.specs.Database.{IsWithinScale, customer_of_order, is_order_id, with_warehouse_row, with_district_row, with_stock_row, with_customer_row, with_history_row, without_history_row, rows_where, is_of_district, is_line_of_district, is_of_order, AreCustomersOf};
ghost use Rattle.schema.specs.Rows.{database, FitsScale, Breaks};
ghost use Rattle.schema.specs.OrderRows.{StoodThere, is_in_span, is_line_within, line_key, oldest_new_order, with_delivery, with_order, without_order, HasLines};

use crate::order_rows::{
    Replaced, add_order_rows, deliver_order_rows, oldest_number, take_back_order_rows,
};
use crate::{Entries, Lines, NewOrders, NoMemory, Orders, Scale, ScaleFault, TableRows};
use rows::{
    CarrierId, Customer, CustomerKey, District, DistrictKey, History, Item, Moment, NewOrder,
    Order, OrderKey, OrderLine, OrderLineKey, Stock, StockKey, Warehouse,
};
use std::marker::Model;
use std::mem;

/// The nine tables, within their scale. The model is the scale and nine finite maps from keys to rows.
#[derive(Drop)]
pub struct Tables {
    scale: Scale,
    rows: TableRows,
}

impl Model for Tables {
    ghost use Rattle.std.specs.Prelude.{refl};
    ghost use Rattle.std.specs.Coded.{code_by, coded×, coded_ℕ, coded_list};
    ghost use Rattle.std.specs.FinMap as map;
    ghost use Rattle.rows.specs.contracts.keys.DistrictKey as district_key;
    ghost use Rattle.rows.specs.contracts.keys.StockKey as stock_key;
    ghost use Rattle.rows.specs.contracts.keys.CustomerKey as customer_key;
    ghost use Rattle.rows.specs.contracts.keys.OrderKey as order_key;
    ghost use Rattle.rows.specs.contracts.keys.OrderLineKey as line_key;
    ghost use Rattle.rows.specs.contracts.records.Item as item;
    ghost use Rattle.rows.specs.contracts.records.Warehouse as warehouse;
    ghost use Rattle.rows.specs.contracts.records.District as district;
    ghost use Rattle.rows.specs.contracts.records.Stock as stock;
    ghost use Rattle.rows.specs.contracts.records.Customer as customer;
    ghost use Rattle.rows.specs.contracts.records.History as history;
    ghost use Rattle.rows.specs.contracts.records.Order as order;
    ghost use Rattle.rows.specs.contracts.records.NewOrder as new_order;
    ghost use Rattle.rows.specs.contracts.records.OrderLine as line;
    ghost use Rattle.schema.specs.contracts.scale.Scale as scale_kind;
    ghost use Rattle.schema.specs.Database.{Database};
    ghost use Rattle.schema.specs.Rows.{database, FitsScale};

    ghost Value = { Database };

    ghost coded = { code_by _
        (coded× scale_kind.the_row.coded
        (coded× (map.code coded_ℕ item.the_row.coded)
        (coded× (map.code coded_ℕ warehouse.the_row.coded)
        (coded× (map.code district_key.the_row.coded district.the_row.coded)
        (coded× (map.code stock_key.the_row.coded stock.the_row.coded)
        (coded× (map.code customer_key.the_row.coded customer.the_row.coded)
        (coded× (map.code district_key.the_row.coded (coded_list history.the_row.coded))
        (coded× (map.code order_key.the_row.coded order.the_row.coded)
        (coded× (map.code order_key.the_row.coded new_order.the_row.coded)
        (map.code line_key.the_row.coded line.the_row.coded))))))))))
        (λ t. (t.scale, (t.items, (t.warehouses, (t.districts, (t.stocks, (t.customers, (t.histories, (t.orders, (t.new_orders, t.lines))))))))))
        (λ p. record {
          scale = p.0;
          items = p.1.0;
          warehouses = p.1.1.0;
          districts = p.1.1.1.0;
          stocks = p.1.1.1.1.0;
          customers = p.1.1.1.1.1.0;
          histories = p.1.1.1.1.1.1.0;
          orders = p.1.1.1.1.1.1.1.0;
          new_orders = p.1.1.1.1.1.1.1.1.0;
          lines = p.1.1.1.1.1.1.1.1.1;
        })
        (λ _. refl) };

    ghost view = { λ t. database t.scale t.rows };

    ghost invariant = { λ t. FitsScale t.scale t.rows };
}

impl Tables {
    /// Makes tables of these rows. Returns `Err` exactly if the rows do not fit the scale, with a rule
    /// that they break. Does not allocate.
    pub fn checked(scale: Scale, rows: TableRows) -> Result<Tables, ScaleFault>
        ensures made { IfOk result (λ tables. tables ≡ database scale rows) }
        ensures fits { IsOk result ↔ FitsScale scale rows }
        ensures broken { IfErr result (λ fault. Breaks fault scale rows) }
    {
        match rows.fault(scale) {
            Some(fault) => Err(fault),
            None => Ok(Tables { scale, rows }),
        }
    }

    /// Makes tables of these rows. The caller ensures that they fit the scale. Does not allocate and
    /// reads no row.
    pub fn from_fitting(scale: Scale, rows: TableRows) -> Tables
        requires { FitsScale scale rows }
        ensures { result ≡ database scale rows }
    {
        Tables { scale, rows }
    }

    /// The scale and the rows, in the order in which `checked` takes them. Does not allocate.
    pub fn into_rows(self) -> (Scale, TableRows)
        ensures same { database result.0 result.1 ≡ self }
        ensures fits { FitsScale result.0 result.1 }
    {
        (self.scale, self.rows)
    }

    /// All rows, in the order in which `checked` takes them.
    pub fn rows(&self) -> &TableRows
        ensures same { database self.now.scale result.now ≡ self.now }
        ensures fits { FitsScale self.now.scale result.now }
    {
        &self.rows
    }

    /// Returns equal tables, or `NoMemory` if an allocation fails.
    pub fn try_clone(&self) -> Result<Tables, NoMemory>
        ensures { IfOk result (λ copy. copy ≡ self.now) }
    {
        let rows = self.rows.try_clone()?;
        Ok(Tables {
            scale: self.scale,
            rows,
        })
    }

    /// The scale of the tables.
    pub fn scale(&self) -> Scale
        ensures value { result ≡ self.now.scale }
        ensures within { IsWithinScale self.now }
    {
        self.scale
    }

    /// The row of the item, or `None` if there is none. The look-ups below do the same for their
    /// tables.
    pub fn item(&self, item: u32) -> Option<&Item>
        ensures { option_copied result ≡ map.get self.now.items item }
    {
        self.rows.items.get(self.scale.item_slot(item)?)
    }

    pub fn warehouse(&self, warehouse: u32) -> Option<&Warehouse>
        ensures { option_copied result ≡ map.get self.now.warehouses warehouse }
    {
        self.rows
            .warehouses
            .get(self.scale.warehouse_slot(warehouse)?)
    }

    pub fn district(&self, key: DistrictKey) -> Option<&District>
        ensures { option_copied result ≡ map.get self.now.districts key }
    {
        self.rows.districts.get(self.scale.district_slot(key)?)
    }

    pub fn stock(&self, key: StockKey) -> Option<&Stock>
        ensures { option_copied result ≡ map.get self.now.stocks key }
    {
        self.rows.stocks.get(self.scale.stock_slot(key)?)
    }

    pub fn customer(&self, key: CustomerKey) -> Option<&Customer>
        ensures { option_copied result ≡ map.get self.now.customers key }
    {
        self.rows.customers.get(self.scale.customer_slot(key)?)
    }

    /// The payments of the district, oldest first.
    pub fn history(&self, key: DistrictKey) -> Option<&[History]>
        ensures { option_copied result ≡ map.get self.now.histories key }
    {
        Some(
            self.rows
                .histories
                .get(self.scale.district_slot(key)?)?
                .rows(),
        )
    }

    pub fn order(&self, key: OrderKey) -> Option<&Order>
        ensures { option_copied result ≡ map.get self.now.orders key }
    {
        self.rows.orders.get(&key)
    }

    pub fn new_order(&self, key: OrderKey) -> Option<&NewOrder>
        ensures { option_copied result ≡ map.get self.now.new_orders key }
    {
        self.rows.new_orders.get(&key)
    }

    pub fn line(&self, key: OrderLineKey) -> Option<&OrderLine>
        ensures { option_copied result ≡ map.get self.now.lines key }
    {
        self.rows.lines.get(key)
    }

    /// All orders, in key order.
    pub fn orders(&self) -> Orders<'_>
        ensures rows { result ≡ map.entries self.now.orders }
        ensures fits { length result < 2 ^ 63 }
    {
        Entries::of_map(self.rows.orders.range(..))
    }

    /// All new orders, in key order.
    pub fn new_orders(&self) -> NewOrders<'_>
        ensures rows { result ≡ map.entries self.now.new_orders }
        ensures fits { length result < 2 ^ 63 }
    {
        Entries::of_map(self.rows.new_orders.range(..))
    }

    /// All lines, in key order.
    pub fn lines(&self) -> Lines<'_>
        ensures rows { result ≡ map.entries self.now.lines }
        ensures fits { length result < 2 ^ 63 }
    {
        self.rows.lines.entries()
    }

    /// The orders of the district, in the order of O_ID.
    pub fn orders_of(&self, home: DistrictKey) -> Orders<'_>
        ensures rows { result ≡ rows_where (is_of_district home) self.now.orders }
        ensures few { length result ≤ 9999999 }
    {
        Entries::of_map(self.rows.orders.range(first_order(home)..=last_order(home)))
    }

    /// The new orders of the district, in the order of NO_O_ID.
    pub fn new_orders_of(&self, home: DistrictKey) -> NewOrders<'_>
        ensures rows { result ≡ rows_where (is_of_district home) self.now.new_orders }
        ensures fits { length result < 2 ^ 63 }
    {
        Entries::of_map(
            self.rows
                .new_orders
                .range(first_order(home)..=last_order(home)),
        )
    }

    /// The lines of the order, in the order of OL_NUMBER.
    pub fn lines_of(&self, order: OrderKey) -> Lines<'_>
        ensures rows { result ≡ rows_where (is_of_order order) self.now.lines }
        ensures fits { length result < 2 ^ 63 }
    {
        self.rows.lines.of_order(order)
    }

    /// The number of lines of the order.
    pub fn line_count(&self, order: OrderKey) -> usize
        ensures { result ≡ length (rows_where (is_of_order order) self.now.lines) }
    {
        self.rows.lines.count_of(order)
    }

    /// The lines of the district's orders, in the order of O_ID and then OL_NUMBER.
    pub fn lines_of_district(&self, home: DistrictKey) -> Lines<'_>
        ensures rows { result ≡ rows_where (is_line_of_district home) self.now.lines }
        ensures fits { length result < 2 ^ 63 }
    {
        self.rows.lines.of_district(home)
    }

    /// The number of the district's oldest new order, or `None` if it has none (clause 2.7.4.2). Reads
    /// one row.
    pub fn oldest_new_order(&self, home: DistrictKey) -> Option<u32>
        ensures { result ≡ oldest_new_order self.now home }
    {
        oldest_number(&self.rows.new_orders, home)
    }

    /// The lines of the district's orders with `from` <= O_ID < `to`, in the order of O_ID and then
    /// OL_NUMBER.
    pub fn lines_of_span(&self, home: DistrictKey, from: u32, to: u32) -> Lines<'_>
        ensures rows { result ≡ rows_where (is_in_span home from to) self.now.lines }
        ensures fits { length result < 2 ^ 63 }
    {
        self.rows.lines.in_span(home, from, to)
    }

    /// The customers of the district, in the order of C_ID, from 1; `None` if the scale has no such
    /// district.
    pub fn customers_of(&self, home: DistrictKey) -> Option<&[Customer]>
        ensures district { is_some result ≡ has_district self.now.scale home }
        ensures rows { IfSome result (λ rows. AreCustomersOf self.now home rows.now) }
    {
        let slot = self.scale.district_slot(home)?;
        let customers = self.scale.customers as usize;
        self.rows
            .customers
            .get(slot * customers..(slot + 1) * customers)
    }

    /// Replaces the warehouse's row and returns the row that it replaces. The next three functions do
    /// the same for their tables.
    pub fn replace_warehouse(&mut self, warehouse: u32, row: Warehouse) -> Option<Warehouse>
        requires { IsTrue (map.contains_key self.old.warehouses warehouse) }
        ensures tables { self.new ≡ with_warehouse_row self.old warehouse row }
        ensures was { result ≡ map.get self.old.warehouses warehouse }
    {
        let slot = self.scale.warehouse_slot(warehouse)?;
        Some(mem::replace(&mut self.rows.warehouses[slot], row))
    }

    pub fn replace_district(&mut self, key: DistrictKey, row: District) -> Option<District>
        requires { IsTrue (map.contains_key self.old.districts key) }
        ensures tables { self.new ≡ with_district_row self.old key row }
        ensures was { result ≡ map.get self.old.districts key }
    {
        let slot = self.scale.district_slot(key)?;
        Some(mem::replace(&mut self.rows.districts[slot], row))
    }

    pub fn replace_stock(&mut self, key: StockKey, row: Stock) -> Option<Stock>
        requires { IsTrue (map.contains_key self.old.stocks key) }
        ensures tables { self.new ≡ with_stock_row self.old key row }
        ensures was { result ≡ map.get self.old.stocks key }
    {
        let slot = self.scale.stock_slot(key)?;
        Some(mem::replace(&mut self.rows.stocks[slot], row))
    }

    pub fn replace_customer(&mut self, key: CustomerKey, row: Customer) -> Option<Customer>
        requires { IsTrue (map.contains_key self.old.customers key) }
        ensures tables { self.new ≡ with_customer_row self.old key row }
        ensures was { result ≡ map.get self.old.customers key }
    {
        let slot = self.scale.customer_slot(key)?;
        Some(mem::replace(&mut self.rows.customers[slot], row))
    }

    /// Appends a payment to the district's list. Returns `NoMemory` if an allocation fails; nothing has
    /// changed then.
    pub fn push_history(&mut self, key: DistrictKey, row: History) -> Result<(), NoMemory>
        requires district { IsTrue (map.contains_key self.old.districts key) }
        requires payer { IsTrue (map.contains_key self.old.customers row.customer) }
        ensures ok { OnOk result (self.new ≡ with_history_row self.old key row) }
        ensures err { OnErr result (self.new ≡ self.old) }
    {
        match self.scale.district_slot(key) {
            Some(slot) => self.rows.histories[slot].push(row),
            None => Ok(()),
        }
    }

    /// Removes the last payment of the district's list, if there is one. Does not allocate.
    pub fn pop_history(&mut self, key: DistrictKey)
        requires { IsTrue (map.contains_key self.old.districts key) }
        ensures { self.new ≡ without_history_row self.old key }
    {
        if let Some(slot) = self.scale.district_slot(key) {
            self.rows.histories[slot].pop();
        }
    }

    /// Adds an order, its row of NEW-ORDER and its lines, numbered from 1 (clause 2.4.2.2), and returns
    /// the rows that they replace. Returns `NoMemory` if an allocation fails; the tables are unchanged
    /// then.
    pub fn add_order(
        &mut self,
        key: OrderKey,
        order: Order,
        lines: Vec<OrderLine>,
    ) -> Result<Replaced, NoMemory>
        requires number { IsTrue (is_order_id key.o_id) }
        requires customer { IsTrue (has_customer self.old.scale (customer_of_order key order)) }
        requires few { length lines.items ≤ MOST_LINES }
        requires lines { IsTrue (list_all (is_line_within self.old.scale) lines.items) }
        ensures ok { OnOk result (self.new ≡ with_order self.old key order lines.items) }
        ensures replaced { IfOk result (StoodThere self.old key (length lines.items)) }
        ensures err { OnErr result (self.new ≡ self.old) }
    {
        add_order_rows(
            &mut self.rows.orders,
            &mut self.rows.new_orders,
            &mut self.rows.lines,
            key,
            order,
            lines,
        )
    }

    /// Takes back an order that was added: restores the rows that it replaced, and removes its rows
    /// where it replaced none. Does not allocate.
    pub fn take_back_order(&mut self, key: OrderKey, replaced: Replaced)
        requires few { length replaced.lines.items ≤ MOST_LINES }
        requires order { IsTrue (map.contains_key self.old.orders key) }
        requires new_order { IsTrue (map.contains_key self.old.new_orders key) }
        requires lines { HasLines self.old.lines key (length replaced.lines.items) }
        requires within { IsWithinScale (without_order self.old key replaced) }
        ensures { self.new ≡ without_order self.old key replaced }
    {
        take_back_order_rows(
            &mut self.rows.orders,
            &mut self.rows.new_orders,
            &mut self.rows.lines,
            key,
            replaced,
        );
    }

    /// Delivers an order (clause 2.7.4.2): deletes its row of NEW-ORDER, sets its carrier, and sets the
    /// delivery moment of its lines. Does not allocate.
    pub fn deliver_order(&mut self, key: OrderKey, carrier: CarrierId, moment: Moment)
        ensures { self.new ≡ with_delivery self.old key carrier moment }
    {
        deliver_order_rows(
            &mut self.rows.orders,
            &mut self.rows.new_orders,
            &mut self.rows.lines,
            key,
            carrier,
            moment,
        );
    }
}

fn first_order(home: DistrictKey) -> OrderKey
    ensures { result ≡ record { w_id = home.w_id; d_id = home.d_id; o_id = 0 } }
{
    OrderKey {
        w_id: home.w_id,
        d_id: home.d_id,
        o_id: 0,
    }
}

fn last_order(home: DistrictKey) -> OrderKey
    ensures { result ≡ record { w_id = home.w_id; d_id = home.d_id; o_id = 4294967295 } }
{
    OrderKey {
        w_id: home.w_id,
        d_id: home.d_id,
        o_id: u32::MAX,
    }
}
