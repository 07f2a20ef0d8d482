ghost use Rattle.std.specs.Prelude.{◌≡◌, ◌^◌, ◌<◌, ◌≤◌, length, IsTrue, is_some, IfSome, IfOk, OnOk, OnErr};
ghost use Rattle.std.specs.Option.{option_copied};
ghost use Rattle.std.specs.FinMap as map;
ghost use Rattle.std.specs.List.{list_all};
ghost use Rattle.rows.specs.declared.limits.TheConstants.{MOST_LINES};
ghost use Rattle.schema.specs.Scale.{has_customer};
ghost use Rattle.schema.specs.Database.{customer_of_order, is_order_id, rows_where, is_of_order};
ghost use Rattle.schema.specs.OrderRows.{StoodThere, is_in_span, is_line_within, oldest_new_order};
ghost use Rattle.partitions.specs.Deliveries.{StoodBefore};
ghost use Rattle.partitions.specs.Parts.{IsPart, has_district_of};
ghost use Rattle.partitions.specs.RowChanges.{AddsOrder, AddsPayment, DeliversOrder, HasLines, PutsCustomer, PutsDistrict, PutsStock, PutsWarehouse, RemovesPayment, TakesBackDelivery, part_without_order};
ghost use Rattle.partitions.specs.Slots.{AreCustomersOf, customer_slot_by, home_slot, home_stock_slot};

use crate::Catalog;
use crate::delivery_rows::{
    BeforeDelivery, carrier_of, moments_of, put_carrier_back, put_moments_back,
};
use crate::home_rows::HomeRows;
use schema::{
    CarrierId, Customer, CustomerKey, District, DistrictKey, Entries, History, Item, Lines, Moment,
    NoMemory, Order, OrderKey, OrderLine, Orders, Replaced, Scale, Stock, StockKey, Warehouse,
};
use std::marker::Model;
use std::mem;

/// The rows of one warehouse, and what all partitions share. In contracts: tables that have no rows of
/// other warehouses.
#[derive(Drop)]
pub struct Partition {
    pub(crate) catalog: Catalog,
    pub(crate) home: u32,
    pub(crate) rows: HomeRows,
}

impl Model for Partition {
    ghost use Rattle.std.specs.Prelude.{refl};
    ghost use Rattle.std.specs.Coded.{code_by, coded×, coded_ℕ};
    ghost use Rattle.schema.specs.contracts.tables.Tables as tables_kind;
    ghost use Rattle.partitions.specs.Parts.{Part};
    ghost use Rattle.partitions.specs.Partitions.{part, FitsPart};

    ghost Value = { Part };

    ghost coded = { code_by _
        (coded× coded_ℕ tables_kind.the_row.coded)
        (λ p. (p.home, p.tables))
        (λ p. record { home = p.0; tables = p.1 })
        (λ _. refl) };

    ghost view = { λ p. part p.catalog p.home p.rows };

    ghost invariant = { λ p. FitsPart p.catalog p.home p.rows };
}

impl Partition {
    /// Returns an equal copy, which shares the items. Returns NoMemory if an allocation fails; nothing
    /// stays allocated then.
    pub fn try_clone(&self) -> Result<Partition, NoMemory>
        ensures { IfOk result (λ copy. copy ≡ self.now) }
    {
        let catalog = self.catalog.share()?;
        let rows = self.rows.try_clone()?;
        Ok(Partition {
            catalog,
            home: self.home,
            rows,
        })
    }

    /// Returns the W_ID of the warehouse to which the rows belong.
    pub fn home(&self) -> u32
        ensures home { result ≡ self.now.home }
        ensures part { IsPart self.now }
    {
        self.home
    }

    /// Returns the scale of the tables of which this is a part.
    pub fn scale(&self) -> Scale
        ensures value { result ≡ self.now.tables.scale }
        ensures part { IsPart self.now }
    {
        self.catalog.scale()
    }

    /// Returns the item's row, `None` if there is none.
    pub fn item(&self, i_id: u32) -> Option<&Item>
        ensures { option_copied result ≡ map.get self.now.tables.items i_id }
    {
        self.catalog.item(i_id)
    }

    /// Returns the warehouse's row, `None` for other warehouses. The other look-ups also return `None`
    /// there.
    pub fn warehouse(&self, w_id: u32) -> Option<&Warehouse>
        ensures { option_copied result ≡ map.get self.now.tables.warehouses w_id }
    {
        if w_id == self.home {
            Some(&self.rows.warehouse)
        } else {
            None
        }
    }

    pub fn district(&self, key: DistrictKey) -> Option<&District>
        ensures { option_copied result ≡ map.get self.now.tables.districts key }
    {
        self.rows.districts.get(self.slot_of_district(key)?)
    }

    pub fn stock(&self, key: StockKey) -> Option<&Stock>
        ensures { option_copied result ≡ map.get self.now.tables.stocks key }
    {
        self.rows.stocks.get(self.slot_of_stock(key)?)
    }

    pub fn customer(&self, key: CustomerKey) -> Option<&Customer>
        ensures { option_copied result ≡ map.get self.now.tables.customers key }
    {
        self.rows.customers.get(self.slot_of_customer(key)?)
    }

    /// Returns the order's row, `None` if there is none here.
    pub fn order(&self, key: OrderKey) -> Option<&Order>
        ensures { option_copied result ≡ map.get self.now.tables.orders key }
    {
        self.rows.orders.get(&key)
    }

    /// Returns all orders of the warehouse, by key.
    pub fn orders(&self) -> Orders<'_>
        ensures rows { result ≡ map.entries self.now.tables.orders }
        ensures fits { length result < 2 ^ 63 }
    {
        Entries::of_map(self.rows.orders.range(..))
    }

    /// Returns the lines of the order, by OL_NUMBER.
    pub fn lines_of(&self, order: OrderKey) -> Lines<'_>
        ensures rows { result ≡ rows_where (is_of_order order) self.now.tables.lines }
        ensures fits { length result < 2 ^ 63 }
    {
        self.rows.lines.of_order(order)
    }

    /// Returns the lines of the district's orders with numbers from `from` up to but excluding `to`, by
    /// O_ID and then by OL_NUMBER.
    pub fn lines_of_span(&self, home: DistrictKey, from: u32, to: u32) -> Lines<'_>
        ensures rows { result ≡ rows_where (is_in_span home from to) self.now.tables.lines }
        ensures fits { length result < 2 ^ 63 }
    {
        self.rows.lines.in_span(home, from, to)
    }

    /// Returns the customers of the district, by C_ID from 1; `None` if the district is not one of the
    /// warehouse's.
    pub fn customers_of(&self, home: DistrictKey) -> Option<&[Customer]>
        ensures district { is_some result ≡ has_district_of self.now.home home }
        ensures rows { IfSome result (λ rows. AreCustomersOf self.now.tables home rows.now) }
    {
        let slot = self.slot_of_district(home)?;
        let customers = self.scale().customers as usize;
        self.rows
            .customers
            .get(slot * customers..(slot + 1) * customers)
    }

    /// Replaces the warehouse's row, and returns the old row. The next three functions do the same for
    /// their tables.
    pub fn replace_warehouse(&mut self, w_id: u32, row: Warehouse) -> Option<Warehouse>
        requires { IsTrue (map.contains_key self.old.tables.warehouses w_id) }
        ensures tables { PutsWarehouse w_id row self.old self.new }
        ensures was { result ≡ map.get self.old.tables.warehouses w_id }
    {
        if w_id == self.home {
            Some(mem::replace(&mut self.rows.warehouse, row))
        } else {
            None
        }
    }

    pub fn replace_district(&mut self, key: DistrictKey, row: District) -> Option<District>
        requires { IsTrue (map.contains_key self.old.tables.districts key) }
        ensures tables { PutsDistrict key row self.old self.new }
        ensures was { result ≡ map.get self.old.tables.districts key }
    {
        let slot = self.slot_of_district(key)?;
        Some(mem::replace(&mut self.rows.districts[slot], row))
    }

    pub fn replace_stock(&mut self, key: StockKey, row: Stock) -> Option<Stock>
        requires { IsTrue (map.contains_key self.old.tables.stocks key) }
        ensures tables { PutsStock key row self.old self.new }
        ensures was { result ≡ map.get self.old.tables.stocks key }
    {
        let slot = self.slot_of_stock(key)?;
        Some(mem::replace(&mut self.rows.stocks[slot], row))
    }

    pub fn replace_customer(&mut self, key: CustomerKey, row: Customer) -> Option<Customer>
        requires { IsTrue (map.contains_key self.old.tables.customers key) }
        ensures tables { PutsCustomer key row self.old self.new }
        ensures was { result ≡ map.get self.old.tables.customers key }
    {
        let slot = self.slot_of_customer(key)?;
        Some(mem::replace(&mut self.rows.customers[slot], row))
    }

    /// Appends a payment to the district's list. An error changes nothing. The payer may belong to
    /// another warehouse.
    pub fn push_history(&mut self, key: DistrictKey, row: History) -> Result<(), NoMemory>
        requires district { IsTrue (map.contains_key self.old.tables.districts key) }
        requires payer { IsTrue (has_customer self.old.tables.scale row.customer) }
        ensures ok { OnOk result (AddsPayment key row self.old self.new) }
        ensures err { OnErr result (self.new ≡ self.old) }
    {
        match self.slot_of_district(key) {
            Some(slot) => self.rows.histories[slot].push(row),
            None => Ok(()),
        }
    }

    /// Removes the last payment of the district's list, if there is one. Never allocates.
    pub fn pop_history(&mut self, key: DistrictKey)
        requires { IsTrue (map.contains_key self.old.tables.districts key) }
        ensures { RemovesPayment key self.old self.new }
    {
        if let Some(slot) = self.slot_of_district(key) {
            self.rows.histories[slot].pop();
        }
    }

    /// Adds an order of one of the warehouse's districts, its row of NEW-ORDER and its lines, which are
    /// numbered from 1 (clause 2.4.2.2). Returns the rows that were stored at these keys. Returns
    /// NoMemory if an allocation fails; the partition is unchanged then.
    pub fn add_order(
        &mut self,
        key: OrderKey,
        order: Order,
        lines: Vec<OrderLine>,
    ) -> Result<Replaced, NoMemory>
        requires home { key.w_id ≡ self.old.home }
        requires number { IsTrue (is_order_id key.o_id) }
        requires customer { IsTrue
            (has_customer self.old.tables.scale (customer_of_order key order)) }
        requires few { length lines.items ≤ MOST_LINES }
        requires lines { IsTrue (list_all (is_line_within self.old.tables.scale) lines.items) }
        ensures ok { OnOk result (AddsOrder key order lines.items self.old self.new) }
        ensures replaced { IfOk result (StoodThere self.old.tables key (length lines.items)) }
        ensures err { OnErr result (self.new ≡ self.old) }
    {
        self.rows.new_orders.add_order(
            &mut self.rows.orders,
            &mut self.rows.lines,
            key,
            order,
            lines,
        )
    }

    /// Undoes `add_order`: at each of the order's keys the replaced row is stored again, or none if
    /// there was none. Never allocates.
    pub fn take_back_order(&mut self, key: OrderKey, replaced: Replaced)
        requires few { length replaced.lines.items ≤ MOST_LINES }
        requires order { IsTrue (map.contains_key self.old.tables.orders key) }
        requires new_order { IsTrue (map.contains_key self.old.tables.new_orders key) }
        requires lines { HasLines self.old.tables.lines key (length replaced.lines.items) }
        requires within { IsPart (part_without_order self.old key replaced) }
        ensures { self.new ≡ part_without_order self.old key replaced }
    {
        self.rows
            .new_orders
            .take_back_order(&mut self.rows.orders, &mut self.rows.lines, key, replaced);
    }

    /// Returns the number of the district's oldest new order, `None` if it has none here (clause
    /// 2.7.4.2). Reads one row.
    pub fn oldest_new_order(&self, home: DistrictKey) -> Option<u32>
        ensures { result ≡ oldest_new_order self.now.tables home }
    {
        self.rows.new_orders.oldest_number(home)
    }

    /// Delivers an order: deletes its row of NEW-ORDER, and sets its carrier and the delivery moment of
    /// its lines (clause 2.7.4.2). Returns what was stored before. Returns NoMemory if an allocation
    /// fails; the partition is unchanged then.
    pub fn deliver_order(
        &mut self,
        key: OrderKey,
        carrier: CarrierId,
        moment: Moment,
    ) -> Result<BeforeDelivery, NoMemory>
        requires { IsTrue (map.contains_key self.old.tables.orders key) }
        ensures ok { OnOk result (DeliversOrder key carrier moment self.old self.new) }
        ensures before { IfOk result (StoodBefore self.old.tables key) }
        ensures err { OnErr result (self.new ≡ self.old) }
    {
        let carrier_id = carrier_of(&self.rows.orders, key);
        let moments = moments_of(&self.rows.lines, key);
        let (new_order, room) = self.rows.new_orders.deliver_order(
            *self.rows.districts.allocator(),
            &mut self.rows.orders,
            &mut self.rows.lines,
            key,
            carrier,
            moment,
        )?;
        Ok(BeforeDelivery {
            carrier_id,
            moments,
            new_order,
            room,
        })
    }

    /// Undoes `deliver_order`: restores what was stored before it. Never allocates.
    pub fn take_back_delivery(&mut self, key: OrderKey, before: BeforeDelivery)
        requires order { IsTrue (map.contains_key self.old.tables.orders key) }
        requires most_lines { length before.moments ≡ MOST_LINES }
        ensures { TakesBackDelivery key before self.old self.new }
    {
        put_carrier_back(&mut self.rows.orders, key, before.carrier_id);
        put_moments_back(&mut self.rows.lines, key, before.moments);
        self.rows
            .new_orders
            .put_back(key, before.new_order, before.room);
    }

    /// Returns the place of the district's row among the warehouse's, from 0; `None` if the district is
    /// not one of the warehouse's.
    pub(crate) fn slot_of_district(&self, key: DistrictKey) -> Option<usize>
        ensures { result ≡ home_slot self.now.home key }
    {
        if key.w_id == self.home && (1..=10).contains(&key.d_id) {
            Some(key.d_id as usize - 1)
        } else {
            None
        }
    }

    // Returns the place of the row of the warehouse's stock of an item, likewise.
    fn slot_of_stock(&self, key: StockKey) -> Option<usize>
        ensures { result ≡ home_stock_slot self.now.tables.scale self.now.home key }
    {
        if key.w_id == self.home && self.scale().has_item(key.i_id) {
            Some(key.i_id as usize - 1)
        } else {
            None
        }
    }

    // Returns the place of the customer's row, likewise.
    fn slot_of_customer(&self, key: CustomerKey) -> Option<usize>
        ensures { result
            ≡ customer_slot_by (home_slot self.now.home) self.now.tables.scale.customers key }
    {
        let district = self.slot_of_district(key.district())?;
        let customers = self.scale().customers;
        if (1..=customers).contains(&key.c_id) {
            Some(district * customers as usize + (key.c_id as usize - 1))
        } else {
            None
        }
    }
}
