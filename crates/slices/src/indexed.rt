//! The rows of one warehouse, with the indexes over them.
ghost use Rattle.std.specs.Prelude.{◌≡◌, ◌≤◌, length, IsTrue, IfOk, OnOk, OnErr, Option, Some};
ghost use Rattle.std.specs.Option.{option_copied, option_map};
ghost use Rattle.std.specs.FinMap as map;
ghost use Rattle.rows.specs.declared.records.Order as order;
ghost use Rattle.rows.specs.declared.limits.TheConstants.{MOST_LINES};
ghost use Rattle.schema.specs.Database.{Database};
ghost use Rattle.schema.specs.OrderRows.{StoodThere};
ghost use Rattle.schema.specs.Scale.{has_customer};
ghost use Rattle.partitions.specs.Deliveries.{StoodBefore};
ghost use Rattle.partitions.specs.Parts.{IsPart};
ghost use Rattle.partitions.specs.RowChanges.{AddsOrder, AddsPayment, DeliversOrder, HasLines, PutsCustomer, PutsDistrict, PutsStock, PutsWarehouse, RemovesPayment, TakesBackDelivery, part_without_order};
ghost use Rattle.partitions.specs.Slots.{home_slot};
ghost use Rattle.indexes.specs.LatestIndex.{FitsLatestBy};
ghost use Rattle.indexes.specs.NameOrder.{FitsNamesBy};
ghost use Rattle.slices.specs.Fitting.{IsOrderChanged};
ghost use Rattle.slices.specs.Undo.{AreNamesAt, IsOrderFor};

use indexes::{LatestOrders, NameIndex};
use partitions::{BeforeDelivery, Partition, Rows};
use schema::{
    CarrierId, Customer, CustomerKey, District, DistrictKey, History, Moment, NoMemory, Order,
    OrderKey, OrderLine, Replaced, Stock, StockKey, Warehouse,
};
use std::alloc::Global;
use std::marker::Model;

/// The rows of one warehouse, the index of its customers by last name, and the index of each customer's latest order.
/// The indexes always fit the rows. Contracts see the rows.
#[derive(Drop)]
pub(crate) struct IndexedRows {
    partition: Partition,
    names: NameIndex,
    latest: LatestOrders,
}

impl Model for IndexedRows {
    ghost use Rattle.partitions.specs.Parts.{Part};
    ghost use Rattle.partitions.specs.contracts.partition.Partition as partition_kind;
    ghost use Rattle.slices.specs.Fitting.{FitRows};

    ghost Value = { Part };

    ghost coded = { partition_kind.the_row.coded };

    ghost view = { λ r. r.partition };

    ghost invariant = { λ r. FitRows r.names r.latest r.partition };
}

impl IndexedRows {
    /// Returns the rows with their indexes. Sorts the customers by last name, and finds the latest order of each.
    /// Returns NoMemory if an allocation fails; nothing is left then.
    pub(crate) fn build(alloc: Global, partition: Partition) -> Result<IndexedRows, NoMemory>
        ensures { IfOk result (λ rows. rows ≡ partition) }
    {
        let names = NameIndex::build(alloc, &partition)?;
        let latest = LatestOrders::build(alloc, &partition)?;
        Ok(IndexedRows {
            partition,
            names,
            latest,
        })
    }

    /// Returns the rows.
    pub(crate) fn partition(&self) -> &Partition
        ensures rows { result.now ≡ self.now }
        ensures part { IsPart self.now }
    {
        // A partition has the rows of its warehouse, and no others.
        let _ = self.partition.home();
        &self.partition
    }

    /// Returns the rows. Never allocates.
    pub(crate) fn into_partition(self) -> Partition
        ensures { result ≡ self }
    {
        self.partition
    }

    /// Returns the index of the customers by last name.
    pub(crate) fn names(&self) -> &NameIndex
        ensures { FitsNamesBy (home_slot self.now.home) result.now self.now.tables }
    {
        &self.names
    }

    /// Returns the index of each customer's latest order.
    pub(crate) fn latest(&self) -> &LatestOrders
        ensures { FitsLatestBy (home_slot self.now.home) result.now self.now.tables }
    {
        &self.latest
    }

    /// Replaces the warehouse's row, and returns the old one. The same for the next three tables.
    pub(crate) fn replace_warehouse(&mut self, w_id: u32, row: Warehouse) -> Warehouse
        requires { IsTrue (map.contains_key self.old.tables.warehouses w_id) }
        ensures tables { PutsWarehouse w_id row self.old self.new }
        ensures was { map.get self.old.tables.warehouses w_id ≡ Some result }
    {
        self.partition.replace_warehouse(w_id, row).unwrap()
    }

    pub(crate) fn replace_district(&mut self, key: DistrictKey, row: District) -> District
        requires { IsTrue (map.contains_key self.old.tables.districts key) }
        ensures tables { PutsDistrict key row self.old self.new }
        ensures was { map.get self.old.tables.districts key ≡ Some result }
    {
        self.partition.replace_district(key, row).unwrap()
    }

    pub(crate) fn replace_stock(&mut self, key: StockKey, row: Stock) -> Stock
        requires { IsTrue (map.contains_key self.old.tables.stocks key) }
        ensures tables { PutsStock key row self.old self.new }
        ensures was { map.get self.old.tables.stocks key ≡ Some result }
    {
        self.partition.replace_stock(key, row).unwrap()
    }

    /// `row` must have the names of the stored row.
    pub(crate) fn replace_customer(&mut self, key: CustomerKey, row: Customer) -> Customer
        requires there { IsTrue (map.contains_key self.old.tables.customers key) }
        requires names { AreNamesAt self.old.tables key row }
        ensures tables { PutsCustomer key row self.old self.new }
        ensures was { map.get self.old.tables.customers key ≡ Some result }
    {
        self.partition.replace_customer(key, row).unwrap()
    }

    /// Adds a payment at the end of the district's list. The payer may belong to another warehouse. Returns NoMemory if
    /// an allocation fails; nothing changes then.
    pub(crate) fn push_history(&mut self, key: DistrictKey, row: History) -> Result<(), NoMemory>
        requires district { IsTrue (map.contains_key self.old.tables.districts key) }
        requires payer { IsTrue (has_customer self.old.tables.scale row.customer) }
        ensures ok { OnOk result (AddsPayment key row self.old self.new) }
        ensures err { OnErr result (self.new ≡ self.old) }
    {
        self.partition.push_history(key, row)
    }

    /// Removes the last payment of the district's list. Never allocates.
    pub(crate) fn pop_history(&mut self, key: DistrictKey)
        requires { IsTrue (map.contains_key self.old.tables.histories key) }
        ensures { RemovesPayment key self.old self.new }
    {
        // Called for its contract: each district that has a list has a row.
        let _ = self.partition.home();
        self.partition.pop_history(key);
    }

    /// Adds an order with all its rows, and returns the rows that it replaced. It is its customer's latest order if
    /// there is no later one. Returns NoMemory if an allocation fails; nothing changes then.
    pub(crate) fn add_order(
        &mut self,
        key: OrderKey,
        order: Order,
        lines: Vec<OrderLine>,
    ) -> Result<Replaced, NoMemory>
        requires { IsOrderFor self.old key order lines.items }
        ensures ok { OnOk result (AddsOrder key order lines.items self.old self.new) }
        ensures replaced { IfOk result (StoodThere self.old.tables key (length lines.items)) }
        ensures err { OnErr result (self.new ≡ self.old) }
    {
        let now = Some(order.c_id);
        let replaced = self.partition.add_order(key, order, lines)?;
        let was = number_of_customer(replaced.order.as_ref());
        note_latest(&self.partition, &mut self.latest, key, was, now);
        Ok(replaced)
    }

    /// Undoes the addition of an order: restores the rows that it replaced; where it replaced none, its row is deleted.
    /// Never allocates.
    pub(crate) fn take_back_order(&mut self, key: OrderKey, replaced: Replaced)
        requires few { length replaced.lines.items ≤ MOST_LINES }
        requires order { IsTrue (map.contains_key self.old.tables.orders key) }
        requires new_order { IsTrue (map.contains_key self.old.tables.new_orders key) }
        requires lines { HasLines self.old.tables.lines key (length replaced.lines.items) }
        requires within { IsPart (part_without_order self.old key replaced) }
        ensures { self.new ≡ part_without_order self.old key replaced }
    {
        let was = number_of_customer(self.partition.order(key));
        let now = number_of_customer(replaced.order.as_ref());
        self.partition.take_back_order(key, replaced);
        note_latest(&self.partition, &mut self.latest, key, was, now);
    }

    /// Delivers an order, which keeps its customer, and returns the replaced values. Returns NoMemory if an allocation
    /// fails; nothing changes then.
    pub(crate) fn deliver_order(
        &mut self,
        key: OrderKey,
        carrier: CarrierId,
        moment: Moment,
    ) -> Result<BeforeDelivery, NoMemory>
        requires { IsTrue (map.contains_key self.old.tables.orders key) }
        ensures ok { OnOk result (DeliversOrder key carrier moment self.old self.new) }
        ensures before { IfOk result (StoodBefore self.old.tables key) }
        ensures err { OnErr result (self.new ≡ self.old) }
    {
        self.partition.deliver_order(key, carrier, moment)
    }

    /// Undoes a delivery: restores the replaced values. Never allocates.
    pub(crate) fn take_back_delivery(&mut self, key: OrderKey, before: BeforeDelivery)
        requires order { IsTrue (map.contains_key self.old.tables.orders key) }
        requires most_lines { length before.moments ≡ MOST_LINES }
        ensures { TakesBackDelivery key before self.old self.new }
    {
        self.partition.take_back_delivery(key, before);
    }
}

// Updates the index of latest orders after the order at the key was added, replaced or deleted. `was` and `now` are the
// C_IDs of the old and of the new order. In consistent tables no order is stored where one is added, so only the
// customer of an order that is undone is searched.
fn note_latest(
    rows: &Partition,
    latest: &mut LatestOrders,
    key: OrderKey,
    was: Option<u32>,
    now: Option<u32>,
)
    ensures { (before : Database) (row : Option order.Order)
        → IsOrderChanged before rows.now.tables key row was now
        → FitsLatestBy (home_slot rows.now.home) latest.old before
        → FitsLatestBy (home_slot rows.now.home) latest.new rows.now.tables }
{
    // Called for its contract: no two districts have the same place.
    Rows::scale(rows);
    if let Some(c_id) = now {
        latest.raise_order(rows, customer_of(key, c_id), key.o_id);
    }
    if let Some(c_id) = was {
        latest.look_through(rows, customer_of(key, c_id));
    }
}

// Returns the C_ID of the order's customer, `None` if there is no order.
fn number_of_customer(order: Option<&Order>) -> Option<u32>
    ensures { result ≡ option_map (λ row. row.c_id) (option_copied order.entry) }
{
    Some(order?.c_id)
}

// Returns the key of the customer with that C_ID in the order's district.
fn customer_of(order: OrderKey, c_id: u32) -> CustomerKey
    ensures { result ≡ record { w_id = order.w_id; d_id = order.d_id; c_id = c_id } }
{
    CustomerKey {
        w_id: order.w_id,
        d_id: order.d_id,
        c_id,
    }
}
