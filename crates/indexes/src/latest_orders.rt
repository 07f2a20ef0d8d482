ghost use Rattle.std.specs.Prelude.{◌≡◌, IfOk, replicate, max, if◌then◌else◌};
ghost use Rattle.schema.specs.Consistency.{greatest};
ghost use Rattle.partitions.specs.Slots.{AreRows, customer_slot_by};
ghost use Rattle.indexes.specs.LatestOrder.{is_order_by, latest, order_numbers};
ghost use Rattle.indexes.specs.LatestIndex.{FitsLatestBy, HasPlace, with_latest, raised, number_of};

use partitions::Rows;
use schema::{CustomerKey, NoMemory, Order, OrderKey};
use std::alloc::Global;
use std::marker::Model;

/// The number of each customer's latest order, in the order of the customers' keys, four bytes each: of
/// all customers, or of those of one warehouse. It still fits when rows of orders change, as long as no
/// order is inserted, is deleted or changes its customer.
#[derive(Drop)]
pub struct LatestOrders {
    // 0 if the customer has no order.
    numbers: Vec<u32>,
}

impl Model for LatestOrders {
    ghost use Rattle.std.specs.Prelude.{ℕ, List};

    ghost Value = { List ℕ };

    ghost view = { λ index. index.numbers.items };
}

impl LatestOrders {
    /// Builds the index of these rows. Returns NoMemory if an allocation fails; nothing stays allocated
    /// then.
    pub fn build<T: Rows>(alloc: Global, rows: &T) -> Result<LatestOrders, NoMemory>
        ensures { IfOk result (λ index. FitsLatestBy (T.slot rows.now) index (T.tables rows.now)) }
    {
        let customers = rows.scale().customers as usize;
        let mut numbers = zeros(rows.district_count() as usize * customers, alloc)?;
        for (key, order) in rows.orders() {
            let customer = CustomerKey {
                w_id: key.w_id,
                d_id: key.d_id,
                c_id: order.c_id,
            };
            raise(&mut numbers, rows, customer, key.o_id);
        }
        Ok(LatestOrders { numbers })
    }

    /// Returns the largest O_ID of the customer's orders (clause 2.6.2.2), `None` exactly if there is
    /// none. Reads one number of the index, and no row.
    pub fn latest_order<T: Rows>(&self, rows: &T, customer: CustomerKey) -> Option<u32>
        requires { FitsLatestBy (T.slot rows.now) self.now (T.tables rows.now) }
        ensures { result ≡ latest (T.tables rows.now).orders customer }
    {
        let slot = customer_slot(rows, customer)?;
        number_of(*self.numbers.get(slot)?)
    }

    /// Raises the customer's number to that of an order, from 1, if it was less. Changes nothing if the
    /// customer's row is not here. The index fits any rows with that order if no order was stored at its
    /// key before, or one of the same customer (`raised_order_fits`).
    pub fn raise_order<T: Rows>(&mut self, rows: &T, customer: CustomerKey, number: u32)
        ensures { self.new ≡ raised (T.slot rows.now) (T.tables rows.now).scale.customers
            self.old customer number }
    {
        if let Some(slot) = customer_slot(rows, customer) {
            if slot < self.numbers.len() {
                self.numbers[slot] = self.numbers[slot].max(number);
            }
        }
    }

    /// Searches all orders that are here for the customer's, and records the largest number, 0 if there
    /// is none. For use after an order of the customer was deleted (`removed_order_fits`), or was
    /// replaced by another customer's (`replaced_order_fits`), which does not happen in consistent
    /// tables. Changes nothing if the customer's row is not here.
    pub fn look_through<T: Rows>(&mut self, rows: &T, customer: CustomerKey)
        ensures { self.new ≡ with_latest (T.slot rows.now) (T.tables rows.now).scale.customers
            self.old customer (greatest (order_numbers (T.tables rows.now).orders customer)) }
    {
        if let Some(slot) = customer_slot(rows, customer) {
            if slot < self.numbers.len() {
                self.numbers[slot] = greatest_number(rows, customer);
            }
        }
    }
}

// Returns the place of the customer's number, `None` if the customer's row is not here.
fn customer_slot<T: Rows>(rows: &T, customer: CustomerKey) -> Option<usize>
    ensures slot { result
        ≡ customer_slot_by (T.slot rows.now) (T.tables rows.now).scale.customers customer }
    ensures rows { AreRows (T.slot rows.now) (T.districts rows.now) (T.tables rows.now) }
{
    let customers = rows.scale().customers;
    if (1..=customers).contains(&customer.c_id) {
        let district = rows.district_slot(customer.district())?;
        Some(district * customers as usize + (customer.c_id as usize - 1))
    } else {
        None
    }
}

// Returns the largest number of the customer's orders, 0 if there is none.
fn greatest_number<T: Rows>(rows: &T, customer: CustomerKey) -> u32
    ensures { result ≡ greatest (order_numbers (T.tables rows.now).orders customer) }
{
    let mut number = 0;
    for (key, order) in rows.orders() {
        number = grown(number, customer, key, order);
    }
    number
}

// Returns the larger of the number and the order's, if the order is the customer's; else the number.
fn grown(number: u32, customer: CustomerKey, key: OrderKey, order: &Order) -> u32
    ensures { result
        ≡ (if is_order_by customer (key, order.now) then max key.o_id number else number) }
{
    let is_at = key.w_id == customer.w_id && key.d_id == customer.d_id;
    if is_at && order.c_id == customer.c_id {
        key.o_id.max(number)
    } else {
        number
    }
}

// The meaning of a number of the index: 0 is none.
fn number_of(number: u32) -> Option<u32>
    ensures { result ≡ number_of number }
{
    if number == 0 { None } else { Some(number) }
}

// Returns a vector of `count` zeros.
fn zeros(count: usize, alloc: Global) -> Result<Vec<u32>, NoMemory>
    ensures { IfOk result (λ numbers. numbers.items ≡ replicate count 0) }
{
    vec![in alloc; 0u32; count]
}

// Records the number for the customer, unless a larger one is recorded.
fn raise<T: Rows>(numbers: &mut [u32], rows: &T, customer: CustomerKey, number: u32)
    requires { HasPlace (T.slot rows.now) (T.tables rows.now).scale.customers numbers.old customer }
    ensures { numbers.new ≡ raised (T.slot rows.now) (T.tables rows.now).scale.customers
        numbers.old customer number }
{
    if let Some(slot) = customer_slot(rows, customer) {
        numbers[slot] = numbers[slot].max(number);
    }
}
