ghost use Rattle.std.specs.Prelude.{◌≡◌, ◌≤◌, OnOk, IfOk, codes, pos};
ghost use Rattle.population.specs.Rows.{IsDrawnText, IsOpeningName, IsOpeningCustomer, AddsCustomers, AreOpeningPayments};

use crate::draws::Draws;
use amounts::{Cents, Rate};
use schema::{
    Counter, Credit, Customer, CustomerKey, DistrictKey, History, HistoryList, Moment, NoMemory,
    Scale, Text, last_name,
};
use std::alloc::Global;

/// Adds the customers of a district, by C_ID, and returns the payment of each customer.
pub(crate) fn add_customers(
    alloc: Global,
    draws: &mut Draws,
    customers: &mut Vec<Customer>,
    home: DistrictKey,
    scale: Scale,
    now: Moment,
) -> Result<HistoryList, NoMemory>
    ensures rows { OnOk result
        (AddsCustomers now scale.customers customers.old.items customers.new.items) }
    ensures payments { IfOk result (AreOpeningPayments now home scale.customers) }
{
    let mut payments = HistoryList::new(alloc);
    for place in 0..scale.customers {
        let key = CustomerKey {
            w_id: home.w_id,
            d_id: home.d_id,
            c_id: place + 1,
        };
        customers.push(customer(draws, key.c_id, now))?;
        payments.push(payment(draws, key, now))?;
    }
    Ok(payments)
}

// Returns the row of a customer who has paid 1,000 cents once.
fn customer(draws: &mut Draws, number: u32, now: Moment) -> Customer
    requires { 1 ≤ number }
    ensures { IsOpeningCustomer now number result }
{
    Customer {
        first: draws.text(8, 16),
        middle: middle(),
        last: last(draws, number),
        address: draws.address(),
        phone: draws.digits(16),
        since: now,
        credit: credit(draws),
        credit_lim: Cents::new(5_000_000),
        discount: Rate::new(draws.random(0, 5_000) as u16),
        balance: Cents::new(-1_000),
        ytd_payment: Cents::new(1_000),
        payment_cnt: Counter::new(1),
        delivery_cnt: Counter::new(0),
        data: draws.text(300, 500),
    }
}

fn middle() -> Text<2>
    ensures { result ≡ codes "OE" }
{
    let mut middle = Text::new();
    middle.push_fitting("OE");
    middle
}

// Customers 1 to 1,000 have the names of the numbers 0 to 999, the others random names of these.
fn last(draws: &mut Draws, number: u32) -> Text<16>
    requires { 1 ≤ number }
    ensures { IsOpeningName number result }
{
    if number <= 1_000 {
        last_name(number - 1)
    } else {
        last_name(draws.nu_rand(255, 0, 999))
    }
}

// About one customer in ten has bad credit.
fn credit(draws: &mut Draws) -> Credit {
    if draws.random(1, 10) == 1 {
        Credit::Bad
    } else {
        Credit::Good
    }
}

// Returns the row of HISTORY of the customer's payment of 1,000 cents at home.
fn payment(draws: &mut Draws, customer: CustomerKey, now: Moment) -> History
    ensures customer { result.customer ≡ customer }
    ensures amount { result.amount ≡ pos 1000 }
    ensures date { result.date ≡ now }
    ensures text { IsDrawnText 12 24 result.«data» }
{
    History {
        customer,
        date: now,
        amount: Cents::new(1_000),
        data: draws.text(12, 24),
    }
}
