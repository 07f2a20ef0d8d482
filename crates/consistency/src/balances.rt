ghost use Rattle.std.specs.Prelude.{◌≡◌, ◌↔◌, ◌*◌, ◌^◌, ℤ, pos, replicate, IsTrue, IfOk};
ghost use Rattle.rows.specs.declared.keys.CustomerKey as customer_key;
ghost use Rattle.schema.specs.Consistency.{delivered, paid, BalancesAreOwed, BalancesArePaid};
ghost use Rattle.consistency.specs.Totals.{IsWithin};
ghost use Rattle.consistency.specs.Balances.{AreTotals, HasRoom, AreWithin, GrowsAtMost, with_amount, with_payments};

use schema::{CustomerKey, History, NoMemory, Scale, Tables};
use std::alloc::Global;

/// Condition 10 (clause 3.3.2.10): C_BALANCE is the sum of the customer's delivered lines less the sum
/// of the customer's payments. `deliveries` contains the sum of the delivered lines for each customer.
/// Returns `NoMemory` if an allocation fails.
pub(crate) fn balances_are_owed(
    tables: &Tables,
    deliveries: &[i128],
    alloc: Global,
) -> Result<bool, NoMemory>
    requires totals { AreTotals tables.now.scale (delivered tables.now) deliveries.now }
    requires within { AreWithin (2 ^ 124) deliveries.now }
    ensures { IfOk result (λ holds. IsTrue holds ↔ BalancesAreOwed tables.now) }
{
    let rows = tables.rows();
    let payments = paid_totals(tables, alloc)?;
    for (place, customer) in rows.customers.iter().enumerate() {
        if i128::from(customer.balance.get()) != deliveries[place] - payments[place] {
            return Ok(false);
        }
    }
    Ok(true)
}

/// Condition 12 (clause 3.3.2.12): C_BALANCE plus C_YTD_PAYMENT is the sum of the customer's delivered
/// lines. `deliveries` contains the sum of the delivered lines for each customer.
pub(crate) fn balances_are_paid(tables: &Tables, deliveries: &[i128]) -> bool
    requires { AreTotals tables.now.scale (delivered tables.now) deliveries.now }
    ensures { IsTrue result ↔ BalancesArePaid tables.now }
{
    let rows = tables.rows();
    for (place, customer) in rows.customers.iter().enumerate() {
        let received = i128::from(customer.balance.get()) + i128::from(customer.ytd_payment.get());
        if received != deliveries[place] {
            return false;
        }
    }
    true
}

// For each customer, the sum of the payments, in the order of the customers' keys.
fn paid_totals(tables: &Tables, alloc: Global) -> Result<Vec<i128>, NoMemory>
    ensures totals { IfOk result
        (λ totals. AreTotals tables.now.scale (paid tables.now) totals.items) }
    ensures within { IfOk result (λ totals. AreWithin (2 ^ 126) totals.items) }
{
    let scale = tables.scale();
    let rows = tables.rows();
    let mut totals = zeros(rows.customers.len(), alloc)?;
    for list in &rows.histories {
        credit_payers(&mut totals, scale, list.rows());
    }
    Ok(totals)
}

/// A vector of `count` totals of zero.
pub(crate) fn zeros(count: usize, alloc: Global) -> Result<Vec<i128>, NoMemory>
    ensures { IfOk result (λ totals. totals.items ≡ replicate count (pos 0)) }
{
    vec![in alloc; 0i128; count]
}

// Adds each payment to the total of the customer who made it.
fn credit_payers(totals: &mut [i128], scale: Scale, payments: &[History])
    requires room { HasRoom scale totals.old }
    requires within { AreWithin (2 ^ 126) totals.old }
    ensures added { (before : customer_key.CustomerKey → ℤ) → AreTotals scale before totals.old
        → AreTotals scale (with_payments payments.now before) totals.new }
    ensures within { GrowsAtMost (2 ^ 114) totals.old totals.new }
{
    for payment in payments {
        credit(totals, scale, payment.customer, payment.amount.get());
    }
}

/// Adds the amount to the customer's total.
pub(crate) fn credit(totals: &mut [i128], scale: Scale, customer: CustomerKey, amount: i64)
    requires room { HasRoom scale totals.old }
    requires within { AreWithin (3 * 2 ^ 125) totals.old }
    requires amount { IsWithin (2 ^ 50) amount }
    ensures added { (before : customer_key.CustomerKey → ℤ) → AreTotals scale before totals.old
        → AreTotals scale (with_amount customer amount before) totals.new }
    ensures within { GrowsAtMost (2 ^ 50) totals.old totals.new }
{
    if let Some(slot) = scale.customer_slot(customer) {
        totals[slot] += i128::from(amount);
    }
}
