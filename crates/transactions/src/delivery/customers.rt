//! The customer of a Delivery, who is credited with the amount of the delivered order (clause 2.7.4.2).
ghost use Rattle.std.specs.Prelude.{◌≡◌, ◌+◌, ◌+ℤ◌, [], ◌∷◌, pos, IfOk, OnErr};
ghost use Rattle.tickets.specs.Claims.{leaving};
ghost use Rattle.slices.specs.SliceView.{SliceKeeps};
ghost use Rattle.machine.specs.Delivery.{customer_delivered};
ghost use Rattle.transactions.specs.Granted.{IsExclusiveOn, IsFresh, group_of_customers};
ghost use Rattle.transactions.specs.Delivery.{IsCreditDone};

use super::{CustomerCredited, OrderDelivered};
use amounts::Cents;
use schema::{Customer, CustomerKey, DistrictKey, NoMemory};
use slices::Slice;
use tickets::{Claim, GroupNames};

/// Credits the customer of the district who ordered this order, if the customer has a row and neither C_BALANCE nor
/// C_DELIVERY_CNT would leave its range. Returns NoMemory if an allocation fails; nothing has changed then.
pub fn credit_customer<J: GroupNames>(
    slice: &mut Slice<J>,
    customers: &mut Claim<J>,
    home: DistrictKey,
    order: OrderDelivered,
) -> Result<CustomerCredited, NoMemory>
    requires claim { IsExclusiveOn (group_of_customers home) customers.old }
    requires fresh { IsFresh customers.old }
    requires home { home.w_id ≡ slice.old.home }
    ensures kept { SliceKeeps (customers.old ∷ []) slice.old (customers.new ∷ []) slice.new }
    ensures credited { IfOk result (λ found. IsCreditDone home order found customers.new) }
    ensures customers { customers.new ≡ leaving customers.old customers.new.left }
    ensures err { OnErr result ((slice.new ≡ slice.old) × (customers.new ≡ customers.old)) }
{
    slice.look(customers);
    let key = CustomerKey {
        w_id: home.w_id,
        d_id: home.d_id,
        c_id: order.c_id,
    };
    let Some(row) = slice.partition().customer(key) else {
        return Ok(CustomerCredited::OutOfRange);
    };
    let Some(row) = customer_delivered(row, order.amount) else {
        return Ok(CustomerCredited::OutOfRange);
    };
    slice.put_customer(customers, key, row)?;
    Ok(CustomerCredited::Credited)
}

// The customer's row once an order of this amount was delivered; `None` if a value would leave its range.
fn customer_delivered(row: &Customer, amount: u32) -> Option<Customer>
    ensures { result ≡ customer_delivered row.now amount }
{
    let Some(balance) = row.balance.checked_add(Cents::new(i64::from(amount))) else {
        return None;
    };
    let Some(delivery_cnt) = row.delivery_cnt.checked_add(1) else {
        return None;
    };
    let mut row = row.copy();
    row.balance = balance;
    row.delivery_cnt = delivery_cnt;
    Some(row)
}
