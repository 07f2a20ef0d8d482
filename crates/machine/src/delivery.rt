ghost use Rattle.std.specs.Prelude.{◌≡◌, ◌+ℤ◌, pos, IsTrue};
ghost use Rattle.amounts.specs.Money.{money};
ghost use Rattle.machine.specs.Delivery as spec;
ghost use Rattle.machine.specs.DeliverySteps as steps;

use amounts::Cents;
use requests::{Delivery, DeliveryReply, Fault, Reply, Shown};
use schema::{CarrierId, Customer, CustomerKey, OrderKey, Tables};

// The customer of an order that is to be delivered, and the row that the customer gets.
#[derive(Drop)]
struct Handover {
    customer: CustomerKey,
    row: Customer,
}

/// Delivers the oldest new order of the district (clause 2.7.4); a district without one is skipped. If C_BALANCE or
/// C_DELIVERY_CNT would leave its range, the Delivery is rolled back with `Fault::Range` and the tables are unchanged.
/// Orders and lines are looked up by their keys. Never allocates.
pub(crate) fn deliver(tables: &mut Tables, delivery: &Delivery) -> Reply
    requires { spec.HasCarrier delivery.now }
    ensures reply { result ≡ (spec.delivery tables.old delivery.now).reply }
    ensures tables { tables.new ≡ (spec.delivery tables.old delivery.now).tables }
{
    let home = delivery.home;
    let Some(o_id) = tables.oldest_new_order(home) else {
        return Reply::Done(Shown::Delivery(delivery_reply(delivery, None)));
    };
    let order = OrderKey {
        w_id: home.w_id,
        d_id: home.d_id,
        o_id,
    };
    let Some(handover) = handover_of(tables, order) else {
        return Reply::RolledBack(Fault::Range);
    };
    let carrier = CarrierId::new(delivery.carrier_id);
    tables.replace_customer(handover.customer, handover.row);
    tables.deliver_order(order, carrier, delivery.moment);
    Reply::Done(Shown::Delivery(delivery_reply(delivery, Some(o_id))))
}

/// Returns the reply to a Delivery that delivered the order of this number (clause 2.7.3.2), or skipped the district.
pub fn delivery_reply(delivery: &Delivery, order: Option<u32>) -> DeliveryReply
    ensures { result ≡ spec.delivery_reply delivery.now order }
{
    DeliveryReply {
        d_id: delivery.home.d_id,
        carrier_id: delivery.carrier_id,
        order,
    }
}

// Returns the customer of the order, with the row after its delivery; `None` if a row is missing or a value would leave
// its range.
fn handover_of(tables: &Tables, order: OrderKey) -> Option<Handover>
    ensures { result ≡ steps.handover_of tables.now order }
{
    let Some(row) = tables.order(order) else {
        return None;
    };
    let customer = CustomerKey {
        w_id: order.w_id,
        d_id: order.d_id,
        c_id: row.c_id,
    };
    let Some(was) = tables.customer(customer) else {
        return None;
    };
    let Some(row) = customer_delivered(tables, order, was) else {
        return None;
    };
    Some(Handover { customer, row })
}

// Returns the customer's row after the delivery of the order, `None` if a value would leave its range.
fn customer_delivered(tables: &Tables, order: OrderKey, row: &Customer) -> Option<Customer>
    ensures { result ≡ spec.customer_delivered row.now (spec.amount_of tables.now order) }
{
    let Some(balance) = balance_delivered(tables, order, row.balance) else {
        return None;
    };
    let Some(delivery_cnt) = row.delivery_cnt.checked_add(1) else {
        return None;
    };
    let mut row = row.copy();
    row.balance = balance;
    row.delivery_cnt = delivery_cnt;
    Some(row)
}

// Returns C_BALANCE plus the amounts of the order's lines, `None` if the sum would leave its range. Amounts are never
// negative, so a sum that is out of range stays out of range.
fn balance_delivered(tables: &Tables, order: OrderKey, balance: Cents) -> Option<Cents>
    ensures { result ≡ money (balance +ℤ pos (spec.amount_of tables.now order)) }
{
    let mut cents = balance.get();
    for (_, line) in tables.lines_of(order) {
        let Some(sum) = Cents::checked_new(cents + i64::from(line.amount.get())) else {
            return None;
        };
        cents = sum.get();
    }
    Some(Cents::new(cents))
}
