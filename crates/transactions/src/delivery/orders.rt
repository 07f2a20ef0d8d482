//! The order of a Delivery: the district's oldest new order is delivered (clause 2.7.4.2).
ghost use Rattle.std.specs.Prelude.{◌≡◌, ◌≤◌, ◌+◌, [], ◌∷◌, Some, OnErr, IfOk};
ghost use Rattle.partitions.specs.Parts.{IsPart};
ghost use Rattle.schema.specs.OrderRows.{oldest_new_order};
ghost use Rattle.tickets.specs.Claims.{leaving};
ghost use Rattle.slices.specs.SliceView.{SliceKeeps};
ghost use Rattle.machine.specs.Delivery.{HasCarrier, amount_of};
ghost use Rattle.transactions.specs.Granted.{IsExclusiveOn, IsFresh, group_of_orders};
ghost use Rattle.transactions.specs.Delivery.{IsOldestOrder, IsOrderDelivered};

use super::OrderDelivered;
use partitions::Partition;
use requests::Delivery;
use schema::{CarrierId, DistrictKey, NoMemory, OrderKey};
use slices::Slice;
use tickets::{Claim, GroupNames};

/// Delivers the district's oldest new order and returns it; `None` if the district has none. Returns NoMemory if an allocation
/// fails; nothing has changed then.
pub fn deliver_order<J: GroupNames>(
    slice: &mut Slice<J>,
    orders: &mut Claim<J>,
    delivery: &Delivery,
) -> Result<Option<OrderDelivered>, NoMemory>
    requires claim { IsExclusiveOn (group_of_orders delivery.now.home) orders.old }
    requires fresh { IsFresh orders.old }
    requires home { delivery.now.home.w_id ≡ slice.old.home }
    requires carrier { HasCarrier delivery.now }
    ensures kept { SliceKeeps (orders.old ∷ []) slice.old (orders.new ∷ []) slice.new }
    ensures delivered { IfOk result (λ one. IsOrderDelivered delivery.now.carrier_id
        delivery.now.moment delivery.now.home one orders.new) }
    ensures orders { orders.new ≡ leaving orders.old orders.new.left }
    ensures err { OnErr result ((slice.new ≡ slice.old) × (orders.new ≡ orders.old)) }
{
    slice.look(orders);
    let home = delivery.home;
    let Some(o_id) = slice.partition().oldest_new_order(home) else {
        return Ok(None);
    };
    let key = OrderKey {
        w_id: home.w_id,
        d_id: home.d_id,
        o_id,
    };
    let order = order_of(slice.partition(), home, o_id);
    let carrier = CarrierId::new(delivery.carrier_id);
    slice.deliver_order(orders, key, carrier, delivery.moment)?;
    Ok(Some(order))
}

// The district's oldest new order, with its customer and the sum of its lines' amounts.
fn order_of(rows: &Partition, home: DistrictKey, o_id: u32) -> OrderDelivered
    requires part { IsPart rows.now }
    requires oldest { oldest_new_order rows.now.tables home ≡ Some o_id }
    ensures order { IsOldestOrder rows.now.tables home result }
    ensures number { result.o_id ≡ o_id }
{
    let key = OrderKey {
        w_id: home.w_id,
        d_id: home.d_id,
        o_id,
    };
    let Some(row) = rows.order(key) else {
        unreachable!()
    };
    OrderDelivered {
        o_id,
        c_id: row.c_id,
        amount: amount_of(rows, key),
    }
}

// The sum of the amounts of an order's lines, of which there are 600 at most.
fn amount_of(rows: &Partition, order: OrderKey) -> u32
    requires { IsPart rows.now }
    ensures { result ≡ amount_of rows.now.tables order }
{
    let mut amount = 0;
    for (_, line) in rows.lines_of(order) {
        amount += line.amount.get();
    }
    amount
}
