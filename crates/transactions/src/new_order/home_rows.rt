//! The rows of a New-Order at its home: its number, its customer, and the order itself.
ghost use Rattle.std.specs.Prelude.{◌≡◌, [], ◌∷◌, IfOk, OnOk, OnErr};
ghost use Rattle.requests.specs.declared.group.Group.TheVariants as group;
ghost use Rattle.groups.specs.Groups.{group_of_district, group_of_order};
ghost use Rattle.tickets.specs.Claims.{leaving};
ghost use Rattle.slices.specs.SliceView.{SliceKeeps};
ghost use Rattle.transactions.specs.Granted.{IsExclusiveOn, IsFresh, IsSharedOn, group_of_customers};
ghost use Rattle.transactions.specs.NewOrder.{IsHomeOrdered, IsNumberKnown, IsOrderAdded, IsOrderKnown, IsOrdererKnown, IsOrdererShown};

use super::{HomeFound, HomeShown, OrderRows, Orderer, OrdererFound};
use machine::district_ordered;
use requests::NewOrder;
use schema::{CustomerKey, NoMemory};
use slices::Slice;
use tickets::{Claim, GroupNames};

/// Gives a New-Order the next number of its home district, if D_NEXT_O_ID can grow. Returns NoMemory if an allocation fails;
/// nothing has changed then.
pub fn take_number<J: GroupNames>(
    slice: &mut Slice<J>,
    warehouse: &mut Claim<J>,
    district: &mut Claim<J>,
    order: &NewOrder,
) -> Result<HomeFound, NoMemory>
    requires warehouse_claim { IsSharedOn (group.Warehouse order.now.home.w_id) warehouse.old }
    requires district_claim { IsExclusiveOn (group_of_district order.now.home) district.old }
    requires fresh { IsFresh district.old }
    requires home { order.now.home.w_id ≡ slice.old.home }
    ensures kept { SliceKeeps (warehouse.old ∷ district.old ∷ []) slice.old
        (warehouse.new ∷ district.new ∷ []) slice.new }
    ensures ordered { IfOk result (λ found.
        IsHomeOrdered order.now found warehouse.new district.new) }
    ensures known { IfOk result IsNumberKnown }
    ensures warehouse { warehouse.new ≡ warehouse.old }
    ensures district { district.new ≡ leaving district.old district.new.left }
    ensures err { OnErr result ((slice.new ≡ slice.old) × (district.new ≡ district.old)) }
{
    warehouse.look_untouched();
    slice.look(warehouse);
    slice.look(district);
    let Some(warehouse_row) = slice.partition().warehouse(order.home.w_id) else {
        return Ok(HomeFound::Missing);
    };
    let Some(row) = slice.partition().district(order.home) else {
        return Ok(HomeFound::Missing);
    };
    let next = district_ordered(row);
    let shown = HomeShown {
        warehouse_tax: warehouse_row.tax,
        district_tax: row.tax,
        o_id: row.next_o_id.get(),
        has_next: next.is_some(),
    };
    if let Some(next) = next {
        slice.put_district(district, order.home, next)?;
    }
    Ok(HomeFound::Shown(shown))
}

/// Shows the customer of a New-Order. Never allocates, and changes nothing.
pub fn show_orderer<J: GroupNames>(
    slice: &mut Slice<J>,
    customers: &mut Claim<J>,
    order: &NewOrder,
) -> OrdererFound
    requires claim { IsSharedOn (group_of_customers order.now.home) customers.old }
    requires home { order.now.home.w_id ≡ slice.old.home }
    ensures shown { IsOrdererShown order.now result customers.new }
    ensures known { IsOrdererKnown slice.old.tables.scale order.now result }
    ensures same { (slice.new ≡ slice.old) × (customers.new ≡ customers.old) }
{
    customers.look_untouched();
    slice.look(customers);
    let key = CustomerKey {
        w_id: order.home.w_id,
        d_id: order.home.d_id,
        c_id: order.c_id,
    };
    match slice.partition().customer(key) {
        None => OrdererFound::Missing,
        Some(row) => OrdererFound::Shown(Orderer {
            last: row.last.copy(),
            credit: row.credit,
            discount: row.discount,
        }),
    }
}

/// Adds an order with its row of NEW-ORDER and its lines. Returns NoMemory if an allocation fails; nothing has changed then.
pub fn add_order<J: GroupNames>(
    slice: &mut Slice<J>,
    orders: &mut Claim<J>,
    rows: OrderRows,
) -> Result<(), NoMemory>
    requires claim { IsExclusiveOn (group_of_order rows.key) orders.old }
    requires fresh { IsFresh orders.old }
    requires home { rows.key.w_id ≡ slice.old.home }
    requires known { IsOrderKnown slice.old.tables.scale rows }
    ensures kept { SliceKeeps (orders.old ∷ []) slice.old (orders.new ∷ []) slice.new }
    ensures added { OnOk result (IsOrderAdded rows orders.new) }
    ensures orders { orders.new ≡ leaving orders.old orders.new.left }
    ensures err { OnErr result ((slice.new ≡ slice.old) × (orders.new ≡ orders.old)) }
{
    slice.look(orders);
    slice.add_order(orders, rows.key, rows.row, rows.lines.into_vec())
}
