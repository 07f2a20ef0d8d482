ghost use Rattle.std.specs.Prelude.{◌≡◌, ◌↔◌, ℕ, IsTrue, IsFalse, true, false, max, min};
ghost use Rattle.std.specs.List.{reduce};
ghost use Rattle.rows.specs.declared.keys.DistrictKey.{DistrictKey};
ghost use Rattle.rows.specs.Ranged.{is_between};
ghost use Rattle.schema.specs.Scale.{has_district, district_key};
ghost use Rattle.schema.specs.Consistency.{numbers, NextOrdersFollow, NewOrdersHaveNoGap, OrdersAreFresh};
ghost use Rattle.schema.specs.Consistency.{NextOrderFollows, HasNoGap, IsFresh};
ghost use Rattle.consistency.specs.OrderNumbers.{OfRow};

use rows::{DistrictKey, OrderKey};
use schema::{Entries, Scale, Tables};

/// Whether D_NEXT_O_ID - 1 is the greatest O_ID of each district, and its greatest NO_O_ID if it has
/// new orders (clause 3.3.2.2).
pub(crate) fn next_orders_follow(tables: &Tables) -> bool
    ensures { IsTrue result ↔ NextOrdersFollow tables.now }
{
    all_districts(tables.scale(), |home| next_order_follows(tables, home))
}

/// Whether the numbers of each district's new orders have no gap (clause 3.3.2.3).
pub(crate) fn new_orders_have_no_gap(tables: &Tables) -> bool
    ensures { IsTrue result ↔ NewOrdersHaveNoGap tables.now }
{
    all_districts(tables.scale(), |home| has_no_gap(tables, home))
}

/// Whether each district has 2,100 more orders than new orders, as in fresh tables at full scale
/// (clause 3.3.2.11).
pub(crate) fn orders_are_fresh(tables: &Tables) -> bool
    ensures { IsTrue result ↔ OrdersAreFresh tables.now }
{
    all_districts(tables.scale(), |home| is_fresh(tables, home))
}

/// Whether each district of the scale passes the test.
pub(crate) fn all_districts<F: Fn(DistrictKey) -> bool>(scale: Scale, test: F) -> bool
    requires { F.IsAlwaysCallable test }
    ensures passed { IsTrue result → (home : DistrictKey) → IsTrue (has_district scale home)
        → F.post test home true }
    ensures failed { IsFalse result → (home : DistrictKey) × IsTrue (has_district scale home)
        × F.post test home false }
{
    (1..=scale.warehouses).all(|w_id| all_of_warehouse(w_id, &test))
}

// Whether each of the warehouse's ten districts passes the test.
fn all_of_warehouse<F: Fn(DistrictKey) -> bool>(w_id: u32, test: &F) -> bool
    requires { F.IsAlwaysCallable test.now }
    ensures passed { IsTrue result → (d_id : ℕ) → IsTrue (is_between 1 10 d_id)
        → F.post test.now (district_key w_id d_id) true }
    ensures failed { IsFalse result → (d_id : ℕ) × IsTrue (is_between 1 10 d_id)
        × F.post test.now (district_key w_id d_id) false }
{
    (1..=10).all(|d_id| test(DistrictKey { w_id, d_id }))
}

// A district without a row passes.
fn next_order_follows(tables: &Tables, home: DistrictKey) -> bool
    ensures { IsTrue result ↔ OfRow tables.now home (NextOrderFollows tables.now home) }
{
    let Some(district) = tables.district(home) else {
        return true;
    };
    let last = district.next_o_id.get() - 1;
    let order = greatest_number(tables.orders_of(home));
    let new_order = greatest_number(tables.new_orders_of(home));
    order.unwrap_or(0) == last && new_order.is_none_or(|number| number == last)
}

// A district without new orders passes.
fn has_no_gap(tables: &Tables, home: DistrictKey) -> bool
    ensures { IsTrue result ↔ HasNoGap tables.now home }
{
    let count = tables.new_orders_of(home).count();
    let greatest = greatest_number(tables.new_orders_of(home));
    let least = least_number(tables.new_orders_of(home));
    match (greatest, least) {
        (Some(greatest), Some(least)) => greatest as usize + 1 == least as usize + count,
        _ => true,
    }
}

fn is_fresh(tables: &Tables, home: DistrictKey) -> bool
    ensures { IsTrue result ↔ IsFresh tables.now home }
{
    tables.orders_of(home).count() == tables.new_orders_of(home).count() + 2_100
}

// The greatest O_ID of these rows, or `None` if there are none.
fn greatest_number<X>(rows: Entries<'_, OrderKey, X>) -> Option<u32>
    ensures { result ≡ reduce max (numbers rows.entry) }
{
    rows.map(|(key, _)| key.o_id).max()
}

fn least_number<X>(rows: Entries<'_, OrderKey, X>) -> Option<u32>
    ensures { result ≡ reduce min (numbers rows.entry) }
{
    rows.map(|(key, _)| key.o_id).min()
}
