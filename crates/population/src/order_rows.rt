ghost use Rattle.std.specs.Prelude.{◌≡◌, ◌↔◌, ℕ, ◌<◌, false, true, None, Some, IsTrue, OnOk, ◌++◌, map};
ghost use Rattle.std.specs.List.{All, range_with_len};
ghost use Rattle.std.specs.List.Sorted.{IsStrictlySortedBy};
ghost use Rattle.std.specs.Map.{keys_of};
ghost use Rattle.rows.specs.Keys.{line_cmp};
ghost use Rattle.schema.specs.Scale.{has_warehouse};
ghost use Rattle.schema.specs.Database.{is_line_number};
ghost use Rattle.schema.specs.OrderRows.{line_key};
ghost use Rattle.population.specs.Profile.{delivered_orders};
ghost use Rattle.population.specs.Rows.{IsFrom, IsOpeningLine, AreOfEarlierOrders};

use crate::draws::Draws;
use crate::profile::is_new;
use schema::{
    CarrierId, LineAmount, LineCount, LineQuantity, Moment, NoMemory, OrderKey, OrderLine,
    OrderLineKey, OrderLines, Scale,
};

/// Returns the carrier of the order, `None` if the order is new.
pub(crate) fn carrier(draws: &mut Draws, scale: Scale, order: u32) -> Option<CarrierId>
    ensures none { (result ≡ None) ↔ (delivered_orders scale < order) }
    ensures number { (id : ℕ) → result ≡ Some id → IsFrom 1 10 id }
{
    if is_new(scale, order) {
        None
    } else {
        Some(CarrierId::new(draws.random(1, 10)))
    }
}

/// Adds the `count` lines of the order.
pub(crate) fn add_lines(
    draws: &mut Draws,
    lines: &mut OrderLines,
    scale: Scale,
    now: Moment,
    order: OrderKey,
    count: LineCount,
) -> Result<(), NoMemory>
    requires warehouse { IsTrue (has_warehouse scale order.w_id) }
    requires before { AreOfEarlierOrders order lines.old }
    requires rows { All (λ e. IsOpeningLine scale now e.0 e.1) lines.old }
    requires ordered { IsStrictlySortedBy line_cmp (keys_of lines.old) }
    ensures keys { OnOk result
        (keys_of lines.new ≡ keys_of lines.old ++ map (line_key order) (range_with_len 1 count)) }
    ensures rows { OnOk result (All (λ e. IsOpeningLine scale now e.0 e.1) lines.new) }
    ensures ordered { OnOk result (IsStrictlySortedBy line_cmp (keys_of lines.new)) }
{
    for place in 0..count.get() {
        let key = OrderLineKey {
            w_id: order.w_id,
            d_id: order.d_id,
            o_id: order.o_id,
            number: place + 1,
        };
        lines.insert(key, line(draws, scale, now, key))?;
    }
    Ok(())
}

// Returns the row of the line: five pieces of an item, from the order's own warehouse. The amount of a delivered line
// is 0.
fn line(draws: &mut Draws, scale: Scale, now: Moment, key: OrderLineKey) -> OrderLine
    requires warehouse { IsTrue (has_warehouse scale key.w_id) }
    requires number { IsTrue (is_line_number key.number) }
    ensures { IsOpeningLine scale now key result }
{
    let i_id = draws.random(1, scale.items);
    let waits = is_new(scale, key.o_id);
    OrderLine {
        i_id,
        supply_w_id: key.w_id,
        delivery_d: if waits { None } else { Some(now) },
        quantity: LineQuantity::new(5),
        amount: amount(draws, waits),
        dist_info: draws.text(24, 24),
    }
}

// Returns OL_AMOUNT of a line of a new order (`waits`) or of a delivered one.
fn amount(draws: &mut Draws, waits: bool) -> LineAmount
    ensures delivered { waits ≡ false → result ≡ 0 }
    ensures open { waits ≡ true → IsFrom 1 999999 result }
{
    if waits {
        LineAmount::new(draws.random(1, 999_999))
    } else {
        LineAmount::new(0)
    }
}
