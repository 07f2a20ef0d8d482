ghost use Rattle.std.specs.Prelude.{◌≡◌, ◌+◌, ◌-◌, ◌*◌, ◌^◌, ◌≤◌, ◌*ℤ◌, ◌≤ℤ◌, pos, unsigned_abs};
ghost use Rattle.amounts.specs.Money.{IsMoney};
ghost use Rattle.amounts.specs.Total.{IsNearestCent, TotalIsNearestCent, scaled_total, total_of};

use crate::{Cents, Rate};

/// OL_AMOUNT, the amount of an order line in cents: quantity times price (clause 2.4.2.2). The caller
/// ensures that the product is in range.
pub fn line_amount(quantity: u8, price: Cents) -> Cents
    requires fits { IsMoney (pos quantity *ℤ price) }
    ensures { result ≡ pos quantity *ℤ price }
{
    Cents::new(i64::from(quantity) * price.get())
}

/// An order's total in cents: the sum of its line amounts less the discount, plus the taxes of the
/// warehouse and the district (clause 2.4.2.2), rounded to the nearest cent, halves up. The caller
/// ensures that the sum is not negative and that three times the sum is in range; the total is in range
/// then.
pub fn order_total(sum: Cents, discount: Rate, warehouse_tax: Rate, district_tax: Rate) -> Cents
    requires low { pos 0 ≤ℤ sum }
    requires fits { IsMoney (pos 3 *ℤ sum) }
    ensures value { result ≡ pos (total_of (unsigned_abs sum) discount warehouse_tax district_tax) }
    ensures nearest { IsNearestCent (scaled_total sum discount warehouse_tax district_tax) result }
{
    let scaled = scaled(sum.get() as u64, discount, warehouse_tax, district_tax);
    Cents::new(((scaled + 50_000_000) / 100_000_000) as i64)
}

/// A law (proved, no effect at run time): the total that `order_total` returns is the only nearest
/// cent.
pub fn total_is_nearest_cent()
    ensures { TotalIsNearestCent }
{}

// The total in hundred-millionths of a cent.
fn scaled(sum: u64, discount: Rate, warehouse_tax: Rate, district_tax: Rate) -> u128
    requires { 3 * sum ≤ 10 ^ 15 }
    ensures value { result ≡ sum * (10000 - discount) * (10000 + warehouse_tax + district_tax) }
    ensures bound { result ≤ 300000000 * sum }
{
    let after_discount = u128::from(10_000 - discount.get());
    let with_taxes = 10_000 + u128::from(warehouse_tax.get()) + u128::from(district_tax.get());
    u128::from(sum) * after_discount * with_taxes
}
