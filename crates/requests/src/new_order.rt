//! New-Order (clause 2.4), and its reply.
ghost use Rattle.std.specs.Prelude.{◌≡◌};
ghost use Rattle.std.specs.List.{list_all};
ghost use Rattle.rows.specs.Ranged.{is_between};
ghost use Rattle.schema.specs.Scale.{has_warehouse};
ghost use Rattle.requests.specs.Check.{check_of};

use crate::checks::is_district;
use crate::{Lines, Refusal, Request};
use amounts::{Cents, Rate};
use rows::{FEWEST_LINES, MOST_LINES};
use schema::{
    BrandGeneric, Credit, DistrictKey, LineAmount, LineQuantity, Moment, Price, Scale,
    StockQuantity, Text,
};

/// A customer orders items (clause 2.4.1). Before `check`, any number may be out of its range.
#[derive(Clone, Debug, PartialEq, Eq, Drop)]
pub struct NewOrder {
    /// W_ID and D_ID of the district where the order is placed and to which the customer belongs: a
    /// warehouse of the scale, and 1 to 10.
    pub home: DistrictKey,
    /// C_ID of the customer who orders. `check` does not test that the customer exists: the transaction
    /// does.
    pub c_id: u32,
    /// O_ENTRY_D, which the request contains.
    pub moment: Moment,
    /// By OL_NUMBER: 5 to 30 lines.
    pub lines: Lines<OrderedLine>,
}

/// A line of an order that is placed (clause 2.4.1.5).
#[derive(Clone, Copy, Debug, PartialEq, Eq)]
pub struct OrderedLine {
    /// OL_I_ID. `check` does not test that the item exists: the transaction does.
    pub i_id: u32,
    /// OL_SUPPLY_W_ID: a warehouse of the scale.
    pub supply_w_id: u32,
    /// OL_QUANTITY: 1 to 10.
    pub quantity: u32,
}

/// What New-Order shows (clause 2.4.3.3).
#[derive(Clone, Debug, PartialEq, Eq, Drop)]
pub struct NewOrderReply {
    /// C_LAST, C_CREDIT and C_DISCOUNT of the customer.
    pub last: Text<16>,
    pub credit: Credit,
    pub discount: Rate,
    /// W_TAX and D_TAX.
    pub warehouse_tax: Rate,
    pub district_tax: Rate,
    /// O_ID of the order.
    pub o_id: u32,
    pub entry_d: Moment,
    /// The sum of the lines' amounts, less the discount and with both taxes, in cents.
    pub total: Cents,
    /// By OL_NUMBER.
    pub lines: Lines<NewOrderLine>,
}

/// What New-Order shows of a line (clause 2.4.3.3).
#[derive(Clone, Debug, PartialEq, Eq, Drop)]
pub struct NewOrderLine {
    pub supply_w_id: u32,
    pub i_id: u32,
    /// I_NAME.
    pub name: Text<24>,
    pub quantity: LineQuantity,
    /// S_QUANTITY after the line.
    pub stock_quantity: StockQuantity,
    pub brand: BrandGeneric,
    pub price: Price,
    /// OL_AMOUNT, in cents.
    pub amount: LineAmount,
}

/// Returns the first refusal that applies to a New-Order.
pub(crate) fn check(scale: Scale, order: &NewOrder) -> Result<(), Refusal>
    ensures { result ≡ check_of scale (Request.NewOrder order.now) }
{
    if !scale.has_warehouse(order.home.w_id) {
        return Err(Refusal::BadWarehouse);
    }
    if !is_district(order.home) {
        return Err(Refusal::BadDistrict);
    }
    let lines = order.lines.as_slice();
    if !(FEWEST_LINES..=MOST_LINES).contains(&lines.len()) {
        return Err(Refusal::BadLines);
    }
    if !are_quantities(lines) {
        return Err(Refusal::BadQuantity);
    }
    if !are_suppliers(scale, lines) {
        return Err(Refusal::BadSupply);
    }
    Ok(())
}

// Returns whether each line's quantity is 1 to 10.
fn are_quantities(lines: &[OrderedLine]) -> bool
    ensures { result ≡ list_all (λ line. is_between 1 10 line.quantity) lines.now }
{
    for line in lines {
        if !(1..=10).contains(&line.quantity) {
            return false;
        }
    }
    true
}

// Returns whether each line's supply warehouse is one of the scale.
fn are_suppliers(scale: Scale, lines: &[OrderedLine]) -> bool
    ensures { result ≡ list_all (λ line. has_warehouse scale line.supply_w_id) lines.now }
{
    for line in lines {
        if !scale.has_warehouse(line.supply_w_id) {
            return false;
        }
    }
    true
}
