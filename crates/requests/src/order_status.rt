//! Order-Status (clause 2.6), and its reply.
ghost use Rattle.std.specs.Prelude.{◌≡◌};
ghost use Rattle.requests.specs.Check.{check_of};

use crate::checks::is_district;
use crate::{Choice, Lines, Refusal, Request};
use amounts::Cents;
use schema::{CarrierId, DistrictKey, LineAmount, LineQuantity, Moment, Scale, Text};

/// A customer asks for the state of the last order (clause 2.6.1). Before `check`, any number may be out
/// of its range.
#[derive(Clone, Debug, PartialEq, Eq, Drop)]
pub struct OrderStatus {
    /// W_ID and D_ID of the customer's district: a warehouse of the scale, and 1 to 10.
    pub home: DistrictKey,
    /// The customer who asks.
    pub customer: Choice,
}

/// What Order-Status shows of a customer (clause 2.6.3.4).
#[derive(Clone, Debug, PartialEq, Eq, Drop)]
pub struct OrderStatusReply {
    pub c_id: u32,
    pub first: Text<16>,
    pub middle: Text<2>,
    pub last: Text<16>,
    /// C_BALANCE, in cents: -10^15 to 10^15.
    pub balance: Cents,
    /// The customer's last order; `None` if there is none.
    pub order: Option<StatusOrder>,
}

/// What Order-Status shows of an order (clause 2.6.3.4).
#[derive(Clone, Debug, PartialEq, Eq, Drop)]
pub struct StatusOrder {
    pub o_id: u32,
    pub entry_d: Moment,
    /// O_CARRIER_ID, 1 to 10; `None` until the order is delivered.
    pub carrier_id: Option<CarrierId>,
    pub lines: Lines<StatusLine>,
}

/// What Order-Status shows of a line of an order (clause 2.6.3.4).
#[derive(Clone, Copy, Debug, PartialEq, Eq)]
pub struct StatusLine {
    pub i_id: u32,
    pub supply_w_id: u32,
    pub quantity: LineQuantity,
    /// OL_AMOUNT, in cents.
    pub amount: LineAmount,
    /// `None` until the order is delivered.
    pub delivery_d: Option<Moment>,
}

/// Returns the first refusal that applies to an Order-Status.
pub(crate) fn check(scale: Scale, asked: &OrderStatus) -> Result<(), Refusal>
    ensures { result ≡ check_of scale (Request.OrderStatus asked.now) }
{
    if !scale.has_warehouse(asked.home.w_id) {
        return Err(Refusal::BadWarehouse);
    }
    if !is_district(asked.home) {
        return Err(Refusal::BadDistrict);
    }
    Ok(())
}
