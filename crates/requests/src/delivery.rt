//! Delivery (clause 2.7), and its reply.
ghost use Rattle.std.specs.Prelude.{◌≡◌};
ghost use Rattle.requests.specs.Check.{check_of};

use crate::checks::is_district;
use crate::{Refusal, Request};
use schema::{DistrictKey, Moment, Scale};

/// Delivers the oldest new order of a district (clause 2.7.4.2). A terminal's Delivery of a warehouse (clause 2.7.1) is ten of
/// these, one for each district. Before `check`, any number may be out of its range.
#[derive(Clone, Copy, Debug, PartialEq, Eq)]
pub struct Delivery {
    /// W_ID and D_ID of the district: a warehouse of the scale, and 1 to 10.
    pub home: DistrictKey,
    /// O_CARRIER_ID of the delivered orders: 1 to 10.
    pub carrier_id: u32,
    /// OL_DELIVERY_D, which the request contains.
    pub moment: Moment,
}

/// What Delivery shows (clause 2.7.3.2 records as much of each order).
#[derive(Clone, Copy, Debug, PartialEq, Eq)]
pub struct DeliveryReply {
    /// D_ID, 1 to 10.
    pub d_id: u32,
    /// O_CARRIER_ID, 1 to 10.
    pub carrier_id: u32,
    /// O_ID of the delivered order; `None` if the district had no new order.
    pub order: Option<u32>,
}

/// Returns the first refusal that applies to a Delivery.
pub(crate) fn check(scale: Scale, delivery: &Delivery) -> Result<(), Refusal>
    ensures { result ≡ check_of scale (Request.Delivery delivery.now) }
{
    if !scale.has_warehouse(delivery.home.w_id) {
        return Err(Refusal::BadWarehouse);
    }
    if !is_district(delivery.home) {
        return Err(Refusal::BadDistrict);
    }
    if !(1..=10).contains(&delivery.carrier_id) {
        return Err(Refusal::BadCarrier);
    }
    Ok(())
}
