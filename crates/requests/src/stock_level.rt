//! Stock-Level (clause 2.8), and its reply.
ghost use Rattle.std.specs.Prelude.{◌≡◌};
ghost use Rattle.requests.specs.Check.{check_of};

use crate::checks::is_district;
use crate::{Refusal, Request};
use schema::{DistrictKey, Scale};

/// Counts the items recently ordered in a district that are low on stock (clause 2.8.1). Before `check`,
/// any number may be out of its range.
#[derive(Clone, Copy, Debug, PartialEq, Eq)]
pub struct StockLevel {
    /// W_ID and D_ID of the terminal: a warehouse of the scale, and 1 to 10.
    pub home: DistrictKey,
    /// 10 to 20. An S_QUANTITY below it is low.
    pub threshold: u32,
}

/// What Stock-Level shows (clause 2.8.3.3).
#[derive(Clone, Copy, Debug, PartialEq, Eq)]
pub struct StockLevelReply {
    /// The number of items that are low on stock.
    pub count: u32,
}

/// Returns the first refusal that applies to a Stock-Level.
pub(crate) fn check(scale: Scale, asked: &StockLevel) -> Result<(), Refusal>
    ensures { result ≡ check_of scale (Request.StockLevel asked.now) }
{
    if !scale.has_warehouse(asked.home.w_id) {
        return Err(Refusal::BadWarehouse);
    }
    if !is_district(asked.home) {
        return Err(Refusal::BadDistrict);
    }
    if !(10..=20).contains(&asked.threshold) {
        return Err(Refusal::BadThreshold);
    }
    Ok(())
}
