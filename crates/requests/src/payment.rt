//! Payment (clause 2.5), and its reply.
ghost use Rattle.std.specs.Prelude.{◌≡◌};
ghost use Rattle.requests.specs.Check.{check_of};

use crate::checks::is_district;
use crate::{Choice, Refusal, Request, ShownData};
use amounts::{Cents, Rate};
use schema::{Credit, DistrictKey, Moment, Scale, Text};

/// A customer's payment at a district (clause 2.5.1). Before `check`, any number may be out of its
/// range.
#[derive(Clone, Debug, PartialEq, Eq, Drop)]
pub struct Payment {
    /// W_ID and D_ID of the district where the payment is taken: a warehouse of the scale, and 1 to 10.
    pub home: DistrictKey,
    /// C_W_ID and C_D_ID of the customer's district: a warehouse of the scale, and 1 to 10.
    pub customer_home: DistrictKey,
    /// The customer who pays.
    pub customer: Choice,
    /// H_AMOUNT, in cents: 100 to 500,000.
    pub amount: u32,
    /// H_DATE, which the request contains.
    pub moment: Moment,
}

/// What a payment shows of its customer (clause 2.5.3), after the payment.
#[derive(Clone, Debug, PartialEq, Eq, Drop)]
pub struct PaymentReply {
    pub c_id: u32,
    pub first: Text<16>,
    pub middle: Text<2>,
    pub last: Text<16>,
    pub credit: Credit,
    /// C_DISCOUNT, in ten-thousandths: 0 to 9,999.
    pub discount: Rate,
    /// C_BALANCE, in cents: -10^15 to 10^15.
    pub balance: Cents,
    /// The first 200 bytes of C_DATA if the customer has bad credit, else empty.
    pub data: ShownData,
}

/// Returns the first refusal that applies to a payment.
pub(crate) fn check(scale: Scale, payment: &Payment) -> Result<(), Refusal>
    ensures { result ≡ check_of scale (Request.Payment payment.now) }
{
    let home = payment.home;
    let customer_home = payment.customer_home;
    if !(scale.has_warehouse(home.w_id) && scale.has_warehouse(customer_home.w_id)) {
        return Err(Refusal::BadWarehouse);
    }
    if !(is_district(home) && is_district(customer_home)) {
        return Err(Refusal::BadDistrict);
    }
    if !(100..=500_000).contains(&payment.amount) {
        return Err(Refusal::BadAmount);
    }
    Ok(())
}
