ghost use Rattle.std.specs.Prelude.{◌≡◌, ◌≤◌, IfErr};
ghost use Rattle.rows.specs.Ranged.{is_between};
ghost use Rattle.requests.specs.Check.{check_of};
ghost use Rattle.requests.specs.Refusal.{refusal_number};

use crate::{Refusal, Request, delivery, new_order, order_status, payment, stock_level};
use schema::{DistrictKey, Scale};

/// Returns the first of the refusals `BadWarehouse` to `BadCarrier` that applies to the request, in this
/// order; `Ok` exactly if none does. Never allocates.
pub fn check(scale: &Scale, request: &Request) -> Result<(), Refusal>
    ensures first { result ≡ check_of scale.now request.now }
    ensures by_itself { IfErr result (λ refusal. refusal_number refusal ≤ 8) }
{
    match request {
        Request::NewOrder(asked) => new_order::check(*scale, asked),
        Request::Payment(asked) => payment::check(*scale, asked),
        Request::OrderStatus(asked) => order_status::check(*scale, asked),
        Request::Delivery(asked) => delivery::check(*scale, asked),
        Request::StockLevel(asked) => stock_level::check(*scale, asked),
    }
}

/// Returns whether the district's number is 1 to 10, whatever its warehouse.
pub(crate) fn is_district(key: DistrictKey) -> bool
    ensures { result ≡ is_between 1 10 key.d_id }
{
    (1..=10).contains(&key.d_id)
}
