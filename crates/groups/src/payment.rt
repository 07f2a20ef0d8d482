//! The groups that a payment claims.
ghost use Rattle.std.specs.Prelude.{◌≡◌};
ghost use Rattle.groups.specs.Payment.{payment_footprint};

use crate::GroupWant;
use requests::{Group, Payment};

/// Returns the groups of the rows that a payment changes, all exclusive.
pub(crate) fn group_wants(payment: &Payment) -> [GroupWant; 4]
    ensures { result ≡ payment_footprint payment.now }
{
    let home = payment.home;
    let customer_home = payment.customer_home;
    [
        Group::Warehouse { w_id: home.w_id },
        Group::District {
            w_id: home.w_id,
            d_id: home.d_id,
        },
        Group::Customers {
            w_id: customer_home.w_id,
            d_id: customer_home.d_id,
        },
        Group::History {
            w_id: home.w_id,
            d_id: home.d_id,
        },
    ]
    .map(GroupWant::exclusively)
}
