//! The groups that Delivery claims.
ghost use Rattle.std.specs.Prelude.{◌≡◌};
ghost use Rattle.groups.specs.Delivery.{delivery_footprint};

use crate::GroupWant;
use requests::{Delivery, Group};
use schema::DistrictKey;

/// Returns the groups of the rows that Delivery changes, all exclusive.
pub(crate) fn group_wants(delivery: &Delivery) -> [GroupWant; 2]
    ensures { result ≡ delivery_footprint delivery.now }
{
    let DistrictKey { w_id, d_id } = delivery.home;
    [
        Group::Orders { w_id, d_id },
        Group::Customers { w_id, d_id },
    ]
    .map(GroupWant::exclusively)
}
