//! The groups that Order-Status claims.
ghost use Rattle.std.specs.Prelude.{◌≡◌};
ghost use Rattle.groups.specs.OrderStatus.{order_status_footprint};

use crate::GroupWant;
use requests::{Group, OrderStatus};
use schema::DistrictKey;

/// Returns the groups of the rows that Order-Status reads, all shared.
pub(crate) fn group_wants(asked: &OrderStatus) -> [GroupWant; 2]
    ensures { result ≡ order_status_footprint asked.now }
{
    let DistrictKey { w_id, d_id } = asked.home;
    [
        Group::Customers { w_id, d_id },
        Group::Orders { w_id, d_id },
    ]
    .map(GroupWant::shared)
}
