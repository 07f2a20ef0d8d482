ghost use Rattle.std.specs.Prelude.{◌≡◌, IfOk};
ghost use Rattle.groups.specs.Footprint as spec;

use crate::{delivery, new_order, order_status, payment, stock_level};
use requests::{Group, Request};
use schema::NoMemory;
use std::alloc::Global;

/// The mode in which a group is claimed.
#[derive(Clone, Copy, Debug, PartialEq, Eq)]
pub enum Mode {
    /// To read it, while others may read it too.
    Shared,
    /// To change it, while no one else reads or changes it.
    Exclusive,
}

/// A group that a request claims, and the mode.
#[derive(Clone, Copy, Debug, PartialEq, Eq)]
pub struct GroupWant {
    pub group: Group,
    pub mode: Mode,
}

impl GroupWant {
    /// A shared want, to read the group.
    pub fn shared(group: Group) -> GroupWant
        ensures { result ≡ spec.shared group }
    {
        GroupWant {
            group,
            mode: Mode::Shared,
        }
    }

    /// An exclusive want, to change the group.
    pub fn exclusively(group: Group) -> GroupWant
        ensures { result ≡ spec.exclusively group }
    {
        GroupWant {
            group,
            mode: Mode::Exclusive,
        }
    }
}

/// Returns the groups that a request claims, none twice. Returns NoMemory if an allocation fails;
/// nothing stays allocated then.
pub fn footprint(alloc: Global, request: &Request) -> Result<Vec<GroupWant>, NoMemory>
    ensures { IfOk result (λ group_wants. group_wants.items ≡ spec.footprint request.now) }
{
    match request {
        Request::NewOrder(asked) => new_order::group_wants(alloc, asked),
        Request::Payment(asked) => Vec::from_slice(alloc, &payment::group_wants(asked)),
        Request::OrderStatus(asked) => Vec::from_slice(alloc, &order_status::group_wants(asked)),
        Request::Delivery(asked) => Vec::from_slice(alloc, &delivery::group_wants(asked)),
        Request::StockLevel(asked) => stock_level::group_wants(alloc, asked),
    }
}
