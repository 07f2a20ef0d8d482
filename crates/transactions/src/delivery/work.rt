//! The actions of a Delivery: their work, what they claim for it, and what they find.
ghost use Rattle.std.specs.Prelude.{◌≡◌, length, slice_get, IfOk, OnErr};
ghost use Rattle.partitions.specs.Parts.{shared_of};
ghost use Rattle.slices.specs.SliceView.{SliceKeeps};
ghost use Rattle.transactions.specs.Granted.{AreGrantedFor, AreLeft};
ghost use Rattle.transactions.specs.Delivery.{CanDo, HasDone, home_of, group_wants_of};

use super::customers::credit_customer;
use super::orders::deliver_order;
use super::{CustomerCredited, OrderDelivered};
use groups::GroupWant;
use requests::{Delivery, Group};
use schema::{DistrictKey, NoMemory};
use slices::Slice;
use tickets::{Claim, GroupNames};

/// The work of an action of a Delivery.
#[derive(Drop)]
pub enum Work {
    /// Delivers the district's oldest new order.
    DeliverOrder(Delivery),
    /// Credits the customer who ordered it.
    CreditCustomer(Delivery, OrderDelivered),
}

/// What an action of a Delivery found.
#[derive(Drop)]
pub enum Found {
    /// The order that was delivered; `None` if the district had no new order.
    Order(Option<OrderDelivered>),
    Customer(CustomerCredited),
}

impl Work {
    // The W_ID of the warehouse at which the work is done.
    pub(crate) fn home(&self) -> u32
        ensures { result ≡ home_of self.now }
    {
        match self {
            Work::DeliverOrder(delivery) => delivery.home.w_id,
            Work::CreditCustomer(delivery, _) => delivery.home.w_id,
        }
    }

    // The number of groups that the work wants.
    pub(crate) fn group_want_count(&self) -> usize
        ensures { result ≡ length (group_wants_of self.now) }
    {
        match self {
            Work::DeliverOrder(_) => 1,
            Work::CreditCustomer(_, _) => 1,
        }
    }

    // The want of this number, from 0.
    pub(crate) fn group_want(&self, number: usize) -> Option<GroupWant>
        ensures { result ≡ slice_get (group_wants_of self.now) number }
    {
        let group = match self {
            Work::DeliverOrder(delivery) => {
                let DistrictKey { w_id, d_id } = delivery.home;
                Group::Orders { w_id, d_id }
            }
            Work::CreditCustomer(delivery, _) => {
                let DistrictKey { w_id, d_id } = delivery.home;
                Group::Customers { w_id, d_id }
            }
        };
        match number {
            0 => Some(GroupWant::exclusively(group)),
            _ => None,
        }
    }

    // Does the work in the slice of its warehouse, under the claims that were granted for it. Returns NoMemory if an allocation
    // fails; nothing has changed then.
    pub(crate) fn run<J: GroupNames>(
        self,
        slice: &mut Slice<J>,
        claims: &mut [Claim<J>],
    ) -> Result<Found, NoMemory>
        requires can { CanDo (shared_of slice.old.tables) self }
        requires home { home_of self ≡ slice.old.home }
        requires granted { AreGrantedFor (group_wants_of self) claims.old }
        ensures kept { SliceKeeps claims.old slice.old claims.new slice.new }
        ensures done { IfOk result (λ found.
            HasDone (shared_of slice.old.tables) self found claims.new) }
        ensures left { AreLeft claims.old claims.new }
        ensures err { OnErr result ((slice.new ≡ slice.old) × (claims.new ≡ claims.old)) }
    {
        match self {
            Work::DeliverOrder(delivery) => {
                Ok(Found::Order(deliver_order(slice, &mut claims[0], &delivery)?))
            }
            Work::CreditCustomer(delivery, order) => Ok(Found::Customer(credit_customer(
                slice,
                &mut claims[0],
                delivery.home,
                order,
            )?)),
        }
    }
}
