//! The works of the actions of all transactions, and what they find, by kind.
ghost use Rattle.std.specs.Prelude.{◌≡◌, length, slice_get, IfOk, OnErr};
ghost use Rattle.partitions.specs.Parts.{shared_of};
ghost use Rattle.slices.specs.SliceView.{SliceKeeps};
ghost use Rattle.transactions.specs.Granted.{AreGrantedFor, AreLeft};
ghost use Rattle.transactions.specs.Works as spec;
ghost use Rattle.transactions.specs.Works.{CanDo, HasDone, home_of, wants_of, group_wants_of};

use crate::{delivery, new_order, order_status, payment, stock_level};
use groups::{Extent, GroupWant, Want};
use requests::Request;
use schema::NoMemory;
use slices::Slice;
use std::alloc::Global;
use tickets::{Claim, GroupNames};

/// The work of an action, with all that it needs.
#[derive(Drop)]
pub enum Work {
    NewOrder(new_order::Work),
    Payment(payment::Work),
    OrderStatus(order_status::Work),
    Delivery(delivery::Work),
    StockLevel(stock_level::Work),
}

/// What an action found.
#[derive(Drop)]
pub enum Found {
    NewOrder(new_order::Found),
    Payment(payment::Found),
    OrderStatus(order_status::Found),
    Delivery(delivery::Found),
    StockLevel(stock_level::Found),
}

impl Work {
    /// The W_ID of the warehouse at which the work is done. All groups that it wants are there.
    pub fn home(&self) -> u32
        ensures { result ≡ home_of self.now }
    {
        match self {
            Work::NewOrder(work) => work.home(),
            Work::Payment(work) => work.home(),
            Work::OrderStatus(work) => work.home(),
            Work::Delivery(work) => work.home(),
            Work::StockLevel(work) => work.home(),
        }
    }

    /// The number of groups that the work wants: at least one.
    pub fn group_want_count(&self) -> usize
        ensures { result ≡ length (group_wants_of self.now) }
    {
        match self {
            Work::NewOrder(work) => work.group_want_count(),
            Work::Payment(work) => work.group_want_count(),
            Work::OrderStatus(work) => work.group_want_count(),
            Work::Delivery(work) => work.group_want_count(),
            Work::StockLevel(work) => work.group_want_count(),
        }
    }

    /// The want of this number, from 0: a group, and how it is claimed. `None` from `group_want_count` on. Never allocates.
    pub fn group_want(&self, number: usize) -> Option<GroupWant>
        ensures { result ≡ slice_get (group_wants_of self.now) number }
    {
        match self {
            Work::NewOrder(work) => work.group_want(number),
            Work::Payment(work) => work.group_want(number),
            Work::OrderStatus(work) => work.group_want(number),
            Work::Delivery(work) => work.group_want(number),
            Work::StockLevel(work) => work.group_want(number),
        }
    }

    /// What the action asks the lock table of its warehouse for: each group of its wants by itself, in turn. Returns NoMemory if
    /// an allocation fails; nothing is left then.
    pub fn wants(&self, alloc: Global) -> Result<Vec<Want>, NoMemory>
        ensures { IfOk result (λ wants. wants.items ≡ wants_of self.now) }
    {
        let mut wants = Vec::with_capacity(alloc, self.group_want_count())?;
        while let Some(group_want) = self.group_want(wants.len()) {
            wants.push_reserved(Want {
                extent: Extent::One(group_want.group),
                mode: group_want.mode,
            });
        }
        Ok(wants)
    }
}

/// Does the work in the slice of its warehouse, under the claims that were granted for it. Returns NoMemory if an allocation
/// fails; nothing has changed then.
pub fn run<J: GroupNames>(
    alloc: Global,
    slice: &mut Slice<J>,
    claims: &mut [Claim<J>],
    work: Work,
) -> Result<Found, NoMemory>
    requires can { CanDo (shared_of slice.old.tables) work }
    requires home { home_of work ≡ slice.old.home }
    requires granted { AreGrantedFor (group_wants_of work) claims.old }
    ensures kept { SliceKeeps claims.old slice.old claims.new slice.new }
    ensures done { IfOk result (λ found.
        HasDone (shared_of slice.old.tables) work found claims.new) }
    ensures left { AreLeft claims.old claims.new }
    ensures err { OnErr result ((slice.new ≡ slice.old) × (claims.new ≡ claims.old)) }
{
    match work {
        Work::NewOrder(work) => Ok(Found::NewOrder(work.run(alloc, slice, claims)?)),
        Work::Payment(work) => Ok(Found::Payment(work.run(alloc, slice, claims)?)),
        Work::OrderStatus(work) => Ok(Found::OrderStatus(work.run(alloc, slice, claims)?)),
        Work::Delivery(work) => Ok(Found::Delivery(work.run(slice, claims)?)),
        Work::StockLevel(work) => Ok(Found::StockLevel(work.run(alloc, slice, claims)?)),
    }
}

/// The W_ID of the warehouse whose terminal asks the request. A transaction starts there.
pub fn home_of_request(request: &Request) -> u32
    ensures { result ≡ spec.home_of_request request.now }
{
    match request {
        Request::NewOrder(order) => order.home.w_id,
        Request::Payment(payment) => payment.home.w_id,
        Request::OrderStatus(asked) => asked.home.w_id,
        Request::Delivery(delivery) => delivery.home.w_id,
        Request::StockLevel(asked) => asked.home.w_id,
    }
}
