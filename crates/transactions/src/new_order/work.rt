//! The actions of a New-Order: their work, what they claim for it, and what they find.
ghost use Rattle.std.specs.Prelude.{◌≡◌, length, slice_get, IfOk, OnErr};
ghost use Rattle.partitions.specs.Parts.{shared_of};
ghost use Rattle.slices.specs.SliceView.{SliceKeeps};
ghost use Rattle.transactions.specs.Granted.{AreGrantedFor, AreLeft};
ghost use Rattle.transactions.specs.NewOrder.{CanDo, HasDone, home_of, group_wants_of};

use super::home_rows::{add_order, show_orderer, take_number};
use super::stock::take_stock;
use super::{HomeFound, OrderRows, OrdererFound, StockTaken};
use groups::{GroupWant, warehouse_of};
use requests::{Group, NewOrder};
use schema::{DistrictKey, NoMemory, OrderKey};
use slices::Slice;
use std::alloc::Global;
use tickets::{Claim, GroupNames};

/// The work of an action of a New-Order.
#[derive(Drop)]
pub enum Work {
    /// D_NEXT_O_ID of its home district grows, if it can.
    TakeNumber(NewOrder),
    /// Shows its customer.
    ShowOrderer(NewOrder),
    /// Takes the lines that the group supplies from its stock.
    TakeStock(NewOrder, Group),
    /// Adds it, with its lines.
    AddOrder(OrderRows),
}

/// What an action of a New-Order found.
#[derive(Drop)]
pub enum Found {
    Home(HomeFound),
    Orderer(OrdererFound),
    Stock(StockTaken),
    /// The order was added.
    Added,
}

impl Work {
    // The W_ID of the warehouse at which the work is done.
    pub(crate) fn home(&self) -> u32
        ensures { result ≡ home_of self.now }
    {
        match self {
            Work::TakeNumber(order) | Work::ShowOrderer(order) => order.home.w_id,
            Work::TakeStock(_, group) => warehouse_of(*group),
            Work::AddOrder(rows) => rows.key.w_id,
        }
    }

    // The number of groups that the work wants.
    pub(crate) fn group_want_count(&self) -> usize
        ensures { result ≡ length (group_wants_of self.now) }
    {
        match self {
            Work::TakeNumber(_) => 2,
            Work::ShowOrderer(_) => 1,
            Work::TakeStock(_, _) => 1,
            Work::AddOrder(_) => 1,
        }
    }

    // The want of this number, from 0.
    pub(crate) fn group_want(&self, number: usize) -> Option<GroupWant>
        ensures { result ≡ slice_get (group_wants_of self.now) number }
    {
        match self {
            Work::TakeNumber(order) => {
                let DistrictKey { w_id, d_id } = order.home;
                match number {
                    0 => Some(GroupWant::shared(Group::Warehouse { w_id })),
                    1 => Some(GroupWant::exclusively(Group::District { w_id, d_id })),
                    _ => None,
                }
            }
            Work::ShowOrderer(order) => {
                let DistrictKey { w_id, d_id } = order.home;
                match number {
                    0 => Some(GroupWant::shared(Group::Customers { w_id, d_id })),
                    _ => None,
                }
            }
            Work::TakeStock(_, group) => match number {
                0 => Some(GroupWant::exclusively(*group)),
                _ => None,
            },
            Work::AddOrder(rows) => {
                let OrderKey { w_id, d_id, .. } = rows.key;
                match number {
                    0 => Some(GroupWant::exclusively(Group::Orders { w_id, d_id })),
                    _ => None,
                }
            }
        }
    }

    // Does the work in the slice of its warehouse, under the claims that were granted for it. Returns NoMemory if an allocation
    // fails; nothing has changed then.
    pub(crate) fn run<J: GroupNames>(
        self,
        alloc: Global,
        slice: &mut Slice<J>,
        claims: &mut [Claim<J>],
    ) -> Result<Found, NoMemory>
        requires can { CanDo (shared_of slice.old.tables) self }
        requires home { home_of self ≡ slice.old.home }
        requires granted { AreGrantedFor (group_wants_of self) claims.old }
        ensures kept { SliceKeeps claims.old slice.old claims.new slice.new }
        ensures done { IfOk result (λ found.
            HasDone (shared_of slice.old.tables) self found claims.new) }
        ensures left { AreLeft claims.old claims.new }
        ensures err { OnErr result ((slice.new ≡ slice.old) × (claims.new ≡ claims.old)) }
    {
        match self {
            Work::TakeNumber(order) => {
                let (first, rest) = claims.split_at_mut(1);
                Ok(Found::Home(take_number(slice, &mut first[0], &mut rest[0], &order)?))
            }
            Work::ShowOrderer(order) => {
                Ok(Found::Orderer(show_orderer(slice, &mut claims[0], &order)))
            }
            Work::TakeStock(order, group) => Ok(Found::Stock(take_stock(
                alloc,
                slice,
                &mut claims[0],
                &order,
                group,
            )?)),
            Work::AddOrder(rows) => {
                add_order(slice, &mut claims[0], rows)?;
                Ok(Found::Added)
            }
        }
    }
}
