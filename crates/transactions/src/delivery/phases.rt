//! The phases of a Delivery.
ghost use Rattle.std.specs.Prelude.{◌≡◌, [], ◌∷◌, IfOk};
ghost use Rattle.transactions.specs.declared.work.Found.TheVariants as any_found;
ghost use Rattle.transactions.specs.declared.progress.Progress.TheVariants as any;
ghost use Rattle.transactions.specs.Delivery.{IsCustomerFound, IsOrderFound, work_of, works_of};
ghost use Rattle.transactions.specs.Progresses.{FollowsFrom, HasFound};

use super::work::{Found, Work};
use super::{CustomerCredited, OrderDelivered};
use crate::progress::Gathered;
use machine::delivery_reply;
use requests::{Delivery, Fault, Reply, Shown};
use schema::NoMemory;
use std::alloc::Global;

/// How far a Delivery has come: its phase, with the phase's input.
#[derive(Drop)]
pub enum Progress {
    /// Delivers the district's oldest new order, at place 0.
    DeliverOrder(Delivery),
    /// Credits the customer who ordered it, at place 1.
    CreditCustomer(Delivery, OrderDelivered),
}

impl Progress {
    // The work of the phase's action. Returns NoMemory if an allocation fails; nothing is left then.
    pub(crate) fn works(&self, alloc: Global) -> Result<Vec<crate::Work>, NoMemory>
        ensures { IfOk result (λ works. works.items ≡ works_of self.now) }
    {
        let mut works = Vec::with_capacity(alloc, 1)?;
        works.push(crate::Work::Delivery(self.work()))?;
        Ok(works)
    }

    fn work(&self) -> Work
        ensures { result ≡ work_of self.now }
    {
        match self {
            Progress::DeliverOrder(delivery) => Work::DeliverOrder(*delivery),
            Progress::CreditCustomer(delivery, order) => Work::CreditCustomer(*delivery, *order),
        }
    }

    // The step after the phase, from what its action found. Never allocates.
    pub(crate) fn gather(
        self,
        _alloc: Global,
        found: Vec<crate::Found>,
    ) -> Result<Gathered, NoMemory>
        requires { HasFound (any.Delivery self) found.items }
        ensures { IfOk result (λ gathered. FollowsFrom (any.Delivery self) found.items gathered) }
    {
        match self {
            Progress::DeliverOrder(delivery) => Ok(gather_order(delivery, found)),
            Progress::CreditCustomer(delivery, order) => {
                Ok(gather_customer(delivery, order, found))
            }
        }
    }
}

// The step after the first phase: the order's customer is to be credited, or the Delivery is carried out, since the district has
// no new order.
fn gather_order(delivery: Delivery, found: Vec<crate::Found>) -> Gathered
    requires { HasFound (any.Delivery (Progress.DeliverOrder delivery)) found.items }
    ensures { FollowsFrom (any.Delivery (Progress.DeliverOrder delivery)) found.items result }
{
    match order_found(found) {
        Some(order) => {
            Gathered::Next(crate::Progress::Delivery(Progress::CreditCustomer(delivery, order)))
        }
        None => Gathered::Finish(Reply::Done(Shown::Delivery(delivery_reply(&delivery, None)))),
    }
}

// The step after the second phase: the Delivery is carried out, or rolled back.
fn gather_customer(delivery: Delivery, order: OrderDelivered, found: Vec<crate::Found>) -> Gathered
    requires { HasFound (any.Delivery (Progress.CreditCustomer delivery order)) found.items }
    ensures { FollowsFrom (any.Delivery (Progress.CreditCustomer delivery order)) found.items
        result }
{
    match customer_found(found) {
        CustomerCredited::Credited => {
            let shown = delivery_reply(&delivery, Some(order.o_id));
            Gathered::Finish(Reply::Done(Shown::Delivery(shown)))
        }
        CustomerCredited::OutOfRange => Gathered::Finish(Reply::RolledBack(Fault::Range)),
    }
}

// What the first phase found.
fn order_found(mut found: Vec<crate::Found>) -> Option<OrderDelivered>
    requires { IsOrderFound found.items }
    ensures { found.items ≡ any_found.Delivery (Found.Order result) ∷ [] }
{
    match found.pop() {
        Some(crate::Found::Delivery(Found::Order(order))) => order,
        _ => unreachable!(),
    }
}

// What the second phase found.
fn customer_found(mut found: Vec<crate::Found>) -> CustomerCredited
    requires { IsCustomerFound found.items }
    ensures { found.items ≡ any_found.Delivery (Found.Customer result) ∷ [] }
{
    match found.pop() {
        Some(crate::Found::Delivery(Found::Customer(credited))) => credited,
        _ => unreachable!(),
    }
}
