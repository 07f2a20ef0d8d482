//! How far a transaction has come, by kind, and the step after a phase.
ghost use Rattle.std.specs.Prelude.{◌≡◌, IfOk};
ghost use Rattle.transactions.specs.Progresses.{FollowsFrom, HasFound, IsStartOf, works_of};

use crate::work::{Found, Work};
use crate::{delivery, new_order, order_status, payment, stock_level};
use requests::{Reply, Request};
use schema::NoMemory;
use std::alloc::Global;

/// How far a transaction has come: its phase, with the phase's input.
#[derive(Drop)]
pub enum Progress {
    NewOrder(new_order::Progress),
    Payment(payment::Progress),
    OrderStatus(order_status::Progress),
    Delivery(delivery::Progress),
    StockLevel(stock_level::Progress),
}

/// The step after a phase.
#[derive(Drop)]
pub enum Gathered {
    /// The next phase.
    Next(Progress),
    /// The transaction was carried out, with this reply. If the reply is a rollback, all that was done is to be undone.
    Finish(Reply),
}

impl Progress {
    /// The first phase of a request.
    pub fn begin(request: Request) -> Progress
        ensures { IsStartOf request result }
    {
        match request {
            Request::NewOrder(order) => { Progress::NewOrder(new_order::Progress::ReadRows(order)) }
            Request::Payment(payment) => Progress::Payment(payment::Progress::PayRows(payment)),
            Request::OrderStatus(asked) => {
                Progress::OrderStatus(order_status::Progress::ReadCustomer(asked))
            }
            Request::Delivery(delivery) => {
                Progress::Delivery(delivery::Progress::DeliverOrder(delivery))
            }
            Request::StockLevel(asked) => {
                Progress::StockLevel(stock_level::Progress::ReadNext(asked))
            }
        }
    }

    /// The works of the phase's actions, by place. Returns NoMemory if an allocation fails; nothing is left then.
    pub fn works(&self, alloc: Global) -> Result<Vec<Work>, NoMemory>
        ensures { IfOk result (λ works. works.items ≡ works_of self.now) }
    {
        match self {
            Progress::NewOrder(progress) => progress.works(alloc),
            Progress::Payment(progress) => progress.works(alloc),
            Progress::OrderStatus(progress) => progress.works(alloc),
            Progress::Delivery(progress) => progress.works(alloc),
            Progress::StockLevel(progress) => progress.works(alloc),
        }
    }

    /// The step after the phase, from what its actions found, by place. Returns NoMemory if an allocation fails; nothing is left
    /// then.
    pub fn gather(self, alloc: Global, found: Vec<Found>) -> Result<Gathered, NoMemory>
        requires { HasFound self found.items }
        ensures { IfOk result (λ gathered. FollowsFrom self found.items gathered) }
    {
        match self {
            Progress::NewOrder(progress) => progress.gather(alloc, found),
            Progress::Payment(progress) => progress.gather(alloc, found),
            Progress::OrderStatus(progress) => progress.gather(alloc, found),
            Progress::Delivery(progress) => progress.gather(alloc, found),
            Progress::StockLevel(progress) => progress.gather(alloc, found),
        }
    }
}
