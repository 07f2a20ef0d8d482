//! An Order-Status (clause 2.6): its actions and what they find, its phases, and its law. It reads its customer, and then the
//! customer's last order (clause 2.6.2.2).
ghost use Rattle.std.specs.Prelude.{◌≡◌, [], ◌∷◌, length, slice_get, IfOk, OnErr};
ghost use Rattle.partitions.specs.Parts.{shared_of};
ghost use Rattle.requests.specs.declared.group.Group.TheVariants as group;
ghost use Rattle.slices.specs.SliceView.{SliceKeeps};
ghost use Rattle.transactions.specs.declared.order_status.CustomerShown.{CustomerShown as AnyCustomerShown};
ghost use Rattle.transactions.specs.declared.work.Found.TheVariants as any_found;
ghost use Rattle.transactions.specs.declared.progress.Progress.TheVariants as any;
ghost use Rattle.transactions.specs.Granted.{AreGrantedFor, AreLeft, IsSharedOn, group_of_customers};
ghost use Rattle.transactions.specs.OrderStatus.{CanDo, HasDone, IsCustomerFound, IsCustomerShown, IsOrderFound, IsOrderShown, home_of, reply_shown, group_wants_of, works_of};
ghost use Rattle.transactions.specs.OrderStatusLaws.{AcceptedStatusesHaveTheirDistrict, OrderStatusesAreCarriedOut, RolledBackOrderStatusesAreCarriedOut, ShownCustomersAreAtHome};
ghost use Rattle.transactions.specs.Progresses.{FollowsFrom, HasFound};

use crate::progress::Gathered;
use amounts::Cents;
use groups::GroupWant;
use machine::{chosen, latest_shown};
use requests::{Fault, Group, OrderStatus, OrderStatusReply, Reply, Shown, StatusOrder};
use schema::{CustomerKey, DistrictKey, NoMemory, Text};
use slices::Slice;
use std::alloc::Global;
use tickets::{Claim, GroupNames};

/// The work of an action of an Order-Status.
#[derive(Drop)]
pub enum Work {
    /// Reads its customer.
    ShowCustomer(OrderStatus),
    /// Reads the customer's last order.
    ShowOrder(CustomerKey),
}

/// What an action of an Order-Status found.
#[derive(Drop)]
pub enum Found {
    Customer(CustomerShown),
    /// `None` if the customer has no order.
    Order(Option<StatusOrder>),
}

/// What Order-Status shows of a customer's row (clause 2.6.3.4).
#[derive(Clone, Debug, PartialEq, Eq, Drop)]
pub struct StatusCustomer {
    pub first: Text<16>,
    pub middle: Text<2>,
    pub last: Text<16>,
    /// C_BALANCE, in cents: -10^15 to 10^15.
    pub balance: Cents,
}

/// What an Order-Status finds of its customer.
#[derive(Clone, Debug, PartialEq, Eq, Drop)]
pub enum CustomerShown {
    /// The district has no such customer.
    Missing,
    /// The key of the customer that was chosen, and what is shown of the row.
    Shown {
        key: CustomerKey,
        customer: StatusCustomer,
    },
}

/// How far an Order-Status has come: its phase, with the phase's input.
#[derive(Drop)]
pub enum Progress {
    /// Reads its customer.
    ReadCustomer(OrderStatus),
    /// Reads the last order of the customer that was read.
    ReadOrder(StatusShown),
}

/// An Order-Status whose customer was read.
#[derive(Drop)]
pub struct StatusShown {
    pub key: CustomerKey,
    pub customer: StatusCustomer,
}

impl Work {
    // The W_ID of the warehouse at which the work is done.
    pub(crate) fn home(&self) -> u32
        ensures { result ≡ home_of self.now }
    {
        match self {
            Work::ShowCustomer(asked) => asked.home.w_id,
            Work::ShowOrder(key) => key.w_id,
        }
    }

    // The number of groups that the work wants.
    pub(crate) fn group_want_count(&self) -> usize
        ensures { result ≡ length (group_wants_of self.now) }
    {
        match self {
            Work::ShowCustomer(_) => 1,
            Work::ShowOrder(_) => 1,
        }
    }

    // The want of this number, from 0.
    pub(crate) fn group_want(&self, number: usize) -> Option<GroupWant>
        ensures { result ≡ slice_get (group_wants_of self.now) number }
    {
        let group = match self {
            Work::ShowCustomer(asked) => {
                let DistrictKey { w_id, d_id } = asked.home;
                Group::Customers { w_id, d_id }
            }
            Work::ShowOrder(CustomerKey { w_id, d_id, .. }) => Group::Orders {
                w_id: *w_id,
                d_id: *d_id,
            },
        };
        match number {
            0 => Some(GroupWant::shared(group)),
            _ => None,
        }
    }

    // Does the work in the slice of its warehouse, under the claims that were granted for it. Changes nothing.
    pub(crate) fn run<J: GroupNames>(
        self,
        alloc: Global,
        slice: &mut Slice<J>,
        claims: &mut [Claim<J>],
    ) -> Result<Found, NoMemory>
        requires can { CanDo (shared_of slice.old.tables) self }
        requires home { home_of self ≡ slice.old.home }
        requires granted { AreGrantedFor (group_wants_of self) claims.old }
        ensures kept { SliceKeeps claims.old slice.old claims.new slice.new }
        ensures done { IfOk result (λ found.
            HasDone (shared_of slice.old.tables) self found claims.new) }
        ensures left { AreLeft claims.old claims.new }
        ensures err { OnErr result ((slice.new ≡ slice.old) × (claims.new ≡ claims.old)) }
    {
        match self {
            Work::ShowCustomer(asked) => {
                Ok(Found::Customer(show_customer(slice, &mut claims[0], &asked)))
            }
            Work::ShowOrder(key) => {
                Ok(Found::Order(show_order(alloc, slice, &mut claims[0], key)?))
            }
        }
    }
}

/// Shows the customer of an Order-Status, who is chosen by number or by last name. Never allocates, and changes nothing.
pub fn show_customer<J: GroupNames>(
    slice: &mut Slice<J>,
    customers: &mut Claim<J>,
    asked: &OrderStatus,
) -> CustomerShown
    requires claim { IsSharedOn (group_of_customers asked.now.home) customers.old }
    requires home { asked.now.home.w_id ≡ slice.old.home }
    ensures shown { IsCustomerShown asked.now result customers.new }
    ensures same { (slice.new ≡ slice.old) × (customers.new ≡ customers.old) }
{
    customers.look_untouched();
    slice.look(customers);
    match chosen(
        slice.partition(),
        slice.names(),
        asked.home,
        &asked.customer,
    ) {
        None => CustomerShown::Missing,
        Some((key, row)) => CustomerShown::Shown {
            key,
            customer: StatusCustomer {
                first: row.first.copy(),
                middle: row.middle.copy(),
                last: row.last.copy(),
                balance: row.balance,
            },
        },
    }
}

/// Shows the customer's last order with its lines; `None` exactly if there is none. Changes nothing, and allocates only for the
/// lines.
pub fn show_order<J: GroupNames>(
    alloc: Global,
    slice: &mut Slice<J>,
    orders: &mut Claim<J>,
    key: CustomerKey,
) -> Result<Option<StatusOrder>, NoMemory>
    requires claim { IsSharedOn (group.Orders key.w_id key.d_id) orders.old }
    requires home { key.w_id ≡ slice.old.home }
    ensures shown { IfOk result (λ order. IsOrderShown key order orders.new) }
    ensures same { (slice.new ≡ slice.old) × (orders.new ≡ orders.old) }
{
    orders.look_untouched();
    slice.look(orders);
    latest_shown(alloc, slice.partition(), slice.latest(), key)
}

impl Progress {
    // The works of the phase's actions, by place. Returns NoMemory if an allocation fails; nothing is left then.
    pub(crate) fn works(&self, alloc: Global) -> Result<Vec<crate::Work>, NoMemory>
        ensures { IfOk result (λ works. works.items ≡ works_of self.now) }
    {
        let work = match self {
            Progress::ReadCustomer(asked) => Work::ShowCustomer(asked.clone()?),
            Progress::ReadOrder(shown) => Work::ShowOrder(shown.key),
        };
        let mut works = Vec::with_capacity(alloc, 1)?;
        works.push(crate::Work::OrderStatus(work))?;
        Ok(works)
    }

    // The step after the phase, from what its actions found, by place. Never allocates.
    pub(crate) fn gather(
        self,
        _alloc: Global,
        found: Vec<crate::Found>,
    ) -> Result<Gathered, NoMemory>
        requires { HasFound (any.OrderStatus self) found.items }
        ensures { IfOk result (λ gathered.
            FollowsFrom (any.OrderStatus self) found.items gathered) }
    {
        match self {
            Progress::ReadCustomer(asked) => Ok(gather_customer(asked, found)),
            Progress::ReadOrder(shown) => Ok(gather_order(shown, found)),
        }
    }
}

// The step after the first phase: the customer's order is to be read, or a rollback if the customer is missing.
fn gather_customer(asked: OrderStatus, found: Vec<crate::Found>) -> Gathered
    requires { HasFound (any.OrderStatus (Progress.ReadCustomer asked)) found.items }
    ensures { FollowsFrom (any.OrderStatus (Progress.ReadCustomer asked)) found.items result }
{
    drop(asked);
    match customer_found(found) {
        CustomerShown::Missing => Gathered::Finish(Reply::RolledBack(Fault::NoCustomer)),
        CustomerShown::Shown { key, customer } => Gathered::Next(crate::Progress::OrderStatus(
            Progress::ReadOrder(StatusShown { key, customer }),
        )),
    }
}

// The step after the second phase: the Order-Status is carried out.
fn gather_order(shown: StatusShown, found: Vec<crate::Found>) -> Gathered
    requires { HasFound (any.OrderStatus (Progress.ReadOrder shown)) found.items }
    ensures { FollowsFrom (any.OrderStatus (Progress.ReadOrder shown)) found.items result }
{
    let order = order_found(found);
    let said = reply_of(shown, order);
    Gathered::Finish(Reply::Done(Shown::OrderStatus(said)))
}

// The reply for this customer with this last order.
fn reply_of(shown: StatusShown, order: Option<StatusOrder>) -> OrderStatusReply
    ensures { result ≡ reply_shown shown.key shown.customer order }
{
    OrderStatusReply {
        c_id: shown.key.c_id,
        first: shown.customer.first,
        middle: shown.customer.middle,
        last: shown.customer.last,
        balance: shown.customer.balance,
        order,
    }
}

// What the first phase found.
fn customer_found(mut found: Vec<crate::Found>) -> CustomerShown
    requires { IsCustomerFound found.items }
    ensures { found.items ≡ any_found.OrderStatus (Found.Customer result) ∷ [] }
{
    let Some(customer) = found.pop() else {
        unreachable!()
    };
    match customer {
        crate::Found::OrderStatus(customer) => customer_of_found(customer),
        _ => unreachable!(),
    }
}

fn customer_of_found(found: Found) -> CustomerShown
    requires { (customer : AnyCustomerShown) × (found ≡ Found.Customer customer) }
    ensures { found ≡ Found.Customer result }
{
    match found {
        Found::Customer(customer) => customer,
        Found::Order(_) => unreachable!(),
    }
}

// What the second phase found.
fn order_found(mut found: Vec<crate::Found>) -> Option<StatusOrder>
    requires { IsOrderFound found.items }
    ensures { found.items ≡ any_found.OrderStatus (Found.Order result) ∷ [] }
{
    let Some(order) = found.pop() else {
        unreachable!()
    };
    match order {
        crate::Found::OrderStatus(Found::Order(order)) => order,
        _ => unreachable!(),
    }
}

/// Law: if each action did its work, the Order-Status is carried out as the machine does it: the reply is the machine's, and
/// nothing changes.
pub fn order_statuses_are_carried_out()
    ensures { OrderStatusesAreCarriedOut }
{}

/// Law: if the customer is missing, the machine rolls the Order-Status back, with that fault.
pub fn rolled_back_order_statuses_are_carried_out()
    ensures { RolledBackOrderStatusesAreCarriedOut }
{}

/// Law: the customer that is shown belongs to the district of the request, so the order is looked for there.
pub fn shown_customers_are_at_home()
    ensures { ShownCustomersAreAtHome }
{}

/// Law: the scale has the home district of an accepted Order-Status.
pub fn accepted_statuses_have_their_district()
    ensures { AcceptedStatusesHaveTheirDistrict }
{}
