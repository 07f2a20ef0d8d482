//! A payment (clause 2.5): its actions and what they find, its phases, and its law. It changes its home rows and its customer's
//! row at the same time, and then adds its row to the list of payments (clause 2.5.2.2).
ghost use Rattle.std.specs.Prelude.{◌≡◌, [], ◌∷◌, length, slice_get, IsTrue, IfOk, OnOk, OnErr};
ghost use Rattle.std.specs.FinMap as map;
ghost use Rattle.schema.specs.Scale.{has_customer, has_district};
ghost use Rattle.partitions.specs.Parts.{shared_of};
ghost use Rattle.requests.specs.declared.group.Group.TheVariants as group;
ghost use Rattle.groups.specs.Content.{content};
ghost use Rattle.groups.specs.Groups.{group_of_district, group_of_history};
ghost use Rattle.groups.specs.Laws.{with_district, with_warehouse};
ghost use Rattle.tickets.specs.Claims.{leaving};
ghost use Rattle.slices.specs.SliceView.{SliceKeeps};
ghost use Rattle.transactions.specs.declared.payment.HomePaid.{HomePaid as AnyHomePaid};
ghost use Rattle.transactions.specs.declared.payment.CustomerPaid.{CustomerPaid as AnyCustomerPaid};
ghost use Rattle.transactions.specs.declared.work.Found.TheVariants as any_found;
ghost use Rattle.transactions.specs.declared.progress.Progress.TheVariants as any;
ghost use Rattle.transactions.specs.Granted.{AreGrantedFor, AreLeft, IsExclusiveOn, IsFresh, group_of_customers};
ghost use Rattle.transactions.specs.Payment.{AreRowsFound, CanDo, HasDone, IsCustomerPaid, IsHomePaid, IsPayerKnown, IsPaymentAdded, gathered, home_of, group_wants_of, works_of};
ghost use Rattle.transactions.specs.PaymentLaws.{AcceptedPaymentsHaveTheirDistrict, GatheredPayersAreKnown, PaymentsAreCarriedOut, RolledBackPaymentsAreCarriedOut};
ghost use Rattle.transactions.specs.Progresses.{FollowsFrom, HasFound};

use crate::progress::Gathered;
use amounts::Cents;
use groups::GroupWant;
use machine::{chosen, customer_paid, district_paid, history_row, payment_reply, warehouse_paid};
use requests::{Fault, Group, Payment, PaymentReply, Reply, Shown};
use schema::{CustomerKey, District, DistrictKey, History, NoMemory, Text, Warehouse};
use slices::Slice;
use std::alloc::Global;
use tickets::{Claim, GroupNames};

/// The work of an action of a payment.
#[derive(Drop)]
pub enum Work {
    /// W_YTD and D_YTD of its home grow.
    PayHome(Payment),
    /// Its customer pays.
    PayCustomer(Payment),
    /// Adds its row to its home district's list.
    AddPayment(Payment, History),
}

/// What an action of a payment found.
#[derive(Drop)]
pub enum Found {
    Home(HomePaid),
    Customer(CustomerPaid),
    /// The payment was added.
    Added,
}

/// What a payment finds of its home warehouse and district.
#[derive(Clone, Debug, PartialEq, Eq, Drop)]
pub enum HomePaid {
    /// There is no row of one of the two.
    Missing,
    /// Both rows are there, and a sum would leave its range.
    OutOfRange,
    /// Both are paid: W_NAME and D_NAME, which the payment's row of HISTORY shows.
    Paid {
        warehouse: Text<10>,
        district: Text<10>,
    },
}

/// What a payment finds of its customer.
#[derive(Clone, Debug, PartialEq, Eq, Drop)]
pub enum CustomerPaid {
    /// The district has no such customer.
    Missing,
    /// The customer is there, and a sum would leave its range.
    OutOfRange,
    /// The customer's row is changed, and the reply shows this of it.
    Paid(PaymentReply),
}

/// How far a payment has come: its phase, with the phase's input.
#[derive(Drop)]
pub enum Progress {
    /// Pays its home rows at place 0, and its customer's row at place 1.
    PayRows(Payment),
    /// Adds its row to the list of payments, at place 2.
    AddRow(Paid),
}

/// A payment whose home rows and customer's row have been paid.
#[derive(Drop)]
pub struct Paid {
    pub payment: Payment,
    /// The row of HISTORY that is to be added.
    pub row: History,
    /// Its reply.
    pub reply: PaymentReply,
}

impl Work {
    // The W_ID of the warehouse at which the work is done.
    pub(crate) fn home(&self) -> u32
        ensures { result ≡ home_of self.now }
    {
        match self {
            Work::PayHome(payment) | Work::AddPayment(payment, _) => payment.home.w_id,
            Work::PayCustomer(payment) => payment.customer_home.w_id,
        }
    }

    // The number of groups that the work wants.
    pub(crate) fn group_want_count(&self) -> usize
        ensures { result ≡ length (group_wants_of self.now) }
    {
        match self {
            Work::PayHome(_) => 2,
            Work::PayCustomer(_) => 1,
            Work::AddPayment(_, _) => 1,
        }
    }

    // The want of this number, from 0.
    pub(crate) fn group_want(&self, number: usize) -> Option<GroupWant>
        ensures { result ≡ slice_get (group_wants_of self.now) number }
    {
        match self {
            Work::PayHome(payment) => {
                let DistrictKey { w_id, d_id } = payment.home;
                match number {
                    0 => Some(GroupWant::exclusively(Group::Warehouse { w_id })),
                    1 => Some(GroupWant::exclusively(Group::District { w_id, d_id })),
                    _ => None,
                }
            }
            Work::PayCustomer(payment) => {
                let DistrictKey { w_id, d_id } = payment.customer_home;
                match number {
                    0 => Some(GroupWant::exclusively(Group::Customers { w_id, d_id })),
                    _ => None,
                }
            }
            Work::AddPayment(payment, _) => {
                let DistrictKey { w_id, d_id } = payment.home;
                match number {
                    0 => Some(GroupWant::exclusively(Group::History { w_id, d_id })),
                    _ => None,
                }
            }
        }
    }

    // Does the work in the slice of its warehouse, under the claims that were granted for it. Returns NoMemory if an allocation
    // fails; nothing has changed then.
    pub(crate) fn run<J: GroupNames>(
        self,
        alloc: Global,
        slice: &mut Slice<J>,
        claims: &mut [Claim<J>],
    ) -> Result<Found, NoMemory>
        requires can { CanDo (shared_of slice.old.tables) self }
        requires home { home_of self ≡ slice.old.home }
        requires granted { AreGrantedFor (group_wants_of self) claims.old }
        ensures kept { SliceKeeps claims.old slice.old claims.new slice.new }
        ensures done { IfOk result (λ found.
            HasDone (shared_of slice.old.tables) self found claims.new) }
        ensures left { AreLeft claims.old claims.new }
        ensures err { OnErr result ((slice.new ≡ slice.old) × (claims.new ≡ claims.old)) }
    {
        match self {
            Work::PayHome(payment) => {
                let (first, rest) = claims.split_at_mut(1);
                Ok(Found::Home(pay_home(slice, &mut first[0], &mut rest[0], &payment)?))
            }
            Work::PayCustomer(payment) => Ok(Found::Customer(pay_customer(
                alloc,
                slice,
                &mut claims[0],
                &payment,
            )?)),
            Work::AddPayment(payment, row) => {
                add_payment(slice, &mut claims[0], &payment, row)?;
                Ok(Found::Added)
            }
        }
    }
}

/// Adds a payment's amount to its home warehouse and district. Returns NoMemory if an allocation fails; nothing has changed then.
pub fn pay_home<J: GroupNames>(
    slice: &mut Slice<J>,
    warehouse: &mut Claim<J>,
    district: &mut Claim<J>,
    payment: &Payment,
) -> Result<HomePaid, NoMemory>
    requires warehouse_claim { IsExclusiveOn (group.Warehouse payment.now.home.w_id) warehouse.old }
    requires district_claim { IsExclusiveOn (group_of_district payment.now.home) district.old }
    requires warehouse_fresh { IsFresh warehouse.old }
    requires district_fresh { IsFresh district.old }
    requires home { payment.now.home.w_id ≡ slice.old.home }
    ensures kept { SliceKeeps (warehouse.old ∷ district.old ∷ []) slice.old
        (warehouse.new ∷ district.new ∷ []) slice.new }
    ensures paid { IfOk result (λ found. IsHomePaid payment.now found warehouse.new district.new) }
    ensures warehouse { warehouse.new ≡ leaving warehouse.old warehouse.new.left }
    ensures district { district.new ≡ leaving district.old district.new.left }
    ensures err { OnErr result ((slice.new ≡ slice.old)
        × (warehouse.new ≡ warehouse.old) × (district.new ≡ district.old)) }
{
    slice.look(warehouse);
    slice.look(district);
    let amount = Cents::new(i64::from(payment.amount));
    let Some(warehouse_row) = slice.partition().warehouse(payment.home.w_id) else {
        return Ok(HomePaid::Missing);
    };
    let Some(district_row) = slice.partition().district(payment.home) else {
        return Ok(HomePaid::Missing);
    };
    let found = HomePaid::Paid {
        warehouse: warehouse_row.name.copy(),
        district: district_row.name.copy(),
    };
    let Some(new_warehouse) = warehouse_paid(warehouse_row, amount) else {
        return Ok(HomePaid::OutOfRange);
    };
    let Some(new_district) = district_paid(district_row, amount) else {
        return Ok(HomePaid::OutOfRange);
    };
    put_home(
        slice,
        warehouse,
        district,
        payment,
        new_warehouse,
        new_district,
    )?;
    Ok(found)
}

// Puts both rows, or changes nothing.
fn put_home<J: GroupNames>(
    slice: &mut Slice<J>,
    warehouse: &mut Claim<J>,
    district: &mut Claim<J>,
    payment: &Payment,
    warehouse_row: Warehouse,
    district_row: District,
) -> Result<(), NoMemory>
    requires warehouse_claim { IsExclusiveOn (group.Warehouse payment.now.home.w_id) warehouse.old }
    requires district_claim { IsExclusiveOn (group_of_district payment.now.home) district.old }
    requires warehouse_fresh { IsFresh warehouse.old }
    requires warehouse_left { warehouse.old.left ≡ content slice.old.tables warehouse.old.group }
    requires home { payment.now.home.w_id ≡ slice.old.home }
    requires warehouse_there { IsTrue
        (map.contains_key slice.old.tables.warehouses payment.now.home.w_id) }
    requires district_there { IsTrue
        (map.contains_key slice.old.tables.districts payment.now.home) }
    ensures kept { SliceKeeps (warehouse.old ∷ district.old ∷ []) slice.old
        (warehouse.new ∷ district.new ∷ []) slice.new }
    ensures warehouse { OnOk result (warehouse.new
        ≡ leaving warehouse.old (with_warehouse warehouse_row warehouse.old.left)) }
    ensures district { OnOk result (district.new
        ≡ leaving district.old (with_district district_row district.old.left)) }
    ensures err { OnErr result ((slice.new ≡ slice.old)
        × (warehouse.new ≡ warehouse.old) × (district.new ≡ district.old)) }
{
    slice.put_warehouse(warehouse, payment.home.w_id, warehouse_row)?;
    match slice.put_district(district, payment.home, district_row) {
        Ok(()) => Ok(()),
        Err(fault) => {
            slice.undo(warehouse);
            Err(fault)
        }
    }
}

/// Takes a payment's amount from the balance of its customer, who is chosen by number or by last name. Returns NoMemory if an
/// allocation fails; nothing has changed then.
pub fn pay_customer<J: GroupNames>(
    alloc: Global,
    slice: &mut Slice<J>,
    customers: &mut Claim<J>,
    payment: &Payment,
) -> Result<CustomerPaid, NoMemory>
    requires claim { IsExclusiveOn (group_of_customers payment.now.customer_home) customers.old }
    requires fresh { IsFresh customers.old }
    requires home { payment.now.customer_home.w_id ≡ slice.old.home }
    ensures kept { SliceKeeps (customers.old ∷ []) slice.old (customers.new ∷ []) slice.new }
    ensures paid { IfOk result (λ found. IsCustomerPaid payment.now found customers.new) }
    ensures payer { IfOk result (IsPayerKnown slice.old.tables.scale payment.now) }
    ensures customers { customers.new ≡ leaving customers.old customers.new.left }
    ensures err { OnErr result ((slice.new ≡ slice.old) × (customers.new ≡ customers.old)) }
{
    slice.look(customers);
    let home = payment.customer_home;
    let Some((key, row)) = chosen(slice.partition(), slice.names(), home, &payment.customer) else {
        return Ok(CustomerPaid::Missing);
    };
    let Some(row) = customer_paid(row, key, payment.home, payment.amount) else {
        return Ok(CustomerPaid::OutOfRange);
    };
    let reply = payment_reply(alloc, key, &row)?;
    slice.put_customer(customers, key, row)?;
    Ok(CustomerPaid::Paid(reply))
}

/// Adds a payment's row to its home district's list of payments. The payer may be of another warehouse. Returns NoMemory if an
/// allocation fails; nothing has changed then.
pub fn add_payment<J: GroupNames>(
    slice: &mut Slice<J>,
    history: &mut Claim<J>,
    payment: &Payment,
    row: History,
) -> Result<(), NoMemory>
    requires claim { IsExclusiveOn (group_of_history payment.now.home) history.old }
    requires fresh { IsFresh history.old }
    requires home { payment.now.home.w_id ≡ slice.old.home }
    requires district { IsTrue (has_district slice.old.tables.scale payment.now.home) }
    requires payer { IsTrue (has_customer slice.old.tables.scale row.customer) }
    ensures kept { SliceKeeps (history.old ∷ []) slice.old (history.new ∷ []) slice.new }
    ensures added { OnOk result (IsPaymentAdded payment.now row history.new) }
    ensures history { history.new ≡ leaving history.old history.new.left }
    ensures err { OnErr result ((slice.new ≡ slice.old) × (history.new ≡ history.old)) }
{
    slice.look(history);
    // (its invariant: the warehouse has each of its districts)
    let _ = slice.partition();
    slice.add_payment(history, payment.home, row)
}

impl Progress {
    // The works of the phase's actions, by place. Returns NoMemory if an allocation fails; nothing is left then.
    pub(crate) fn works(&self, alloc: Global) -> Result<Vec<crate::Work>, NoMemory>
        ensures { IfOk result (λ works. works.items ≡ works_of self.now) }
    {
        match self {
            Progress::PayRows(payment) => {
                let mut works = Vec::with_capacity(alloc, 2)?;
                works.push(crate::Work::Payment(Work::PayHome(payment.clone()?)))?;
                works.push(crate::Work::Payment(Work::PayCustomer(payment.clone()?)))?;
                Ok(works)
            }
            Progress::AddRow(paid) => {
                let mut works = Vec::with_capacity(alloc, 1)?;
                works.push(crate::Work::Payment(Work::AddPayment(
                    paid.payment.clone()?,
                    paid.row.clone()?,
                )))?;
                Ok(works)
            }
        }
    }

    // The step after the phase, from what its actions found, by place. Never allocates.
    pub(crate) fn gather(
        self,
        _alloc: Global,
        found: Vec<crate::Found>,
    ) -> Result<Gathered, NoMemory>
        requires { HasFound (any.Payment self) found.items }
        ensures { IfOk result (λ gathered. FollowsFrom (any.Payment self) found.items gathered) }
    {
        match self {
            Progress::PayRows(payment) => Ok(gather_rows(payment, found)),
            Progress::AddRow(paid) => Ok(gather_added(paid, found)),
        }
    }
}

// The step after the first phase: the row to be added and the reply, or a rollback.
fn gather_rows(payment: Payment, found: Vec<crate::Found>) -> Gathered
    requires { HasFound (any.Payment (Progress.PayRows payment)) found.items }
    ensures { FollowsFrom (any.Payment (Progress.PayRows payment)) found.items result }
{
    let (home, customer) = rows_found(found);
    decided(payment, home, customer)
}

// The step of a payment that found this. A missing row comes before a sum out of its range.
fn decided(payment: Payment, home: HomePaid, customer: CustomerPaid) -> Gathered
    ensures { result ≡ gathered payment home customer }
{
    match (home, customer) {
        (
            HomePaid::Paid {
                warehouse,
                district,
            },
            CustomerPaid::Paid(reply),
        ) => {
            let key = CustomerKey {
                w_id: payment.customer_home.w_id,
                d_id: payment.customer_home.d_id,
                c_id: reply.c_id,
            };
            let row = history_row(&payment, key, &warehouse, &district);
            Gathered::Next(crate::Progress::Payment(Progress::AddRow(Paid {
                payment,
                row,
                reply,
            })))
        }
        (HomePaid::Missing, _) | (_, CustomerPaid::Missing) => {
            Gathered::Finish(Reply::RolledBack(Fault::NoCustomer))
        }
        (_, _) => Gathered::Finish(Reply::RolledBack(Fault::Range)),
    }
}

// The step after the second phase: the payment is carried out.
fn gather_added(paid: Paid, found: Vec<crate::Found>) -> Gathered
    ensures { FollowsFrom (any.Payment (Progress.AddRow paid)) found.items result }
{
    drop(found);
    Gathered::Finish(Reply::Done(Shown::Payment(paid.reply)))
}

// What places 0 and 1 found.
fn rows_found(mut found: Vec<crate::Found>) -> (HomePaid, CustomerPaid)
    requires { AreRowsFound found.items }
    ensures { found.items ≡ any_found.Payment (Found.Home result.0)
        ∷ any_found.Payment (Found.Customer result.1) ∷ [] }
{
    let Some(customer) = found.pop() else {
        unreachable!()
    };
    let Some(home) = found.pop() else {
        unreachable!()
    };
    (home_of_found(home), customer_of_found(customer))
}

fn home_of_found(found: crate::Found) -> HomePaid
    requires { (home : AnyHomePaid) × (found ≡ any_found.Payment (Found.Home home)) }
    ensures { found ≡ any_found.Payment (Found.Home result) }
{
    match found {
        crate::Found::Payment(found) => home_of_payment(found),
        _ => unreachable!(),
    }
}

fn home_of_payment(found: Found) -> HomePaid
    requires { (home : AnyHomePaid) × (found ≡ Found.Home home) }
    ensures { found ≡ Found.Home result }
{
    match found {
        Found::Home(home) => home,
        _ => unreachable!(),
    }
}

fn customer_of_found(found: crate::Found) -> CustomerPaid
    requires { (customer : AnyCustomerPaid)
        × (found ≡ any_found.Payment (Found.Customer customer)) }
    ensures { found ≡ any_found.Payment (Found.Customer result) }
{
    match found {
        crate::Found::Payment(found) => customer_of_payment(found),
        _ => unreachable!(),
    }
}

fn customer_of_payment(found: Found) -> CustomerPaid
    requires { (customer : AnyCustomerPaid) × (found ≡ Found.Customer customer) }
    ensures { found ≡ Found.Customer result }
{
    match found {
        Found::Customer(customer) => customer,
        _ => unreachable!(),
    }
}

/// Law: if each action did its work, the payment is carried out as the machine does it: the reply is the machine's, and the
/// claims leave what the machine leaves.
pub fn payments_are_carried_out()
    ensures { PaymentsAreCarriedOut }
{}

/// Law: if what was found requires it, the machine rolls the payment back, with the same fault.
pub fn rolled_back_payments_are_carried_out()
    ensures { RolledBackPaymentsAreCarriedOut }
{}

/// Law: the customer of the row that is added to the list of payments is one of the scale, since the customer was paid.
pub fn gathered_payers_are_known()
    ensures { GatheredPayersAreKnown }
{}

/// Law: the scale has the home district of an accepted payment.
pub fn accepted_payments_have_their_district()
    ensures { AcceptedPaymentsHaveTheirDistrict }
{}
