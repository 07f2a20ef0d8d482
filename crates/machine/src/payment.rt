ghost use Rattle.std.specs.Prelude.{◌≡◌, Some, pos, IsTrue, IfOk, OnOk, OnErr};
ghost use Rattle.std.specs.FinMap as map;
ghost use Rattle.rows.specs.PaymentNote.{payment_note};
ghost use Rattle.indexes.specs.NameOrder.{FitsNames};
ghost use Rattle.machine.specs.Payment as spec;

use crate::choosing::chosen;
use amounts::Cents;
use indexes::NameIndex;
use requests::{Fault, Payment, PaymentReply, Reply, Shown, ShownData};
use schema::{
    Credit, Customer, CustomerKey, District, DistrictKey, History, NoMemory, Tables, Text,
    Warehouse, prepend_data,
};
use std::alloc::Global;

/// Returns the warehouse's row after a payment, `None` if W_YTD would leave its range.
pub fn warehouse_paid(row: &Warehouse, amount: Cents) -> Option<Warehouse>
    ensures { result ≡ spec.warehouse_paid row.now amount }
{
    let Some(ytd) = row.ytd.checked_add(amount) else {
        return None;
    };
    let mut row = row.copy();
    row.ytd = ytd;
    Some(row)
}

/// Returns the district's row after a payment, `None` if D_YTD would leave its range.
pub fn district_paid(row: &District, amount: Cents) -> Option<District>
    ensures { result ≡ spec.district_paid row.now amount }
{
    let Some(ytd) = row.ytd.checked_add(amount) else {
        return None;
    };
    let mut row = row.copy();
    row.ytd = ytd;
    Some(row)
}

/// Returns the customer's row after a payment of `amount` cents, `None` if C_BALANCE, C_YTD_PAYMENT or C_PAYMENT_CNT
/// would leave its range.
pub fn customer_paid(
    was: &Customer,
    key: CustomerKey,
    home: DistrictKey,
    amount: u32,
) -> Option<Customer>
    ensures { result ≡ spec.customer_paid was.now (payment_note key home amount) (pos amount) }
{
    let cents = Cents::new(i64::from(amount));
    let Some(balance) = was.balance.checked_sub(cents) else {
        return None;
    };
    let Some(ytd_payment) = was.ytd_payment.checked_add(cents) else {
        return None;
    };
    let Some(payment_cnt) = was.payment_cnt.checked_add(1) else {
        return None;
    };
    let mut row = was.copy();
    row.balance = balance;
    row.ytd_payment = ytd_payment;
    row.payment_cnt = payment_cnt;
    match was.credit {
        Credit::Good => {}
        Credit::Bad => row.data = prepend_data(&was.data, key, home, amount),
    }
    Some(row)
}

/// Returns the row of HISTORY of a payment.
pub fn payment_row(
    payment: &Payment,
    key: CustomerKey,
    warehouse: &Warehouse,
    district: &District,
) -> History
    ensures { result ≡ spec.payment_row payment.now key warehouse.now district.now }
{
    history_row(payment, key, &warehouse.name, &district.name)
}

/// Returns the row of HISTORY of a payment, from the names of its warehouse and district.
pub fn history_row(
    payment: &Payment,
    key: CustomerKey,
    warehouse: &Text<10>,
    district: &Text<10>,
) -> History
    ensures { result ≡ spec.history_row payment.now key warehouse.now district.now }
{
    let mut text = Text::new();
    text.push_fitting(warehouse.as_str());
    text.push_fitting("    ");
    text.push_fitting(district.as_str());
    History {
        customer: key,
        date: payment.moment,
        amount: Cents::new(i64::from(payment.amount)),
        data: text,
    }
}

/// Returns the reply to a payment, from its customer's row after it. Only the shown part of C_DATA, for bad credit, is
/// allocated. Returns NoMemory if that allocation fails.
pub fn payment_reply(
    alloc: Global,
    key: CustomerKey,
    row: &Customer,
) -> Result<PaymentReply, NoMemory>
    ensures reply { IfOk result (λ reply. reply ≡ spec.payment_reply key row.now) }
    ensures err { OnErr result (row.now.credit ≡ Credit.Bad) }
{
    let data = match row.credit {
        Credit::Good => ShownData::empty(),
        Credit::Bad => ShownData::new(alloc, row.data.prefix())?,
    };
    Ok(PaymentReply {
        c_id: key.c_id,
        first: row.first.copy(),
        middle: row.middle.copy(),
        last: row.last.copy(),
        credit: row.credit,
        discount: row.discount,
        balance: row.balance,
        data,
    })
}

/// Carries out a payment: the reply and the tables are those of its definition. Returns NoMemory if an allocation
/// fails; the tables are unchanged then.
pub(crate) fn pay(
    alloc: Global,
    tables: &mut Tables,
    names: &NameIndex,
    payment: &Payment,
) -> Result<Reply, NoMemory>
    requires names { FitsNames names.now tables.old }
    ensures reply { IfOk result (λ reply. reply ≡ (spec.payment tables.old payment.now).reply) }
    ensures tables { OnOk result (tables.new ≡ (spec.payment tables.old payment.now).tables) }
    ensures err { OnErr result (tables.new ≡ tables.old) }
{
    let amount = Cents::new(i64::from(payment.amount));
    let Some(warehouse) = tables.warehouse(payment.home.w_id) else {
        return Ok(Reply::RolledBack(Fault::NoCustomer));
    };
    let Some(district) = tables.district(payment.home) else {
        return Ok(Reply::RolledBack(Fault::NoCustomer));
    };
    let Some((key, customer)) = chosen(tables, names, payment.customer_home, &payment.customer)
    else {
        return Ok(Reply::RolledBack(Fault::NoCustomer));
    };
    let row = payment_row(payment, key, warehouse, district);
    let Some(warehouse) = warehouse_paid(warehouse, amount) else {
        return Ok(Reply::RolledBack(Fault::Range));
    };
    let Some(district) = district_paid(district, amount) else {
        return Ok(Reply::RolledBack(Fault::Range));
    };
    let Some(customer) = customer_paid(customer, key, payment.home, payment.amount) else {
        return Ok(Reply::RolledBack(Fault::Range));
    };
    let reply = payment_reply(alloc, key, &customer)?;
    post(tables, payment, key, row, warehouse, district, customer)?;
    Ok(Reply::Done(Shown::Payment(reply)))
}

// Changes all rows of a payment at once. The step that may run out of memory comes first.
fn post(
    tables: &mut Tables,
    payment: &Payment,
    key: CustomerKey,
    row: History,
    warehouse: Warehouse,
    district: District,
    customer: Customer,
) -> Result<(), NoMemory>
    requires warehouse_is_there { IsTrue
        (map.contains_key tables.old.warehouses payment.now.home.w_id) }
    requires district_is_there { IsTrue (map.contains_key tables.old.districts payment.now.home) }
    requires customer_is_there { IsTrue (map.contains_key tables.old.customers key) }
    requires payer_is_the_customer { row.customer ≡ key }
    ensures ok { OnOk result (tables.new
        ≡ (spec.posted tables.old (spec.posting payment.now key row)
        (Some warehouse) (Some district) (Some customer)).tables) }
    ensures err { OnErr result (tables.new ≡ tables.old) }
{
    tables.push_history(payment.home, row)?;
    tables.replace_warehouse(payment.home.w_id, warehouse);
    tables.replace_district(payment.home, district);
    tables.replace_customer(key, customer);
    Ok(())
}
