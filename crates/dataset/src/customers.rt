ghost use Rattle.std.specs.Prelude.{OnOk};
ghost use Rattle.schema.specs.Scale.{customer_keys};
ghost use Rattle.dataset.specs.Records.{customer_key_fields, customer_fields, account_fields};
ghost use Rattle.dataset.specs.Columns.{Customers, customer_key};
ghost use Rattle.dataset.specs.TableRow.{customer_key_of};
ghost use Rattle.dataset.specs.TakenAs.{TakesRow};
ghost use Rattle.files.specs.Columns.{Reads};
ghost use Rattle.dataset.specs.Writing.{Adds};

use crate::loader::Loader;
use crate::moments::put_moment;
use crate::place::Place;
use crate::recorded::{Dense, Recorded};
use crate::warehouses::{address, put_address};
use files::{Fields, NewRecord, credit_word};
use rows::{Customer, CustomerKey, District};
use schema::{NoMemory, Scale};

/// Takes the fields of a record of CUSTOMER after its letter. If the record has no fault, adds its row.
/// Returns `NoMemory` if an allocation fails.
pub fn take(loader: &mut Loader, fields: &mut Fields) -> Result<(), NoMemory>
    ensures { OnOk result (TakesRow Customers loader.old loader.new fields.old fields.new) }
{
    let key = key(fields, loader.scale);
    let row = Customer {
        first: fields.text(),
        middle: fields.text(),
        last: fields.text(),
        address: address(fields),
        phone: fields.text(),
        since: fields.moment(),
        credit: fields.credit(),
        credit_lim: fields.cents(),
        discount: fields.rate(),
        balance: fields.cents(),
        ytd_payment: fields.cents(),
        payment_cnt: fields.ranged(),
        delivery_cnt: fields.ranged(),
        data: fields.text(),
    };
    if loader.stand_at(Place::Customer(key), fields) {
        loader.rows.customers.push(row)?;
    }
    Ok(())
}

/// Takes the three fields of a customer's key.
pub fn key(fields: &mut Fields, scale: Scale) -> CustomerKey
    ensures { Reads (customer_key scale.warehouses scale.customers)
        (customer_key_of scale.warehouses scale.customers) result fields.old fields.new }
{
    CustomerKey {
        w_id: fields.whole(1, scale.warehouses),
        d_id: fields.whole(1, 10),
        c_id: fields.whole(1, scale.customers),
    }
}

/// Appends the three fields of a customer's key.
pub fn put_key(out: &mut NewRecord, key: CustomerKey) -> Result<(), NoMemory>
    ensures { OnOk result (Adds (customer_key_fields key) out.old out.new) }
{
    out.push_number(u64::from(key.w_id))?;
    out.push_number(u64::from(key.d_id))?;
    out.push_number(u64::from(key.c_id))
}

impl Recorded<CustomerKey> for Customer {
    ghost fields = { customer_fields };

    fn put(&self, key: CustomerKey, out: &mut NewRecord) -> Result<(), NoMemory> {
        out.push("C")?;
        put_key(out, key)?;
        out.push(self.first.as_str())?;
        out.push(self.middle.as_str())?;
        out.push(self.last.as_str())?;
        put_address(out, &self.address)?;
        out.push(self.phone.as_str())?;
        put_moment(out, self.since)?;
        out.push(credit_word(self.credit))?;
        put_account(out, self)
    }
}

impl Dense<CustomerKey> for Customer {
    ghost keys = { customer_keys };

    fn key_at(scale: Scale, place: usize) -> CustomerKey {
        let customers = scale.customers as usize;
        let home = District::key_at(scale, place / customers);
        CustomerKey {
            w_id: home.w_id,
            d_id: home.d_id,
            c_id: (place % customers) as u32 + 1,
        }
    }
}

// Appends the columns C_CREDIT_LIM to C_DATA.
fn put_account(out: &mut NewRecord, row: &Customer) -> Result<(), NoMemory>
    ensures { OnOk result (Adds (account_fields row.now) out.old out.new) }
{
    out.push_signed(row.credit_lim.get())?;
    out.push_number(u64::from(row.discount.get()))?;
    out.push_signed(row.balance.get())?;
    out.push_signed(row.ytd_payment.get())?;
    out.push_number(u64::from(row.payment_cnt.get()))?;
    out.push_number(u64::from(row.delivery_cnt.get()))?;
    out.push(row.data.as_str())
}
