ghost use Rattle.std.specs.Prelude.{OnOk};
ghost use Rattle.dataset.specs.Records.{new_order_fields};
ghost use Rattle.dataset.specs.Columns.{NewOrders};
ghost use Rattle.dataset.specs.TakenAs.{TakesRow};

use crate::loader::Loader;
use crate::orders;
use crate::place::Place;
use crate::recorded::Recorded;
use files::{Fields, NewRecord};
use rows::{NewOrder, OrderKey};
use schema::NoMemory;

/// Takes the fields of a record of NEW-ORDER after its letter, which are only its key. If the record
/// has no fault, adds its row. Returns `NoMemory` if an allocation fails.
pub fn take(loader: &mut Loader, fields: &mut Fields) -> Result<(), NoMemory>
    ensures { OnOk result (TakesRow NewOrders loader.old loader.new fields.old fields.new) }
{
    let key = orders::key(fields, loader.scale);
    if loader.stand_at(Place::NewOrder(key), fields) {
        loader.rows.new_orders.insert(key, NewOrder)?;
    }
    Ok(())
}

impl Recorded<OrderKey> for NewOrder {
    ghost fields = { new_order_fields };

    fn put(&self, key: OrderKey, out: &mut NewRecord) -> Result<(), NoMemory> {
        out.push("N")?;
        orders::put_key(out, key)
    }
}
