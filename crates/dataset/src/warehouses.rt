ghost use Rattle.std.specs.Prelude.{OnOk};
ghost use Rattle.schema.specs.Scale.{warehouse_ids};
ghost use Rattle.dataset.specs.Records.{address_fields, warehouse_fields};
ghost use Rattle.dataset.specs.Columns.{Warehouses, address_columns};
ghost use Rattle.dataset.specs.TableRow.{address_of};
ghost use Rattle.dataset.specs.TakenAs.{TakesRow};
ghost use Rattle.files.specs.Columns.{Reads};
ghost use Rattle.dataset.specs.Writing.{Adds};

use crate::loader::Loader;
use crate::place::Place;
use crate::recorded::{Dense, Recorded};
use files::{Fields, NewRecord};
use rows::{Address, Warehouse};
use schema::{NoMemory, Scale};

/// Takes the fields of a record of WAREHOUSE after its letter. If the record has no fault, adds its
/// row. Returns `NoMemory` if an allocation fails.
pub fn take(loader: &mut Loader, fields: &mut Fields) -> Result<(), NoMemory>
    ensures { OnOk result (TakesRow Warehouses loader.old loader.new fields.old fields.new) }
{
    let w_id = fields.whole(1, loader.scale.warehouses);
    let row = Warehouse {
        name: fields.text(),
        address: address(fields),
        tax: fields.rate(),
        ytd: fields.cents(),
    };
    if loader.stand_at(Place::Warehouse(w_id), fields) {
        loader.rows.warehouses.push(row)?;
    }
    Ok(())
}

/// Takes the five fields of an address.
pub fn address(fields: &mut Fields) -> Address
    ensures { Reads address_columns address_of result fields.old fields.new }
{
    Address {
        street_1: fields.text(),
        street_2: fields.text(),
        city: fields.text(),
        state: fields.text(),
        zip: fields.text(),
    }
}

impl Recorded<u32> for Warehouse {
    ghost fields = { warehouse_fields };

    fn put(&self, w_id: u32, out: &mut NewRecord) -> Result<(), NoMemory> {
        out.push("W")?;
        out.push_number(u64::from(w_id))?;
        out.push(self.name.as_str())?;
        put_address(out, &self.address)?;
        out.push_number(u64::from(self.tax.get()))?;
        out.push_signed(self.ytd.get())
    }
}

impl Dense<u32> for Warehouse {
    ghost keys = { warehouse_ids };

    fn key_at(_scale: Scale, place: usize) -> u32 {
        place as u32 + 1
    }
}

/// Appends the five fields of an address.
pub fn put_address(out: &mut NewRecord, address: &Address) -> Result<(), NoMemory>
    ensures { OnOk result (Adds (address_fields address.now) out.old out.new) }
{
    out.push(address.street_1.as_str())?;
    out.push(address.street_2.as_str())?;
    out.push(address.city.as_str())?;
    out.push(address.state.as_str())?;
    out.push(address.zip.as_str())
}
