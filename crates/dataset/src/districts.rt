ghost use Rattle.std.specs.Prelude.{IsTrue, OnOk};
ghost use Rattle.schema.specs.Scale.{has_district, district_keys};
ghost use Rattle.dataset.specs.Records.{district_key_fields, district_fields};
ghost use Rattle.dataset.specs.Columns.{Districts, district_key};
ghost use Rattle.dataset.specs.TableRow.{district_key_of};
ghost use Rattle.dataset.specs.TakenAs.{TakesRow};
ghost use Rattle.files.specs.Columns.{Reads};
ghost use Rattle.dataset.specs.Writing.{Adds};

use crate::loader::Loader;
use crate::place::Place;
use crate::recorded::{Dense, Recorded};
use crate::warehouses::{address, put_address};
use files::{Fields, NewRecord};
use rows::{District, DistrictKey};
use schema::{NoMemory, Scale};

/// Takes the fields of a record of DISTRICT after its letter. If the record has no fault, adds its row.
/// Returns `NoMemory` if an allocation fails.
pub fn take(loader: &mut Loader, fields: &mut Fields) -> Result<(), NoMemory>
    ensures { OnOk result (TakesRow Districts loader.old loader.new fields.old fields.new) }
{
    let key = key(fields, loader.scale);
    let row = District {
        name: fields.text(),
        address: address(fields),
        tax: fields.rate(),
        ytd: fields.cents(),
        next_o_id: fields.ranged(),
    };
    if loader.stand_at(Place::District(key), fields) {
        loader.rows.districts.push(row)?;
    }
    Ok(())
}

/// Takes the two fields of a district's key.
pub fn key(fields: &mut Fields, scale: Scale) -> DistrictKey
    ensures known { IsTrue (has_district scale result) }
    ensures reads { Reads (district_key scale.warehouses) (district_key_of scale.warehouses)
        result fields.old fields.new }
{
    DistrictKey {
        w_id: fields.whole(1, scale.warehouses),
        d_id: fields.whole(1, 10),
    }
}

/// Appends the two fields of a district's key.
pub fn put_key(out: &mut NewRecord, key: DistrictKey) -> Result<(), NoMemory>
    ensures { OnOk result (Adds (district_key_fields key) out.old out.new) }
{
    out.push_number(u64::from(key.w_id))?;
    out.push_number(u64::from(key.d_id))
}

impl Recorded<DistrictKey> for District {
    ghost fields = { district_fields };

    fn put(&self, key: DistrictKey, out: &mut NewRecord) -> Result<(), NoMemory> {
        out.push("D")?;
        put_key(out, key)?;
        out.push(self.name.as_str())?;
        put_address(out, &self.address)?;
        out.push_number(u64::from(self.tax.get()))?;
        out.push_signed(self.ytd.get())?;
        out.push_number(u64::from(self.next_o_id.get()))
    }
}

impl Dense<DistrictKey> for District {
    ghost keys = { district_keys };

    fn key_at(_scale: Scale, place: usize) -> DistrictKey {
        DistrictKey {
            w_id: (place / 10) as u32 + 1,
            d_id: (place % 10) as u32 + 1,
        }
    }
}
