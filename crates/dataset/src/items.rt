ghost use Rattle.std.specs.Prelude.{OnOk};
ghost use Rattle.schema.specs.Scale.{item_ids};
ghost use Rattle.dataset.specs.Records.{item_fields};
ghost use Rattle.dataset.specs.Columns.{Items};
ghost use Rattle.dataset.specs.TakenAs.{TakesRow};

use crate::loader::Loader;
use crate::place::Place;
use crate::recorded::{Dense, Recorded};
use files::{Fields, NewRecord};
use rows::Item;
use schema::{NoMemory, Scale};

/// Takes the fields of a record of ITEM after its letter. If the record has no fault, adds its row.
/// Returns `NoMemory` if an allocation fails.
pub fn take(loader: &mut Loader, fields: &mut Fields) -> Result<(), NoMemory>
    ensures { OnOk result (TakesRow Items loader.old loader.new fields.old fields.new) }
{
    let i_id = fields.whole(1, loader.scale.items);
    let row = Item {
        im_id: fields.ranged(),
        name: fields.text(),
        price: fields.ranged(),
        data: fields.text(),
    };
    if loader.stand_at(Place::Item(i_id), fields) {
        loader.rows.items.push(row)?;
    }
    Ok(())
}

impl Recorded<u32> for Item {
    ghost fields = { item_fields };

    fn put(&self, i_id: u32, out: &mut NewRecord) -> Result<(), NoMemory> {
        out.push("I")?;
        out.push_number(u64::from(i_id))?;
        out.push_number(u64::from(self.im_id.get()))?;
        out.push(self.name.as_str())?;
        out.push_number(u64::from(self.price.get()))?;
        out.push(self.data.as_str())
    }
}

impl Dense<u32> for Item {
    ghost keys = { item_ids };

    fn key_at(_scale: Scale, place: usize) -> u32 {
        place as u32 + 1
    }
}
