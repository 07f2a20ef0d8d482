ghost use Rattle.std.specs.Prelude.{map, OnOk};
ghost use Rattle.schema.specs.Scale.{stock_keys};
ghost use Rattle.dataset.specs.Records.{Words, stock_fields};
ghost use Rattle.dataset.specs.Columns.{Stocks, info_columns};
ghost use Rattle.dataset.specs.TableRow.{infos_of};
ghost use Rattle.dataset.specs.TakenAs.{TakesRow};
ghost use Rattle.files.specs.Columns.{Reads};
ghost use Rattle.dataset.specs.Writing.{Adds};

use crate::loader::Loader;
use crate::place::Place;
use crate::recorded::{Dense, Recorded};
use files::{Fields, NewRecord};
use rows::{Stock, StockKey, Text};
use schema::{NoMemory, Scale};

/// Takes the fields of a record of STOCK after its letter. If the record has no fault, adds its row.
/// Returns `NoMemory` if an allocation fails.
pub fn take(loader: &mut Loader, fields: &mut Fields) -> Result<(), NoMemory>
    ensures { OnOk result (TakesRow Stocks loader.old loader.new fields.old fields.new) }
{
    let key = StockKey {
        w_id: fields.whole(1, loader.scale.warehouses),
        i_id: fields.whole(1, loader.scale.items),
    };
    let row = Stock {
        quantity: fields.ranged(),
        dist: district_infos(fields),
        ytd: fields.ranged(),
        order_cnt: fields.ranged(),
        remote_cnt: fields.ranged(),
        data: fields.text(),
    };
    if loader.stand_at(Place::Stock(key), fields) {
        loader.rows.stocks.push(row)?;
    }
    Ok(())
}

// Takes S_DIST_01 to S_DIST_10.
fn district_infos(fields: &mut Fields) -> [Text<24>; 10]
    ensures { Reads info_columns infos_of result fields.old fields.new }
{
    [
        fields.text(),
        fields.text(),
        fields.text(),
        fields.text(),
        fields.text(),
        fields.text(),
        fields.text(),
        fields.text(),
        fields.text(),
        fields.text(),
    ]
}

impl Recorded<StockKey> for Stock {
    ghost fields = { stock_fields };

    fn put(&self, key: StockKey, out: &mut NewRecord) -> Result<(), NoMemory> {
        out.push("S")?;
        out.push_number(u64::from(key.w_id))?;
        out.push_number(u64::from(key.i_id))?;
        out.push_number(u64::from(self.quantity.get()))?;
        put_district_infos(out, &self.dist)?;
        out.push_number(u64::from(self.ytd.get()))?;
        out.push_number(u64::from(self.order_cnt.get()))?;
        out.push_number(u64::from(self.remote_cnt.get()))?;
        out.push(self.data.as_str())
    }
}

impl Dense<StockKey> for Stock {
    ghost keys = { stock_keys };

    fn key_at(scale: Scale, place: usize) -> StockKey {
        let items = scale.items as usize;
        StockKey {
            w_id: (place / items) as u32 + 1,
            i_id: (place % items) as u32 + 1,
        }
    }
}

// Appends S_DIST_01 to S_DIST_10.
fn put_district_infos(out: &mut NewRecord, infos: &[Text<24>]) -> Result<(), NoMemory>
    ensures { OnOk result (Adds (map (λ text. Words text) infos.now) out.old out.new) }
{
    for info in infos {
        out.push(info.as_str())?;
    }
    Ok(())
}
