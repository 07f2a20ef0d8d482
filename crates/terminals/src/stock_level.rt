//! The fields of a Stock-Level and of its reply.
ghost use Rattle.std.specs.Prelude.{◌≡◌, ◌∷◌, ◌++◌, OnOk, codes};
ghost use Rattle.files.specs.Taken.{Takes};
ghost use Rattle.files.specs.Columns.{TakesColumns};
ghost use Rattle.terminals.specs.ReplyColumns.{stock_level_shown};
ghost use Rattle.terminals.specs.RequestColumns.{stock_level_columns};
ghost use Rattle.terminals.specs.StockLevel.{stock_level_fields, stock_level_reply_fields};

use crate::request::{put_district, take_district};
use files::{Fields, NewRecord};
use requests::{StockLevel, StockLevelReply};
use schema::NoMemory;

/// The number of fields of a Stock-Level, including its letter.
pub const FIELDS: u64 = 4;

/// Takes the fields of a Stock-Level after its letter.
pub fn take(fields: &mut Fields) -> StockLevel
    ensures taken { Takes fields.old fields.new
        (λ said. codes "L" ∷ said ≡ stock_level_fields result) }
    ensures columns { TakesColumns stock_level_columns fields.old fields.new }
{
    StockLevel {
        home: take_district(fields),
        threshold: fields.whole(0, u32::MAX),
    }
}

/// Adds the fields of a Stock-Level, including its letter.
pub fn put(row: &mut NewRecord, asked: &StockLevel) -> Result<(), NoMemory>
    ensures { OnOk result (row.new ≡ row.old ++ stock_level_fields asked.now) }
{
    row.push("L")?;
    put_district(row, asked.home)?;
    row.push_number(u64::from(asked.threshold))
}

/// Takes the field of the reply to a Stock-Level after its letter.
pub fn take_reply(fields: &mut Fields) -> StockLevelReply
    ensures taken { Takes fields.old fields.new
        (λ said. codes "L" ∷ said ≡ stock_level_reply_fields result) }
    ensures columns { TakesColumns stock_level_shown fields.old fields.new }
{
    StockLevelReply {
        count: fields.whole(0, u32::MAX),
    }
}

/// Adds the fields of the reply to a Stock-Level, including its letter.
pub fn put_reply(row: &mut NewRecord, shown: &StockLevelReply) -> Result<(), NoMemory>
    ensures { OnOk result (row.new ≡ row.old ++ stock_level_reply_fields shown.now) }
{
    row.push("L")?;
    row.push_number(u64::from(shown.count))
}
