ghost use Rattle.std.specs.Prelude.{◌≡◌, None, IfOk, OnOk};
ghost use Rattle.dataset.specs.declared.format.Format.TheVariants.{Two};
ghost use Rattle.files.specs.Taken.{fault_of, fields_left};
ghost use Rattle.dataset.specs.TakenAs.{IsHeaderAs, IsScaleAs};
ghost use Rattle.dataset.specs.Records.{IsHeader, header_fields};
ghost use Rattle.dataset.specs.Writing.{Adds};

use crate::format::Format;
use files::{FaultKind, Fields, NewRecord};
use schema::{NoMemory, Scale};

/// The first record of a dataset.
#[derive(Clone, Copy, Debug, PartialEq, Eq)]
pub struct Header {
    pub format: Format,
    pub scale: Scale,
}

/// The format and the scale of a header record. Returns `NoHeader` if the record is of no format,
/// otherwise the least fault of its numbers, if there is one.
pub fn parse(fields: &mut Fields) -> Result<Header, FaultKind>
    ensures exact { fault_of fields.old ≡ None → IsHeaderAs result (fields_left fields.old) }
    ensures spelt { IfOk result (λ header.
        IsHeader header.format header.scale (fields_left fields.old)) }
{
    if fields.left() != 5 || fields.word() != "TPCC" {
        return Err(FaultKind::NoHeader);
    }
    let Some(format) = Format::named(fields.word()) else {
        return Err(FaultKind::NoHeader);
    };
    let scale = numbers(fields, format)?;
    Ok(Header { format, scale })
}

// The scale that the three numbers of a header make. Returns their least fault, if there is one.
fn numbers(fields: &mut Fields, format: Format) -> Result<Scale, FaultKind>
    ensures exact { fault_of fields.old ≡ None
        → IsScaleAs format result (fields_left fields.old) }
    ensures clean { OnOk result (fault_of fields.old ≡ None) }
{
    let warehouses = fields.whole(1, format.most_warehouses());
    let items = fields.whole(1, 100_000);
    let customers = fields.whole(1, 3_000);
    match fields.finish() {
        Some(kind) => Err(kind),
        None => Scale::checked_new(warehouses, items, customers).ok_or(FaultKind::OutOfRange),
    }
}

/// Appends the fields of the header record of format 2.
pub fn put(out: &mut NewRecord, scale: Scale) -> Result<(), NoMemory>
    ensures { OnOk result (Adds (header_fields Two scale) out.old out.new) }
{
    out.push("TPCC")?;
    out.push_number(2)?;
    out.push_number(u64::from(scale.warehouses))?;
    out.push_number(u64::from(scale.items))?;
    out.push_number(u64::from(scale.customers))
}
