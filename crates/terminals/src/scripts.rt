ghost use Rattle.std.specs.Prelude.{◌<◌, ◌-◌, ◌^◌, length, IfOk, IfErr, OnErr, OnOk};
ghost use Rattle.files.specs.Failure.{IsOfText, IsOfWriting};
ghost use Rattle.files.specs.Sending.{BeginsToWrite, Writes};
ghost use Rattle.files.specs.Place.{Gives, ForRecords};
ghost use Rattle.files.specs.FirstFault.{ReportsFirst};
ghost use Rattle.terminals.specs.FirstFault.{after_asked, script_fault};
ghost use Rattle.terminals.specs.RequestFields.{IsTerminalRequest};
ghost use Rattle.terminals.specs.Script.{AreAsked, BeginAsked, IsScript};

use crate::listing::{Listed, WrittenRecord};
use crate::{delivery, listing, new_order, order_status, payment, stock_level};
use files::{FaultKind, Fields, FileError, Input, NewRecord};
use requests::{Script, TerminalRequest};
use schema::NoMemory;
use std::alloc::Global;
use std::io::Write;

/// Reads the script of `source`: the parts of its records.
///
/// A fault is returned with its record: that of the first faulty record, and of its faults the least. Nothing else is returned
/// then. Whether the numbers fit a scale is not checked.
///
/// Returns NoMemory if there is no memory for a record or for the parts, or if there are more than 2^32 parts. Returns Failed if
/// a read of `source` fails, and only then, with the number of the current record. Neither error says anything about the text,
/// and nothing else is returned with it. After an error it is unspecified how far `source` was read. Memory is allocated record
/// by record.
pub fn read_script<R: Input + Drop>(alloc: Global, source: R) -> Result<Script, FileError>
    ensures script { IfOk result (λ script. Gives (R.remaining source) (IsScript script)) }
    ensures first { ForRecords (R.remaining source) (λ rows. length rows < 2 ^ 64 - 1
        → ReportsFirst result (script_fault rows)) }
    ensures lasts { R.lasts source → IfErr result IsOfText }
{
    let asked = listing::read(alloc, source)?;
    match Script::of_records(alloc, asked) {
        Ok(script) => Ok(script),
        Err(NoMemory) => Err(FileError::NoMemory),
    }
}

impl Listed for TerminalRequest {
    ghost is_record = { λ place. IsTerminalRequest };

    ghost after = { λ place. after_asked };

    fn take(
        alloc: Global,
        _place: u64,
        letter: &str,
        fields: &mut Fields,
    ) -> Result<Option<TerminalRequest>, NoMemory> {
        match letter {
            "N" => {
                let count = fields.left() as u64 + 1;
                let asked = new_order::take(alloc, count, fields)?;
                Ok(Some(TerminalRequest::NewOrder(asked)))
            }
            "P" => Ok(Some(TerminalRequest::Payment(payment::take(fields)))),
            "O" => Ok(Some(TerminalRequest::OrderStatus(order_status::take(fields)))),
            "D" => {
                let asked = delivery::take_of_warehouse(fields);
                Ok(Some(TerminalRequest::Delivery(asked)))
            }
            "L" => Ok(Some(TerminalRequest::StockLevel(stock_level::take(fields)))),
            _ => {
                fields.note(FaultKind::WrongShape);
                Ok(None)
            }
        }
    }
}

/// Writes a script to the sink: the record of what the terminal asks for, each in turn, and then the end record.
///
/// Returns NoMemory if there is no memory for a record. Returns Failed if the sink fails, with the number of the current
/// record; because records are buffered, what was not written may be of an earlier record. After an error the sink has got a
/// beginning of the text.
pub fn write_script<W: Write>(
    alloc: Global,
    sink: &mut W,
    asked: &[TerminalRequest],
) -> Result<(), FileError>
    ensures written { OnOk result (Writes (W.contents sink.old) (W.contents sink.new)
        (AreAsked asked.now)) }
    ensures begun { OnErr result (BeginsToWrite (W.contents sink.old) (W.contents sink.new)
        (BeginAsked asked.now)) }
    ensures failed { IfErr result IsOfWriting }
{
    listing::write(alloc, sink, asked)
}

impl WrittenRecord for TerminalRequest {
    ghost is_record = { λ place. IsTerminalRequest };

    fn put(&self, _place: u64, row: &mut NewRecord) -> Result<(), NoMemory> {
        match self {
            TerminalRequest::NewOrder(asked) => new_order::put(row, asked),
            TerminalRequest::Payment(asked) => payment::put(row, asked),
            TerminalRequest::OrderStatus(asked) => order_status::put(row, asked),
            TerminalRequest::Delivery(asked) => delivery::put_of_warehouse(row, asked),
            TerminalRequest::StockLevel(asked) => stock_level::put(row, asked),
        }
    }
}
