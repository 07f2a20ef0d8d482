ghost use Rattle.std.specs.Prelude.{◌≡◌, ◌≢◌, ◌<◌, ◌-◌, ◌^◌, ◌∷◌, length, None, codes, IfOk, IfErr, IfSome, IfNone, OnOk};
ghost use Rattle.files.specs.FieldRead.{fields_view};
ghost use Rattle.files.specs.Failure.{IsOfText};
ghost use Rattle.files.specs.Taken.{fault_of, Takes};
ghost use Rattle.files.specs.Place.{Gives, ForRecords};
ghost use Rattle.files.specs.FirstFault.{ReportsFirst};
ghost use Rattle.terminals.specs.FirstFault.{after_scheduled, after_submit, schedule_fault};
ghost use Rattle.terminals.specs.Schedule.{IsSchedule, IsScheduleRecord};

use crate::listing::Listed;
use crate::move_order::take_order;
use crate::{listing, request};
use files::{FaultKind, Fields, FileError, Input};
use history::{Event, Scheduled};
use schema::NoMemory;
use std::alloc::Global;

/// Reads the schedule of `source`.
///
/// A fault is returned with its record: that of the first faulty record, and of its faults the least. Nothing else is returned
/// then. Not checked: whether there are such sessions, warehouses and executors, and whether the numbers fit a scale.
///
/// Returns NoMemory if there is no memory for a record or for the schedule. Returns Failed if a read of `source` fails, and
/// only then, with the number of the current record. Neither error says anything about the text, and nothing else is returned
/// with it. After an error it is unspecified how far `source` was read. Memory is allocated record by record.
pub fn read_schedule<R: Input + Drop>(alloc: Global, source: R) -> Result<Vec<Scheduled>, FileError>
    ensures schedule { IfOk result (λ schedule.
        Gives (R.remaining source) (IsSchedule schedule.items)) }
    ensures first { ForRecords (R.remaining source) (λ rows. length rows < 2 ^ 64 - 1
        → ReportsFirst result (schedule_fault rows)) }
    ensures lasts { R.lasts source → IfErr result IsOfText }
{
    listing::read(alloc, source)
}

impl Listed for Scheduled {
    ghost is_record = { λ place. IsScheduleRecord };

    ghost after = { λ place. after_scheduled };

    fn take(
        alloc: Global,
        _place: u64,
        letter: &str,
        fields: &mut Fields,
    ) -> Result<Option<Scheduled>, NoMemory> {
        take(alloc, letter, fields)
    }
}

fn take(alloc: Global, letter: &str, fields: &mut Fields) -> Result<Option<Scheduled>, NoMemory>
    ensures taken { IfOk result (λ taken. IfSome taken (λ item.
        Takes fields.old fields.new (λ said. IsScheduleRecord item (letter.now ∷ said)))) }
    ensures unknown { IfOk result (λ taken. IfNone taken (fault_of fields.new ≢ None)) }
    ensures columns { OnOk result
        (fields_view fields.new ≡ after_scheduled letter.now (fields_view fields.old)) }
{
    match letter {
        "S" => take_submit(alloc, fields),
        "M" => {
            let lo = fields.word();
            Ok(Some(Scheduled::Event(Event::Order(take_order(lo, fields)))))
        }
        "T" => Ok(Some(Scheduled::Event(Event::Take {
            executor: fields.whole(0, u32::MAX),
        }))),
        "X" => Ok(Some(Scheduled::Event(Event::Send {
            executor: fields.whole(0, u32::MAX),
        }))),
        "R" => Ok(Some(Scheduled::Rounds)),
        _ => {
            fields.note(FaultKind::WrongShape);
            Ok(None)
        }
    }
}

// Takes the session, the number and the request. Returns `None` if the request's letter is unknown.
fn take_submit(alloc: Global, fields: &mut Fields) -> Result<Option<Scheduled>, NoMemory>
    ensures taken { IfOk result (λ taken. IfSome taken (λ item.
        Takes fields.old fields.new (λ said. IsScheduleRecord item (codes "S" ∷ said)))) }
    ensures unknown { IfOk result (λ taken. IfNone taken (fault_of fields.new ≢ None)) }
    ensures columns { OnOk result (fields_view fields.new ≡ after_submit (fields_view fields.old)) }
{
    let session = fields.whole(0, u32::MAX);
    let number = fields.whole(0, u32::MAX);
    let count = fields.left() as u64;
    let letter = fields.word();
    match request::take(alloc, count, letter, fields)? {
        Some(request) => Ok(Some(Scheduled::Event(Event::Submit {
            session,
            number,
            request,
        }))),
        None => Ok(None),
    }
}
