ghost use Rattle.std.specs.Prelude.{[], ◌∷◌, OnOk};
ghost use Rattle.dataset.specs.Records.{Date};
ghost use Rattle.dataset.specs.Writing.{Adds};

use files::{NewRecord, moment_text};
use rows::Moment;
use schema::NoMemory;

/// Appends a field that spells the moment.
pub fn put_moment(out: &mut NewRecord, moment: Moment) -> Result<(), NoMemory>
    ensures { OnOk result (Adds (Date moment ∷ []) out.old out.new) }
{
    out.push(moment_text(moment).as_str())
}
