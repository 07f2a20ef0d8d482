ghost use Rattle.std.specs.Prelude.{◌<◌, ◌-◌, ◌^◌, length, IfOk, IfErr};
ghost use Rattle.files.specs.Failure.{IsOfText};
ghost use Rattle.files.specs.Place.{Gives, ForRecords};
ghost use Rattle.files.specs.FirstFault.{ReportsFirst};
ghost use Rattle.terminals.specs.FirstFault.{after_move, moves_fault};
ghost use Rattle.terminals.specs.Moves.{AreMoves, IsMoveRecord};

use crate::listing;
use crate::listing::Listed;
use crate::move_order::take_order;
use files::{Fields, FileError, Input};
use range_moves::MoveOrder;
use schema::NoMemory;
use std::alloc::Global;

/// Reads the moves of `source`.
///
/// A fault is returned with its record: that of the first faulty record, and of its faults the least. Nothing else is returned
/// then. Not checked: whether there are such warehouses and executors, and whether a range ends before it begins.
///
/// Returns NoMemory if there is no memory for a record or for the moves. Returns Failed if a read of `source` fails, and only
/// then, with the number of the current record. Neither error says anything about the text, and nothing else is returned with
/// it. After an error it is unspecified how far `source` was read. Memory is allocated record by record.
pub fn read_moves<R: Input + Drop>(alloc: Global, source: R) -> Result<Vec<MoveOrder>, FileError>
    ensures moves { IfOk result (λ moves. Gives (R.remaining source) (AreMoves moves.items)) }
    ensures first { ForRecords (R.remaining source) (λ rows. length rows < 2 ^ 64 - 1
        → ReportsFirst result (moves_fault rows)) }
    ensures lasts { R.lasts source → IfErr result IsOfText }
{
    listing::read(alloc, source)
}

impl Listed for MoveOrder {
    ghost is_record = { λ place. IsMoveRecord };

    ghost after = { λ place. after_move };

    fn take(
        _alloc: Global,
        _place: u64,
        first: &str,
        fields: &mut Fields,
    ) -> Result<Option<MoveOrder>, NoMemory> {
        Ok(Some(take_order(first, fields)))
    }
}
