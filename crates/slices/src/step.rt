//! A step in one group, with its undo record.
ghost use Rattle.std.specs.Prelude.{◌≡◌, IfOk, OnOk, OnErr};
ghost use Rattle.partitions.specs.Parts.{IsPart};
ghost use Rattle.groups.specs.Groups.{warehouse_of};
ghost use Rattle.slices.specs.Undo.{IsStep};

use crate::indexed::IndexedRows;
use crate::undo_record::UndoRecord;
use schema::NoMemory;

/// One step of a transaction in a group, under an exclusive claim on it.
pub(crate) trait Step: Drop {
    ghost use Rattle.schema.specs.Database.{Database};
    ghost use Rattle.partitions.specs.Parts.{Part};
    ghost use Rattle.requests.specs.declared.group.Group.{Group};
    ghost use Rattle.groups.specs.Content.{Content};

    /// The group that the step changes.
    ghost group: { Self → Group };
    /// The change of the group's contents.
    ghost changed: { Self → Content → Content };
    /// The change of the tables.
    ghost done: { Self → Database → Database };
    /// The precondition on the rows.
    ghost is_possible: { Self → Part → Type 0 };

    /// Does the step, and returns its undo record. Returns NoMemory if an allocation fails; nothing changes then.
    fn run(self, rows: &mut IndexedRows) -> Result<UndoRecord, NoMemory>
        requires part { IsPart rows.old }
        requires possible { is_possible self rows.old }
        ensures tables { OnOk result (rows.new.tables ≡ done self rows.old.tables) }
        ensures step { IfOk result (λ kept.
            IsStep (group self) (changed self) kept rows.old rows.new) }
        ensures err { OnErr result (rows.new ≡ rows.old) };

    /// The step is possible only in a group of the warehouse.
    ghost at_home: { (step : Self) (p : Part) → IsPart p → is_possible step p → warehouse_of (group step) ≡ p.home };
}
