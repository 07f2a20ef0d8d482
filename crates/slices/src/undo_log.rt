//! The undo log of a group.
ghost use Rattle.std.specs.Prelude.{◌≡◌, ◌<◌, ◌∷◌, ◌++◌, [], length, OnOk};
ghost use Rattle.requests.specs.declared.group.Group.{Group as AnyGroup};
ghost use Rattle.slices.specs.Undo.{AreKeptIn, AreUndone};

use crate::indexed::IndexedRows;
use crate::undo_record::{UndoRecord, put_all_back};
use schema::NoMemory;
use std::alloc::Global;
use std::marker::Model;

/// The undo records of what was done in a group under the exclusive claim on it, step by step.
#[derive(Drop)]
pub(crate) struct UndoLog {
    undo: Vec<UndoRecord>,
}

impl Model for UndoLog {
    ghost use Rattle.std.specs.Prelude.{vec_capacity};
    ghost use Rattle.std.specs.Coded.{codes};
    ghost use Rattle.slices.specs.contracts.undo_record.UndoRecord as kept;
    ghost use Rattle.slices.specs.UndoLogs.{UndoLogView, undo_log_view};

    ghost Value = { UndoLogView };

    ghost coded = { Prim.hlevel (codes, kept.the_row.coded) };

    ghost view = { λ g. undo_log_view g.undo.items (vec_capacity g.undo) };
}

impl UndoLog {
    /// Returns an empty undo log.
    pub(crate) fn new(alloc: Global) -> UndoLog
        ensures { result.undo ≡ [] }
    {
        UndoLog {
            undo: Vec::new(alloc),
        }
    }

    /// Reserves memory for one more undo record. Returns NoMemory if the allocation fails. The records are unchanged in
    /// any case.
    pub(crate) fn make_room(&mut self) -> Result<(), NoMemory>
        ensures room { OnOk result (length self.new.undo < self.new.room) }
        ensures undo { self.new.undo ≡ self.old.undo }
    {
        self.undo.reserve(1)
    }

    /// Adds the undo record of one more step.
    pub(crate) fn keep(&mut self, kept: UndoRecord)
        requires room { length self.old.undo < self.old.room }
        ensures { self.new.undo ≡ self.old.undo ++ kept ∷ [] }
    {
        self.undo.push_reserved(kept);
    }

    /// Undoes all steps, from the last to the first. No undo record is left.
    pub(crate) fn put_back(&mut self, rows: &mut IndexedRows)
        requires kept { (group : AnyGroup) × AreKeptIn rows.old group self.old.undo }
        ensures rows { AreUndone self.old.undo rows.old rows.new }
        ensures none { self.new.undo ≡ [] }
    {
        put_all_back(&mut self.undo, rows);
    }

    /// Deletes all undo records: no step can be undone any more.
    pub(crate) fn forget(&mut self)
        ensures { self.new.undo ≡ [] }
    {
        self.undo.clear();
    }
}
