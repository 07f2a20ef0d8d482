ghost use Rattle.std.specs.Prelude.{◌≡◌, [], ◌∷◌, ◌++◌, OnOk, OnErr, IfOk};
ghost use Rattle.schema.specs.Database.{are_payers_known, without_last};

use crate::{NoMemory, Scale};
use rows::History;
use std::alloc::Global;
use std::marker::Model;

/// The rows of HISTORY of one district, oldest first.
#[derive(Clone, Drop)]
pub struct HistoryList {
    rows: Vec<History>,
}

impl Model for HistoryList {
    ghost use Rattle.std.specs.Prelude.{List};
    ghost use Rattle.rows.specs.declared.records.History.{History};

    ghost Value = { List History };

    ghost view = { λ l. l.rows.items };
}

impl HistoryList {
    /// An empty list.
    pub fn new(alloc: Global) -> Self
        ensures { result ≡ [] }
    {
        HistoryList {
            rows: Vec::new(alloc),
        }
    }

    /// The list of these rows. Does not allocate.
    pub fn from_rows(rows: Vec<History>) -> Self
        ensures { result ≡ rows.items }
    {
        HistoryList { rows }
    }

    /// The rows of the list. Does not allocate.
    pub fn into_rows(self) -> Vec<History>
        ensures { result.items ≡ self }
    {
        self.rows
    }

    pub fn rows(&self) -> &[History]
        ensures { result.now ≡ self.now }
    {
        self.rows.as_slice()
    }

    /// Appends a row. Returns `NoMemory` if an allocation fails; the list is unchanged then.
    pub fn push(&mut self, row: History) -> Result<(), NoMemory>
        ensures ok { OnOk result (self.new ≡ self.old ++ row ∷ []) }
        ensures err { OnErr result (self.new ≡ self.old) }
    {
        self.rows.push(row)?;
        Ok(())
    }

    /// Removes the last row, if there is one.
    pub fn pop(&mut self)
        ensures { self.new ≡ without_last self.old }
    {
        self.rows.pop();
    }

    /// Returns an equal list, or `NoMemory` if an allocation fails.
    pub fn try_clone(&self) -> Result<HistoryList, NoMemory>
        ensures { IfOk result (λ copy. copy ≡ self.now) }
    {
        self.clone()
    }

    /// Whether every payment refers to a customer of the scale.
    pub fn are_payers_known(&self, scale: Scale) -> bool
        ensures { result ≡ are_payers_known scale self.now }
    {
        self.rows.iter().all(|row| scale.has_customer(row.customer))
    }
}
