//! Lock tables, as those see them who watch a schedule.
use commit_log::Names;
use history::LockChange;
use local_locks::LockEntry;
use schema::NoMemory;
use slices::Slice;
use std::alloc::Global;
use transactions::Shard;

/// Looks at the lock tables after each event, and keeps the entries of those that have changed.
#[derive(Drop)]
pub struct LockWatch {
    is_on: bool,
    changes: Vec<LockChange>,
    // For each warehouse, in order, the place of its last change among the changes, if it has one.
    latest: Vec<Option<usize>>,
    // An allocation for a change failed. Nothing is kept from then on.
    has_failed: bool,
}

impl LockWatch {
    /// Looks at the lock tables if `is_on`, and otherwise at nothing.
    pub fn new(alloc: Global, is_on: bool) -> LockWatch {
        LockWatch {
            is_on,
            changes: Vec::new(alloc),
            latest: Vec::new(alloc),
            has_failed: false,
        }
    }

    /// Returns the changes, in the order in which they happened. Returns NoMemory if an allocation for one failed.
    pub fn into_changes(self) -> Result<Vec<LockChange>, NoMemory> {
        if self.has_failed {
            return Err(NoMemory);
        }
        Ok(self.changes)
    }

    /// Looks at the lock tables of all shards, one for each warehouse, in order, after so many outputs.
    pub(crate) fn look<J: Names, T: Drop>(
        &mut self,
        alloc: Global,
        shards: &[Shard<J, T>],
        outputs: usize,
    ) {
        if self.is_on && !self.has_failed && self.look_at_all(alloc, shards, outputs).is_err() {
            self.has_failed = true;
        }
    }

    fn look_at_all<J: Names, T: Drop>(
        &mut self,
        alloc: Global,
        shards: &[Shard<J, T>],
        outputs: usize,
    ) -> Result<(), NoMemory> {
        for (index, shard) in shards.iter().enumerate() {
            self.look_at(alloc, index, shard.slice(), outputs)?;
        }
        Ok(())
    }

    // Keeps the entries of a warehouse if they are not those of its last change.
    fn look_at<J: Names>(
        &mut self,
        alloc: Global,
        index: usize,
        slice: &Slice<J>,
        outputs: usize,
    ) -> Result<(), NoMemory> {
        if index == self.latest.len() {
            self.latest.push(None)?;
        }
        let entries = entries_of(alloc, slice)?;
        if self.is_known(index, &entries) {
            return Ok(());
        }
        let Some(latest) = self.latest.get_mut(index) else {
            return Ok(());
        };
        *latest = Some(self.changes.len());
        self.changes.push(LockChange {
            outputs,
            w_id: slice.home(),
            entries,
        })?;
        Ok(())
    }

    // Returns whether these are the entries of the warehouse's last change; none if it has no change.
    fn is_known(&self, index: usize, entries: &[LockEntry]) -> bool {
        let Some(Some(latest)) = self.latest.get(index) else {
            return entries.is_empty();
        };
        self.changes
            .get(*latest)
            .is_some_and(|change| change.entries.as_slice() == entries)
    }
}

// Returns the entries of a slice's lock table.
fn entries_of<J: Names>(alloc: Global, slice: &Slice<J>) -> Result<Vec<LockEntry>, NoMemory> {
    let table = slice.locks();
    let count = table.held();
    let mut entries = Vec::with_capacity(alloc, count)?;
    for n in 0..count {
        if let Some(entry) = table.entry_at(alloc, n)? {
            entries.push(entry)?;
        }
    }
    Ok(entries)
}
