//! The records of lock tables that have changed.
ghost use Rattle.std.specs.Prelude.{◌≡◌, ◌++◌, OnOk};
ghost use Rattle.std.specs.List.{flat_map};
ghost use Rattle.terminals.specs.LockChanges.{age_fields, change_fields, entry_fields, holders_fields, waiters_fields};

use files::NewRecord;
use groups::Mode;
use history::LockChange;
use local_locks::LockEntry;
use schema::NoMemory;

/// Adds the fields of a change of a warehouse's lock table.
pub(crate) fn put_change(row: &mut NewRecord, change: &LockChange) -> Result<(), NoMemory>
    ensures { OnOk result (row.new ≡ row.old ++ change_fields change.now) }
{
    row.push("locks")?;
    row.push_number(u64::from(change.w_id))?;
    put_entries(row, change.entries.as_slice())
}

fn put_entries(row: &mut NewRecord, entries: &[LockEntry]) -> Result<(), NoMemory>
    ensures { OnOk result (row.new ≡ row.old ++ flat_map entry_fields entries.now) }
{
    for entry in entries {
        put_entry(row, entry)?;
    }
    Ok(())
}

fn put_entry(row: &mut NewRecord, entry: &LockEntry) -> Result<(), NoMemory>
    ensures { OnOk result (row.new ≡ row.old ++ entry_fields entry.now) }
{
    row.push_display(&entry.group)?;
    put_holders(row, entry.mode, entry.holders.as_slice())?;
    put_waiters(row, entry.waiters.as_slice())
}

// Adds the mode and the ages of the holders, if there is a mode.
fn put_holders(row: &mut NewRecord, mode: Option<Mode>, holders: &[u64]) -> Result<(), NoMemory>
    ensures { OnOk result (row.new ≡ row.old ++ holders_fields mode holders.now) }
{
    match mode {
        None => return Ok(()),
        Some(Mode::Shared) => row.push("shared")?,
        Some(Mode::Exclusive) => row.push("exclusive")?,
    }
    put_ages(row, holders)
}

// Adds the ages of those that wait, if there are any.
fn put_waiters(row: &mut NewRecord, waiters: &[u64]) -> Result<(), NoMemory>
    ensures { OnOk result (row.new ≡ row.old ++ waiters_fields waiters.now) }
{
    if waiters.is_empty() {
        return Ok(());
    }
    row.push("waiting")?;
    put_ages(row, waiters)
}

fn put_ages(row: &mut NewRecord, ages: &[u64]) -> Result<(), NoMemory>
    ensures { OnOk result (row.new ≡ row.old ++ flat_map age_fields ages.now) }
{
    for age in ages {
        put_age(row, *age)?;
    }
    Ok(())
}

fn put_age(row: &mut NewRecord, age: u64) -> Result<(), NoMemory>
    ensures { OnOk result (row.new ≡ row.old ++ age_fields age) }
{
    row.push_number(age)
}
