//! Writes of one row into an ordered map. The contracts are about the finite map that it represents.
ghost use Rattle.std.specs.Prelude.{◌≡◌, IsTrue, IfOk, OnOk, OnErr};
ghost use Rattle.std.specs.FinMap as table;
ghost use Rattle.std.specs.FinMap.{IsAntisymmetric};
ghost use Rattle.schema.specs.MapRows.{table_of, put_row};

use crate::NoMemory;
use std::collections::BTreeMap;

/// Stores a row at the key and returns the row that it replaces. Returns `NoMemory` if an allocation
/// fails; nothing has changed then.
pub fn put<K: Ord + Drop, X: Drop>(
    rows: &mut BTreeMap<K, X>,
    key: K,
    row: X,
) -> Result<Option<X>, NoMemory>
    requires { IsAntisymmetric K.cmp }
    ensures was { IfOk result (λ was. was ≡ table.get (table_of K.cmp rows.old) key) }
    ensures ok { OnOk result
        (table_of K.cmp rows.new ≡ table.insert (table_of K.cmp rows.old) key row) }
    ensures err { OnErr result (table_of K.cmp rows.new ≡ table_of K.cmp rows.old) }
{
    match rows.insert(key, row) {
        Ok(was) => Ok(was),
        Err(_) => Err(NoMemory),
    }
}

/// Restores `was` at the key, in place of the row stored there. If `was` is `None`, the row is removed.
/// Does not allocate.
pub(crate) fn put_back<K: Ord + Drop, X: Drop>(rows: &mut BTreeMap<K, X>, key: K, was: Option<X>)
    requires exact { IsAntisymmetric K.cmp }
    requires there { IsTrue (table.contains_key (table_of K.cmp rows.old) key) }
    ensures { table_of K.cmp rows.new ≡ put_row (table_of K.cmp rows.old) key was }
{
    match was {
        Some(row) => match rows.insert(key, row) {
            Ok(_) => {}
            // Only a new key needs an allocation.
            Err(_) => {}
        },
        None => {
            rows.remove(&key);
        }
    }
}

/// Removes the row at the key, if there is one. Does not allocate.
pub fn remove<K: Ord + Drop, X: Drop>(rows: &mut BTreeMap<K, X>, key: K)
    requires { IsAntisymmetric K.cmp }
    ensures { table_of K.cmp rows.new ≡ table.remove (table_of K.cmp rows.old) key }
{
    rows.remove(&key);
}
