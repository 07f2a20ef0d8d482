ghost use Rattle.std.specs.Prelude.{◌≡◌, ◌++◌, ◌∷◌, [], OnOk};
ghost use Rattle.std.specs.BTreeMap.{IsOrdered};
ghost use Rattle.population.specs.Append.{AreBefore};

use schema::NoMemory;
use std::collections::BTreeMap;

/// Adds a row whose key is greater than all others.
pub(crate) fn append<K: Ord + Drop, V: Drop>(
    map: &mut BTreeMap<K, V>,
    key: K,
    row: V,
) -> Result<(), NoMemory>
    requires { AreBefore K.cmp key map.old.entries }
    ensures added { OnOk result (map.new.entries ≡ map.old.entries ++ (key, row) ∷ []) }
    ensures ordered { IsOrdered K.cmp map.new }
{
    map.insert(key, row)?;
    Ok(())
}
