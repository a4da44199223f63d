//! Ordered maps out of rows.
ghost use Rattle.std.specs.Prelude.{◌≡◌, List, ◌∷◌, ◌++◌, [], IfOk, OnOk};
ghost use Rattle.cp_group_state.specs.Invariants.{IsRising};

use cp_base::{Items, NoMemory};
use std::alloc::Global;
use std::collections::BTreeMap;

/// Inserts a row whose key is above all that stand, in front of any rows that may come.
#[tactic(auto, using(crate::proofs::Changes::put_last))]
fn append<K: Ord + Drop, V: Drop>(map: &mut BTreeMap<K, V>, key: K, row: V) -> Result<(), NoMemory>
    ensures { OnOk result ((rest : List (K × V)) → IsRising K.cmp (map.old.entries ++ (key, row) ∷ rest) →
        map.new.entries ≡ map.old.entries ++ (key, row) ∷ []) }
{
    map.insert(key, row)?;
    Ok(())
}

/// The map of these rows, whose keys rise.
pub fn from_rows<K: Ord + Drop, V: Drop>(
    alloc: Global,
    rows: Items<(K, V)>,
) -> Result<BTreeMap<K, V>, NoMemory>
    requires { IsRising K.cmp rows }
    ensures { IfOk result (λ map. map.entries ≡ rows) }
{
    let mut map = BTreeMap::new(alloc);
    for (key, row) in rows.into_vec() {
        append(&mut map, key, row)?;
    }
    Ok(map)
}
