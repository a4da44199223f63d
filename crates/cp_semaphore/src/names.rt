//! Sets of names.
ghost use Rattle.std.specs.Prelude.{◌≡◌, ◌||◌, ℕ, List, bytes_eq, IfOk, OnOk};
ghost use Rattle.cp_group_state.specs.Rows.{name_cmp, put};
ghost use Rattle.cp_semaphore.specs.Concerns.{has};

use cp_base::{Name, NoMemory};
use std::collections::BTreeMap;

/// Whether a set of names has this one.
pub fn has(names: &BTreeMap<Name, ()>, name: &Name) -> bool
    ensures { result ≡ has names.now.entries name.now }
{
    names.contains_key(name)
}

fn put(names: &mut BTreeMap<Name, ()>, name: &Name) -> Result<(), NoMemory>
    ensures { OnOk result (names.new.entries ≡ put name_cmp names.old.entries name.now tt) }
{
    let name = name.clone()?;
    names.insert(name, ())?;
    Ok(())
}

/// Puts a name into a set.
pub fn add(names: &mut BTreeMap<Name, ()>, name: &Name) -> Result<(), NoMemory>
    ensures { OnOk result ((other : List ℕ) → has names.new.entries other ≡ (has names.old.entries other || bytes_eq other name.now)) }
{
    put(names, name)?;
    Ok(())
}
