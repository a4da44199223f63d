//! Locks whose owners' sessions are closed.
ghost use Rattle.std.specs.Prelude.{◌≡◌, IfOk};
ghost use Rattle.cp_group_state.specs.Locks.{freed_all, held_among, is_held_among};
ghost use Rattle.cp_group_state.specs.Invariants.{LocksWell};

use crate::meet::{free_row, is_free_row};
use crate::session_set::SessionSet;
use cp_base::{Name, NoMemory};
use cp_group_state::LockRow;
use std::alloc::Global;
use std::collections::BTreeMap;

/// Whether one of these sessions holds the lock.
fn is_held_by_some(row: &LockRow, closed: &SessionSet) -> bool
    ensures { result ≡ is_held_among closed.now row.now }
{
    !is_free_row(row) && closed.contains(row.holder.session)
}

/// The locks that these sessions hold, by name.
pub fn names_held(
    alloc: Global,
    rows: &BTreeMap<Name, LockRow>,
    closed: &SessionSet,
) -> Result<Vec<Name>, NoMemory>
    ensures { IfOk result (λ names. names.items ≡ held_among closed.now rows.now.entries) }
{
    let mut names = Vec::new(alloc);
    for (name, row) in rows {
        if is_held_by_some(row, closed) {
            names.push(name.clone()?)?;
        }
    }
    Ok(names)
}

/// The locks that these sessions hold are free.
pub fn free_rows(rows: &mut BTreeMap<Name, LockRow>, closed: &SessionSet)
    requires { LocksWell rows.old.entries }
    ensures rows { rows.new.entries ≡ freed_all closed.now rows.old.entries }
    ensures well { LocksWell rows.new.entries }
{
    rows.retain(|_name, row| {
        if is_held_by_some(row, closed) {
            *row = free_row();
        }
        true
    });
}
