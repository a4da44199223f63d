//! Changes of one row, which leave in the row of a free lock every number 0.
ghost use Rattle.std.specs.Prelude.{◌≡◌, IsSome, OnErr, OnOk};
ghost use Rattle.cp_group_state.specs.Rows.{find, name_cmp, put};
ghost use Rattle.cp_group_state.specs.Invariants.{IsHeldOrFree, LocksWell};
ghost use Rattle.cp_lock.specs.Tables.{are_whole, is_whole};

use crate::meet::is_free_row;
use cp_base::{Name, NoMemory};
use cp_group_state::LockRow;
use std::collections::BTreeMap;

/// Puts a row under a name, or leaves the rows.
pub fn put_row(
    rows: &mut BTreeMap<Name, LockRow>,
    name: &Name,
    row: LockRow,
) -> Result<(), NoMemory>
    requires rows { LocksWell rows.old.entries }
    requires row { IsHeldOrFree row }
    ensures ok { OnOk result (rows.new.entries ≡ put name_cmp rows.old.entries name.now row) }
    ensures err { OnErr result (rows.new.entries ≡ rows.old.entries) }
    ensures well { LocksWell rows.new.entries }
{
    let name = name.clone()?;
    rows.insert(name, row)?;
    Ok(())
}

/// Writes a row in the place of one that is there.
pub fn write_row(rows: &mut BTreeMap<Name, LockRow>, name: &Name, row: LockRow)
    requires there { IsSome (find name_cmp rows.old.entries name.now) }
    requires rows { LocksWell rows.old.entries }
    requires row { IsHeldOrFree row }
    ensures rows { rows.new.entries ≡ put name_cmp rows.old.entries name.now row }
    ensures well { LocksWell rows.new.entries }
{
    cp_rows::write_row(rows, name, row);
}

/// Whether the lock is held, or every number in its row is 0.
fn is_whole(row: &LockRow) -> bool
    ensures { result ≡ is_whole row.now }
{
    !is_free_row(row) || (row.holder.session == 0 && row.holder.thread.0 == 0 && row.fence == 0)
}

/// Whether each lock is held, or every number in its row is 0.
pub fn are_whole(rows: &[(Name, LockRow)]) -> bool
    ensures { result ≡ are_whole rows.now }
{
    rows.iter().all(|(_name, row)| is_whole(row))
}
