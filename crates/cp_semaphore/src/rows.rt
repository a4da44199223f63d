//! The rows of semaphores.
ghost use Rattle.std.specs.Prelude.{◌≡◌, is_some, IsSome, OnOk, OnErr};
ghost use Rattle.cp_group_state.specs.Rows.{find, put, without, has_room, most, object_cmp};

use cp_base::limits::MOST_ROWS;
use cp_base::{Name, NoMemory};
use cp_group_state::SemaphoreRow;
use cp_ops::Kind;
use cp_rows::{put_row, write_row};
use std::collections::BTreeMap;

/// The row of a semaphore, if it is there.
pub(crate) fn row_of(
    rows: &BTreeMap<(Name, Kind), SemaphoreRow>,
    key: &(Name, Kind),
) -> Option<SemaphoreRow>
    ensures { result ≡ find object_cmp rows.now.entries key.now }
{
    rows.get(key).copied()
}

/// Whether a semaphore has a row.
pub(crate) fn has_row(rows: &BTreeMap<(Name, Kind), SemaphoreRow>, key: &(Name, Kind)) -> bool
    ensures { result ≡ is_some (find object_cmp rows.now.entries key.now) }
{
    rows.contains_key(key)
}

/// Whether a semaphore has a row, or there is room for one.
pub(crate) fn has_room(rows: &BTreeMap<(Name, Kind), SemaphoreRow>, key: &(Name, Kind)) -> bool
    ensures { result ≡ has_room object_cmp most rows.now.entries key.now }
{
    has_row(rows, key) || rows.len() < MOST_ROWS as usize
}

/// Puts a row, or leaves the rows.
pub(crate) fn put(
    rows: &mut BTreeMap<(Name, Kind), SemaphoreRow>,
    key: (Name, Kind),
    row: SemaphoreRow,
) -> Result<(), NoMemory>
    ensures ok { OnOk result (rows.new.entries ≡ put object_cmp rows.old.entries key row) }
    ensures err { OnErr result (rows.new.entries ≡ rows.old.entries) }
{
    match put_row(rows, key, row) {
        Ok(()) => Ok(()),
        Err(NoMemory) => Err(NoMemory),
    }
}

/// Writes a row that is there.
pub(crate) fn write(
    rows: &mut BTreeMap<(Name, Kind), SemaphoreRow>,
    key: &(Name, Kind),
    row: SemaphoreRow,
)
    requires { IsSome (find object_cmp rows.old.entries key.now) }
    ensures { rows.new.entries ≡ put object_cmp rows.old.entries key.now row }
{
    write_row(rows, key, row);
}

/// Takes a row out, where it is there.
pub(crate) fn remove(rows: &mut BTreeMap<(Name, Kind), SemaphoreRow>, key: &(Name, Kind))
    ensures { rows.new.entries ≡ without object_cmp rows.old.entries key.now }
{
    rows.remove(key);
}
