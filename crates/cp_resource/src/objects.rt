//! The tables of objects out of rows.
ghost use Rattle.std.specs.Prelude.{◌≡◌, IfOk};
ghost use Rattle.cp_group_state.specs.Rows.{name_cmp, object_cmp, pair_cmp};
ghost use Rattle.cp_group_state.specs.Invariants.{IsRising};
ghost use Rattle.cp_latch.specs.Rounds.{AreRounds};
ghost use Rattle.cp_lock.specs.Tables as lock_tables;
ghost use Rattle.cp_semaphore.specs.Tables as semaphore_tables;
ghost use Rattle.cp_resource.specs.States.{HoldSome};

use crate::holdings::holdings_of;
use cp_atomic::{Longs, Refs};
use cp_base::{Items, Name, NoMemory};
use cp_group_state::{LatchRow, LockRow, SemaphoreRow};
use cp_group_tables::ObjectTables;
use cp_latch::Latches;
use cp_lock::Locks;
use cp_map::{Key, Maps};
use cp_ops::Kind;
use cp_remembered::Gone;
use cp_rows::from_rows;
use cp_semaphore::Semaphores;
use std::alloc::Global;

/// The table of these locks.
pub(crate) fn locks_of(alloc: Global, rows: Items<(Name, LockRow)>) -> Result<Locks, NoMemory>
    requires { lock_tables.IsTable rows }
    ensures { IfOk result (λ locks. locks ≡ rows) }
{
    match Locks::from_rows(alloc, rows)? {
        Some(locks) => Ok(locks),
        None => unreachable!(),
    }
}

/// The table of these semaphores, and of what sessions hold.
pub(crate) fn semaphores_of(
    alloc: Global,
    rows: Items<((Name, Kind), SemaphoreRow)>,
    holdings: Items<((u64, Name), u64)>,
) -> Result<Semaphores, NoMemory>
    requires sound { semaphore_tables.IsSound (record { rows = rows; holdings = holdings }) }
    requires some { HoldSome holdings }
    ensures { IfOk result (λ semaphores. semaphores ≡ record { rows = rows; holdings = holdings }) }
{
    let rows = from_rows(alloc, rows)?;
    let holdings = holdings_of(alloc, holdings)?;
    Ok(Semaphores::from_maps(alloc, rows, holdings))
}

/// The rows of the objects of a group, list by list.
#[derive(Debug, Drop)]
pub(crate) struct ObjectLists {
    pub locks: Items<(Name, LockRow)>,
    pub semaphores: Items<((Name, Kind), SemaphoreRow)>,
    pub holdings: Items<((u64, Name), u64)>,
    pub latches: Items<(Name, LatchRow)>,
    pub longs: Items<(Name, i64)>,
    pub refs: Items<(Name, Option<Items<u8>>)>,
    pub maps: Items<((Name, Key), Items<u8>)>,
    pub gone: Items<((Name, Kind), ())>,
}

/// The tables of these objects.
pub(crate) fn objects_of(alloc: Global, rows: ObjectLists) -> Result<ObjectTables, NoMemory>
    requires locks { lock_tables.IsTable rows.locks }
    requires semaphores { semaphore_tables.IsSound (record { rows = rows.semaphores; holdings = rows.holdings }) }
    requires some { HoldSome rows.holdings }
    requires latches { IsRising name_cmp rows.latches }
    requires rounds { AreRounds rows.latches }
    requires longs { IsRising name_cmp rows.longs }
    requires refs { IsRising name_cmp rows.refs }
    requires maps { IsRising pair_cmp rows.maps }
    requires gone { IsRising object_cmp rows.gone }
    ensures { IfOk result (λ objects. objects ≡ record {
      locks = rows.locks;
      semaphores = record { rows = rows.semaphores; holdings = rows.holdings };
      latches = rows.latches;
      longs = rows.longs;
      refs = rows.refs;
      maps = rows.maps;
      gone = rows.gone;
    }) }
{
    Ok(ObjectTables {
        locks: locks_of(alloc, rows.locks)?,
        semaphores: semaphores_of(alloc, rows.semaphores, rows.holdings)?,
        latches: Latches::from_rows(alloc, rows.latches)?,
        longs: Longs::from_rows(alloc, rows.longs)?,
        refs: Refs::from_rows(alloc, rows.refs)?,
        maps: Maps::from_rows(alloc, rows.maps)?,
        gone: Gone::from_rows(alloc, rows.gone)?,
    })
}
