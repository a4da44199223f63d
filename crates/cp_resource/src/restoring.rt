//! The tables of a group out of its rows.
ghost use Rattle.std.specs.Prelude.{◌≡◌, IfOk};
ghost use Rattle.cp_group_state.specs.Rows.{holder_cmp};
ghost use Rattle.cp_group_state.specs.Invariants.{IsRising};
ghost use Rattle.cp_session.specs.Tables as sessions;
ghost use Rattle.cp_group_ranges.specs.States.{IsSound};
ghost use Rattle.cp_state_bytes.specs.GroupRows.{state_of};

use crate::objects::{ObjectLists, objects_of};
use cp_base::{Items, NoMemory};
use cp_group_state::{MemoryRow, SessionRow, Waiter};
use cp_group_tables::GroupTables;
use cp_remembered::Memory;
use cp_session::Sessions;
use cp_state_bytes::GroupRows;
use cp_wait::Waits;
use std::alloc::Global;

/// The table of these sessions.
fn sessions_of(alloc: Global, rows: Items<(u64, SessionRow)>) -> Result<Sessions, NoMemory>
    requires { sessions.IsTable rows }
    ensures { IfOk result (λ sessions. sessions ≡ rows) }
{
    match Sessions::from_rows(alloc, rows)? {
        Some(sessions) => Ok(sessions),
        None => unreachable!(),
    }
}

/// What is remembered of calls, out of these rows.
fn memory_of(alloc: Global, rows: Items<((u64, u8), MemoryRow)>) -> Result<Memory, NoMemory>
    requires { IsRising holder_cmp rows }
    ensures { IfOk result (λ memory. memory ≡ rows) }
{
    match Memory::from_rows(alloc, rows)? {
        Some(memory) => Ok(memory),
        None => unreachable!(),
    }
}

/// The calls that wait, out of these rows. Of rows that are few enough, and no two of one call, the only fault is want
/// of memory.
fn waits_of(alloc: Global, rows: Items<Waiter>) -> Result<Waits, NoMemory>
    ensures { IfOk result (λ waits. waits ≡ rows) }
{
    match Waits::from_rows(alloc, rows) {
        Ok(waits) => Ok(waits),
        Err(_) => Err(NoMemory),
    }
}

/// The tables of the rows of a sound state.
pub fn tables_of(alloc: Global, rows: GroupRows) -> Result<GroupTables, NoMemory>
    requires { IsSound (state_of rows) }
    ensures { IfOk result (λ tables. tables ≡ state_of rows) }
{
    let sessions = sessions_of(alloc, rows.sessions)?;
    let objects = objects_of(
        alloc,
        ObjectLists {
            locks: rows.locks,
            semaphores: rows.semaphores,
            holdings: rows.holdings,
            latches: rows.latches,
            longs: rows.longs,
            refs: rows.refs,
            maps: rows.maps,
            gone: rows.gone,
        },
    )?;
    let waits = waits_of(alloc, rows.waiters)?;
    let memory = memory_of(alloc, rows.memory)?;
    Ok(GroupTables::from_tables(
        alloc,
        rows.destroyed_group,
        sessions,
        objects,
        waits,
        memory,
    ))
}
