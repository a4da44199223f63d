//! The bytes of a group's tables, and tables out of them.
ghost use Rattle.std.specs.Prelude.{◌≡◌, ◌++◌, Ok, IfOk, OnOk, OnErr};
ghost use Rattle.cp_state_bytes.specs.States.{restored, spelled};
ghost use Rattle.cp_group_ranges.specs.States.{IsSound};
ghost use Rattle.cp_resource.specs.Restoring.{RestoresTables};

use crate::tables_of;
use cp_base::NoMemory;
use cp_grammar::ReadError;
use cp_group_tables::GroupTables;
use cp_state_bytes::LentState;
use std::alloc::Global;

/// Appends bytes that restore to the tables' state, or leaves `out`.
pub(crate) fn write_tables(tables: &GroupTables, out: &mut Vec<u8>) -> Result<(), NoMemory>
    requires { IsSound tables.now }
    ensures bytes { OnOk result (out.new.items ≡ out.old.items ++ spelled tables.now) }
    ensures back { OnOk result (restored (spelled tables.now) ≡ Ok tables.now) }
    ensures err { OnErr result (out.new.items ≡ out.old.items) }
{
    let waiters = match tables.waits().all() {
        Ok(waiters) => waiters,
        Err(NoMemory) => return Err(NoMemory),
    };
    let lent = LentState {
        destroyed_group: tables.destroyed_group(),
        sessions: tables.sessions().rows(),
        locks: tables.locks().rows(),
        semaphores: tables.semaphores().rows(),
        holdings: tables.semaphores().holdings(),
        latches: tables.latches().rows(),
        longs: tables.longs().rows(),
        refs: tables.refs().rows(),
        gone: tables.gone().rows(),
        waiters: waiters.as_slice(),
        memory: tables.memory().rows(),
        maps: tables.maps().rows(),
    };
    let written = cp_state_bytes::write(&lent, out);
    let LentState {
        destroyed_group: _,
        sessions: _,
        locks: _,
        semaphores: _,
        holdings: _,
        latches: _,
        longs: _,
        refs: _,
        gone: _,
        waiters: _,
        memory: _,
        maps: _,
    } = lent;
    written
}

/// The tables of the state that the bytes restore, which is sound; or why they restore none.
pub(crate) fn read_tables(alloc: Global, bytes: &[u8]) -> Result<GroupTables, ReadError>
    ensures exact { RestoresTables result (restored bytes.now) }
    ensures sound { IfOk result (λ tables. IsSound tables) }
{
    match cp_state_bytes::read(alloc, bytes) {
        Ok(rows) => match tables_of(alloc, rows) {
            Ok(tables) => Ok(tables),
            Err(NoMemory) => Err(ReadError::NoMemory),
        },
        Err(error) => Err(error),
    }
}
