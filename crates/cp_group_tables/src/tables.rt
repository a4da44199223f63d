//! The tables of a group.
ghost use Rattle.std.specs.Prelude.{◌≡◌, IfOk};
ghost use Rattle.cp_group_state.specs.GroupState.{empty};

use cp_atomic::{Longs, Refs};
use cp_base::{GroupId, NoMemory};
use cp_latch::Latches;
use cp_lock::Locks;
use cp_map::Maps;
use cp_remembered::{Gone, Memory};
use cp_semaphore::Semaphores;
use cp_session::Sessions;
use cp_wait::Waits;
use std::alloc::Global;
use std::marker::Model;

/// The tables of a group: its sessions, its objects, the calls that wait, and what is remembered of calls. Contracts
/// see the state that they hold. After want of memory in a call that changes them, tables are only dropped.
#[derive(Drop)]
pub struct GroupTables {
    pub(crate) alloc: Global,
    pub(crate) destroyed_group: GroupId,
    pub(crate) sessions: Sessions,
    pub(crate) locks: Locks,
    pub(crate) semaphores: Semaphores,
    pub(crate) latches: Latches,
    pub(crate) longs: Longs,
    pub(crate) refs: Refs,
    pub(crate) maps: Maps,
    pub(crate) gone: Gone,
    pub(crate) waits: Waits,
    pub(crate) memory: Memory,
}

impl Model for GroupTables {
    ghost use Rattle.cp_group_state.specs.GroupState.{GroupState};

    ghost Value = { GroupState };

    ghost view = { λ t. record {
      destroyed_group = t.destroyed_group;
      sessions = t.sessions;
      locks = t.locks;
      semaphores = t.semaphores;
      latches = t.latches;
      longs = t.longs;
      refs = t.refs;
      maps = t.maps;
      gone = t.gone;
      waiters = t.waits;
      memory = t.memory;
    } };
}

impl GroupTables {
    /// The tables of a group to which no entry was applied.
    pub fn new(alloc: Global) -> Result<GroupTables, NoMemory>
        ensures { IfOk result (λ tables. tables ≡ empty) }
    {
        Ok(GroupTables {
            alloc,
            destroyed_group: GroupId(0),
            sessions: Sessions::new(alloc)?,
            locks: Locks::new(alloc)?,
            semaphores: Semaphores::new(alloc)?,
            latches: Latches::new(alloc)?,
            longs: Longs::new(alloc)?,
            refs: Refs::new(alloc)?,
            maps: Maps::new(alloc)?,
            gone: Gone::new(alloc)?,
            waits: Waits::new(alloc)?,
            memory: Memory::new(alloc)?,
        })
    }
}
