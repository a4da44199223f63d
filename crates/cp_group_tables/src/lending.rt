//! The tables of a group, lent and put together.
ghost use Rattle.std.specs.Prelude.{◌≡◌};

use crate::tables::GroupTables;
use cp_atomic::{Longs, Refs};
use cp_base::GroupId;
use cp_latch::Latches;
use cp_lock::Locks;
use cp_map::Maps;
use cp_remembered::{Gone, Memory};
use cp_semaphore::Semaphores;
use cp_session::Sessions;
use cp_wait::Waits;
use std::alloc::Global;

/// The objects of a group, kind by kind.
#[derive(Drop)]
pub struct ObjectTables {
    pub locks: Locks,
    pub semaphores: Semaphores,
    pub latches: Latches,
    pub longs: Longs,
    pub refs: Refs,
    pub maps: Maps,
    pub gone: Gone,
}

impl GroupTables {
    /// Puts tables together.
    pub fn from_tables(
        alloc: Global,
        destroyed_group: GroupId,
        sessions: Sessions,
        objects: ObjectTables,
        waits: Waits,
        memory: Memory,
    ) -> GroupTables
        ensures { result ≡ record {
          destroyed_group = destroyed_group;
          sessions = sessions;
          locks = objects.locks;
          semaphores = objects.semaphores;
          latches = objects.latches;
          longs = objects.longs;
          refs = objects.refs;
          maps = objects.maps;
          gone = objects.gone;
          waiters = waits;
          memory = memory;
        } }
    {
        GroupTables {
            alloc,
            destroyed_group,
            sessions,
            locks: objects.locks,
            semaphores: objects.semaphores,
            latches: objects.latches,
            longs: objects.longs,
            refs: objects.refs,
            maps: objects.maps,
            gone: objects.gone,
            waits,
            memory,
        }
    }

    /// The number of the group where it was destroyed, else 0.
    pub fn destroyed_group(&self) -> GroupId
        ensures { result ≡ self.now.destroyed_group }
    {
        self.destroyed_group
    }

    /// The sessions, lent.
    pub fn sessions(&self) -> &Sessions
        ensures { result.now ≡ self.now.sessions }
    {
        &self.sessions
    }

    /// The locks, lent.
    pub fn locks(&self) -> &Locks
        ensures { result.now ≡ self.now.locks }
    {
        &self.locks
    }

    /// The semaphores, lent.
    pub fn semaphores(&self) -> &Semaphores
        ensures { result.now ≡ self.now.semaphores }
    {
        &self.semaphores
    }

    /// The latches, lent.
    pub fn latches(&self) -> &Latches
        ensures { result.now ≡ self.now.latches }
    {
        &self.latches
    }

    /// The longs, lent.
    pub fn longs(&self) -> &Longs
        ensures { result.now ≡ self.now.longs }
    {
        &self.longs
    }

    /// The references, lent.
    pub fn refs(&self) -> &Refs
        ensures { result.now ≡ self.now.refs }
    {
        &self.refs
    }

    /// The maps, lent.
    pub fn maps(&self) -> &Maps
        ensures { result.now ≡ self.now.maps }
    {
        &self.maps
    }

    /// The objects that were destroyed, lent.
    pub fn gone(&self) -> &Gone
        ensures { result.now ≡ self.now.gone }
    {
        &self.gone
    }

    /// The calls that wait, lent.
    pub fn waits(&self) -> &Waits
        ensures { result.now ≡ self.now.waiters }
    {
        &self.waits
    }

    /// What is remembered of calls, lent.
    pub fn memory(&self) -> &Memory
        ensures { result.now ≡ self.now.memory }
    {
        &self.memory
    }
}
