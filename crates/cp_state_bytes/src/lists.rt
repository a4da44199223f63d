//! Readers of lists.
ghost use Rattle.cp_grammar.specs.Readers.{Reads};
ghost use Rattle.cp_state_bytes.specs.Lists.{session_list, lock_list, semaphore_list, long_list, ref_list, gone_list, waiter_list, memory_list, pair_list};

use crate::row::take_rows;
use crate::version::Version;
use cp_base::limits::MOST_ROWS;
use cp_base::{Items, Name};
use cp_grammar::Stop;
use cp_group_state::{LockRow, MemoryRow, SemaphoreRow, SessionRow, Waiter};
use cp_map::Key;
use cp_op_values::Kind;
use std::alloc::Global;

/// The sessions by rising number, and the bytes after them.
#[tactic(auto, unfolding(crate::specs::Lists::session_list))]
pub fn take_sessions(alloc: Global, bytes: &[u8]) -> Result<(Items<(u64, SessionRow)>, &[u8]), Stop>
    ensures { Reads result (session_list.reading bytes.now) }
{
    take_rows(alloc, Version::Third, MOST_ROWS, bytes)
}

/// The locks by rising name, and the bytes after them.
#[tactic(auto, unfolding(crate::specs::Lists::lock_list))]
pub fn take_locks(alloc: Global, bytes: &[u8]) -> Result<(Items<(Name, LockRow)>, &[u8]), Stop>
    ensures { Reads result (lock_list.reading bytes.now) }
{
    take_rows(alloc, Version::Third, MOST_ROWS, bytes)
}

/// The semaphores by rising name and kind, and the bytes after them.
#[tactic(auto, unfolding(crate::specs::Lists::semaphore_list))]
pub fn take_semaphores(
    alloc: Global,
    bytes: &[u8],
) -> Result<(Items<((Name, Kind), SemaphoreRow)>, &[u8]), Stop>
    ensures { Reads result (semaphore_list.reading bytes.now) }
{
    take_rows(alloc, Version::Third, MOST_ROWS, bytes)
}

/// The longs by rising name, and the bytes after them.
#[tactic(auto, unfolding(crate::specs::Lists::long_list))]
pub fn take_longs(alloc: Global, bytes: &[u8]) -> Result<(Items<(Name, i64)>, &[u8]), Stop>
    ensures { Reads result (long_list.reading bytes.now) }
{
    take_rows(alloc, Version::Third, MOST_ROWS, bytes)
}

/// The references by rising name, and the bytes after them.
#[tactic(auto, unfolding(crate::specs::Lists::ref_list))]
pub fn take_refs(
    alloc: Global,
    version: Version,
    bytes: &[u8],
) -> Result<(Items<(Name, Option<Items<u8>>)>, &[u8]), Stop>
    ensures { Reads result ((ref_list version).reading bytes.now) }
{
    take_rows(alloc, version, MOST_ROWS, bytes)
}

/// The destroyed objects by rising name and kind, and the bytes after them.
#[tactic(auto, unfolding(crate::specs::Lists::gone_list))]
pub fn take_gone(
    alloc: Global,
    version: Version,
    bytes: &[u8],
) -> Result<(Items<((Name, Kind), ())>, &[u8]), Stop>
    ensures { Reads result ((gone_list version).reading bytes.now) }
{
    take_rows(alloc, version, MOST_ROWS, bytes)
}

/// The calls that wait, in order of arrival, and the bytes after them.
#[tactic(auto, unfolding(crate::specs::Lists::waiter_list))]
pub fn take_waiters(alloc: Global, bytes: &[u8]) -> Result<(Items<Waiter>, &[u8]), Stop>
    ensures { Reads result (waiter_list.reading bytes.now) }
{
    take_rows(alloc, Version::Third, MOST_ROWS, bytes)
}

/// What is remembered of the threads of sessions, by rising session and thread, and the bytes after them.
#[tactic(auto, unfolding(crate::specs::Lists::memory_list))]
pub fn take_memory(
    alloc: Global,
    version: Version,
    bytes: &[u8],
) -> Result<(Items<((u64, u8), MemoryRow)>, &[u8]), Stop>
    ensures { Reads result ((memory_list version).reading bytes.now) }
{
    take_rows(alloc, version, u32::MAX, bytes)
}

/// The pairs of maps by rising name and key, and the bytes after them. There are none before the third version.
#[tactic(auto, unfolding(crate::specs::Lists::pair_list))]
pub fn take_pairs(
    alloc: Global,
    version: Version,
    bytes: &[u8],
) -> Result<(Items<((Name, Key), Items<u8>)>, &[u8]), Stop>
    ensures { Reads result ((pair_list version).reading bytes.now) }
{
    match version {
        Version::First => Ok((Items::new(alloc), bytes)),
        Version::Second => Ok((Items::new(alloc), bytes)),
        Version::Third => take_rows(alloc, Version::Third, MOST_ROWS, bytes),
    }
}
