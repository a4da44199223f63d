//! The tables of a group's state, lent.
use cp_base::{GroupId, Items, Name};
use cp_group_state::{LockRow, MemoryRow, SemaphoreRow, SessionRow, Waiter};
use cp_latch::Latch;
use cp_map::Key;
use cp_op_values::Kind;
use std::collections::BTreeMap;

/// The tables of a group's state, lent to be written.
pub struct LentState<'a> {
    /// The number of the group where it was destroyed, else 0.
    pub destroyed_group: GroupId,
    pub sessions: &'a BTreeMap<u64, SessionRow>,
    pub locks: &'a BTreeMap<Name, LockRow>,
    pub semaphores: &'a BTreeMap<(Name, Kind), SemaphoreRow>,
    /// How many permits sessions hold, under the session and the semaphore's name.
    pub holdings: &'a BTreeMap<u64, BTreeMap<Name, u64>>,
    pub latches: &'a BTreeMap<Name, Latch>,
    pub longs: &'a BTreeMap<Name, i64>,
    pub refs: &'a BTreeMap<Name, Option<Items<u8>>>,
    /// The objects that were destroyed.
    pub gone: &'a BTreeMap<(Name, Kind), ()>,
    /// In order of arrival.
    pub waiters: &'a [Waiter],
    /// Under the session and its thread.
    pub memory: &'a BTreeMap<(u64, u8), MemoryRow>,
    /// Under the map's name and the key.
    pub maps: &'a BTreeMap<(Name, Key), Items<u8>>,
}
