//! The rows of a group's state.
use cp_base::{GroupId, Items, Name};
use cp_group_state::{LatchRow, LockRow, MemoryRow, SemaphoreRow, SessionRow, Waiter};
use cp_map::Key;
use cp_op_values::Kind;

/// The rows of a group's state, list by list, as they are read from bytes.
#[derive(Debug, Drop)]
pub struct GroupRows {
    /// The number of the group where it was destroyed, else 0.
    pub destroyed_group: GroupId,
    /// By rising number.
    pub sessions: Items<(u64, SessionRow)>,
    /// By rising name.
    pub locks: Items<(Name, LockRow)>,
    /// By rising name and kind.
    pub semaphores: Items<((Name, Kind), SemaphoreRow)>,
    /// How many permits a session holds of a semaphore, by rising session and name.
    pub holdings: Items<((u64, Name), u64)>,
    /// By rising name.
    pub latches: Items<(Name, LatchRow)>,
    /// By rising name.
    pub longs: Items<(Name, i64)>,
    /// By rising name.
    pub refs: Items<(Name, Option<Items<u8>>)>,
    /// The objects that were destroyed, by rising name and kind.
    pub gone: Items<((Name, Kind), ())>,
    /// In order of arrival.
    pub waiters: Items<Waiter>,
    /// By rising session and thread.
    pub memory: Items<((u64, u8), MemoryRow)>,
    /// The pairs of maps, by rising name and key.
    pub maps: Items<((Name, Key), Items<u8>)>,
}
