//! The rows of a group's lists.
use cp_base::{ClientId, Invocation, Items, Name, ThreadNo};
use cp_ops::{Answer, Kind, Wish};

/// A thread of a session, which holds a lock.
#[derive(Clone, Copy, Debug, PartialEq, Eq)]
pub struct Holder {
    pub session: u64,
    pub thread: ThreadNo,
}

/// A session, under its number: whose it is, and how many beats it had.
#[derive(Clone, Copy, Debug, PartialEq, Eq)]
pub struct SessionRow {
    pub client: ClientId,
    pub version: u64,
}

/// A lock, under its name. Without holds every number in it is 0.
#[derive(Clone, Copy, Debug, PartialEq, Eq)]
pub struct LockRow {
    pub holder: Holder,
    pub fence: u64,
    pub holds: u32,
}

/// A semaphore, under its name and kind: all its permits, and those that nobody holds.
#[derive(Clone, Copy, Debug, PartialEq, Eq)]
pub struct SemaphoreRow {
    pub total: i64,
    pub available: i64,
}

/// A latch, under its name: how many countdowns its round still needs, and the calls that were counted in it.
#[derive(Clone, Debug, PartialEq, Eq, Drop)]
pub struct LatchRow {
    pub round: u64,
    pub count: u32,
    pub counted: Items<Invocation>,
}

/// A call that waits for an object.
#[derive(Clone, Debug, PartialEq, Eq, Drop)]
pub struct Waiter {
    pub call: Invocation,
    pub kind: Kind,
    pub name: Name,
    pub session: u64,
    pub permits: u32,
    pub wish: Wish,
}

/// The last call that a thread made in a session, with its answer, or none while the call waits.
#[derive(Clone, Debug, PartialEq, Eq, Drop)]
pub struct MemoryRow {
    pub number: u64,
    pub answer: Option<Answer>,
}
