//! What ends when its time is over.
use cp_base::Invocation;

/// What ends when its time is over.
#[derive(Clone, Copy, Debug, PartialEq, Eq)]
pub enum Timed {
    /// A session, and the version that it must still have.
    Session(u64, u64),
    /// A call that waits.
    Wait(Invocation),
}

/// What ends, and after how many milliseconds, at most 2^32 - 1.
#[derive(Clone, Copy, Debug, PartialEq, Eq)]
pub struct Timer {
    pub what: Timed,
    pub after: u64,
}
