//! What the calls on the tables lead to.
use crate::rows::Waiter;
use cp_ops::Answer;

/// What an acquire of a lock leads to.
#[derive(Clone, Copy, Debug, PartialEq, Eq)]
pub enum Taken {
    /// The thread holds the lock, under this fence.
    Fence(u64),
    /// The thread has as many holds as it may, this many.
    Limit(u32),
    /// Another holder owns the lock.
    Busy,
}

/// What a release of a lock leads to.
#[derive(Clone, Copy, Debug, PartialEq, Eq)]
pub enum Released {
    /// The last hold was given back: the lock is free.
    Freed,
    /// The thread has one hold less, and owns the lock still.
    Kept,
    /// The thread doesn't own the lock.
    NotOwner,
}

/// What a call on a semaphore leads to.
#[derive(Debug, PartialEq, Eq, Drop)]
pub enum SemOutcome {
    /// This answer.
    Done(Answer),
    /// The call wants more permits than stand available.
    Wants,
    /// Permits came: this answer, and how many stand available then, for those who wait.
    Served(Answer, i64),
}

/// What a call on a latch leads to.
#[derive(Clone, Debug, PartialEq, Eq, Drop)]
pub enum LatchOutcome {
    /// An answer.
    Done(Answer),
    /// A wait, or `TimedOut` where the call may not wait.
    Wants,
    /// The answer `Ok`, with which the latch opens: all that wait for it are answered.
    Opened,
}

/// What the rule of an operation answers a call.
#[derive(Debug, Drop)]
pub enum Reply {
    /// This.
    Answered(Answer),
    /// Nothing yet: the call waits.
    Waits(Waiter),
}
