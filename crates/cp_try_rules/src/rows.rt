//! What a client keeps of its threads, and of the tries of their requests.

use cp_base::GroupId;
use cp_client_rules::Task;
use cp_ops::Op;

/// What the open request of a thread is for.
#[derive(Clone, Copy, Debug, PartialEq, Eq)]
pub enum Purpose {
    /// It asks METADATA for the group that the call names.
    ForGroup,
    /// It asks for the session that the call needs.
    ForSession,
    /// It asks for the round of the latch that the call counts down.
    ForRound,
    /// It is for the task itself, in this session, or 0 where it needs none.
    ForItself(u64),
}

/// The open request of a thread.
#[derive(Clone, Debug, PartialEq, Eq, Drop)]
pub struct Pending {
    /// The group to which it goes.
    pub group: GroupId,
    /// What it asks, session and round among it. Each try of it says the same.
    pub op: Op,
    pub task: Task,
    pub purpose: Purpose,
    /// The clock at which the call ends without an answer. A call that waits as long as it takes has none.
    pub deadline: Option<u64>,
}

/// A thread of a client.
#[derive(Clone, Debug, PartialEq, Eq, Drop)]
pub struct Thread {
    /// The number that its last request took.
    pub number: u64,
    pub pending: Option<Pending>,
}

/// How a request was tried last: to which member, and at which clock.
#[derive(Clone, Copy, Debug, PartialEq, Eq)]
pub enum Try {
    /// The member was asked for its restart number.
    Hello(u8, u64),
    /// The request went to the member, in its start of this number.
    Attempt(u8, u64, u64),
}

/// The tries of a thread.
#[derive(Clone, Copy, Debug, PartialEq, Eq)]
pub struct Tried {
    /// The number of the thread's last attempt, whatever request it was of.
    pub attempt: u64,
    /// How the thread's last request was tried last.
    pub last: Option<Try>,
    /// The clock since which that request waits before it is tried again.
    pub paused: Option<u64>,
}
