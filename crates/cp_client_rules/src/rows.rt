//! What a client keeps of its threads, its sessions and the locks that it holds.

use cp_base::GroupId;
use cp_events::UserOp;

/// What a thread is about.
#[derive(Clone, Debug, PartialEq, Eq, Drop)]
pub enum Task {
    /// A call of its user.
    Calls(UserOp),
    /// A beat that keeps this session alive, on thread 0 alone.
    Beats(u64),
}

/// What the open request of a thread is for.
#[derive(Clone, Copy, Debug, PartialEq, Eq)]
pub enum Purpose {
    /// It asks for the session that the call needs.
    ForSession,
    /// It asks for the round of the latch that the call counts down.
    ForRound,
    /// It is for the task itself, in this session, or 0 where it needs none.
    ForItself(u64),
}

/// The open request of a thread.
#[derive(Clone, Debug, PartialEq, Eq, Drop)]
pub struct Pending {
    /// The group to which it goes.
    pub group: GroupId,
    pub task: Task,
    pub purpose: Purpose,
    /// The clock at which the call ends without an answer. A call that waits as long as it takes has none.
    pub deadline: Option<u64>,
}

/// A thread of a client.
#[derive(Clone, Debug, PartialEq, Eq, Drop)]
pub struct Thread {
    /// The number that its last request took.
    pub number: u64,
    pub pending: Option<Pending>,
}

/// The client's session in a group.
#[derive(Clone, Copy, Debug, PartialEq, Eq)]
pub struct OwnSession {
    pub id: u64,
    /// The clock at its last beat, or when it was opened.
    pub beat: u64,
}

/// What a thread knows of a lock that it holds: in which session, and how often.
#[derive(Clone, Copy, Debug, PartialEq, Eq)]
pub struct HoldRecord {
    pub session: u64,
    pub holds: u64,
}
