//! What comes to a client, and what it sends.

use cp_answers::{Answer, Refusal};
use cp_base::{GroupId, Invocation, ThreadNo};
use cp_events::UserOp;
use cp_ops::Op;

/// What happens at a client.
#[derive(Debug, Drop)]
pub enum Event {
    /// A thread begins a call.
    Calls(ThreadNo, UserOp),
    /// The clock moves by so many milliseconds.
    Passes(u64),
    /// A member tells its restart number.
    Welcomed(u8, u64),
    /// The request of this number that a thread made to a group is answered.
    Answered(ThreadNo, GroupId, u64, Answer),
    /// This attempt of a thread is refused, of its request of this number to a group: the thread, the attempt, the group,
    /// the number.
    Refused(ThreadNo, u64, GroupId, u64, Refusal),
}

/// A request that begins.
#[derive(Debug, Drop)]
pub struct Asked {
    /// The group to which it goes.
    pub group: GroupId,
    pub call: Invocation,
    pub op: Op,
}

/// What a client says to a member.
#[derive(Debug, Drop)]
pub enum Says {
    /// It asks for the member's restart number.
    Hello,
    /// It asks what a request asks: with the number of this attempt among those of the thread, of the member in its start
    /// of this number.
    Asks(u64, u64, Asked),
}

/// What a client sends, and to which member.
#[derive(Debug, Drop)]
pub struct Sent {
    pub to: u8,
    pub says: Says,
}
