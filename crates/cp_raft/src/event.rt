//! What comes to a member of a group.

use cp_base::{Invocation, Items};
use cp_message::Message;
use cp_rules::Change;

/// What comes to a member of a group.
#[derive(Debug, Drop)]
pub enum RaftEvent {
    /// The clock moves.
    Tick {
        now: u64,
        /// Whether the member may write in this step.
        may_write: bool,
        /// An entry that names what is due.
        expiry: Option<Items<u8>>,
        /// The bytes of the state machine at the commit, where a snapshot is due.
        snapshot: Option<Items<u8>>,
    },
    /// A message of another member of the group.
    Got(Message),
    /// An entry to append.
    Propose(Items<u8>),
    /// A change of members, with the number of the plan that it follows, or 0, and the call that asked for it.
    Change(Change, u64, Option<Invocation>),
    /// A call that reads, its attempt, and what it reads.
    Look(Invocation, u64, Items<u8>),
}
