//! A call that a thread has begun.
ghost use Rattle.std.specs.Prelude.{◌≡◌};
ghost use Rattle.cp_client_rules.specs.Calls.{pending_of};
ghost use Rattle.cp_client.specs.Calling.{call_of};

use cp_base::{GroupId, ThreadNo};
use cp_client_rules::{Pending, Purpose, Task};
use cp_events::UserOp;

/// A call that a thread has begun.
#[derive(Drop)]
pub struct Call {
    pub thread: ThreadNo,
    /// The group that it goes to.
    pub group: GroupId,
    pub op: UserOp,
    /// The clock at which it ends without an answer.
    pub deadline: Option<u64>,
}

/// The open request of a call.
pub fn pending_of(call: Call, purpose: Purpose) -> Pending
    ensures { result ≡ pending_of (call_of call) purpose }
{
    Pending {
        group: call.group,
        task: Task::Calls(call.op),
        purpose,
        deadline: call.deadline,
    }
}
