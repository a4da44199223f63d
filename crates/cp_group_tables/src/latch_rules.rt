//! What the calls on latches do.
ghost use Rattle.std.specs.Prelude.{◌≡◌, ◌++◌, IfOk, OnOk};
ghost use Rattle.cp_group_state.specs.GroupState.{GroupState};
ghost use Rattle.cp_group_state.specs.Changes.{stay};
ghost use Rattle.cp_group_state.specs.LatchRules.{latch_rule, latch_wait};
ghost use Rattle.cp_group_state.specs.Apply.{told};

use crate::ending::Ending;
use crate::tables::GroupTables;
use crate::waiting::wait;
use cp_base::{Invocation, Items, Name, NoMemory};
use cp_group_state::{LatchOutcome, Reply, Waiter};
use cp_ops::{Answer, Kind, LatchOp, Wish};

/// A call that awaits the latch waits, unless it doesn't wish to.
fn latch_wait(call: &Invocation, name: &Name, op: &LatchOp) -> Result<Reply, NoMemory>
    ensures stays { OnOk result ((s : GroupState) → (latch_wait call.now name.now op.now s).change ≡ stay s) }
    ensures reply { IfOk result (λ reply. (s : GroupState) → reply ≡ (latch_wait call.now name.now op.now s).reply) }
{
    match *op {
        LatchOp::Await(millis) => {
            let name = name.clone()?;
            Ok(wait(Waiter {
                call: *call,
                kind: Kind::Latch,
                name,
                session: 0,
                permits: 0,
                wish: Wish::Within(millis),
            }))
        }
        LatchOp::Count | LatchOp::Round | LatchOp::Set(_) | LatchOp::Down(_) => {
            Ok(Reply::Answered(Answer::Ok))
        }
    }
}

impl GroupTables {
    /// What a call on a latch does.
    pub(crate) fn latch_rule(
        &mut self,
        call: &Invocation,
        name: &Name,
        op: &LatchOp,
        out: &mut Items<(Invocation, Answer)>,
    ) -> Result<Reply, NoMemory>
        ensures state { OnOk result (self.new ≡ (latch_rule call.now name.now op.now self.old).change.state) }
        ensures told { OnOk result (out.new ≡ out.old ++ told (latch_rule call.now name.now op.now self.old).change.ended) }
        ensures reply { IfOk result (λ reply. reply ≡ (latch_rule call.now name.now op.now self.old).reply) }
    {
        match self.latches.apply(name, call, op)? {
            LatchOutcome::Done(answer) => Ok(Reply::Answered(answer)),
            LatchOutcome::Wants => {
                let reply = latch_wait(call, name, op)?;
                Ok(reply)
            }
            LatchOutcome::Opened => {
                self.end_on_object(Kind::Latch, name, Ending::Opened, out)?;
                Ok(Reply::Answered(Answer::Ok))
            }
        }
    }
}
