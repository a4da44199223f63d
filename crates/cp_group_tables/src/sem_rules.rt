//! What the calls on semaphores do.
ghost use Rattle.std.specs.Prelude.{◌≡◌, ◌++◌, false, IfOk, OnOk};
ghost use Rattle.cp_group_state.specs.GroupState.{GroupState};
ghost use Rattle.cp_group_state.specs.Changes.{stay};
ghost use Rattle.cp_group_state.specs.SemaphoreRules.{is_acquire, is_behind, sem_rule, sem_wait};
ghost use Rattle.cp_group_state.specs.Apply.{told};

use crate::tables::GroupTables;
use crate::waiting::wait;
use cp_base::{Invocation, Items, Name, NoMemory};
use cp_group_state::{Reply, SemOutcome, Waiter};
use cp_ops::{Answer, Kind, SemOp};

fn is_acquire(op: &SemOp) -> bool
    ensures { result ≡ is_acquire op.now }
{
    match op {
        SemOp::Acquire(_, _, _) => true,
        SemOp::Available
        | SemOp::Init(_)
        | SemOp::Release(_, _)
        | SemOp::Drain(_)
        | SemOp::Increase(_, _)
        | SemOp::Reduce(_, _) => false,
    }
}

/// An acquire that can't go on waits, unless it doesn't wish to.
fn sem_wait(call: &Invocation, kind: Kind, name: &Name, op: &SemOp) -> Result<Reply, NoMemory>
    ensures stays { OnOk result ((s : GroupState) → (sem_wait call.now (name.now, kind) op.now s).change ≡ stay s) }
    ensures reply { IfOk result (λ reply. (s : GroupState) → reply ≡ (sem_wait call.now (name.now, kind) op.now s).reply) }
{
    match *op {
        SemOp::Acquire(session, permits, wish) => {
            let name = name.clone()?;
            Ok(wait(Waiter {
                call: *call,
                kind,
                name,
                session,
                permits,
                wish,
            }))
        }
        SemOp::Available
        | SemOp::Init(_)
        | SemOp::Release(_, _)
        | SemOp::Drain(_)
        | SemOp::Increase(_, _)
        | SemOp::Reduce(_, _) => Ok(Reply::Answered(Answer::NotInitialized)),
    }
}

impl GroupTables {
    /// Whether an acquire comes behind a waiter.
    fn is_behind(&self, kind: Kind, name: &Name, op: &SemOp) -> Result<bool, NoMemory>
        ensures { IfOk result (λ behind. behind ≡ is_behind (name.now, kind) op.now self.now) }
    {
        if !is_acquire(op) {
            return Ok(false);
        }
        if self.waits.first(kind, name).is_none() {
            return Ok(false);
        }
        let available = self.semaphores.available(kind, name)?;
        Ok(available.is_some())
    }

    /// What a call on a semaphore does where it doesn't come behind a waiter.
    #[tactic(auto, using(crate::proofs::RuleCases::wants_stay))]
    fn sem_step(
        &mut self,
        call: &Invocation,
        kind: Kind,
        name: &Name,
        op: &SemOp,
        out: &mut Items<(Invocation, Answer)>,
    ) -> Result<Reply, NoMemory>
        requires { is_behind (name.now, kind) op.now self.old ≡ false }
        ensures state { OnOk result (self.new ≡ (sem_rule call.now (name.now, kind) op.now self.old).change.state) }
        ensures told { OnOk result (out.new ≡ out.old ++ told (sem_rule call.now (name.now, kind) op.now self.old).change.ended) }
        ensures reply { IfOk result (λ reply. reply ≡ (sem_rule call.now (name.now, kind) op.now self.old).reply) }
    {
        match self.semaphores.apply(kind, name, op)? {
            SemOutcome::Done(answer) => Ok(Reply::Answered(answer)),
            SemOutcome::Wants => {
                let reply = sem_wait(call, kind, name, op)?;
                Ok(reply)
            }
            SemOutcome::Served(answer, _available) => {
                self.serve(kind, name, out)?;
                Ok(Reply::Answered(answer))
            }
        }
    }

    /// What a call on a semaphore does.
    pub(crate) fn sem_rule(
        &mut self,
        call: &Invocation,
        kind: Kind,
        name: &Name,
        op: &SemOp,
        out: &mut Items<(Invocation, Answer)>,
    ) -> Result<Reply, NoMemory>
        ensures state { OnOk result (self.new ≡ (sem_rule call.now (name.now, kind) op.now self.old).change.state) }
        ensures told { OnOk result (out.new ≡ out.old ++ told (sem_rule call.now (name.now, kind) op.now self.old).change.ended) }
        ensures reply { IfOk result (λ reply. reply ≡ (sem_rule call.now (name.now, kind) op.now self.old).reply) }
    {
        if self.is_behind(kind, name, op)? {
            let reply = sem_wait(call, kind, name, op)?;
            Ok(reply)
        } else {
            let reply = self.sem_step(call, kind, name, op, out)?;
            Ok(reply)
        }
    }
}
