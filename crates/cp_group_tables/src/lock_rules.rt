//! What the calls on locks do.
ghost use Rattle.std.specs.Prelude.{◌≡◌, ◌++◌, [], IfOk, OnOk};
ghost use Rattle.cp_object_ops.specs.declared.lock_op.LockOp.TheVariants as lock;
ghost use Rattle.cp_group_state.specs.LockRules.{lock_rule, owner_answer};
ghost use Rattle.cp_group_state.specs.declared.outcome.Reply.TheVariants.{Answered};
ghost use Rattle.cp_group_state.specs.Apply.{told};

use crate::tables::GroupTables;
use crate::waiting::wait;
use cp_base::{Invocation, Items, Name, NoMemory};
use cp_group_state::{Holder, LockRow, Released, Reply, Taken, Waiter};
use cp_lock::LockError;
use cp_ops::{Answer, Kind, LockOp, Wish};

/// Who owns the lock.
pub fn owner_answer(row: &LockRow) -> Answer
    ensures { result ≡ owner_answer row.now }
{
    if row.holds == 0 {
        Answer::Free
    } else {
        Answer::Held(row.holder.session, row.holder.thread, row.holds, row.fence)
    }
}

impl GroupTables {
    /// The call asks for the lock, and waits where another holder owns it.
    #[tactic(auto, using(crate::proofs::RuleCases::full_locks_stay))]
    fn acquire(
        &mut self,
        index: u64,
        call: &Invocation,
        name: &Name,
        session: u64,
        limit: u32,
        wish: Wish,
    ) -> Result<Reply, NoMemory>
        ensures state { OnOk result
            (self.new ≡ (lock_rule index call.now name.now (lock.Acquire session limit wish) self.old).change.state) }
        ensures ended { OnOk result ((lock_rule index call.now name.now (lock.Acquire session limit wish) self.old).change.ended ≡ []) }
        ensures reply { IfOk result
            (λ reply. reply ≡ (lock_rule index call.now name.now (lock.Acquire session limit wish) self.old).reply) }
    {
        let who = Holder {
            session,
            thread: call.thread,
        };
        match self.locks.acquire(index, name, &who, limit) {
            Ok(Taken::Fence(fence)) => Ok(Reply::Answered(Answer::Fence(fence))),
            Ok(Taken::Limit(most)) => Ok(Reply::Answered(Answer::LimitReached(most))),
            Ok(Taken::Busy) => {
                let name = name.clone()?;
                Ok(wait(Waiter {
                    call: *call,
                    kind: Kind::Lock,
                    name,
                    session,
                    permits: 0,
                    wish,
                }))
            }
            Err(LockError::TableFull(most)) => Ok(Reply::Answered(Answer::TableFull(most))),
            Err(LockError::NoMemory) => Err(NoMemory),
        }
    }

    /// The call gives a hold back. A lock that is freed goes to its first waiter.
    fn release(
        &mut self,
        index: u64,
        call: &Invocation,
        name: &Name,
        session: u64,
        out: &mut Items<(Invocation, Answer)>,
    ) -> Result<Answer, NoMemory>
        ensures state { OnOk result (self.new ≡ (lock_rule index call.now name.now (lock.Release session) self.old).change.state) }
        ensures told { OnOk result
            (out.new ≡ out.old ++ told (lock_rule index call.now name.now (lock.Release session) self.old).change.ended) }
        ensures reply { IfOk result
            (λ answer. (lock_rule index call.now name.now (lock.Release session) self.old).reply ≡ Answered answer) }
    {
        let who = Holder {
            session,
            thread: call.thread,
        };
        match self.locks.release(name, &who) {
            Released::Freed => {
                self.hand_over(index, name, out)?;
                Ok(Answer::Ok)
            }
            Released::Kept => Ok(Answer::Ok),
            Released::NotOwner => Ok(Answer::NotOwner),
        }
    }

    /// What a call on a lock does.
    pub(crate) fn lock_rule(
        &mut self,
        index: u64,
        call: &Invocation,
        name: &Name,
        op: &LockOp,
        out: &mut Items<(Invocation, Answer)>,
    ) -> Result<Reply, NoMemory>
        ensures state { OnOk result (self.new ≡ (lock_rule index call.now name.now op.now self.old).change.state) }
        ensures told { OnOk result (out.new ≡ out.old ++ told (lock_rule index call.now name.now op.now self.old).change.ended) }
        ensures reply { IfOk result (λ reply. reply ≡ (lock_rule index call.now name.now op.now self.old).reply) }
    {
        match *op {
            LockOp::Owner => Ok(Reply::Answered(owner_answer(&self.locks.row(name)))),
            LockOp::Acquire(session, limit, wish) => {
                let reply = self.acquire(index, call, name, session, limit, wish)?;
                Ok(reply)
            }
            LockOp::Release(session) => {
                let answer = self.release(index, call, name, session, out)?;
                Ok(Reply::Answered(answer))
            }
        }
    }
}
