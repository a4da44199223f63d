//! What each operation does.
ghost use Rattle.std.specs.Prelude.{◌≡◌, ◌++◌, IfOk, OnOk};
ghost use Rattle.cp_group_state.specs.Maps.{map_step};
ghost use Rattle.cp_group_state.specs.Apply.{outcome, rule, told};

use crate::tables::GroupTables;
use cp_base::{Invocation, Items, Name, NoMemory};
use cp_group_state::Reply;
use cp_ops::{Answer, Kind, MapOp, Op};

impl GroupTables {
    /// What a call on a map does.
    fn map_rule(&mut self, name: &Name, op: &MapOp) -> Result<Answer, NoMemory>
        ensures state { OnOk result (self.new ≡ record self.old { maps = (map_step self.old.maps name.now op.now).after }) }
        ensures answer { IfOk result (λ answer. answer ≡ (map_step self.old.maps name.now op.now).answer) }
    {
        let answer = self.maps.apply(name, op)?;
        Ok(answer)
    }

    /// What an operation does on an object that was not destroyed.
    fn rule(
        &mut self,
        index: u64,
        call: &Invocation,
        op: &Op,
        out: &mut Items<(Invocation, Answer)>,
    ) -> Result<Reply, NoMemory>
        ensures state { OnOk result (self.new ≡ (rule index call.now op.now self.old).change.state) }
        ensures told { OnOk result (out.new ≡ out.old ++ told (rule index call.now op.now self.old).change.ended) }
        ensures reply { IfOk result (λ reply. reply ≡ (rule index call.now op.now self.old).reply) }
    {
        match op {
            Op::Lock(name, op) => {
                let reply = self.lock_rule(index, call, name, op, out)?;
                Ok(reply)
            }
            Op::Sem(name, op) => {
                let reply = self.sem_rule(call, Kind::Sem, name, op, out)?;
                Ok(reply)
            }
            Op::Jsem(name, op) => {
                let reply = self.sem_rule(call, Kind::Jsem, name, op, out)?;
                Ok(reply)
            }
            Op::Latch(name, op) => {
                let reply = self.latch_rule(call, name, op, out)?;
                Ok(reply)
            }
            Op::Long(name, op) => {
                let answer = self.longs.apply(name, op)?;
                Ok(Reply::Answered(answer))
            }
            Op::Ref(name, op) => {
                let answer = self.refs.apply(name, op)?;
                Ok(Reply::Answered(answer))
            }
            Op::Map(name, op) => {
                let answer = self.map_rule(name, op)?;
                Ok(Reply::Answered(answer))
            }
            Op::Session(op) => {
                let answer = self.session_rule(index, call, op, out)?;
                Ok(Reply::Answered(answer))
            }
            Op::Destroy(kind, name) => {
                let answer = self.destroy_rule(*kind, name, out)?;
                Ok(Reply::Answered(answer))
            }
            Op::Group(_) => Ok(Reply::Answered(Answer::Ok)),
            Op::Member(_) => Ok(Reply::Answered(Answer::Ok)),
            Op::Change(_) => Ok(Reply::Answered(Answer::Ok)),
        }
    }

    /// An operation on a destroyed object does nothing else than to say so.
    pub(crate) fn outcome(
        &mut self,
        index: u64,
        call: &Invocation,
        op: &Op,
        out: &mut Items<(Invocation, Answer)>,
    ) -> Result<Reply, NoMemory>
        ensures state { OnOk result (self.new ≡ (outcome index call.now op.now self.old).change.state) }
        ensures told { OnOk result (out.new ≡ out.old ++ told (outcome index call.now op.now self.old).change.ended) }
        ensures reply { IfOk result (λ reply. reply ≡ (outcome index call.now op.now self.old).reply) }
    {
        if self.names_gone(op)? {
            return Ok(Reply::Answered(Answer::ObjectDestroyed));
        }
        let reply = self.rule(index, call, op, out)?;
        Ok(reply)
    }
}
