//! What the calls on sessions do.
ghost use Rattle.std.specs.Prelude.{◌≡◌, ◌++◌, [], IfOk, OnOk};
ghost use Rattle.cp_answers.specs.declared.answer.Answer.TheVariants as answer;
ghost use Rattle.cp_ops.specs.declared.session_op.SessionOp.TheVariants as session;
ghost use Rattle.cp_group_state.specs.declared.outcome.Reply.TheVariants.{Answered};
ghost use Rattle.cp_group_state.specs.SessionRules.{session_rule};
ghost use Rattle.cp_group_state.specs.Apply.{told};

use crate::tables::GroupTables;
use cp_base::{Invocation, Items, NoMemory};
use cp_ops::{Answer, SessionOp};
use cp_session::{SessionError, creations_follow_the_rule};

impl GroupTables {
    /// The client has an open session, or gets one under the index as its number.
    #[tactic(auto, using(crate::proofs::RuleCases::full_sessions_stay))]
    fn open_session(&mut self, index: u64, call: &Invocation) -> Result<Answer, NoMemory>
        ensures state { OnOk result (self.new ≡ (session_rule index call.now session.Open self.old).change.state) }
        ensures ended { OnOk result ((session_rule index call.now session.Open self.old).change.ended ≡ []) }
        ensures reply { IfOk result (λ answer. (session_rule index call.now session.Open self.old).reply ≡ Answered answer) }
    {
        creations_follow_the_rule();
        match self.sessions.create(index, &call.client) {
            Ok(number) => Ok(Answer::Session(number)),
            Err(SessionError::TableFull(most)) => Ok(Answer::TableFull(most)),
            Err(SessionError::NoMemory) => Err(NoMemory),
        }
    }

    /// The session gets a beat, where it is open.
    #[tactic(auto, using(crate::proofs::RuleCases::beaten, crate::proofs::RuleCases::not_beaten))]
    fn beat(&mut self, index: u64, call: &Invocation, number: u64) -> Answer
        ensures state { self.new ≡ (session_rule index call.now (session.Beat number) self.old).change.state }
        ensures ended { (session_rule index call.now (session.Beat number) self.old).change.ended ≡ [] }
        ensures reply { (session_rule index call.now (session.Beat number) self.old).reply ≡ Answered result }
    {
        match self.sessions.heartbeat(number) {
            Some(_version) => Answer::Ok,
            None => Answer::SessionExpired(number),
        }
    }

    /// The session is closed, where it is open.
    fn close_session(
        &mut self,
        index: u64,
        call: &Invocation,
        number: u64,
        out: &mut Items<(Invocation, Answer)>,
    ) -> Result<(), NoMemory>
        ensures state { OnOk result (self.new ≡ (session_rule index call.now (session.Close number) self.old).change.state) }
        ensures told { OnOk result (out.new ≡ out.old ++ told (session_rule index call.now (session.Close number) self.old).change.ended) }
        ensures reply { OnOk result ((session_rule index call.now (session.Close number) self.old).reply ≡ Answered answer.Ok) }
    {
        if self.sessions.version(number).is_some() {
            self.close(index, &[number], out)?;
        }
        Ok(())
    }

    /// What a call on a session does.
    pub(crate) fn session_rule(
        &mut self,
        index: u64,
        call: &Invocation,
        op: &SessionOp,
        out: &mut Items<(Invocation, Answer)>,
    ) -> Result<Answer, NoMemory>
        ensures state { OnOk result (self.new ≡ (session_rule index call.now op.now self.old).change.state) }
        ensures told { OnOk result (out.new ≡ out.old ++ told (session_rule index call.now op.now self.old).change.ended) }
        ensures reply { IfOk result (λ answer. (session_rule index call.now op.now self.old).reply ≡ Answered answer) }
    {
        match *op {
            SessionOp::Open => {
                let answer = self.open_session(index, call)?;
                Ok(answer)
            }
            SessionOp::Beat(number) => Ok(self.beat(index, call, number)),
            SessionOp::Close(number) => {
                self.close_session(index, call, number, out)?;
                Ok(Answer::Ok)
            }
        }
    }
}
