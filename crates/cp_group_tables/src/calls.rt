//! What a call does.
ghost use Rattle.std.specs.Prelude.{◌≡◌, ◌++◌, ◌∷◌, Some, None, IfOk, OnOk};
ghost use Rattle.cp_answers.specs.declared.answer.Answer.TheVariants as answer;
ghost use Rattle.cp_group_state.specs.Rows.{find, holder_cmp};
ghost use Rattle.cp_group_state.specs.Changes.{end_all};
ghost use Rattle.cp_group_state.specs.Protected.{session_in};
ghost use Rattle.cp_group_state.specs.Apply.{apply_call, by_memory, by_session, is_older, perform, remembered, settle_wait, supersede, told};
ghost use Rattle.cp_group_tables.specs.declared.ending.Ending.TheVariants as ending;
ghost use Rattle.cp_group_tables.specs.Endings.{ended_by};

use crate::ending::Ending;
use crate::named::session_in;
use crate::recall::{Recall, look_back};
use crate::tables::GroupTables;
use cp_base::{Invocation, Items, NoMemory};
use cp_group_state::{Reply, Waiter};
use cp_ops::{Answer, Op};
use cp_wait::WaitError;

/// Appends what was told.
fn append(
    out: &mut Items<(Invocation, Answer)>,
    more: Items<(Invocation, Answer)>,
) -> Result<(), NoMemory>
    ensures { OnOk result (out.new ≡ out.old ++ more) }
{
    for told in more.into_vec() {
        out.push(told)?;
    }
    Ok(())
}

fn copy_of(answer: &Answer) -> Result<Answer, NoMemory>
    ensures { IfOk result (λ copy. copy ≡ answer.now) }
{
    Ok(answer.clone()?)
}

impl GroupTables {
    /// The call that names a session is its thread's last one there, with this answer.
    fn remember_answer(
        &mut self,
        session: Option<u64>,
        call: &Invocation,
        answer: &Answer,
    ) -> Result<(), NoMemory>
        ensures { OnOk result (self.new ≡ remembered session call.now (Some answer.now) self.old) }
    {
        if let Some(session) = session {
            let copy = copy_of(answer)?;
            self.memory
                .remember(session, call.thread, call.number, Some(copy))?;
        }
        Ok(())
    }

    /// The call that names a session is its thread's last one there, and waits.
    fn remember_wait(&mut self, session: Option<u64>, call: &Invocation) -> Result<(), NoMemory>
        ensures { OnOk result (self.new ≡ remembered session call.now None self.old) }
    {
        if let Some(session) = session {
            self.memory
                .remember(session, call.thread, call.number, None)?;
        }
        Ok(())
    }

    /// The own answer of a call comes before those of the waits that it ended.
    fn settle_answer(
        &mut self,
        session: Option<u64>,
        call: &Invocation,
        answer: Answer,
        ended: Items<(Invocation, Answer)>,
        out: &mut Items<(Invocation, Answer)>,
    ) -> Result<(), NoMemory>
        ensures state { OnOk result (self.new ≡ remembered session call.now (Some answer) self.old) }
        ensures told { OnOk result (out.new ≡ out.old ++ (call.now, answer) ∷ ended) }
    {
        self.remember_answer(session, call, &answer)?;
        out.push((*call, answer))?;
        append(out, ended)
    }

    /// A call waits behind the others, where there is room. One that waits already stays where it stands.
    fn settle_wait(
        &mut self,
        session: Option<u64>,
        call: &Invocation,
        waiter: Waiter,
        out: &mut Items<(Invocation, Answer)>,
    ) -> Result<(), NoMemory>
        requires { waiter.call ≡ call.now }
        ensures state { OnOk result (self.new ≡ (settle_wait session call.now waiter self.old).state) }
        ensures told { OnOk result (out.new ≡ out.old ++ (settle_wait session call.now waiter self.old).answers) }
    {
        if self.waits.stands(call) {
            return Ok(());
        }
        match self.waits.join(waiter) {
            Ok(()) => self.remember_wait(session, call),
            Err(WaitError::TableFull(most)) => {
                let none = Items::new(self.alloc);
                self.settle_answer(session, call, Answer::TableFull(most), none, out)
            }
            Err(WaitError::NoMemory) => Err(NoMemory),
        }
    }

    /// Does a call that is neither repeated nor late.
    #[tactic(auto, using(crate::proofs::RuleCases::settled_answer, crate::proofs::RuleCases::settled_wait))]
    fn perform(
        &mut self,
        index: u64,
        call: &Invocation,
        op: &Op,
        out: &mut Items<(Invocation, Answer)>,
    ) -> Result<(), NoMemory>
        ensures state { OnOk result (self.new ≡ (perform index call.now op.now self.old).state) }
        ensures told { OnOk result (out.new ≡ out.old ++ (perform index call.now op.now self.old).answers) }
    {
        let session = session_in(op);
        let mut ended = Items::new(self.alloc);
        match self.outcome(index, call, op, &mut ended)? {
            Reply::Answered(answer) => self.settle_answer(session, call, answer, ended, out),
            Reply::Waits(waiter) => {
                append(out, ended)?;
                self.settle_wait(session, call, waiter, out)
            }
        }
    }

    /// The last call of the thread is answered as before, or still waits; an older one is late.
    fn by_memory(
        &mut self,
        index: u64,
        call: &Invocation,
        op: &Op,
        session: u64,
        out: &mut Items<(Invocation, Answer)>,
    ) -> Result<(), NoMemory>
        ensures state { OnOk result
            (self.new ≡ (by_memory index call.now op.now (find holder_cmp self.old.memory (session, call.now.thread.0)) self.old).state) }
        ensures told { OnOk result
            (out.new
            ≡ out.old
            ++ (by_memory index call.now op.now (find holder_cmp self.old.memory (session, call.now.thread.0)) self.old).answers) }
    {
        match look_back(&self.memory, session, call)? {
            Recall::New => self.perform(index, call, op, out),
            Recall::Again(None) => Ok(()),
            Recall::Again(Some(answer)) => out.push((*call, answer)),
            Recall::Late(number) => out.push((*call, Answer::Stale(number))),
        }
    }

    /// A session that is named must be open, and the caller's.
    fn by_session(
        &mut self,
        index: u64,
        call: &Invocation,
        op: &Op,
        out: &mut Items<(Invocation, Answer)>,
    ) -> Result<(), NoMemory>
        ensures state { OnOk result (self.new ≡ (by_session index call.now op.now (session_in op.now) self.old).state) }
        ensures told { OnOk result (out.new ≡ out.old ++ (by_session index call.now op.now (session_in op.now) self.old).answers) }
    {
        match session_in(op) {
            None => self.perform(index, call, op, out),
            Some(session) => {
                if self.sessions.is_open(session, &call.client) {
                    self.by_memory(index, call, op, session, out)
                } else {
                    out.push((*call, Answer::SessionExpired(session)))
                }
            }
        }
    }

    /// The older waits of the caller's thread end. Gives the waiters that ended.
    fn end_older(
        &mut self,
        call: &Invocation,
        out: &mut Items<(Invocation, Answer)>,
    ) -> Result<Items<Waiter>, NoMemory>
        ensures ended { IfOk result
            (λ ended. ended_by (ending.Cancelled call.now.number) ended
            ≡ (end_all (is_older call.now) (λ w. answer.WaitCancelled call.now.number) self.old).ended) }
        ensures state { OnOk result (self.new ≡ (end_all (is_older call.now) (λ w. answer.WaitCancelled call.now.number) self.old).state) }
        ensures told { OnOk result
            (out.new ≡ out.old ++ told (end_all (is_older call.now) (λ w. answer.WaitCancelled call.now.number) self.old).ended) }
    {
        let older = self.waits.older(call)?;
        self.end(older.as_slice(), Ending::Cancelled(call.number), out)?;
        Ok(older)
    }

    /// The older waits of the caller's thread end, and what they left is served.
    fn supersede(
        &mut self,
        call: &Invocation,
        out: &mut Items<(Invocation, Answer)>,
    ) -> Result<(), NoMemory>
        ensures state { OnOk result (self.new ≡ (supersede call.now self.old).state) }
        ensures told { OnOk result (out.new ≡ out.old ++ told (supersede call.now self.old).ended) }
    {
        let older = self.end_older(call, out)?;
        self.serve_where(older.as_slice(), out)?;
        Ok(())
    }

    /// Does a call on an object or a session.
    pub(crate) fn apply_call(
        &mut self,
        index: u64,
        call: &Invocation,
        op: &Op,
        out: &mut Items<(Invocation, Answer)>,
    ) -> Result<(), NoMemory>
        ensures state { OnOk result (self.new ≡ (apply_call index call.now op.now self.old).state) }
        ensures told { OnOk result (out.new ≡ out.old ++ (apply_call index call.now op.now self.old).answers) }
    {
        if self.destroyed_group.0 != 0 {
            return out.push((*call, Answer::GroupDestroyed(self.destroyed_group)));
        }
        self.supersede(call, out)?;
        self.by_session(index, call, op, out)
    }
}
