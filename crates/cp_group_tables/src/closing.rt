//! The end of sessions.
ghost use Rattle.std.specs.Prelude.{◌≡◌, ◌++◌, IfOk, OnOk};
ghost use Rattle.cp_group_state.specs.Sessions.{is_among, unchanged_since};
ghost use Rattle.cp_answers.specs.declared.answer.Answer.TheVariants as answer;
ghost use Rattle.cp_group_state.specs.Waiters as waiters;
ghost use Rattle.cp_group_state.specs.Locks.{held_among};
ghost use Rattle.cp_group_state.specs.Changes.{end_all};
ghost use Rattle.cp_group_state.specs.Closing.{close, concerned, end_sessions, forget, free_locks, free_permits};
ghost use Rattle.cp_group_state.specs.Apply.{told};
ghost use Rattle.cp_group_tables.specs.declared.ending.Ending.TheVariants as ending;
ghost use Rattle.cp_group_tables.specs.Stand.{EachStands};
ghost use Rattle.cp_group_tables.specs.Endings.{ended_by};

use crate::ending::Ending;
use crate::tables::GroupTables;
use cp_base::{Invocation, Items, Name, NoMemory};
use cp_group_state::Waiter;
use cp_ops::{Answer, Kind};

impl GroupTables {
    /// These sessions and what is remembered of their threads go.
    fn forget(&mut self, sessions: &[u64])
        ensures { self.new ≡ forget sessions.now self.old }
    {
        self.sessions.close_all(sessions);
        self.memory.forget(sessions);
    }

    /// The waits of these sessions end. Gives the waiters that ended.
    fn end_of_sessions(
        &mut self,
        sessions: &[u64],
        out: &mut Items<(Invocation, Answer)>,
    ) -> Result<Items<Waiter>, NoMemory>
        ensures ended { IfOk result
            (λ ended. ended_by ending.SessionExpired ended
            ≡ waiters.ending (λ w. is_among sessions.now w.session) (λ w. answer.SessionExpired w.session) self.old.waiters) }
        ensures state { OnOk result
            (self.new ≡ (end_all (λ w. is_among sessions.now w.session) (λ w. answer.SessionExpired w.session) self.old).state) }
        ensures told { OnOk result
            (out.new
            ≡ out.old ++ told (end_all (λ w. is_among sessions.now w.session) (λ w. answer.SessionExpired w.session) self.old).ended) }
    {
        let ended = self.waits.of_sessions(sessions)?;
        self.end(ended.as_slice(), Ending::SessionExpired, out)?;
        Ok(ended)
    }

    /// These sessions and what is remembered of their threads go, and their waits end. Gives the waiters that ended.
    fn end_sessions(
        &mut self,
        sessions: &[u64],
        out: &mut Items<(Invocation, Answer)>,
    ) -> Result<Items<Waiter>, NoMemory>
        ensures ended { IfOk result (λ ended. ended_by ending.SessionExpired ended ≡ (end_sessions sessions.now self.old).ended) }
        ensures state { OnOk result (self.new ≡ (end_sessions sessions.now self.old).state) }
        ensures told { OnOk result (out.new ≡ out.old ++ told (end_sessions sessions.now self.old).ended) }
    {
        self.forget(sessions);
        let ended = self.end_of_sessions(sessions, out)?;
        Ok(ended)
    }

    /// The semaphores of which these sessions hold permits, or on which they waited.
    fn concerned(&self, sessions: &[u64], ended: &[Waiter]) -> Result<Items<(Name, Kind)>, NoMemory>
        ensures { IfOk result (λ keys. keys ≡ concerned sessions.now (ended_by ending.SessionExpired ended.now) self.now) }
    {
        let keys = cp_semaphore::concerned(self.alloc, &self.semaphores, sessions, ended)?;
        Ok(keys)
    }

    /// The locks that these sessions hold are free, and answered by name.
    #[tactic(auto, using(crate::proofs::Stood::each_stands))]
    fn free_locks(&mut self, sessions: &[u64]) -> Result<Vec<Name>, NoMemory>
        ensures names { IfOk result (λ names. names.items ≡ held_among sessions.now self.old.locks) }
        ensures there { IfOk result (λ names. EachStands names.items self.new.locks) }
        ensures state { OnOk result (self.new ≡ free_locks sessions.now self.old) }
    {
        let names = self.locks.close_sessions(sessions)?;
        Ok(names)
    }

    /// The permits that these sessions hold go back.
    fn free_permits(&mut self, sessions: &[u64])
        ensures { self.new ≡ free_permits sessions.now self.old }
    {
        self.semaphores.close_sessions(sessions);
    }

    /// These sessions are closed at this index: they and their waiters end; then each of their locks is freed and handed
    /// over, by name; then their permits go back, and each semaphore that they held or waited on is served, by name.
    pub(crate) fn close(
        &mut self,
        index: u64,
        sessions: &[u64],
        out: &mut Items<(Invocation, Answer)>,
    ) -> Result<(), NoMemory>
        ensures state { OnOk result (self.new ≡ (close index sessions.now self.old).state) }
        ensures told { OnOk result (out.new ≡ out.old ++ told (close index sessions.now self.old).ended) }
    {
        let ended = self.end_sessions(sessions, out)?;
        let concerned = self.concerned(sessions, ended.as_slice())?;
        let freed = self.free_locks(sessions)?;
        self.hand_over_each(index, &freed, out)?;
        self.free_permits(sessions);
        self.serve_each(concerned.as_slice(), out)?;
        Ok(())
    }

    /// The sessions that are named with the version that they have.
    fn unchanged(&self, pairs: &[(u64, u64)]) -> Result<Vec<u64>, NoMemory>
        ensures { IfOk result (λ found. found.items ≡ unchanged_since self.now.sessions pairs.now) }
    {
        let found = self.sessions.unchanged(pairs)?;
        Ok(found)
    }

    /// The sessions that are named with the version that they have are closed.
    pub(crate) fn expire_sessions(
        &mut self,
        index: u64,
        pairs: &[(u64, u64)],
        out: &mut Items<(Invocation, Answer)>,
    ) -> Result<(), NoMemory>
        ensures state { OnOk result (self.new ≡ (close index (unchanged_since self.old.sessions pairs.now) self.old).state) }
        ensures told { OnOk result (out.new ≡ out.old ++ told (close index (unchanged_since self.old.sessions pairs.now) self.old).ended) }
    {
        let sessions = self.unchanged(pairs)?;
        self.close(index, &sessions, out)?;
        Ok(())
    }
}
