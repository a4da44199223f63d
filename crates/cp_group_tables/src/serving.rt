//! Whoever waits gets what became free.
ghost use Rattle.std.specs.Prelude.{◌≡◌, ◌++◌, ℕ, List, map, IfOk, IsSome, OnOk};
ghost use Rattle.cp_group_state.specs.Rows.{Object, find, name_cmp};
ghost use Rattle.cp_group_state.specs.Waiters.{waits_on};
ghost use Rattle.cp_group_state.specs.Changes.{end_all, finish, for_each};
ghost use Rattle.cp_group_state.specs.Serving.{hand_over, serve};
ghost use Rattle.cp_group_state.specs.Apply.{told};
ghost use Rattle.cp_group_tables.specs.Endings.{answer_of, ended_by};
ghost use Rattle.cp_group_tables.specs.Stand.{EachStands};

use crate::ending::Ending;
use crate::tables::GroupTables;
use crate::waiters::end_waits;
use cp_base::{Invocation, Items, Name, NoMemory};
use cp_group_state::{Holder, Waiter};
use cp_ops::{Answer, Kind};

impl GroupTables {
    /// These waiters end: they no longer wait, their rows hold their answers, which are told.
    pub(crate) fn end(
        &mut self,
        waiters: &[Waiter],
        ending: Ending,
        out: &mut Items<(Invocation, Answer)>,
    ) -> Result<(), NoMemory>
        ensures state { OnOk result (self.new ≡ (finish (ended_by ending waiters.now) self.old).state) }
        ensures told { OnOk result (out.new ≡ out.old ++ told (ended_by ending waiters.now)) }
    {
        end_waits(&mut self.waits, &mut self.memory, waiters, ending, out)
    }

    /// The waiters on an object end.
    pub(crate) fn end_on_object(
        &mut self,
        kind: Kind,
        name: &Name,
        ending: Ending,
        out: &mut Items<(Invocation, Answer)>,
    ) -> Result<(), NoMemory>
        ensures state { OnOk result (self.new ≡ (end_all (waits_on kind name.now) (answer_of ending) self.old).state) }
        ensures told { OnOk result (out.new ≡ out.old ++ told (end_all (waits_on kind name.now) (answer_of ending) self.old).ended) }
    {
        let waiting = self.waits.on_object(kind, name)?;
        self.end(waiting.as_slice(), ending, out)?;
        Ok(())
    }

    /// A free lock goes to its first waiter.
    #[tactic(auto, using(crate::proofs::Stood::still_stands))]
    pub(crate) fn hand_over(
        &mut self,
        index: u64,
        name: &Name,
        out: &mut Items<(Invocation, Answer)>,
    ) -> Result<(), NoMemory>
        requires { IsSome (find name_cmp self.old.locks name.now) }
        ensures state { OnOk result (self.new ≡ (hand_over index name.now self.old).state) }
        ensures told { OnOk result (out.new ≡ out.old ++ told (hand_over index name.now self.old).ended) }
        ensures there { OnOk result ((names : List (List ℕ)) → EachStands names self.old.locks → EachStands names self.new.locks) }
    {
        let first = match self.waits.first(Kind::Lock, name) {
            None => return Ok(()),
            Some(waiter) => [waiter.clone()?],
        };
        let [waiter] = &first;
        let who = Holder {
            session: waiter.session,
            thread: waiter.call.thread,
        };
        self.locks.grant(index, name, &who);
        self.end(&first, Ending::Granted(index), out)
    }

    /// Each of these locks goes to its first waiter.
    pub(crate) fn hand_over_each(
        &mut self,
        index: u64,
        names: &[Name],
        out: &mut Items<(Invocation, Answer)>,
    ) -> Result<(), NoMemory>
        requires { EachStands names.now self.old.locks }
        ensures state { OnOk result (self.new ≡ (for_each (hand_over index) names.now self.old).state) }
        ensures told { OnOk result (out.new ≡ out.old ++ told (for_each (hand_over index) names.now self.old).ended) }
    {
        let mut rest = names;
        while let [name, after @ ..] = rest {
            self.hand_over(index, name, out)?;
            rest = after;
        }
        Ok(())
    }

    /// A semaphore gives what is available to the waiters that came first.
    pub(crate) fn serve(
        &mut self,
        kind: Kind,
        name: &Name,
        out: &mut Items<(Invocation, Answer)>,
    ) -> Result<(), NoMemory>
        ensures state { OnOk result (self.new ≡ (serve (name.now, kind) self.old).state) }
        ensures told { OnOk result (out.new ≡ out.old ++ told (serve (name.now, kind) self.old).ended) }
    {
        let Some(available) = self.semaphores.available(kind, name)? else {
            return Ok(());
        };
        let served = self.waits.served(kind, name, available)?;
        self.semaphores.take_each(kind, name, served.as_slice())?;
        self.end(served.as_slice(), Ending::Served, out)
    }

    /// Each of these semaphores is served.
    pub(crate) fn serve_each(
        &mut self,
        semaphores: &[(Name, Kind)],
        out: &mut Items<(Invocation, Answer)>,
    ) -> Result<(), NoMemory>
        ensures state { OnOk result (self.new ≡ (for_each serve semaphores.now self.old).state) }
        ensures told { OnOk result (out.new ≡ out.old ++ told (for_each serve semaphores.now self.old).ended) }
    {
        let mut rest = semaphores;
        while let [(name, kind), after @ ..] = rest {
            self.serve(*kind, name, out)?;
            rest = after;
        }
        Ok(())
    }

    /// The semaphores on which these waited are served, in this order.
    pub(crate) fn serve_where(
        &mut self,
        ended: &[Waiter],
        out: &mut Items<(Invocation, Answer)>,
    ) -> Result<(), NoMemory>
        ensures state { OnOk result (self.new ≡ (for_each serve (map (λ w. (w.name, w.kind)) ended.now) self.old).state) }
        ensures told { OnOk result (out.new ≡ out.old ++ told (for_each serve (map (λ w. (w.name, w.kind)) ended.now) self.old).ended) }
    {
        let mut rest = ended;
        while let [waiter, after @ ..] = rest {
            self.serve(waiter.kind, &waiter.name, out)?;
            rest = after;
        }
        Ok(())
    }
}
