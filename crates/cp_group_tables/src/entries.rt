//! What an entry does.
ghost use Rattle.std.specs.Prelude.{◌≡◌, ◌++◌, ◌==◌, true, if◌then◌else◌, IfOk, OnOk};
ghost use Rattle.cp_answers.specs.declared.answer.Answer.TheVariants as answer;
ghost use Rattle.cp_group_state.specs.Changes.{end_all, for_each};
ghost use Rattle.cp_group_state.specs.Serving.{left_by, serve_left};
ghost use Rattle.cp_group_state.specs.Apply.{apply, destroy_group, members_answer, time_out, told};
ghost use Rattle.cp_group_tables.specs.declared.ending.Ending.TheVariants as ending;
ghost use Rattle.cp_group_tables.specs.Endings.{ended_by, timed_out};

use crate::ending::Ending;
use crate::named::is_elsewhere;
use crate::tables::GroupTables;
use cp_base::{GroupId, Invocation, Items, Name, NoMemory};
use cp_group_state::Waiter;
use cp_ops::{Answer, Entry, Kind};

/// Appends waiters.
fn append(waiters: &mut Items<Waiter>, more: Items<Waiter>) -> Result<(), NoMemory>
    ensures { OnOk result (waiters.new ≡ waiters.old ++ more) }
{
    for waiter in more.into_vec() {
        waiters.push(waiter)?;
    }
    Ok(())
}

/// A members entry answers the call that asked for it.
fn answer_members(
    call: &Option<Invocation>,
    out: &mut Items<(Invocation, Answer)>,
) -> Result<(), NoMemory>
    ensures { OnOk result (out.new ≡ out.old ++ members_answer call.now) }
{
    if let Some(call) = call {
        out.push((*call, Answer::Ok))?;
    }
    Ok(())
}

impl GroupTables {
    /// The wait of a call took too long; it ends, and its waiter comes last of `ended`.
    #[tactic(auto, unfolding(crate::specs::Endings::timed_out))]
    fn time_out(
        &mut self,
        call: &Invocation,
        ended: &mut Items<Waiter>,
        out: &mut Items<(Invocation, Answer)>,
    ) -> Result<(), NoMemory>
        ensures state { OnOk result (self.new ≡ (timed_out call.now self.old).state) }
        ensures ended { OnOk result (ended_by ending.TimedOut ended.new ≡ ended_by ending.TimedOut
            ended.old ++ (timed_out call.now self.old).ended) }
        ensures told { OnOk result (out.new ≡ out.old ++ told (timed_out call.now self.old).ended) }
    {
        let late = self.waits.of_call(call)?;
        self.end(late.as_slice(), Ending::TimedOut, out)?;
        append(ended, late)
    }

    /// The waits of these calls took too long. Gives the waiters that ended.
    fn time_out_each(
        &mut self,
        calls: &[Invocation],
        out: &mut Items<(Invocation, Answer)>,
    ) -> Result<Items<Waiter>, NoMemory>
        ensures state { OnOk result (self.new ≡ (for_each timed_out calls.now self.old).state) }
        ensures ended { IfOk result (λ ended. ended_by ending.TimedOut ended ≡ (for_each timed_out calls.now self.old).ended) }
        ensures told { OnOk result (out.new ≡ out.old ++ told (for_each timed_out calls.now self.old).ended) }
    {
        let mut ended = Items::new(self.alloc);
        let mut rest = calls;
        while let [call, after @ ..] = rest {
            self.time_out(call, &mut ended, out)?;
            rest = after;
        }
        Ok(ended)
    }

    /// The semaphores on which these waited, by name.
    fn left_by(&self, ended: &[Waiter]) -> Result<Items<(Name, Kind)>, NoMemory>
        ensures { IfOk result (λ keys. keys ≡ left_by (ended_by ending.TimedOut ended.now) self.now) }
    {
        let keys = cp_semaphore::left_by(self.alloc, &self.semaphores, ended)?;
        Ok(keys)
    }

    /// The waits of these calls took too long; what they left is served.
    fn expire_waits(
        &mut self,
        calls: &[Invocation],
        out: &mut Items<(Invocation, Answer)>,
    ) -> Result<(), NoMemory>
        ensures state { OnOk result (self.new ≡ (serve_left (for_each time_out calls.now self.old)).state) }
        ensures told { OnOk result (out.new ≡ out.old ++ told (serve_left (for_each time_out calls.now self.old)).ended) }
    {
        let ended = self.time_out_each(calls, out)?;
        let left = self.left_by(ended.as_slice())?;
        self.serve_each(left.as_slice(), out)?;
        Ok(())
    }

    /// A group that is destroyed stays so, under its first number.
    fn mark_destroyed(&mut self, group: GroupId)
        ensures { self.new ≡ record self.old {
          destroyed_group = if self.old.destroyed_group.0 == 0 then group else self.old.destroyed_group;
        } }
    {
        if self.destroyed_group.0 == 0 {
            self.destroyed_group = group;
        }
    }

    /// All waits end.
    #[tactic(auto, using(crate::proofs::RuleCases::all_of))]
    fn end_every(
        &mut self,
        group: GroupId,
        out: &mut Items<(Invocation, Answer)>,
    ) -> Result<(), NoMemory>
        ensures state { OnOk result (self.new ≡ (end_all (λ w. true) (λ w. answer.GroupDestroyed group) self.old).state) }
        ensures told { OnOk result (out.new ≡ out.old ++ told (end_all (λ w. true) (λ w. answer.GroupDestroyed group) self.old).ended) }
    {
        let waiting = self.waits.all()?;
        self.end(waiting.as_slice(), Ending::GroupDestroyed(group), out)?;
        Ok(())
    }

    /// The group is destroyed, and all waits end.
    fn destroy_group(
        &mut self,
        group: GroupId,
        out: &mut Items<(Invocation, Answer)>,
    ) -> Result<(), NoMemory>
        ensures state { OnOk result (self.new ≡ (destroy_group group self.old).state) }
        ensures told { OnOk result (out.new ≡ out.old ++ told (destroy_group group self.old).ended) }
    {
        self.mark_destroyed(group);
        self.end_every(group, out)?;
        Ok(())
    }

    /// Applies the entry of this index, and appends the answers that it gives.
    pub fn apply_entry(
        &mut self,
        index: u64,
        entry: &Entry,
        out: &mut Items<(Invocation, Answer)>,
    ) -> Result<(), NoMemory>
        ensures state { OnOk result (self.new ≡ (apply index entry.now self.old).state) }
        ensures answers { OnOk result (out.new ≡ out.old ++ (apply index entry.now self.old).answers) }
    {
        match entry {
            Entry::Call(call, op) => {
                if is_elsewhere(op) {
                    Ok(())
                } else {
                    self.apply_call(index, call, op, out)
                }
            }
            Entry::SessionsExpired(pairs) => self.expire_sessions(index, pairs.as_slice(), out),
            Entry::WaitsExpired(calls) => self.expire_waits(calls.as_slice(), out),
            Entry::Members(call, _plan, _members) => answer_members(call, out),
            Entry::Destroy(group) => self.destroy_group(*group, out),
            Entry::Empty => Ok(()),
            Entry::Destroyed(_group) => Ok(()),
            Entry::Moved(_group, _at, _members) => Ok(()),
            Entry::Left(_member) => Ok(()),
        }
    }
}
