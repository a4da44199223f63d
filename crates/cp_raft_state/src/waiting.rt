//! Reads that wait.
ghost use Rattle.std.specs.Prelude.{◌≡◌, ◌<◌, ◌-◌, ◌^◌, [], filter, not, IfOk, IsOk, OnOk};
ghost use Rattle.std.specs.List.{list_any};
ghost use Rattle.cp_replicate.specs.Decisions.{is_ready};
ghost use Rattle.cp_rules.specs.Confirming as confirming;
ghost use Rattle.cp_rules.specs.Confirming.{with_round};
ghost use Rattle.cp_rules.specs.Volatile.{no_reads};
ghost use Rattle.cp_raft_state.specs.Looking.{ready, waiting, without_ready};

use crate::look::Look;
use crate::volatile::Volatile;
use cp_base::{Invocation, Items, NoMemory};
use cp_replicate::{confirm, is_ready};
use std::alloc::Global;
use std::mem;

/// Whether a read is ready.
fn is_ready_now(me: u8, members: &[u8], confirmed: &[u64; 10], commit: u64, look: &Look) -> bool
    ensures { result ≡ is_ready me members.now confirmed.now commit look.now.index look.now.round }
{
    is_ready(me, members, confirmed, commit, look.index(), look.round())
}

/// Whether any of these reads is ready.
fn has_ready(me: u8, members: &[u8], confirmed: &[u64; 10], commit: u64, looks: &[Look]) -> bool
    ensures { result ≡ list_any (ready me members.now confirmed.now commit) looks.now }
{
    looks
        .iter()
        .any(|look| is_ready_now(me, members, confirmed, commit, look))
}

/// Takes out the reads that are ready, in their order.
fn split_ready(
    alloc: Global,
    me: u8,
    members: &[u8],
    confirmed: &[u64; 10],
    commit: u64,
    looks: &mut Vec<Look>,
) -> Result<Vec<Look>, NoMemory>
    ensures ready { IfOk result (λ taken. taken.items ≡ filter (ready me members.now confirmed.now commit) looks.old.items) }
    ensures waiting { OnOk result (looks.new.items ≡ filter
        (λ look. not (ready me members.now confirmed.now commit look)) looks.old.items) }
{
    let mut taken = Vec::new(alloc);
    let mut waiting = Vec::new(alloc);
    let all = mem::replace(looks, Vec::new(alloc));
    for look in all {
        if is_ready_now(me, members, confirmed, commit, &look) {
            taken.push(look)?;
        } else {
            waiting.push(look)?;
        }
    }
    *looks = waiting;
    Ok(taken)
}

/// Takes out the reads that are ready, in their order. Where none is, it takes no memory.
#[tactic(auto, using(crate::proofs::Ready::none_passes, crate::proofs::Ready::passes_none))]
fn take_ready(
    alloc: Global,
    me: u8,
    members: &[u8],
    confirmed: &[u64; 10],
    commit: u64,
    looks: &mut Vec<Look>,
) -> Result<Vec<Look>, NoMemory>
    ensures ready { IfOk result (λ taken. taken.items ≡ filter (ready me members.now confirmed.now commit) looks.old.items) }
    ensures waiting { OnOk result (looks.new.items ≡ filter
        (λ look. not (ready me members.now confirmed.now commit look)) looks.old.items) }
    ensures frugal { filter (ready me members.now confirmed.now commit) looks.old.items ≡ [] → IsOk result }
{
    if has_ready(me, members, confirmed, commit, looks) {
        split_ready(alloc, me, members, confirmed, commit, looks)
    } else {
        Ok(Vec::new(alloc))
    }
}

impl Volatile {
    /// Begins a round for a read, which waits with this index.
    pub fn wait(
        &mut self,
        call: Invocation,
        attempt: u64,
        index: u64,
        op: Items<u8>,
    ) -> Result<(), NoMemory>
        requires { self.old.reads.round < 2 ^ 64 - 1 }
        ensures { OnOk result (self.new ≡ record self.old { reads = waiting index self.old.reads call attempt op }) }
    {
        self.round += 1;
        self.looks
            .push(Look::new(call, attempt, index, self.round, op))?;
        Ok(())
    }

    /// A member has confirmed a round.
    pub fn confirm_round(&mut self, member: u8, round: u64)
        requires { member < 10 }
        ensures { self.new ≡ record self.old { reads = with_round member round self.old.reads } }
    {
        confirm(&mut self.confirmed, member, round);
    }

    /// Keeps no read, and tells those that waited.
    pub fn lose_reads(&mut self, alloc: Global) -> Vec<Look>
        ensures looks { result.items ≡ self.old.reads.looks }
        ensures state { self.new ≡ record self.old { reads = no_reads } }
    {
        self.round = 0;
        self.confirmed = [0; 10];
        mem::replace(&mut self.looks, Vec::new(alloc))
    }

    /// Keeps no read.
    pub fn give_up_reads(&mut self)
        ensures { self.new ≡ record self.old { reads = no_reads } }
    {
        self.round = 0;
        self.confirmed = [0; 10];
        self.looks.clear();
    }

    /// Tells the reads that are ready, and keeps the others. Where none is ready, it takes no memory.
    pub fn take_ready(
        &mut self,
        alloc: Global,
        me: u8,
        members: &[u8],
    ) -> Result<Vec<Look>, NoMemory>
        ensures looks { IfOk result (λ looks. looks.items
            ≡ filter (confirming.is_ready me members.now self.old.reads self.old.commit) self.old.reads.looks) }
        ensures state { OnOk result (self.new ≡ without_ready me members.now self.old) }
        ensures frugal { filter (confirming.is_ready me members.now self.old.reads self.old.commit)
            self.old.reads.looks ≡ [] → IsOk result }
    {
        let looks = take_ready(
            alloc,
            me,
            members,
            &self.confirmed,
            self.commit,
            &mut self.looks,
        )?;
        Ok(looks)
    }
}
