//! The reads of one leadership.
ghost use Rattle.std.specs.Prelude.{◌≡◌, ◌<◌, ◌≤◌, [], suc, filter, length, Err, IfErr, IfOk, IsOk, OnErr, OnOk};
ghost use Rattle.std.specs.Option.{option_copied};
ghost use Rattle.cp_rules.specs.Confirming.{is_ready, with_round};
ghost use Rattle.cp_rules.specs.Limits.{most_index, most_looks};
ghost use Rattle.cp_rules.specs.Volatile.{no_reads};
ghost use Rattle.cp_read.specs.Looks.{IsReadsError, first_ready, with_look, without_first_ready, without_ready};
ghost use Rattle.cp_read.specs.declared.error.ReadsError.TheVariants.{Busy};

use crate::error::ReadsError;
use crate::look::Look;
use crate::ready::{self, MOST_LOOKS};
use cp_base::NoMemory;
use cp_base::limits::MOST_MEMBER;
use cp_replicate::confirm;
use std::alloc::Global;
use std::marker::Model;
use std::mem;

/// The reads of one leadership: its latest round, what each member has confirmed, and what waits.
#[derive(Drop)]
pub struct Reads {
    round: u64,
    /// The greatest round that each member has confirmed, by its number.
    confirmed: [u64; 10],
    looks: Vec<Look>,
}

impl Model for Reads {
    ghost use Rattle.cp_rules.specs.Volatile as volatile;

    ghost Value = { volatile.Reads };

    ghost view = { λ reads. record { round = reads.round; confirmed = reads.confirmed; looks = reads.looks.items } };
}

impl Reads {
    /// None waits, and all rounds are 0.
    pub fn new(alloc: Global) -> Reads
        ensures { result ≡ no_reads }
    {
        Reads {
            round: 0,
            confirmed: [0; 10],
            looks: Vec::new(alloc),
        }
    }

    /// The latest round.
    pub fn round(&self) -> u64
        ensures { result ≡ self.now.round }
    {
        self.round
    }

    /// How many reads wait.
    pub fn waiting(&self) -> usize
        ensures { result ≡ length self.now.looks }
    {
        self.looks.len()
    }

    /// A read begins a round, and waits for it. Gives the round.
    pub fn take(&mut self, look: Look) -> Result<u64, ReadsError>
        requires { self.old.round < most_index }
        ensures round { IfOk result (λ round. round ≡ suc self.old.round) }
        ensures waits { OnOk result (self.new ≡ with_look look self.old) }
        ensures busy { most_looks ≤ length self.old.looks → result ≡ Err (Busy most_looks) }
        ensures cause { IfErr result (λ error. IsReadsError error self.old) }
        ensures unchanged { OnErr result (self.new ≡ self.old) }
    {
        if MOST_LOOKS as usize <= self.looks.len() {
            return Err(ReadsError::Busy(MOST_LOOKS));
        }
        let round = self.round + 1;
        match self.looks.push(look.in_round(round)) {
            Ok(()) => {}
            Err(_) => return Err(ReadsError::NoMemory),
        }
        self.round = round;
        Ok(round)
    }

    /// A member has confirmed a round.
    pub fn confirm(&mut self, member: u8, round: u64)
        ensures { self.new ≡ with_round member round self.old }
    {
        if member <= MOST_MEMBER {
            confirm(&mut self.confirmed, member, round);
        }
    }

    /// The first read that a leader can answer that has applied so much: a quorum of these members has confirmed its
    /// round or a later one, where `me` counts as having confirmed it, and its index is applied.
    pub fn ready(&self, members: &[u8], me: u8, applied: u64) -> Option<&Look>
        ensures { option_copied result ≡ first_ready me members.now applied self.now }
    {
        ready::first_ready(me, members, &self.confirmed, applied, &self.looks)
    }

    /// Takes out that read.
    pub fn drop_first(&mut self, members: &[u8], me: u8, applied: u64) -> Option<Look>
        ensures look { result ≡ first_ready me members.now applied self.old }
        ensures rest { self.new ≡ without_first_ready me members.now applied self.old }
    {
        ready::drop_first(me, members, &self.confirmed, applied, &mut self.looks)
    }

    /// Takes out all such reads, in their order. Where there is none, it takes no memory.
    pub fn take_ready(
        &mut self,
        alloc: Global,
        members: &[u8],
        me: u8,
        applied: u64,
    ) -> Result<Vec<Look>, NoMemory>
        ensures looks { IfOk result (λ looks. looks.items ≡ filter (is_ready me members.now self.old applied) self.old.looks) }
        ensures rest { OnOk result (self.new ≡ without_ready me members.now applied self.old) }
        ensures frugal { filter (is_ready me members.now self.old applied) self.old.looks ≡ [] → IsOk result }
    {
        let looks = ready::take_ready(
            alloc,
            me,
            members,
            &self.confirmed,
            applied,
            &mut self.looks,
        )?;
        Ok(looks)
    }

    /// Gives up all reads, and sets all rounds to 0.
    pub fn give_up(&mut self)
        ensures { self.new ≡ no_reads }
    {
        self.round = 0;
        self.confirmed = [0; 10];
        self.looks.clear();
    }

    /// Takes out all reads, in their order, and sets all rounds to 0.
    pub fn clear(&mut self, alloc: Global) -> Vec<Look>
        ensures looks { result.items ≡ self.old.looks }
        ensures state { self.new ≡ no_reads }
    {
        self.round = 0;
        self.confirmed = [0; 10];
        mem::replace(&mut self.looks, Vec::new(alloc))
    }
}
