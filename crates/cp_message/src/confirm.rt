//! Rounds by which a leader learns that it still leads, and what it is answered.
ghost use Rattle.cp_message.specs.RaftLaws.{confirm_lawful, confirmed_lawful};
ghost use Rattle.cp_message.specs.Confirms.{confirm_grammar, confirmed_grammar};

use crate::text::{append_numbers_text, append_yes_text};
use cp_base::{GroupId, NoMemory, Text};
use cp_grammar::{Spelled, Stop, append_flag, append_index, take_flag, take_index};
use std::alloc::Global;

/// Asks whether the sender still leads.
#[derive(Clone, Copy, Debug, PartialEq, Eq)]
pub struct Confirm {
    pub group: GroupId,
    pub term: u64,
    /// The number of the leader's round.
    pub round: u64,
}

/// Answers whether the leader still leads.
#[derive(Clone, Copy, Debug, PartialEq, Eq)]
pub struct Confirmed {
    pub group: GroupId,
    pub term: u64,
    /// Whether it led when it was asked.
    pub accepted: bool,
    /// The round that was asked of, 0 where it didn't lead.
    pub round: u64,
}

impl Spelled for Confirm {
    ghost grammar = { confirm_grammar };

    #[tactic(auto, unfolding(crate::specs::Confirms::confirm_grammar))]
    fn take<'a>(alloc: Global, bytes: &'a [u8]) -> Result<(Confirm, &'a [u8]), Stop> {
        let (group, rest) = GroupId::take(alloc, bytes)?;
        let (term, rest) = take_index(rest)?;
        let (round, rest) = take_index(rest)?;
        Ok((Confirm { group, term, round }, rest))
    }

    #[tactic(auto, unfolding(crate::specs::Confirms::confirm_grammar))]
    fn append(&self, out: &mut Vec<u8>) -> Result<(), NoMemory> {
        self.group.append(out)?;
        append_index(self.term, out)?;
        append_index(self.round, out)?;
        Ok(())
    }

    ghost lawful = { confirm_lawful };
}

impl Spelled for Confirmed {
    ghost grammar = { confirmed_grammar };

    #[tactic(auto, unfolding(crate::specs::Confirms::confirmed_grammar))]
    fn take<'a>(alloc: Global, bytes: &'a [u8]) -> Result<(Confirmed, &'a [u8]), Stop> {
        let (group, rest) = GroupId::take(alloc, bytes)?;
        let (term, rest) = take_index(rest)?;
        let (accepted, rest) = take_flag(rest)?;
        let (round, rest) = take_index(rest)?;
        let confirmed = Confirmed {
            group,
            term,
            accepted,
            round,
        };
        Ok((confirmed, rest))
    }

    #[tactic(auto, unfolding(crate::specs::Confirms::confirmed_grammar))]
    fn append(&self, out: &mut Vec<u8>) -> Result<(), NoMemory> {
        self.group.append(out)?;
        append_index(self.term, out)?;
        append_flag(self.accepted, out)?;
        append_index(self.round, out)?;
        Ok(())
    }

    ghost lawful = { confirmed_lawful };
}

/// The words of the text behind the first, each after a space.
impl Text for Confirm {
    ghost use Rattle.cp_message.specs.Confirms.{confirm_text};

    ghost text = { confirm_text };

    fn append_text(&self, out: &mut Vec<u8>) -> Result<(), NoMemory> {
        append_numbers_text(&[self.group.0, self.term, self.round], out)
    }
}

/// The words of the text behind the first, each after a space.
impl Text for Confirmed {
    ghost use Rattle.cp_message.specs.Confirms.{confirmed_text};

    ghost text = { confirmed_text };

    fn append_text(&self, out: &mut Vec<u8>) -> Result<(), NoMemory> {
        append_numbers_text(&[self.group.0, self.term], out)?;
        append_yes_text(self.accepted, out)?;
        append_numbers_text(&[self.round], out)?;
        Ok(())
    }
}
