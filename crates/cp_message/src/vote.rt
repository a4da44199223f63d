//! Votes: what a candidate asks, and what it is answered. Before it stands for election a member asks the same of the
//! next term.
ghost use Rattle.cp_message.specs.RaftLaws.{vote_request_lawful, vote_reply_lawful};
ghost use Rattle.cp_message.specs.Votes.{vote_request, vote_reply};

use crate::text::{append_numbers_text, append_yes_text};
use cp_base::{GroupId, NoMemory, Text};
use cp_grammar::{Spelled, Stop, append_flag, append_index, take_flag, take_index};
use std::alloc::Global;

/// Asks for a vote, or whether there would be one.
#[derive(Clone, Copy, Debug, PartialEq, Eq)]
pub struct VoteRequest {
    pub group: GroupId,
    /// The term of the election.
    pub term: u64,
    /// The last index of the log of who asks.
    pub last_index: u64,
    /// The term of the entry there.
    pub last_term: u64,
}

/// Answers who asked for a vote, or whether there would be one.
#[derive(Clone, Copy, Debug, PartialEq, Eq)]
pub struct VoteReply {
    pub group: GroupId,
    pub term: u64,
    /// Whether there is a vote, or would be one.
    pub granted: bool,
}

impl Spelled for VoteRequest {
    ghost grammar = { vote_request };

    #[tactic(auto, unfolding(crate::specs::Votes::vote_request))]
    fn take<'a>(alloc: Global, bytes: &'a [u8]) -> Result<(VoteRequest, &'a [u8]), Stop> {
        let (group, rest) = GroupId::take(alloc, bytes)?;
        let (term, rest) = take_index(rest)?;
        let (last_index, rest) = take_index(rest)?;
        let (last_term, rest) = take_index(rest)?;
        let request = VoteRequest {
            group,
            term,
            last_index,
            last_term,
        };
        Ok((request, rest))
    }

    #[tactic(auto, unfolding(crate::specs::Votes::vote_request))]
    fn append(&self, out: &mut Vec<u8>) -> Result<(), NoMemory> {
        self.group.append(out)?;
        append_index(self.term, out)?;
        append_index(self.last_index, out)?;
        append_index(self.last_term, out)?;
        Ok(())
    }

    ghost lawful = { vote_request_lawful };
}

impl Spelled for VoteReply {
    ghost grammar = { vote_reply };

    #[tactic(auto, unfolding(crate::specs::Votes::vote_reply))]
    fn take<'a>(alloc: Global, bytes: &'a [u8]) -> Result<(VoteReply, &'a [u8]), Stop> {
        let (group, rest) = GroupId::take(alloc, bytes)?;
        let (term, rest) = take_index(rest)?;
        let (granted, rest) = take_flag(rest)?;
        let reply = VoteReply {
            group,
            term,
            granted,
        };
        Ok((reply, rest))
    }

    #[tactic(auto, unfolding(crate::specs::Votes::vote_reply))]
    fn append(&self, out: &mut Vec<u8>) -> Result<(), NoMemory> {
        self.group.append(out)?;
        append_index(self.term, out)?;
        append_flag(self.granted, out)?;
        Ok(())
    }

    ghost lawful = { vote_reply_lawful };
}

/// The words of the text behind the first, each after a space.
impl Text for VoteRequest {
    ghost use Rattle.cp_message.specs.Votes.{vote_request_text};

    ghost text = { vote_request_text };

    fn append_text(&self, out: &mut Vec<u8>) -> Result<(), NoMemory> {
        let numbers = [self.group.0, self.term, self.last_index, self.last_term];
        append_numbers_text(&numbers, out)
    }
}

/// The words of the text behind the first, each after a space.
impl Text for VoteReply {
    ghost use Rattle.cp_message.specs.Votes.{vote_reply_text};

    ghost text = { vote_reply_text };

    fn append_text(&self, out: &mut Vec<u8>) -> Result<(), NoMemory> {
        append_numbers_text(&[self.group.0, self.term], out)?;
        append_yes_text(self.granted, out)?;
        Ok(())
    }
}
