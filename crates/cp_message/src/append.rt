//! Appends: the entries that a leader hands to a follower, and what it is answered.
ghost use Rattle.cp_grammar.specs.Readers.{Reads};
ghost use Rattle.cp_message.specs.RaftLaws.{append_newest_lawful, append_reply_lawful};
ghost use Rattle.cp_message.specs.Appends.{append_within, append_newest, append_reply};

use crate::entries::{LogEntry, take_entries_after};
use crate::text::{append_numbers_text, append_yes_text};
use cp_base::limits::MOST_ENTRY;
use cp_base::{GroupId, Items, NoMemory, Text};
use cp_grammar::{Spelled, Stop, append_flag, append_index, append_list, take_flag, take_index};
use std::alloc::Global;

/// Hands entries to a follower.
#[derive(Clone, Debug, PartialEq, Eq, Drop)]
pub struct Append {
    pub group: GroupId,
    pub term: u64,
    /// The index before the entries.
    pub previous_index: u64,
    /// The term of the entry there.
    pub previous_term: u64,
    /// The index up to which the leader has committed.
    pub commit: u64,
    /// At most 100 entries; the last one's index is at most 2^62.
    pub entries: Items<LogEntry>,
}

/// Answers an append.
#[derive(Clone, Copy, Debug, PartialEq, Eq)]
pub struct AppendReply {
    pub group: GroupId,
    pub term: u64,
    /// Whether the follower's log has the entries now.
    pub accepted: bool,
    /// Up to which index the logs are the same, or where the leader may go on.
    pub index: u64,
}

impl Append {
    /// The append at the front, whose entries have at most so many bytes each, and the bytes after it.
    #[tactic(auto, unfolding(crate::specs::Appends::append_within))]
    pub fn take_within<'a>(
        alloc: Global,
        most: u32,
        bytes: &'a [u8],
    ) -> Result<(Append, &'a [u8]), Stop>
        ensures { Reads result ((append_within most).reading bytes.now) }
    {
        let (group, rest) = GroupId::take(alloc, bytes)?;
        let (term, rest) = take_index(rest)?;
        let (previous_index, rest) = take_index(rest)?;
        let (previous_term, rest) = take_index(rest)?;
        let (commit, rest) = take_index(rest)?;
        let (entries, rest) = take_entries_after(alloc, most, previous_index, rest)?;
        let append = Append {
            group,
            term,
            previous_index,
            previous_term,
            commit,
            entries,
        };
        Ok((append, rest))
    }
}

impl Spelled for Append {
    ghost grammar = { append_newest };

    fn take<'a>(alloc: Global, bytes: &'a [u8]) -> Result<(Append, &'a [u8]), Stop> {
        Append::take_within(alloc, MOST_ENTRY, bytes)
    }

    #[tactic(auto, unfolding(crate::specs::Appends::append_within, crate::specs::Entries::entries_after))]
    fn append(&self, out: &mut Vec<u8>) -> Result<(), NoMemory> {
        self.group.append(out)?;
        append_index(self.term, out)?;
        append_index(self.previous_index, out)?;
        append_index(self.previous_term, out)?;
        append_index(self.commit, out)?;
        append_list(self.entries.as_slice(), out)?;
        Ok(())
    }

    ghost lawful = { append_newest_lawful };
}

impl Spelled for AppendReply {
    ghost grammar = { append_reply };

    #[tactic(auto, unfolding(crate::specs::Appends::append_reply))]
    fn take<'a>(alloc: Global, bytes: &'a [u8]) -> Result<(AppendReply, &'a [u8]), Stop> {
        let (group, rest) = GroupId::take(alloc, bytes)?;
        let (term, rest) = take_index(rest)?;
        let (accepted, rest) = take_flag(rest)?;
        let (index, rest) = take_index(rest)?;
        let reply = AppendReply {
            group,
            term,
            accepted,
            index,
        };
        Ok((reply, rest))
    }

    #[tactic(auto, unfolding(crate::specs::Appends::append_reply))]
    fn append(&self, out: &mut Vec<u8>) -> Result<(), NoMemory> {
        self.group.append(out)?;
        append_index(self.term, out)?;
        append_flag(self.accepted, out)?;
        append_index(self.index, out)?;
        Ok(())
    }

    ghost lawful = { append_reply_lawful };
}

/// The words of the text behind the first, each after a space. Of the entries it tells how many there are.
impl Text for Append {
    ghost use Rattle.cp_message.specs.Appends.{append_text};

    ghost text = { append_text };

    fn append_text(&self, out: &mut Vec<u8>) -> Result<(), NoMemory> {
        let numbers = [
            self.group.0,
            self.term,
            self.previous_index,
            self.previous_term,
            self.commit,
            self.entries.len() as u64,
        ];
        append_numbers_text(&numbers, out)
    }
}

/// The words of the text behind the first, each after a space.
impl Text for AppendReply {
    ghost use Rattle.cp_message.specs.Appends.{append_reply_text};

    ghost text = { append_reply_text };

    fn append_text(&self, out: &mut Vec<u8>) -> Result<(), NoMemory> {
        append_numbers_text(&[self.group.0, self.term], out)?;
        append_yes_text(self.accepted, out)?;
        append_numbers_text(&[self.index], out)?;
        Ok(())
    }
}
