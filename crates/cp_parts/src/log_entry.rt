//! The entries of a log.
ghost use Rattle.cp_grammar.specs.Lists.{each};
ghost use Rattle.cp_parts.specs.LogEntries.{log_entry};

use cp_base::limits::MOST_ENTRY;
use cp_base::{Items, NoMemory};
use cp_grammar::{Item, Stop, append_bytes, append_index, take_bytes, take_index};
use std::alloc::Global;

/// An entry of a group's log: the term of the leader that made it, and its bytes.
#[derive(Clone, Debug, PartialEq, Eq, Drop)]
pub struct LogEntry {
    pub term: u64,
    pub bytes: Items<u8>,
}

impl Item for LogEntry {
    ghost item = { each log_entry };

    #[tactic(auto, unfolding(cp_grammar::specs::Lists::each, crate::specs::LogEntries::log_entry))]
    fn take_item<'a>(
        alloc: Global,
        _before: &[LogEntry],
        bytes: &'a [u8],
    ) -> Result<(LogEntry, &'a [u8]), Stop> {
        let (term, rest) = take_index(bytes)?;
        let (lent, rest) = take_bytes(rest, MOST_ENTRY)?;
        let copy = Vec::from_slice(alloc, lent)?;
        let entry = LogEntry {
            term,
            bytes: Items::from_vec(copy),
        };
        Ok((entry, rest))
    }

    #[tactic(auto, unfolding(cp_grammar::specs::Lists::each, crate::specs::LogEntries::log_entry))]
    fn append_item(&self, _before: &[LogEntry], out: &mut Vec<u8>) -> Result<(), NoMemory> {
        append_index(self.term, out)?;
        append_bytes(self.bytes.as_slice(), out)?;
        Ok(())
    }
}
