//! Entries of a log, as members hand them to each other.
ghost use Rattle.std.specs.Prelude.{◌≡◌, ◌-◌, [], min};
ghost use Rattle.cp_base.specs.declared.limits.TheConstants.{MOST_ENTRY};
ghost use Rattle.cp_grammar.specs.Fields.{bytes as bytes_field};
ghost use Rattle.cp_grammar.specs.Lists.{each, items_reading};
ghost use Rattle.cp_grammar.specs.Readers.{Reads};
ghost use Rattle.cp_message.specs.Entries.{log_entry, entries_after};

use cp_base::limits::{LAST_NUMBER, MOST_ENTRIES, MOST_ENTRY};
use cp_base::{Items, NoMemory};
use cp_grammar::{Item, Stop, append_bytes, append_index, take_bytes, take_index, take_u32};
use std::alloc::Global;

/// An entry as it stands in a log: its term, and its bytes.
#[derive(Clone, Debug, PartialEq, Eq, Drop)]
pub struct LogEntry {
    pub term: u64,
    pub bytes: Items<u8>,
}

/// At most `most` bytes behind their length, copied.
pub fn take_copy(alloc: Global, most: u32, bytes: &[u8]) -> Result<(Items<u8>, &[u8]), Stop>
    ensures { Reads result ((bytes_field most).reading bytes.now) }
{
    let (lent, rest) = take_bytes(bytes, most)?;
    let copy = Vec::from_slice(alloc, lent)?;
    Ok((Items::from_vec(copy), rest))
}

impl LogEntry {
    /// The entry at the front, of at most so many bytes, and the bytes after it.
    #[tactic(auto, unfolding(crate::specs::Entries::log_entry))]
    pub fn take_within<'a>(
        alloc: Global,
        most: u32,
        bytes: &'a [u8],
    ) -> Result<(LogEntry, &'a [u8]), Stop>
        ensures { Reads result ((log_entry most).reading bytes.now) }
    {
        let (term, rest) = take_index(bytes)?;
        let (bytes, rest) = take_copy(alloc, most, rest)?;
        Ok((LogEntry { term, bytes }, rest))
    }
}

impl Item for LogEntry {
    ghost item = { each (log_entry MOST_ENTRY) };

    #[tactic(auto, unfolding(cp_grammar::specs::Lists::each))]
    fn take_item<'a>(
        alloc: Global,
        _before: &[LogEntry],
        bytes: &'a [u8],
    ) -> Result<(LogEntry, &'a [u8]), Stop> {
        LogEntry::take_within(alloc, MOST_ENTRY, bytes)
    }

    #[tactic(auto, unfolding(cp_grammar::specs::Lists::each, crate::specs::Entries::log_entry))]
    fn append_item(&self, _before: &[LogEntry], out: &mut Vec<u8>) -> Result<(), NoMemory> {
        append_index(self.term, out)?;
        append_bytes(self.bytes.as_slice(), out)?;
        Ok(())
    }
}

/// So many entries of at most so many bytes each, and the bytes after them.
pub fn take_entries(
    alloc: Global,
    most: u32,
    count: u32,
    bytes: &[u8],
) -> Result<(Items<LogEntry>, &[u8]), Stop>
    ensures { Reads result (items_reading (each (log_entry most)) [] count bytes.now) }
{
    let mut entries = Vec::new(alloc);
    let mut rest = bytes;
    for _ in 0..count {
        let (entry, after) = LogEntry::take_within(alloc, most, rest)?;
        entries.push(entry)?;
        rest = after;
    }
    Ok((Items::from_vec(entries), rest))
}

/// How many entries may follow an index: it is to stay at most 2^62.
fn most_entries_after(previous: u64) -> u32
    ensures { result ≡ min MOST_ENTRIES (LAST_NUMBER - previous) }
{
    LAST_NUMBER
        .saturating_sub(previous)
        .min(u64::from(MOST_ENTRIES)) as u32
}

/// A count, and so many entries, which may follow this index; and the bytes after them.
#[tactic(auto, unfolding(crate::specs::Entries::entries_after))]
pub fn take_entries_after(
    alloc: Global,
    most: u32,
    previous: u64,
    bytes: &[u8],
) -> Result<(Items<LogEntry>, &[u8]), Stop>
    ensures { Reads result ((entries_after most previous).reading bytes.now) }
{
    let (count, rest) = take_u32(bytes, most_entries_after(previous))?;
    take_entries(alloc, most, count, rest)
}
