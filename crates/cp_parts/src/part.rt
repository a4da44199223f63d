//! The parts of a journal.
ghost use Rattle.std.specs.Prelude.{◌≡◌, ◌-◌, ◌^◌, ◌++◌, List, ℕ, OnOk};
ghost use Rattle.cp_grammar.specs.Fields.{byte, at_least, bytes as bytes_field};
ghost use Rattle.cp_grammar.specs.Readers.{Reads};
ghost use Rattle.cp_parts.specs.declared.part.Part.TheVariants as variants;
ghost use Rattle.cp_parts.specs.Parts.{entry_list, part_grammar};
ghost use Rattle.cp_parts.specs.Laws.{part_lawful};

use crate::LogEntry;
use cp_base::limits::MOST_MEMBER;
use cp_base::{GroupId, Items, NoMemory};
use cp_grammar::{
    Spelled, Stop, append_bytes, append_index, append_list, append_members, append_u8, take_bytes,
    take_index, take_list, take_mark, take_members, take_u8,
};
use std::alloc::Global;

/// The greatest byte of a part.
const MOST_PART: u8 = 7;

/// The format that a `Start2` begins.
const SECOND_FORMAT: u8 = 2;

/// How many bytes a `State` has.
pub const STATE_BYTES: usize = 18;

/// What a member writes to its journal in one step.
#[derive(Clone, Debug, PartialEq, Eq, Drop)]
pub enum Part {
    /// The member starts, for the time of this number. Written in the first format alone.
    Start(u64),
    /// Term and vote of a group; the vote is 0 for nobody.
    State(GroupId, u64, u8),
    /// Term and vote of a group, and entries that stand behind this index from now on.
    Append(GroupId, u64, u8, u64, Items<LogEntry>),
    /// A group begins with these members.
    Begin(GroupId, Items<u8>),
    /// A group has ended.
    End(GroupId),
    /// Term and vote of a group, and a snapshot of this index, whose bytes stand for the entries up to it from now on.
    Snapshot(GroupId, u64, u8, u64, Items<u8>),
    /// The member starts, for the time of this number, and writes the second format from now on.
    Start2(u64),
}

/// Entries of a log, with their count before them.
#[tactic(auto, unfolding(crate::specs::Parts::entry_list))]
fn take_entries(alloc: Global, bytes: &[u8]) -> Result<(Items<LogEntry>, &[u8]), Stop>
    ensures { Reads result (entry_list.reading bytes.now) }
{
    let (entries, rest) = take_list(alloc, 0, u32::MAX, bytes)?;
    Ok((Items::from_vec(entries), rest))
}

/// Appends entries of a log, with their count before them.
#[tactic(auto, unfolding(crate::specs::Parts::entry_list))]
fn append_entries(entries: &Items<LogEntry>, out: &mut Vec<u8>) -> Result<(), NoMemory>
    requires { entry_list.Fits entries.now }
    ensures { OnOk result (out.new.items ≡ out.old.items ++ entry_list.spelling entries.now) }
{
    append_list(entries.as_slice(), out)
}

/// The bytes of a snapshot, with their length before them.
fn take_snapshot(alloc: Global, bytes: &[u8]) -> Result<(Items<u8>, &[u8]), Stop>
    ensures { Reads result ((bytes_field (2 ^ 32 - 1)).reading bytes.now) }
{
    let (lent, rest) = take_bytes(bytes, u32::MAX)?;
    let copy = Vec::from_slice(alloc, lent)?;
    Ok((Items::from_vec(copy), rest))
}

/// The byte of a part.
fn take_tag(bytes: &[u8]) -> Result<(u8, &[u8]), Stop>
    ensures { Reads result ((at_least 1 (byte 7)).reading bytes.now) }
{
    let (tag, rest) = take_u8(bytes, MOST_PART)?;
    if tag < 1 {
        return Err(Stop::Left(bytes.len()));
    }
    Ok((tag, rest))
}

impl Spelled for Part {
    ghost grammar = { part_grammar };

    #[tactic(auto, unfolding(crate::specs::Parts::part_grammar))]
    fn take<'a>(alloc: Global, bytes: &'a [u8]) -> Result<(Part, &'a [u8]), Stop> {
        let (tag, rest) = take_tag(bytes)?;
        match tag {
            1 => {
                let (restart, rest) = take_index(rest)?;
                Ok((Part::Start(restart), rest))
            }
            2 => {
                let (group, rest) = GroupId::take(alloc, rest)?;
                let (term, rest) = take_index(rest)?;
                let (vote, rest) = take_u8(rest, MOST_MEMBER)?;
                Ok((Part::State(group, term, vote), rest))
            }
            3 => {
                let (group, rest) = GroupId::take(alloc, rest)?;
                let (term, rest) = take_index(rest)?;
                let (vote, rest) = take_u8(rest, MOST_MEMBER)?;
                let (after, rest) = take_index(rest)?;
                let (entries, rest) = take_entries(alloc, rest)?;
                Ok((Part::Append(group, term, vote, after, entries), rest))
            }
            4 => {
                let (group, rest) = GroupId::take(alloc, rest)?;
                let (first, rest) = take_members(alloc, rest)?;
                Ok((Part::Begin(group, first), rest))
            }
            5 => {
                let (group, rest) = GroupId::take(alloc, rest)?;
                Ok((Part::End(group), rest))
            }
            6 => {
                let (group, rest) = GroupId::take(alloc, rest)?;
                let (term, rest) = take_index(rest)?;
                let (vote, rest) = take_u8(rest, MOST_MEMBER)?;
                let (index, rest) = take_index(rest)?;
                let (bytes, rest) = take_snapshot(alloc, rest)?;
                Ok((Part::Snapshot(group, term, vote, index, bytes), rest))
            }
            7 => {
                let (restart, rest) = take_index(rest)?;
                let rest = take_mark(rest, SECOND_FORMAT)?;
                Ok((Part::Start2(restart), rest))
            }
            _ => Err(Stop::Left(rest.len())),
        }
    }

    #[tactic(auto, unfolding(crate::specs::Parts::part_grammar))]
    fn append(&self, out: &mut Vec<u8>) -> Result<(), NoMemory> {
        match self {
            Part::Start(restart) => {
                append_u8(1, out)?;
                append_index(*restart, out)?;
            }
            Part::State(group, term, vote) => {
                append_u8(2, out)?;
                group.append(out)?;
                append_index(*term, out)?;
                append_u8(*vote, out)?;
            }
            Part::Append(group, term, vote, after, entries) => {
                append_u8(3, out)?;
                group.append(out)?;
                append_index(*term, out)?;
                append_u8(*vote, out)?;
                append_index(*after, out)?;
                append_entries(entries, out)?;
            }
            Part::Begin(group, first) => {
                append_u8(4, out)?;
                group.append(out)?;
                append_members(first, out)?;
            }
            Part::End(group) => {
                append_u8(5, out)?;
                group.append(out)?;
            }
            Part::Snapshot(group, term, vote, index, bytes) => {
                append_u8(6, out)?;
                group.append(out)?;
                append_index(*term, out)?;
                append_u8(*vote, out)?;
                append_index(*index, out)?;
                append_bytes(bytes.as_slice(), out)?;
            }
            Part::Start2(restart) => {
                append_u8(7, out)?;
                append_index(*restart, out)?;
                append_u8(SECOND_FORMAT, out)?;
            }
        }
        Ok(())
    }

    ghost lawful = { part_lawful };
}

/// The bytes of a `State`, without memory.
#[tactic(auto, unfolding(crate::specs::Parts::part_grammar))]
pub fn state_bytes(group: GroupId, term: u64, vote: u8) -> [u8; STATE_BYTES]
    ensures { result ≡ part_grammar.spelling (variants.State group term vote) }
{
    let [g0, g1, g2, g3, g4, g5, g6, g7] = group.0.to_be_bytes();
    let [t0, t1, t2, t3, t4, t5, t6, t7] = term.to_be_bytes();
    [
        2, g0, g1, g2, g3, g4, g5, g6, g7, t0, t1, t2, t3, t4, t5, t6, t7, vote,
    ]
}

/// No spelling of a part begins another, so what was written is read again and the rest is left.
pub fn no_part_begins_another()
    ensures { (x y : Part) (a b : List ℕ) → part_grammar.Fits x → part_grammar.Fits y → part_grammar.spelling x ++ a
        ≡ part_grammar.spelling y ++ b → (x ≡ y) × (a ≡ b) }
{
    cp_grammar::no_spelling_begins_another::<Part>()
}
