//! An entry of a group's log.
ghost use Rattle.cp_grammar.specs.Grammar.{whole};
ghost use Rattle.cp_ops.specs.Entries.{entry_within, entry_grammar};
ghost use Rattle.cp_ops.specs.Laws.{entry_newest_lawful};
ghost use Rattle.cp_grammar.specs.Readers.{Reads, Tells};
ghost use Rattle.std.specs.Prelude.{◌≡◌, ◌++◌, List, ℕ, Ok, OnOk, OnErr, IfOk};

use crate::entry_values::{
    append_for_text, append_invocation_text, append_optional_invocation, append_pairs_text,
    append_sessions, append_worded_waits, take_optional_invocation, take_sessions,
};
use crate::op::Op;
use cp_base::limits::{MOST_EXPIRED, MOST_REFERENCE};
use cp_base::{GroupId, Invocation, Items, MemberNo, NoMemory, Text, write_decimal};
use cp_grammar::{
    ReadError, Spelled, Stop, append_index, append_list, append_members, append_u8, append_u64,
    take_index, take_list, take_members, take_u8, take_u64,
};
use cp_op_values::{append_members_text, append_numbered};
use std::alloc::Global;

/// An entry of a group's log.
#[derive(Clone, Debug, PartialEq, Eq, Drop)]
pub enum Entry {
    /// Does nothing.
    Empty,
    /// An invocation, with the operation that it requests.
    Call(Invocation, Op),
    /// Sessions that got no beat since they had these versions: from 1 to 100.
    SessionsExpired(Items<(u64, u64)>),
    /// Invocations that waited too long: from 1 to 100.
    WaitsExpired(Items<Invocation>),
    /// A configuration: the invocation that asked for it, the plan that it follows, and the members.
    Members(Option<Invocation>, u64, Items<u8>),
    /// Destroys this group.
    Destroy(GroupId),
    /// The group is destroyed at all its members.
    Destroyed(GroupId),
    /// The group has the configuration of this index, with these members.
    Moved(GroupId, u64, Items<u8>),
    /// The member has left all groups.
    Left(MemberNo),
}

impl Entry {
    /// The value at the front, whose references have at most so many bytes, and the bytes after it.
    #[tactic(auto, unfolding(crate::specs::Entries::entry_within))]
    pub fn take_within<'a>(
        alloc: Global,
        most: u32,
        bytes: &'a [u8],
    ) -> Result<(Entry, &'a [u8]), Stop>
        ensures { Reads result ((entry_within most).reading bytes.now) }
    {
        let (tag, rest) = take_u8(bytes, 8)?;
        match tag {
            0 => Ok((Entry::Empty, rest)),
            1 => {
                let (call, rest) = match Invocation::take(alloc, rest) {
                    Ok(read) => read,
                    Err(stop) => return Err(stop)
                };
                let (op, rest) = Op::take_within(alloc, most, rest)?;
                Ok((Entry::Call(call, op), rest))
            }
            2 => {
                let (sessions, rest) = take_sessions(alloc, rest)?;
                Ok((Entry::SessionsExpired(sessions), rest))
            }
            3 => {
                let (waits, rest) = take_list(alloc, 1, MOST_EXPIRED, rest)?;
                Ok((Entry::WaitsExpired(Items::from_vec(waits)), rest))
            }
            4 => {
                let (call, rest) = match take_optional_invocation(alloc, rest) {
                    Ok(read) => read,
                    Err(stop) => return Err(stop)
                };
                let (plan, rest) = take_u64(rest, u64::MAX)?;
                let (list, rest) = take_members(alloc, rest)?;
                Ok((Entry::Members(call, plan, list), rest))
            }
            5 => {
                let (group, rest) = GroupId::take(alloc, rest)?;
                Ok((Entry::Destroy(group), rest))
            }
            6 => {
                let (group, rest) = GroupId::take(alloc, rest)?;
                Ok((Entry::Destroyed(group), rest))
            }
            7 => {
                let (group, rest) = GroupId::take(alloc, rest)?;
                let (index, rest) = take_index(rest)?;
                let (list, rest) = take_members(alloc, rest)?;
                Ok((Entry::Moved(group, index, list), rest))
            }
            8 => {
                let (member, rest) = MemberNo::take(alloc, rest)?;
                Ok((Entry::Left(member), rest))
            }
            _ => Err(Stop::Left(rest.len())),
        }
    }
}

impl Spelled for Entry {
    ghost grammar = { entry_grammar };

    fn take<'a>(alloc: Global, bytes: &'a [u8]) -> Result<(Entry, &'a [u8]), Stop> {
        Entry::take_within(alloc, MOST_REFERENCE, bytes)
    }

    #[tactic(auto, unfolding(crate::specs::Entries::entry_within))]
    fn append(&self, out: &mut Vec<u8>) -> Result<(), NoMemory> {
        match self {
            Entry::Empty => append_u8(0, out)?,
            Entry::Call(call, op) => {
                append_u8(1, out)?;
                call.append(out)?;
                op.append(out)?;
            }
            Entry::SessionsExpired(sessions) => {
                append_u8(2, out)?;
                append_sessions(sessions, out)?;
            }
            Entry::WaitsExpired(waits) => {
                append_u8(3, out)?;
                append_list(waits.as_slice(), out)?;
            }
            Entry::Members(call, plan, list) => {
                append_u8(4, out)?;
                append_optional_invocation(call, out)?;
                append_u64(*plan, out)?;
                append_members(list, out)?;
            }
            Entry::Destroy(group) => {
                append_u8(5, out)?;
                group.append(out)?;
            }
            Entry::Destroyed(group) => {
                append_u8(6, out)?;
                group.append(out)?;
            }
            Entry::Moved(group, index, list) => {
                append_u8(7, out)?;
                group.append(out)?;
                append_index(*index, out)?;
                append_members(list, out)?;
            }
            Entry::Left(member) => {
                append_u8(8, out)?;
                member.append(out)?;
            }
        }
        Ok(())
    }

    ghost lawful = { entry_newest_lawful };
}

impl Text for Entry {
    ghost use Rattle.cp_ops.specs.Entries.{entry_text};

    ghost text = { entry_text };

    fn append_text(&self, out: &mut Vec<u8>) -> Result<(), NoMemory> {
        match self {
            Entry::Empty => out.extend_from_slice(b"empty")?,
            Entry::Call(call, op) => {
                out.extend_from_slice(b"call ")?;
                append_invocation_text(call, out)?;
                out.push(b' ')?;
                op.append_text(out)?;
            }
            Entry::SessionsExpired(sessions) => {
                out.extend_from_slice(b"expire sessions")?;
                append_pairs_text(sessions.as_slice(), out)?;
            }
            Entry::WaitsExpired(waits) => append_worded_waits(b"expire waits", waits, out)?,
            Entry::Members(call, plan, list) => {
                out.extend_from_slice(b"members")?;
                append_members_text(list.as_slice(), out)?;
                append_for_text(call, out)?;
            }
            Entry::Destroy(group) => append_numbered(b"destroy ", group.0, out)?,
            Entry::Destroyed(group) => append_numbered(b"destroyed ", group.0, out)?,
            Entry::Moved(group, index, list) => {
                out.extend_from_slice(b"moved ")?;
                write_decimal(group.0, out)?;
                out.push(b' ')?;
                write_decimal(*index, out)?;
                append_members_text(list.as_slice(), out)?;
            }
            Entry::Left(member) => append_numbered(b"left ", u64::from(member.0), out)?,
        }
        Ok(())
    }
}

impl Entry {
    /// The entry that the bytes spell, all of them.
    pub fn read(alloc: Global, bytes: &[u8]) -> Result<Entry, ReadError>
        // Which entry it is, and else at which place the first field fails.
        ensures exact { Tells result (whole entry_grammar bytes.now) }
        // What is read is spelled so.
        ensures found { IfOk result (λ value. entry_grammar.Fits value × (bytes.now ≡ entry_grammar.spelling value)) }
        // What is spelled so is read, unless memory runs out.
        ensures only { (value : Entry) → entry_grammar.Fits value → bytes.now ≡ entry_grammar.spelling value → Tells result (Ok value) }
    {
        cp_grammar::read(alloc, bytes)
    }

    /// Appends the one spelling, or leaves `out`.
    pub fn write(&self, out: &mut Vec<u8>) -> Result<(), NoMemory>
        requires { entry_grammar.Fits self.now }
        ensures ok { OnOk result (out.new.items ≡ out.old.items ++ entry_grammar.spelling self.now) }
        ensures err { OnErr result (out.new.items ≡ out.old.items) }
    {
        cp_grammar::write(self, out)
    }
}

/// No spelling of an entry begins another, so what was written is read again and the rest is left.
pub fn no_entry_begins_another()
    ensures { (x y : Entry) (a b : List ℕ) → entry_grammar.Fits x → entry_grammar.Fits y → entry_grammar.spelling x ++ a
        ≡ entry_grammar.spelling y ++ b → (x ≡ y) × (a ≡ b) }
{
    cp_grammar::no_spelling_begins_another::<Entry>()
}
