//! What the state machine of a group answers.
ghost use Rattle.cp_grammar.specs.Grammar.{whole};
ghost use Rattle.cp_answers.specs.Answers.{answer_within, answer_grammar, held_row};
ghost use Rattle.cp_answers.specs.Laws.{answer_newest_lawful};
ghost use Rattle.cp_grammar.specs.Readers.{Reads, Tells};
ghost use Rattle.std.specs.Prelude.{◌≡◌, ◌++◌, List, ℕ, Ok, OnOk, OnErr, IfOk};

use crate::argument::Argument;
use crate::ended_by::EndedBy;
use cp_base::limits::MOST_REFERENCE;
use cp_base::{GroupId, Items, NoMemory, Text, ThreadNo, write_decimal, write_signed};
use cp_grammar::{
    ReadError, Spelled, Stop, append_flag, append_i64, append_index, append_members, append_u8,
    append_u32, append_u64, take_flag, take_i64, take_index, take_members, take_u8, take_u32,
    take_u64,
};
use cp_op_values::{
    append_members_text, append_numbered, append_reference, append_reference_text, take_reference,
};
use std::alloc::Global;

/// What the state machine of a group answers.
#[derive(Clone, Debug, PartialEq, Eq, Drop)]
pub enum Answer {
    /// Done.
    Ok,
    /// Whether it was so.
    Bool(bool),
    /// A number.
    Value(i64),
    /// The value of a reference.
    Ref(Option<Items<u8>>),
    /// The fencing token of a hold.
    Fence(u64),
    /// The lock has no owner.
    Free,
    /// The owner of the lock: session, thread, holds, fencing token.
    Held(u64, ThreadNo, u32, u64),
    /// The open session.
    Session(u64),
    /// A group with its members.
    Group(GroupId, Items<u8>),
    /// Who asks doesn't own the lock.
    NotOwner,
    /// The thread has as many holds as it may.
    LimitReached(u32),
    /// The session that held the lock was closed; made by the client alone.
    OwnershipLost,
    /// The session isn't open.
    SessionExpired(u64),
    /// The wait took too long.
    TimedOut,
    /// A later call of the thread, with this number, ended the wait.
    WaitCancelled(u64),
    /// The thread has made a later call, with this number.
    Stale(u64),
    /// The session holds only so many permits.
    NotHeld(u64),
    /// The semaphore was not made yet.
    NotInitialized,
    /// The object was destroyed.
    ObjectDestroyed,
    /// The group was destroyed.
    GroupDestroyed(GroupId),
    /// A list has as many rows as it may.
    TableFull(u32),
    /// An argument is bad.
    BadArgument(Argument),
    /// It is not known whether the call took effect; made by the client alone.
    Indeterminate(EndedBy),
}

#[tactic(auto, unfolding(crate::specs::Answers::held_row))]
fn take_held(alloc: Global, bytes: &[u8]) -> Result<(Answer, &[u8]), Stop>
    ensures { Reads result (held_row.reading bytes.now) }
{
    let (session, rest) = take_index(bytes)?;
    let (thread, rest) = ThreadNo::take(alloc, rest)?;
    let (holds, rest) = take_u32(rest, u32::MAX)?;
    let (fence, rest) = take_index(rest)?;
    Ok((Answer::Held(session, thread, holds, fence), rest))
}

impl Answer {
    /// The value at the front, whose references have at most so many bytes, and the bytes after it.
    #[tactic(auto, unfolding(crate::specs::Answers::answer_within, crate::specs::Answers::held_row))]
    pub fn take_within<'a>(
        alloc: Global,
        most: u32,
        bytes: &'a [u8],
    ) -> Result<(Answer, &'a [u8]), Stop>
        ensures { Reads result ((answer_within most).reading bytes.now) }
    {
        let (tag, rest) = take_u8(bytes, 22)?;
        match tag {
            0 => Ok((Answer::Ok, rest)),
            1 => {
                let (truth, rest) = take_flag(rest)?;
                Ok((Answer::Bool(truth), rest))
            }
            2 => {
                let (value, rest) = take_i64(rest)?;
                Ok((Answer::Value(value), rest))
            }
            3 => {
                let (value, rest) = take_reference(alloc, most, rest)?;
                Ok((Answer::Ref(value), rest))
            }
            4 => {
                let (fence, rest) = take_index(rest)?;
                Ok((Answer::Fence(fence), rest))
            }
            5 => Ok((Answer::Free, rest)),
            6 => take_held(alloc, rest),
            7 => {
                let (session, rest) = take_index(rest)?;
                Ok((Answer::Session(session), rest))
            }
            8 => {
                let (group, rest) = GroupId::take(alloc, rest)?;
                let (list, rest) = take_members(alloc, rest)?;
                Ok((Answer::Group(group, list), rest))
            }
            9 => Ok((Answer::NotOwner, rest)),
            10 => {
                let (limit, rest) = take_u32(rest, u32::MAX)?;
                Ok((Answer::LimitReached(limit), rest))
            }
            11 => Ok((Answer::OwnershipLost, rest)),
            12 => {
                let (session, rest) = take_index(rest)?;
                Ok((Answer::SessionExpired(session), rest))
            }
            13 => Ok((Answer::TimedOut, rest)),
            14 => {
                let (number, rest) = take_index(rest)?;
                Ok((Answer::WaitCancelled(number), rest))
            }
            15 => {
                let (number, rest) = take_index(rest)?;
                Ok((Answer::Stale(number), rest))
            }
            16 => {
                let (permits, rest) = take_u64(rest, u64::MAX)?;
                Ok((Answer::NotHeld(permits), rest))
            }
            17 => Ok((Answer::NotInitialized, rest)),
            18 => Ok((Answer::ObjectDestroyed, rest)),
            19 => {
                let (group, rest) = GroupId::take(alloc, rest)?;
                Ok((Answer::GroupDestroyed(group), rest))
            }
            20 => {
                let (limit, rest) = take_u32(rest, u32::MAX)?;
                Ok((Answer::TableFull(limit), rest))
            }
            21 => {
                let (argument, rest) = Argument::take(alloc, rest)?;
                Ok((Answer::BadArgument(argument), rest))
            }
            22 => {
                let (cause, rest) = EndedBy::take(alloc, rest)?;
                Ok((Answer::Indeterminate(cause), rest))
            }
            _ => Err(Stop::Left(rest.len())),
        }
    }
}

impl Spelled for Answer {
    ghost grammar = { answer_grammar };

    fn take<'a>(alloc: Global, bytes: &'a [u8]) -> Result<(Answer, &'a [u8]), Stop> {
        Answer::take_within(alloc, MOST_REFERENCE, bytes)
    }

    #[tactic(auto, unfolding(crate::specs::Answers::answer_within, crate::specs::Answers::held_row))]
    fn append(&self, out: &mut Vec<u8>) -> Result<(), NoMemory> {
        match self {
            Answer::Ok => append_u8(0, out)?,
            Answer::Bool(truth) => {
                append_u8(1, out)?;
                append_flag(*truth, out)?;
            }
            Answer::Value(value) => {
                append_u8(2, out)?;
                append_i64(*value, out)?;
            }
            Answer::Ref(value) => {
                append_u8(3, out)?;
                append_reference(value, out)?;
            }
            Answer::Fence(fence) => {
                append_u8(4, out)?;
                append_index(*fence, out)?;
            }
            Answer::Free => append_u8(5, out)?,
            Answer::Held(session, thread, holds, fence) => {
                append_u8(6, out)?;
                append_index(*session, out)?;
                thread.append(out)?;
                append_u32(*holds, out)?;
                append_index(*fence, out)?;
            }
            Answer::Session(session) => {
                append_u8(7, out)?;
                append_index(*session, out)?;
            }
            Answer::Group(group, list) => {
                append_u8(8, out)?;
                group.append(out)?;
                append_members(list, out)?;
            }
            Answer::NotOwner => append_u8(9, out)?,
            Answer::LimitReached(limit) => {
                append_u8(10, out)?;
                append_u32(*limit, out)?;
            }
            Answer::OwnershipLost => append_u8(11, out)?,
            Answer::SessionExpired(session) => {
                append_u8(12, out)?;
                append_index(*session, out)?;
            }
            Answer::TimedOut => append_u8(13, out)?,
            Answer::WaitCancelled(number) => {
                append_u8(14, out)?;
                append_index(*number, out)?;
            }
            Answer::Stale(number) => {
                append_u8(15, out)?;
                append_index(*number, out)?;
            }
            Answer::NotHeld(permits) => {
                append_u8(16, out)?;
                append_u64(*permits, out)?;
            }
            Answer::NotInitialized => append_u8(17, out)?,
            Answer::ObjectDestroyed => append_u8(18, out)?,
            Answer::GroupDestroyed(group) => {
                append_u8(19, out)?;
                group.append(out)?;
            }
            Answer::TableFull(limit) => {
                append_u8(20, out)?;
                append_u32(*limit, out)?;
            }
            Answer::BadArgument(argument) => {
                append_u8(21, out)?;
                argument.append(out)?;
            }
            Answer::Indeterminate(cause) => {
                append_u8(22, out)?;
                cause.append(out)?;
            }
        }
        Ok(())
    }

    ghost lawful = { answer_newest_lawful };
}

impl Text for Answer {
    ghost use Rattle.cp_answers.specs.Answers.{answer_text};

    ghost text = { answer_text };

    fn append_text(&self, out: &mut Vec<u8>) -> Result<(), NoMemory> {
        match self {
            Answer::Ok => out.extend_from_slice(b"ok")?,
            Answer::Bool(true) => out.extend_from_slice(b"true")?,
            Answer::Bool(false) => out.extend_from_slice(b"false")?,
            Answer::Value(value) => {
                out.extend_from_slice(b"value ")?;
                write_signed(*value, out)?;
            }
            Answer::Ref(value) => {
                out.extend_from_slice(b"ref ")?;
                append_reference_text(value, out)?;
            }
            Answer::Fence(fence) => append_numbered(b"fence ", *fence, out)?,
            Answer::Free => out.extend_from_slice(b"free")?,
            Answer::Held(session, thread, holds, fence) => {
                out.extend_from_slice(b"held ")?;
                write_decimal(*session, out)?;
                out.push(b' ')?;
                write_decimal(u64::from(thread.0), out)?;
                out.push(b' ')?;
                write_decimal(u64::from(*holds), out)?;
                out.push(b' ')?;
                write_decimal(*fence, out)?;
            }
            Answer::Session(session) => append_numbered(b"session ", *session, out)?,
            Answer::Group(group, list) => {
                out.extend_from_slice(b"group ")?;
                write_decimal(group.0, out)?;
                append_members_text(list.as_slice(), out)?;
            }
            Answer::NotOwner => out.extend_from_slice(b"not-owner")?,
            Answer::LimitReached(limit) => append_numbered(
                b"limit-reached ",
                u64::from(*limit),
                out,
            )?,
            Answer::OwnershipLost => out.extend_from_slice(b"ownership-lost")?,
            Answer::SessionExpired(session) => append_numbered(b"session-expired ", *session, out)?,
            Answer::TimedOut => out.extend_from_slice(b"timed-out")?,
            Answer::WaitCancelled(number) => append_numbered(b"wait-cancelled ", *number, out)?,
            Answer::Stale(number) => append_numbered(b"stale ", *number, out)?,
            Answer::NotHeld(permits) => append_numbered(b"not-held ", *permits, out)?,
            Answer::NotInitialized => out.extend_from_slice(b"not-initialized")?,
            Answer::ObjectDestroyed => out.extend_from_slice(b"object-destroyed")?,
            Answer::GroupDestroyed(group) => append_numbered(b"group-destroyed ", group.0, out)?,
            Answer::TableFull(limit) => append_numbered(b"table-full ", u64::from(*limit), out)?,
            Answer::BadArgument(argument) => {
                out.extend_from_slice(b"bad-argument ")?;
                argument.append_text(out)?;
            }
            Answer::Indeterminate(cause) => {
                out.extend_from_slice(b"indeterminate ")?;
                cause.append_text(out)?;
            }
        }
        Ok(())
    }
}

impl Answer {
    /// The answer that the bytes spell, all of them.
    pub fn read(alloc: Global, bytes: &[u8]) -> Result<Answer, ReadError>
        // Which answer it is, and else at which place the first field fails.
        ensures exact { Tells result (whole answer_grammar bytes.now) }
        // What is read is spelled so.
        ensures found { IfOk result (λ value. answer_grammar.Fits value × (bytes.now ≡ answer_grammar.spelling value)) }
        // What is spelled so is read, unless memory runs out.
        ensures only { (value : Answer) → answer_grammar.Fits value → bytes.now ≡ answer_grammar.spelling value → Tells result (Ok value) }
    {
        cp_grammar::read(alloc, bytes)
    }

    /// Appends the one spelling, or leaves `out`.
    pub fn write(&self, out: &mut Vec<u8>) -> Result<(), NoMemory>
        requires { answer_grammar.Fits self.now }
        ensures ok { OnOk result (out.new.items ≡ out.old.items ++ answer_grammar.spelling self.now) }
        ensures err { OnErr result (out.new.items ≡ out.old.items) }
    {
        cp_grammar::write(self, out)
    }
}

/// No spelling of an answer begins another, so what was written is read again and the rest is left.
pub fn no_answer_begins_another()
    ensures { (x y : Answer) (a b : List ℕ) → answer_grammar.Fits x → answer_grammar.Fits y → answer_grammar.spelling x
        ++ a ≡ answer_grammar.spelling y ++ b → (x ≡ y) × (a ≡ b) }
{
    cp_grammar::no_spelling_begins_another::<Answer>()
}
