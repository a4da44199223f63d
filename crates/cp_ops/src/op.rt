//! An operation, as it stands in an entry or a request.
ghost use Rattle.cp_grammar.specs.Grammar.{whole};
ghost use Rattle.cp_ops.specs.Laws.{op_newest_lawful};
ghost use Rattle.cp_ops.specs.Ops.{op_within, op_grammar};
ghost use Rattle.cp_grammar.specs.Readers.{Reads, Tells};
ghost use Rattle.std.specs.Prelude.{◌≡◌, ◌++◌, List, ℕ, Ok, OnOk, OnErr, IfOk};

use crate::change_op::ChangeOp;
use crate::group_op::GroupOp;
use crate::member_op::MemberOp;
use crate::session_op::SessionOp;
use cp_base::limits::{LAST_NUMBER, MOST_REFERENCE};
use cp_base::{Name, NoMemory, Text};
use cp_grammar::{ReadError, Spelled, Stop, append_u8};
use cp_object_ops::{LatchOp, LockOp, LongOp, MapOp, RefOp, SemOp};
use cp_op_values::{Kind, take_tag};
use std::alloc::Global;

/// An operation, as it stands in an entry or a request.
#[derive(Clone, Debug, PartialEq, Eq, Drop)]
pub enum Op {
    /// On the atomic long of this name.
    Long(Name, LongOp),
    /// On the atomic reference of this name.
    Ref(Name, RefOp),
    /// On the lock of this name.
    Lock(Name, LockOp),
    /// On the semaphore of this name.
    Sem(Name, SemOp),
    /// On the semaphore without sessions of this name.
    Jsem(Name, SemOp),
    /// On the latch of this name.
    Latch(Name, LatchOp),
    /// On a session.
    Session(SessionOp),
    /// Destroys the object of this kind and name.
    Destroy(Kind, Name),
    /// On groups.
    Group(GroupOp),
    /// On members.
    Member(MemberOp),
    /// On the members of a group.
    Change(ChangeOp),
    /// On the map of this name.
    Map(Name, MapOp),
}

impl Op {
    /// The value at the front, whose references have at most so many bytes, and the bytes after it.
    #[tactic(auto, unfolding(crate::specs::Ops::op_within))]
    pub fn take_within<'a>(
        alloc: Global,
        most: u32,
        bytes: &'a [u8],
    ) -> Result<(Op, &'a [u8]), Stop>
        ensures { Reads result ((op_within most).reading bytes.now) }
    {
        let (tag, rest) = take_tag(bytes)?;
        match tag {
            1 => {
                let (name, rest) = Name::take(alloc, rest)?;
                let (op, rest) = LongOp::take(alloc, rest)?;
                Ok((Op::Long(name, op), rest))
            }
            2 => {
                let (name, rest) = Name::take(alloc, rest)?;
                let (op, rest) = RefOp::take_within(alloc, most, rest)?;
                Ok((Op::Ref(name, op), rest))
            }
            3 => {
                let (name, rest) = Name::take(alloc, rest)?;
                let (op, rest) = LockOp::take(alloc, rest)?;
                Ok((Op::Lock(name, op), rest))
            }
            4 => {
                let (name, rest) = Name::take(alloc, rest)?;
                let (op, rest) = SemOp::take_within(alloc, LAST_NUMBER, rest)?;
                Ok((Op::Sem(name, op), rest))
            }
            5 => {
                let (name, rest) = Name::take(alloc, rest)?;
                let (op, rest) = SemOp::take_within(alloc, 0, rest)?;
                Ok((Op::Jsem(name, op), rest))
            }
            6 => {
                let (name, rest) = Name::take(alloc, rest)?;
                let (op, rest) = LatchOp::take(alloc, rest)?;
                Ok((Op::Latch(name, op), rest))
            }
            7 => {
                let (op, rest) = SessionOp::take(alloc, rest)?;
                Ok((Op::Session(op), rest))
            }
            8 => {
                let (kind, rest) = Kind::take(alloc, rest)?;
                let (name, rest) = Name::take(alloc, rest)?;
                Ok((Op::Destroy(kind, name), rest))
            }
            9 => {
                let (op, rest) = GroupOp::take(alloc, rest)?;
                Ok((Op::Group(op), rest))
            }
            10 => {
                let (op, rest) = MemberOp::take(alloc, rest)?;
                Ok((Op::Member(op), rest))
            }
            11 => {
                let (op, rest) = ChangeOp::take(alloc, rest)?;
                Ok((Op::Change(op), rest))
            }
            12 => {
                let (name, rest) = Name::take(alloc, rest)?;
                let (op, rest) = MapOp::take(alloc, rest)?;
                Ok((Op::Map(name, op), rest))
            }
            _ => Err(Stop::Left(rest.len())),
        }
    }
}

impl Spelled for Op {
    ghost grammar = { op_grammar };

    fn take<'a>(alloc: Global, bytes: &'a [u8]) -> Result<(Op, &'a [u8]), Stop> {
        Op::take_within(alloc, MOST_REFERENCE, bytes)
    }

    #[tactic(auto, unfolding(crate::specs::Ops::op_within))]
    fn append(&self, out: &mut Vec<u8>) -> Result<(), NoMemory> {
        match self {
            Op::Long(name, op) => {
                append_u8(1, out)?;
                name.append(out)?;
                op.append(out)?;
            }
            Op::Ref(name, op) => {
                append_u8(2, out)?;
                name.append(out)?;
                op.append(out)?;
            }
            Op::Lock(name, op) => {
                append_u8(3, out)?;
                name.append(out)?;
                op.append(out)?;
            }
            Op::Sem(name, op) => {
                append_u8(4, out)?;
                name.append(out)?;
                op.append(out)?;
            }
            Op::Jsem(name, op) => {
                append_u8(5, out)?;
                name.append(out)?;
                op.append(out)?;
            }
            Op::Latch(name, op) => {
                append_u8(6, out)?;
                name.append(out)?;
                op.append(out)?;
            }
            Op::Session(op) => {
                append_u8(7, out)?;
                op.append(out)?;
            }
            Op::Destroy(kind, name) => {
                append_u8(8, out)?;
                kind.append(out)?;
                name.append(out)?;
            }
            Op::Group(op) => {
                append_u8(9, out)?;
                op.append(out)?;
            }
            Op::Member(op) => {
                append_u8(10, out)?;
                op.append(out)?;
            }
            Op::Change(op) => {
                append_u8(11, out)?;
                op.append(out)?;
            }
            Op::Map(name, op) => {
                append_u8(12, out)?;
                name.append(out)?;
                op.append(out)?;
            }
        }
        Ok(())
    }

    ghost lawful = { op_newest_lawful };
}

impl Text for Op {
    ghost use Rattle.cp_ops.specs.Ops.{op_text};

    ghost text = { op_text };

    fn append_text(&self, out: &mut Vec<u8>) -> Result<(), NoMemory> {
        match self {
            Op::Long(name, op) => {
                out.extend_from_slice(b"long ")?;
                out.extend_from_slice(name.as_bytes())?;
                out.push(b' ')?;
                op.append_text(out)?;
            }
            Op::Ref(name, op) => {
                out.extend_from_slice(b"ref ")?;
                out.extend_from_slice(name.as_bytes())?;
                out.push(b' ')?;
                op.append_text(out)?;
            }
            Op::Lock(name, op) => {
                out.extend_from_slice(b"lock ")?;
                out.extend_from_slice(name.as_bytes())?;
                out.push(b' ')?;
                op.append_text(out)?;
            }
            Op::Sem(name, op) => {
                out.extend_from_slice(b"sem ")?;
                out.extend_from_slice(name.as_bytes())?;
                out.push(b' ')?;
                op.append_text(out)?;
            }
            Op::Jsem(name, op) => {
                out.extend_from_slice(b"jsem ")?;
                out.extend_from_slice(name.as_bytes())?;
                out.push(b' ')?;
                op.append_text(out)?;
            }
            Op::Latch(name, op) => {
                out.extend_from_slice(b"latch ")?;
                out.extend_from_slice(name.as_bytes())?;
                out.push(b' ')?;
                op.append_text(out)?;
            }
            Op::Session(op) => {
                out.extend_from_slice(b"session ")?;
                op.append_text(out)?;
            }
            Op::Destroy(kind, name) => {
                out.extend_from_slice(b"destroy ")?;
                kind.append_text(out)?;
                out.push(b' ')?;
                out.extend_from_slice(name.as_bytes())?;
            }
            Op::Group(op) => {
                out.extend_from_slice(b"group ")?;
                op.append_text(out)?;
            }
            Op::Member(op) => {
                out.extend_from_slice(b"member ")?;
                op.append_text(out)?;
            }
            Op::Change(op) => {
                out.extend_from_slice(b"change ")?;
                op.append_text(out)?;
            }
            Op::Map(name, op) => {
                out.extend_from_slice(b"map ")?;
                out.extend_from_slice(name.as_bytes())?;
                out.push(b' ')?;
                op.append_text(out)?;
            }
        }
        Ok(())
    }
}

impl Op {
    /// The op that the bytes spell, all of them.
    pub fn read(alloc: Global, bytes: &[u8]) -> Result<Op, ReadError>
        // Which op it is, and else at which place the first field fails.
        ensures exact { Tells result (whole op_grammar bytes.now) }
        // What is read is spelled so.
        ensures found { IfOk result (λ value. op_grammar.Fits value × (bytes.now ≡ op_grammar.spelling value)) }
        // What is spelled so is read, unless memory runs out.
        ensures only { (value : Op) → op_grammar.Fits value → bytes.now ≡ op_grammar.spelling value → Tells result (Ok value) }
    {
        cp_grammar::read(alloc, bytes)
    }

    /// Appends the one spelling, or leaves `out`.
    pub fn write(&self, out: &mut Vec<u8>) -> Result<(), NoMemory>
        requires { op_grammar.Fits self.now }
        ensures ok { OnOk result (out.new.items ≡ out.old.items ++ op_grammar.spelling self.now) }
        ensures err { OnErr result (out.new.items ≡ out.old.items) }
    {
        cp_grammar::write(self, out)
    }
}

/// No spelling of an op begins another, so what was written is read again and the rest is left.
pub fn no_op_begins_another()
    ensures { (x y : Op) (a b : List ℕ) → op_grammar.Fits x → op_grammar.Fits y → op_grammar.spelling x ++ a
        ≡ op_grammar.spelling y ++ b → (x ≡ y) × (a ≡ b) }
{
    cp_grammar::no_spelling_begins_another::<Op>()
}
