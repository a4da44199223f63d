//! A change of the members of a group, whose configuration is expected to have this index. It stands in requests only.
ghost use Rattle.cp_ops.specs.ChangeOps.{change_op};
ghost use Rattle.cp_ops.specs.Laws.{change_op_lawful};

use cp_base::{MemberNo, NoMemory, Text, write_decimal};
use cp_grammar::{Spelled, Stop, append_index, append_u8, take_index, take_u8};
use std::alloc::Global;

/// A change of the members of a group, whose configuration is expected to have this index. It stands in requests only.
#[derive(Clone, Copy, Debug, PartialEq, Eq)]
pub enum ChangeOp {
    /// Adds a member.
    Add(MemberNo, u64),
    /// Removes a member.
    Remove(MemberNo, u64),
}

impl Spelled for ChangeOp {
    ghost grammar = { change_op };

    #[tactic(auto, unfolding(crate::specs::ChangeOps::change_op))]
    fn take<'a>(alloc: Global, bytes: &'a [u8]) -> Result<(ChangeOp, &'a [u8]), Stop> {
        let (tag, rest) = take_u8(bytes, 1)?;
        match tag {
            0 => {
                let (member, rest) = MemberNo::take(alloc, rest)?;
                let (expected, rest) = take_index(rest)?;
                Ok((ChangeOp::Add(member, expected), rest))
            }
            1 => {
                let (member, rest) = MemberNo::take(alloc, rest)?;
                let (expected, rest) = take_index(rest)?;
                Ok((ChangeOp::Remove(member, expected), rest))
            }
            _ => Err(Stop::Left(rest.len())),
        }
    }

    #[tactic(auto, unfolding(crate::specs::ChangeOps::change_op))]
    fn append(&self, out: &mut Vec<u8>) -> Result<(), NoMemory> {
        match self {
            ChangeOp::Add(member, expected) => {
                append_u8(0, out)?;
                member.append(out)?;
                append_index(*expected, out)?;
            }
            ChangeOp::Remove(member, expected) => {
                append_u8(1, out)?;
                member.append(out)?;
                append_index(*expected, out)?;
            }
        }
        Ok(())
    }

    ghost lawful = { change_op_lawful };
}

impl Text for ChangeOp {
    ghost use Rattle.cp_ops.specs.ChangeOps.{change_op_text};

    ghost text = { change_op_text };

    fn append_text(&self, out: &mut Vec<u8>) -> Result<(), NoMemory> {
        match self {
            ChangeOp::Add(member, expected) => {
                out.extend_from_slice(b"add ")?;
                write_decimal(u64::from(member.0), out)?;
                out.push(b' ')?;
                write_decimal(*expected, out)?;
            }
            ChangeOp::Remove(member, expected) => {
                out.extend_from_slice(b"remove ")?;
                write_decimal(u64::from(member.0), out)?;
                out.push(b' ')?;
                write_decimal(*expected, out)?;
            }
        }
        Ok(())
    }
}
