//! What may be asked about members.
ghost use Rattle.cp_ops.specs.Laws.{member_op_lawful};
ghost use Rattle.cp_ops.specs.MemberOps.{member_op};

use cp_base::{MemberNo, NoMemory, Text};
use cp_grammar::{Spelled, Stop, append_u8, take_u8};
use cp_op_values::append_numbered;
use std::alloc::Global;

/// What may be asked about members.
#[derive(Clone, Copy, Debug, PartialEq, Eq)]
pub enum MemberOp {
    /// Moves a member out of all groups.
    Leave(MemberNo),
    /// Takes a member back.
    Join(MemberNo),
}

impl Spelled for MemberOp {
    ghost grammar = { member_op };

    #[tactic(auto, unfolding(crate::specs::MemberOps::member_op))]
    fn take<'a>(alloc: Global, bytes: &'a [u8]) -> Result<(MemberOp, &'a [u8]), Stop> {
        let (tag, rest) = take_u8(bytes, 1)?;
        match tag {
            0 => {
                let (member, rest) = MemberNo::take(alloc, rest)?;
                Ok((MemberOp::Leave(member), rest))
            }
            1 => {
                let (member, rest) = MemberNo::take(alloc, rest)?;
                Ok((MemberOp::Join(member), rest))
            }
            _ => Err(Stop::Left(rest.len())),
        }
    }

    #[tactic(auto, unfolding(crate::specs::MemberOps::member_op))]
    fn append(&self, out: &mut Vec<u8>) -> Result<(), NoMemory> {
        match self {
            MemberOp::Leave(member) => {
                append_u8(0, out)?;
                member.append(out)?;
            }
            MemberOp::Join(member) => {
                append_u8(1, out)?;
                member.append(out)?;
            }
        }
        Ok(())
    }

    ghost lawful = { member_op_lawful };
}

impl Text for MemberOp {
    ghost use Rattle.cp_ops.specs.MemberOps.{member_op_text};

    ghost text = { member_op_text };

    fn append_text(&self, out: &mut Vec<u8>) -> Result<(), NoMemory> {
        match self {
            MemberOp::Leave(member) => append_numbered(b"leave ", u64::from(member.0), out)?,
            MemberOp::Join(member) => append_numbered(b"join ", u64::from(member.0), out)?,
        }
        Ok(())
    }
}
