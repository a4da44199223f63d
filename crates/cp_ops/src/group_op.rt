//! What may be asked about groups.
ghost use Rattle.cp_ops.specs.GroupOps.{group_op};
ghost use Rattle.cp_ops.specs.Laws.{group_op_lawful};

use cp_base::{Name, NoMemory, Text, write_decimal};
use cp_grammar::{Spelled, Stop, append_u8, take_u8};
use cp_op_values::{append_size, take_size};
use std::alloc::Global;

/// What may be asked about groups.
#[derive(Clone, Debug, PartialEq, Eq, Drop)]
pub enum GroupOp {
    /// Gives the group of this name, or makes it with so many members.
    Create(Name, u8),
    /// Destroys the group of this name.
    Destroy(Name),
}

impl Spelled for GroupOp {
    ghost grammar = { group_op };

    #[tactic(auto, unfolding(crate::specs::GroupOps::group_op))]
    fn take<'a>(alloc: Global, bytes: &'a [u8]) -> Result<(GroupOp, &'a [u8]), Stop> {
        let (tag, rest) = take_u8(bytes, 1)?;
        match tag {
            0 => {
                let (name, rest) = Name::take(alloc, rest)?;
                let (size, rest) = take_size(rest)?;
                Ok((GroupOp::Create(name, size), rest))
            }
            1 => {
                let (name, rest) = Name::take(alloc, rest)?;
                Ok((GroupOp::Destroy(name), rest))
            }
            _ => Err(Stop::Left(rest.len())),
        }
    }

    #[tactic(auto, unfolding(crate::specs::GroupOps::group_op))]
    fn append(&self, out: &mut Vec<u8>) -> Result<(), NoMemory> {
        match self {
            GroupOp::Create(name, size) => {
                append_u8(0, out)?;
                name.append(out)?;
                append_size(*size, out)?;
            }
            GroupOp::Destroy(name) => {
                append_u8(1, out)?;
                name.append(out)?;
            }
        }
        Ok(())
    }

    ghost lawful = { group_op_lawful };
}

impl Text for GroupOp {
    ghost use Rattle.cp_ops.specs.GroupOps.{group_op_text};

    ghost text = { group_op_text };

    fn append_text(&self, out: &mut Vec<u8>) -> Result<(), NoMemory> {
        match self {
            GroupOp::Create(name, size) => {
                out.extend_from_slice(b"create ")?;
                out.extend_from_slice(name.as_bytes())?;
                out.push(b' ')?;
                write_decimal(u64::from(*size), out)?;
            }
            GroupOp::Destroy(name) => {
                out.extend_from_slice(b"destroy ")?;
                out.extend_from_slice(name.as_bytes())?;
            }
        }
        Ok(())
    }
}
