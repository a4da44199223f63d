//! What may be done to a lock. Whoever acquires or releases names a session.
ghost use Rattle.cp_object_ops.specs.Laws.{lock_op_lawful};
ghost use Rattle.cp_object_ops.specs.LockOps.{lock_op};

use cp_base::{NoMemory, Text, write_decimal};
use cp_grammar::{
    Spelled, Stop, append_index, append_u8, append_u32, take_index, take_u8, take_u32,
};
use cp_op_values::{Wish, append_numbered, append_wish};
use std::alloc::Global;

/// What may be done to a lock. Whoever acquires or releases names a session.
#[derive(Clone, Copy, Debug, PartialEq, Eq)]
pub enum LockOp {
    /// Gives the owner.
    Owner,
    /// Takes a hold: the session, the most holds that one thread may have (0 for no limit of its own), how long it may wait.
    Acquire(u64, u32, Wish),
    /// Gives a hold back.
    Release(u64),
}

impl Spelled for LockOp {
    ghost grammar = { lock_op };

    #[tactic(auto, unfolding(crate::specs::LockOps::lock_op))]
    fn take<'a>(alloc: Global, bytes: &'a [u8]) -> Result<(LockOp, &'a [u8]), Stop> {
        let (tag, rest) = take_u8(bytes, 2)?;
        match tag {
            0 => Ok((LockOp::Owner, rest)),
            1 => {
                let (session, rest) = take_index(rest)?;
                let (limit, rest) = take_u32(rest, u32::MAX)?;
                let (wish, rest) = Wish::take(alloc, rest)?;
                Ok((LockOp::Acquire(session, limit, wish), rest))
            }
            2 => {
                let (session, rest) = take_index(rest)?;
                Ok((LockOp::Release(session), rest))
            }
            _ => Err(Stop::Left(rest.len())),
        }
    }

    #[tactic(auto, unfolding(crate::specs::LockOps::lock_op))]
    fn append(&self, out: &mut Vec<u8>) -> Result<(), NoMemory> {
        match self {
            LockOp::Owner => append_u8(0, out)?,
            LockOp::Acquire(session, limit, wish) => {
                append_u8(1, out)?;
                append_index(*session, out)?;
                append_u32(*limit, out)?;
                append_wish(wish, out)?;
            }
            LockOp::Release(session) => {
                append_u8(2, out)?;
                append_index(*session, out)?;
            }
        }
        Ok(())
    }

    ghost lawful = { lock_op_lawful };
}

impl Text for LockOp {
    ghost use Rattle.cp_object_ops.specs.LockOps.{lock_op_text};

    ghost text = { lock_op_text };

    fn append_text(&self, out: &mut Vec<u8>) -> Result<(), NoMemory> {
        match self {
            LockOp::Owner => out.extend_from_slice(b"owner")?,
            LockOp::Acquire(session, limit, wish) => {
                out.extend_from_slice(b"acquire ")?;
                write_decimal(*session, out)?;
                out.push(b' ')?;
                write_decimal(u64::from(*limit), out)?;
                out.push(b' ')?;
                wish.append_text(out)?;
            }
            LockOp::Release(session) => append_numbered(b"release ", *session, out)?,
        }
        Ok(())
    }
}
