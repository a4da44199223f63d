//! What a client may ask about its session in a group.
ghost use Rattle.cp_ops.specs.Laws.{session_op_lawful};
ghost use Rattle.cp_ops.specs.SessionOps.{session_op};

use cp_base::{NoMemory, Text};
use cp_grammar::{Spelled, Stop, append_index, append_u8, take_index, take_u8};
use cp_op_values::append_numbered;
use std::alloc::Global;

/// What a client may ask about its session in a group.
#[derive(Clone, Copy, Debug, PartialEq, Eq)]
pub enum SessionOp {
    /// Gives the open session, or opens one.
    Open,
    /// Keeps a session alive.
    Beat(u64),
    /// Closes a session.
    Close(u64),
}

impl Spelled for SessionOp {
    ghost grammar = { session_op };

    #[tactic(auto, unfolding(crate::specs::SessionOps::session_op))]
    fn take<'a>(_alloc: Global, bytes: &'a [u8]) -> Result<(SessionOp, &'a [u8]), Stop> {
        let (tag, rest) = take_u8(bytes, 2)?;
        match tag {
            0 => Ok((SessionOp::Open, rest)),
            1 => {
                let (session, rest) = take_index(rest)?;
                Ok((SessionOp::Beat(session), rest))
            }
            2 => {
                let (session, rest) = take_index(rest)?;
                Ok((SessionOp::Close(session), rest))
            }
            _ => Err(Stop::Left(rest.len())),
        }
    }

    #[tactic(auto, unfolding(crate::specs::SessionOps::session_op))]
    fn append(&self, out: &mut Vec<u8>) -> Result<(), NoMemory> {
        match self {
            SessionOp::Open => append_u8(0, out)?,
            SessionOp::Beat(session) => {
                append_u8(1, out)?;
                append_index(*session, out)?;
            }
            SessionOp::Close(session) => {
                append_u8(2, out)?;
                append_index(*session, out)?;
            }
        }
        Ok(())
    }

    ghost lawful = { session_op_lawful };
}

impl Text for SessionOp {
    ghost use Rattle.cp_ops.specs.SessionOps.{session_op_text};

    ghost text = { session_op_text };

    fn append_text(&self, out: &mut Vec<u8>) -> Result<(), NoMemory> {
        match self {
            SessionOp::Open => out.extend_from_slice(b"open")?,
            SessionOp::Beat(session) => append_numbered(b"beat ", *session, out)?,
            SessionOp::Close(session) => append_numbered(b"close ", *session, out)?,
        }
        Ok(())
    }
}
