//! What may be done to a countdown latch.
ghost use Rattle.cp_object_ops.specs.LatchOps.{latch_op};
ghost use Rattle.cp_object_ops.specs.Laws.{latch_op_lawful};

use cp_base::limits::MOST_COUNT;
use cp_base::{NoMemory, Text};
use cp_grammar::{
    Spelled, Stop, append_index, append_u8, append_u32, take_index, take_mark, take_u8, take_u32,
    take_u32_between,
};
use cp_op_values::append_numbered;
use std::alloc::Global;

/// What may be done to a countdown latch.
#[derive(Clone, Copy, Debug, PartialEq, Eq)]
pub enum LatchOp {
    /// Gives the count.
    Count,
    /// Gives the round.
    Round,
    /// Begins a round with this count.
    Set(u32),
    /// Counts down in this round.
    Down(u64),
    /// Waits for the count 0, for at most so many milliseconds.
    Await(u32),
}

impl Spelled for LatchOp {
    ghost grammar = { latch_op };

    #[tactic(auto, unfolding(crate::specs::LatchOps::latch_op))]
    fn take<'a>(_alloc: Global, bytes: &'a [u8]) -> Result<(LatchOp, &'a [u8]), Stop> {
        let (tag, rest) = take_u8(bytes, 4)?;
        match tag {
            0 => Ok((LatchOp::Count, rest)),
            1 => Ok((LatchOp::Round, rest)),
            2 => {
                let (count, rest) = take_u32_between(rest, 1, MOST_COUNT)?;
                Ok((LatchOp::Set(count), rest))
            }
            3 => {
                let (round, rest) = take_index(rest)?;
                Ok((LatchOp::Down(round), rest))
            }
            4 => {
                let rest = take_mark(rest, 1)?;
                let (limit, rest) = take_u32(rest, u32::MAX)?;
                Ok((LatchOp::Await(limit), rest))
            }
            _ => Err(Stop::Left(rest.len())),
        }
    }

    #[tactic(auto, unfolding(crate::specs::LatchOps::latch_op))]
    fn append(&self, out: &mut Vec<u8>) -> Result<(), NoMemory> {
        match self {
            LatchOp::Count => append_u8(0, out)?,
            LatchOp::Round => append_u8(1, out)?,
            LatchOp::Set(count) => {
                append_u8(2, out)?;
                append_u32(*count, out)?;
            }
            LatchOp::Down(round) => {
                append_u8(3, out)?;
                append_index(*round, out)?;
            }
            LatchOp::Await(limit) => {
                append_u8(4, out)?;
                append_u8(1, out)?;
                append_u32(*limit, out)?;
            }
        }
        Ok(())
    }

    ghost lawful = { latch_op_lawful };
}

impl Text for LatchOp {
    ghost use Rattle.cp_object_ops.specs.LatchOps.{latch_op_text};

    ghost text = { latch_op_text };

    fn append_text(&self, out: &mut Vec<u8>) -> Result<(), NoMemory> {
        match self {
            LatchOp::Count => out.extend_from_slice(b"count")?,
            LatchOp::Round => out.extend_from_slice(b"round")?,
            LatchOp::Set(count) => append_numbered(b"set ", u64::from(*count), out)?,
            LatchOp::Down(round) => append_numbered(b"down ", *round, out)?,
            LatchOp::Await(limit) => append_numbered(b"await ", u64::from(*limit), out)?,
        }
        Ok(())
    }
}
