//! What may be done to an atomic long. Sums wrap in 64 bits.
ghost use Rattle.cp_object_ops.specs.Laws.{long_op_lawful};
ghost use Rattle.cp_object_ops.specs.LongOps.{long_op};

use cp_base::{NoMemory, Text, write_signed};
use cp_grammar::{Spelled, Stop, append_i64, append_u8, take_i64, take_u8};
use std::alloc::Global;

/// What may be done to an atomic long. Sums wrap in 64 bits.
#[derive(Clone, Copy, Debug, PartialEq, Eq)]
pub enum LongOp {
    /// Gives the value.
    Get,
    /// Sets the value.
    Set(i64),
    /// Sets the value, and gives the one before.
    GetSet(i64),
    /// Adds a number, and gives the sum.
    Add(i64),
    /// Adds a number, and gives the value before.
    GetAdd(i64),
    /// Sets the second where the value is the first, and tells whether it was.
    Cas(i64, i64),
}

impl Spelled for LongOp {
    ghost grammar = { long_op };

    #[tactic(auto, unfolding(crate::specs::LongOps::long_op))]
    fn take<'a>(_alloc: Global, bytes: &'a [u8]) -> Result<(LongOp, &'a [u8]), Stop> {
        let (tag, rest) = take_u8(bytes, 5)?;
        match tag {
            0 => Ok((LongOp::Get, rest)),
            1 => {
                let (value, rest) = take_i64(rest)?;
                Ok((LongOp::Set(value), rest))
            }
            2 => {
                let (value, rest) = take_i64(rest)?;
                Ok((LongOp::GetSet(value), rest))
            }
            3 => {
                let (number, rest) = take_i64(rest)?;
                Ok((LongOp::Add(number), rest))
            }
            4 => {
                let (number, rest) = take_i64(rest)?;
                Ok((LongOp::GetAdd(number), rest))
            }
            5 => {
                let (old, rest) = take_i64(rest)?;
                let (next, rest) = take_i64(rest)?;
                Ok((LongOp::Cas(old, next), rest))
            }
            _ => Err(Stop::Left(rest.len())),
        }
    }

    #[tactic(auto, unfolding(crate::specs::LongOps::long_op))]
    fn append(&self, out: &mut Vec<u8>) -> Result<(), NoMemory> {
        match self {
            LongOp::Get => append_u8(0, out)?,
            LongOp::Set(value) => {
                append_u8(1, out)?;
                append_i64(*value, out)?;
            }
            LongOp::GetSet(value) => {
                append_u8(2, out)?;
                append_i64(*value, out)?;
            }
            LongOp::Add(number) => {
                append_u8(3, out)?;
                append_i64(*number, out)?;
            }
            LongOp::GetAdd(number) => {
                append_u8(4, out)?;
                append_i64(*number, out)?;
            }
            LongOp::Cas(old, next) => {
                append_u8(5, out)?;
                append_i64(*old, out)?;
                append_i64(*next, out)?;
            }
        }
        Ok(())
    }

    ghost lawful = { long_op_lawful };
}

impl Text for LongOp {
    ghost use Rattle.cp_object_ops.specs.LongOps.{long_op_text};

    ghost text = { long_op_text };

    fn append_text(&self, out: &mut Vec<u8>) -> Result<(), NoMemory> {
        match self {
            LongOp::Get => out.extend_from_slice(b"get")?,
            LongOp::Set(value) => {
                out.extend_from_slice(b"set ")?;
                write_signed(*value, out)?;
            }
            LongOp::GetSet(value) => {
                out.extend_from_slice(b"getset ")?;
                write_signed(*value, out)?;
            }
            LongOp::Add(number) => {
                out.extend_from_slice(b"add ")?;
                write_signed(*number, out)?;
            }
            LongOp::GetAdd(number) => {
                out.extend_from_slice(b"getadd ")?;
                write_signed(*number, out)?;
            }
            LongOp::Cas(old, next) => {
                out.extend_from_slice(b"cas ")?;
                write_signed(*old, out)?;
                out.push(b' ')?;
                write_signed(*next, out)?;
            }
        }
        Ok(())
    }
}
