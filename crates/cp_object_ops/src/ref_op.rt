//! What may be done to an atomic reference. A reference is null, or bytes.
ghost use Rattle.cp_object_ops.specs.Laws.{ref_op_newest_lawful};
ghost use Rattle.cp_object_ops.specs.RefOps.{ref_op_within, ref_op};
ghost use Rattle.cp_grammar.specs.Readers.{Reads};

use cp_base::limits::MOST_REFERENCE;
use cp_base::{Items, NoMemory, Text};
use cp_grammar::{Spelled, Stop, append_u8, take_u8};
use cp_op_values::{append_reference, append_reference_text, take_reference};
use std::alloc::Global;

/// What may be done to an atomic reference. A reference is null, or bytes.
#[derive(Clone, Debug, PartialEq, Eq, Drop)]
pub enum RefOp {
    /// Gives the value.
    Get,
    /// Sets the value.
    Set(Option<Items<u8>>),
    /// Sets the value, and gives the one before.
    GetSet(Option<Items<u8>>),
    /// Sets the second where the value is the first, and tells whether it was.
    Cas(Option<Items<u8>>, Option<Items<u8>>),
    /// Tells whether the value is this one.
    Contains(Option<Items<u8>>),
}

impl RefOp {
    /// The value at the front, whose references have at most so many bytes, and the bytes after it.
    #[tactic(auto, unfolding(crate::specs::RefOps::ref_op_within))]
    pub fn take_within<'a>(
        alloc: Global,
        most: u32,
        bytes: &'a [u8],
    ) -> Result<(RefOp, &'a [u8]), Stop>
        ensures { Reads result ((ref_op_within most).reading bytes.now) }
    {
        let (tag, rest) = take_u8(bytes, 4)?;
        match tag {
            0 => Ok((RefOp::Get, rest)),
            1 => {
                let (value, rest) = take_reference(alloc, most, rest)?;
                Ok((RefOp::Set(value), rest))
            }
            2 => {
                let (value, rest) = take_reference(alloc, most, rest)?;
                Ok((RefOp::GetSet(value), rest))
            }
            3 => {
                let (old, rest) = take_reference(alloc, most, rest)?;
                let (next, rest) = take_reference(alloc, most, rest)?;
                Ok((RefOp::Cas(old, next), rest))
            }
            4 => {
                let (value, rest) = take_reference(alloc, most, rest)?;
                Ok((RefOp::Contains(value), rest))
            }
            _ => Err(Stop::Left(rest.len())),
        }
    }
}

impl Spelled for RefOp {
    ghost grammar = { ref_op };

    fn take<'a>(alloc: Global, bytes: &'a [u8]) -> Result<(RefOp, &'a [u8]), Stop> {
        RefOp::take_within(alloc, MOST_REFERENCE, bytes)
    }

    #[tactic(auto, unfolding(crate::specs::RefOps::ref_op_within))]
    fn append(&self, out: &mut Vec<u8>) -> Result<(), NoMemory> {
        match self {
            RefOp::Get => append_u8(0, out)?,
            RefOp::Set(value) => {
                append_u8(1, out)?;
                append_reference(value, out)?;
            }
            RefOp::GetSet(value) => {
                append_u8(2, out)?;
                append_reference(value, out)?;
            }
            RefOp::Cas(old, next) => {
                append_u8(3, out)?;
                append_reference(old, out)?;
                append_reference(next, out)?;
            }
            RefOp::Contains(value) => {
                append_u8(4, out)?;
                append_reference(value, out)?;
            }
        }
        Ok(())
    }

    ghost lawful = { ref_op_newest_lawful };
}

impl Text for RefOp {
    ghost use Rattle.cp_object_ops.specs.RefOps.{ref_op_text};

    ghost text = { ref_op_text };

    fn append_text(&self, out: &mut Vec<u8>) -> Result<(), NoMemory> {
        match self {
            RefOp::Get => out.extend_from_slice(b"get")?,
            RefOp::Set(value) => {
                out.extend_from_slice(b"set ")?;
                append_reference_text(value, out)?;
            }
            RefOp::GetSet(value) => {
                out.extend_from_slice(b"getset ")?;
                append_reference_text(value, out)?;
            }
            RefOp::Cas(old, next) => {
                out.extend_from_slice(b"cas ")?;
                append_reference_text(old, out)?;
                out.push(b' ')?;
                append_reference_text(next, out)?;
            }
            RefOp::Contains(value) => {
                out.extend_from_slice(b"contains ")?;
                append_reference_text(value, out)?;
            }
        }
        Ok(())
    }
}
