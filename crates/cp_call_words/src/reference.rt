//! Calls of atomic references.
ghost use Rattle.cp_call_words.specs.ObjectCalls.{ref_word, ref_calls};
ghost use Rattle.cp_call_words.specs.Apart.{ref_apart};

use crate::asking::CallWords;
use crate::{append_reference_word, take_reference_word};
use cp_base::NoMemory;
use cp_events::RefCall;
use cp_grammar::{LINE, SPACE, Stop, append_word, is_token};
use cp_object_ops::RefOp;
use std::alloc::Global;

impl CallWords for RefCall {
    ghost first = { ref_word };

    ghost calls = { ref_calls };

    #[tactic(auto, unfolding(crate::specs::ObjectCalls::ref_calls))]
    fn take_call<'a>(
        alloc: Global,
        word: &[u8],
        end: u8,
        bytes: &'a [u8],
    ) -> Result<(RefCall, &'a [u8]), Stop> {
        if is_token(word, end, b"get", LINE) {
            return Ok((RefCall::Plain(RefOp::Get), bytes));
        }
        if is_token(word, end, b"set", SPACE) {
            let (value, rest) = take_reference_word(alloc, bytes, LINE)?;
            return Ok((RefCall::Plain(RefOp::Set(value)), rest));
        }
        if is_token(word, end, b"getset", SPACE) {
            let (value, rest) = take_reference_word(alloc, bytes, LINE)?;
            return Ok((RefCall::Plain(RefOp::GetSet(value)), rest));
        }
        if is_token(word, end, b"cas", SPACE) {
            let (old, rest) = take_reference_word(alloc, bytes, SPACE)?;
            let (next, rest) = take_reference_word(alloc, rest, LINE)?;
            return Ok((RefCall::Plain(RefOp::Cas(old, next)), rest));
        }
        if is_token(word, end, b"contains", SPACE) {
            let (value, rest) = take_reference_word(alloc, bytes, LINE)?;
            return Ok((RefCall::Plain(RefOp::Contains(value)), rest));
        }
        if is_token(word, end, b"isnull", LINE) {
            return Ok((RefCall::IsNull, bytes));
        }
        if is_token(word, end, b"clear", LINE) {
            return Ok((RefCall::Clear, bytes));
        }
        Err(Stop::Left(bytes.len()))
    }

    #[tactic(auto, unfolding(crate::specs::ObjectCalls::ref_calls))]
    fn append_call(&self, out: &mut Vec<u8>) -> Result<(), NoMemory> {
        match self {
            RefCall::Plain(RefOp::Get) => append_word(b"get", LINE, out)?,
            RefCall::Plain(RefOp::Set(value)) => {
                append_word(b"set", SPACE, out)?;
                append_reference_word(value, LINE, out)?;
            }
            RefCall::Plain(RefOp::GetSet(value)) => {
                append_word(b"getset", SPACE, out)?;
                append_reference_word(value, LINE, out)?;
            }
            RefCall::Plain(RefOp::Cas(old, next)) => {
                append_word(b"cas", SPACE, out)?;
                append_reference_word(old, SPACE, out)?;
                append_reference_word(next, LINE, out)?;
            }
            RefCall::Plain(RefOp::Contains(value)) => {
                append_word(b"contains", SPACE, out)?;
                append_reference_word(value, LINE, out)?;
            }
            RefCall::IsNull => append_word(b"isnull", LINE, out)?,
            RefCall::Clear => append_word(b"clear", LINE, out)?,
        }
        Ok(())
    }

    ghost apart = { ref_apart };
}
