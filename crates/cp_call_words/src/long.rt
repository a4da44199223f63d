//! Calls of atomic longs.
ghost use Rattle.cp_call_words.specs.ObjectCalls.{long_word, long_calls};
ghost use Rattle.cp_call_words.specs.Apart.{long_apart};

use crate::asking::CallWords;
use crate::{append_signed_word, take_signed_word};
use cp_base::NoMemory;
use cp_events::LongCall;
use cp_grammar::{LINE, SPACE, Stop, append_word, is_token};
use cp_object_ops::LongOp;
use std::alloc::Global;

impl CallWords for LongCall {
    ghost first = { long_word };

    ghost calls = { long_calls };

    #[tactic(auto, unfolding(crate::specs::ObjectCalls::long_calls))]
    fn take_call<'a>(
        _alloc: Global,
        word: &[u8],
        end: u8,
        bytes: &'a [u8],
    ) -> Result<(LongCall, &'a [u8]), Stop> {
        if is_token(word, end, b"get", LINE) {
            return Ok((LongCall::Plain(LongOp::Get), bytes));
        }
        if is_token(word, end, b"set", SPACE) {
            let (value, rest) = take_signed_word(bytes, LINE)?;
            return Ok((LongCall::Plain(LongOp::Set(value)), rest));
        }
        if is_token(word, end, b"getset", SPACE) {
            let (value, rest) = take_signed_word(bytes, LINE)?;
            return Ok((LongCall::Plain(LongOp::GetSet(value)), rest));
        }
        if is_token(word, end, b"add", SPACE) {
            let (number, rest) = take_signed_word(bytes, LINE)?;
            return Ok((LongCall::Plain(LongOp::Add(number)), rest));
        }
        if is_token(word, end, b"getadd", SPACE) {
            let (number, rest) = take_signed_word(bytes, LINE)?;
            return Ok((LongCall::Plain(LongOp::GetAdd(number)), rest));
        }
        if is_token(word, end, b"cas", SPACE) {
            let (old, rest) = take_signed_word(bytes, SPACE)?;
            let (next, rest) = take_signed_word(rest, LINE)?;
            return Ok((LongCall::Plain(LongOp::Cas(old, next)), rest));
        }
        if is_token(word, end, b"inc", LINE) {
            return Ok((LongCall::Inc, bytes));
        }
        if is_token(word, end, b"dec", LINE) {
            return Ok((LongCall::Dec, bytes));
        }
        Err(Stop::Left(bytes.len()))
    }

    #[tactic(auto, unfolding(crate::specs::ObjectCalls::long_calls))]
    fn append_call(&self, out: &mut Vec<u8>) -> Result<(), NoMemory> {
        match self {
            LongCall::Plain(LongOp::Get) => append_word(b"get", LINE, out)?,
            LongCall::Plain(LongOp::Set(value)) => {
                append_word(b"set", SPACE, out)?;
                append_signed_word(*value, LINE, out)?;
            }
            LongCall::Plain(LongOp::GetSet(value)) => {
                append_word(b"getset", SPACE, out)?;
                append_signed_word(*value, LINE, out)?;
            }
            LongCall::Plain(LongOp::Add(number)) => {
                append_word(b"add", SPACE, out)?;
                append_signed_word(*number, LINE, out)?;
            }
            LongCall::Plain(LongOp::GetAdd(number)) => {
                append_word(b"getadd", SPACE, out)?;
                append_signed_word(*number, LINE, out)?;
            }
            LongCall::Plain(LongOp::Cas(old, next)) => {
                append_word(b"cas", SPACE, out)?;
                append_signed_word(*old, SPACE, out)?;
                append_signed_word(*next, LINE, out)?;
            }
            LongCall::Inc => append_word(b"inc", LINE, out)?,
            LongCall::Dec => append_word(b"dec", LINE, out)?,
        }
        Ok(())
    }

    ghost apart = { long_apart };
}
