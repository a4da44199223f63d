//! Calls of countdown latches.
ghost use Rattle.cp_call_words.specs.ObjectCalls.{latch_word, latch_calls};
ghost use Rattle.cp_call_words.specs.Apart.{latch_apart};

use crate::asking::CallWords;
use crate::{take_between_word, take_milliseconds};
use cp_base::NoMemory;
use cp_base::limits::MOST_COUNT;
use cp_events::LatchCall;
use cp_grammar::{LINE, SPACE, Stop, append_number_word, append_word, is_token};
use std::alloc::Global;

impl CallWords for LatchCall {
    ghost first = { latch_word };

    ghost calls = { latch_calls };

    #[tactic(auto, unfolding(crate::specs::ObjectCalls::latch_calls))]
    fn take_call<'a>(
        _alloc: Global,
        word: &[u8],
        end: u8,
        bytes: &'a [u8],
    ) -> Result<(LatchCall, &'a [u8]), Stop> {
        if is_token(word, end, b"set", SPACE) {
            let (count, rest) = take_between_word(bytes, LINE, 1, u64::from(MOST_COUNT))?;
            return Ok((LatchCall::Set(count as u32), rest));
        }
        if is_token(word, end, b"down", LINE) {
            return Ok((LatchCall::Down, bytes));
        }
        if is_token(word, end, b"count", LINE) {
            return Ok((LatchCall::Count, bytes));
        }
        if is_token(word, end, b"await", SPACE) {
            let (limit, rest) = take_milliseconds(bytes, LINE)?;
            return Ok((LatchCall::Await(limit), rest));
        }
        Err(Stop::Left(bytes.len()))
    }

    #[tactic(auto, unfolding(crate::specs::ObjectCalls::latch_calls))]
    fn append_call(&self, out: &mut Vec<u8>) -> Result<(), NoMemory> {
        match self {
            LatchCall::Set(count) => {
                append_word(b"set", SPACE, out)?;
                append_number_word(u64::from(*count), LINE, out)?;
            }
            LatchCall::Down => append_word(b"down", LINE, out)?,
            LatchCall::Count => append_word(b"count", LINE, out)?,
            LatchCall::Await(limit) => {
                append_word(b"await", SPACE, out)?;
                append_number_word(u64::from(*limit), LINE, out)?;
            }
        }
        Ok(())
    }

    ghost apart = { latch_apart };
}
