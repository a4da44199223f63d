//! Calls of locks.
ghost use Rattle.cp_call_words.specs.ObjectCalls.{lock_word, lock_calls};
ghost use Rattle.cp_call_words.specs.Apart.{lock_apart};

use crate::asking::CallWords;
use crate::take_milliseconds;
use cp_base::NoMemory;
use cp_events::LockCall;
use cp_grammar::{LINE, SPACE, Stop, append_number_word, append_word, is_token};
use std::alloc::Global;

impl CallWords for LockCall {
    ghost first = { lock_word };

    ghost calls = { lock_calls };

    #[tactic(auto, unfolding(crate::specs::ObjectCalls::lock_calls))]
    fn take_call<'a>(
        _alloc: Global,
        word: &[u8],
        end: u8,
        bytes: &'a [u8],
    ) -> Result<(LockCall, &'a [u8]), Stop> {
        if is_token(word, end, b"lock", LINE) {
            return Ok((LockCall::Lock, bytes));
        }
        if is_token(word, end, b"try", SPACE) {
            let (limit, rest) = take_milliseconds(bytes, LINE)?;
            return Ok((LockCall::Try(limit), rest));
        }
        if is_token(word, end, b"unlock", LINE) {
            return Ok((LockCall::Unlock, bytes));
        }
        if is_token(word, end, b"owner", LINE) {
            return Ok((LockCall::Owner, bytes));
        }
        Err(Stop::Left(bytes.len()))
    }

    #[tactic(auto, unfolding(crate::specs::ObjectCalls::lock_calls))]
    fn append_call(&self, out: &mut Vec<u8>) -> Result<(), NoMemory> {
        match self {
            LockCall::Lock => append_word(b"lock", LINE, out)?,
            LockCall::Try(limit) => {
                append_word(b"try", SPACE, out)?;
                append_number_word(u64::from(*limit), LINE, out)?;
            }
            LockCall::Unlock => append_word(b"unlock", LINE, out)?,
            LockCall::Owner => append_word(b"owner", LINE, out)?,
        }
        Ok(())
    }

    ghost apart = { lock_apart };
}
