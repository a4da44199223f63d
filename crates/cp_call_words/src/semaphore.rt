//! Calls of semaphores, with or without sessions.
ghost use Rattle.cp_grammar.specs.Readers.{Reads};
ghost use Rattle.cp_call_words.specs.ObjectCalls.{sem_word, try_row, sem_calls};
ghost use Rattle.cp_call_words.specs.Apart.{sem_apart};

use crate::asking::CallWords;
use crate::{take_between_word, take_milliseconds, take_permits_word};
use cp_base::NoMemory;
use cp_base::limits::MOST_PERMITS;
use cp_events::SemCall;
use cp_grammar::{LINE, SPACE, Stop, append_number_word, append_word, is_token};
use std::alloc::Global;

/// What follows the word `try`.
fn take_try(bytes: &[u8]) -> Result<(SemCall, &[u8]), Stop>
    ensures { Reads result (try_row.reading bytes.now) }
{
    let (permits, rest) = take_permits_word(bytes, SPACE)?;
    let (limit, rest) = take_milliseconds(rest, LINE)?;
    Ok((SemCall::Try(permits, limit), rest))
}

impl CallWords for SemCall {
    ghost first = { sem_word };

    ghost calls = { sem_calls };

    #[tactic(auto, unfolding(crate::specs::ObjectCalls::sem_calls))]
    fn take_call<'a>(
        _alloc: Global,
        word: &[u8],
        end: u8,
        bytes: &'a [u8],
    ) -> Result<(SemCall, &'a [u8]), Stop> {
        if is_token(word, end, b"init", SPACE) {
            let (permits, rest) = take_permits_word(bytes, LINE)?;
            return Ok((SemCall::Init(permits), rest));
        }
        if is_token(word, end, b"acquire", SPACE) {
            let (permits, rest) = take_permits_word(bytes, LINE)?;
            return Ok((SemCall::Acquire(permits), rest));
        }
        if is_token(word, end, b"try", SPACE) {
            return take_try(bytes);
        }
        if is_token(word, end, b"release", SPACE) {
            let (permits, rest) = take_between_word(bytes, LINE, 1, u64::from(MOST_PERMITS))?;
            return Ok((SemCall::Release(permits as u32), rest));
        }
        if is_token(word, end, b"available", LINE) {
            return Ok((SemCall::Available, bytes));
        }
        if is_token(word, end, b"drain", LINE) {
            return Ok((SemCall::Drain, bytes));
        }
        if is_token(word, end, b"increase", SPACE) {
            let (permits, rest) = take_permits_word(bytes, LINE)?;
            return Ok((SemCall::Increase(permits), rest));
        }
        if is_token(word, end, b"reduce", SPACE) {
            let (permits, rest) = take_permits_word(bytes, LINE)?;
            return Ok((SemCall::Reduce(permits), rest));
        }
        Err(Stop::Left(bytes.len()))
    }

    #[tactic(auto, unfolding(crate::specs::ObjectCalls::sem_calls))]
    fn append_call(&self, out: &mut Vec<u8>) -> Result<(), NoMemory> {
        match self {
            SemCall::Init(permits) => {
                append_word(b"init", SPACE, out)?;
                append_number_word(u64::from(*permits), LINE, out)?;
            }
            SemCall::Acquire(permits) => {
                append_word(b"acquire", SPACE, out)?;
                append_number_word(u64::from(*permits), LINE, out)?;
            }
            SemCall::Try(permits, limit) => {
                append_word(b"try", SPACE, out)?;
                append_number_word(u64::from(*permits), SPACE, out)?;
                append_number_word(u64::from(*limit), LINE, out)?;
            }
            SemCall::Release(permits) => {
                append_word(b"release", SPACE, out)?;
                append_number_word(u64::from(*permits), LINE, out)?;
            }
            SemCall::Available => append_word(b"available", LINE, out)?,
            SemCall::Drain => append_word(b"drain", LINE, out)?,
            SemCall::Increase(permits) => {
                append_word(b"increase", SPACE, out)?;
                append_number_word(u64::from(*permits), LINE, out)?;
            }
            SemCall::Reduce(permits) => {
                append_word(b"reduce", SPACE, out)?;
                append_number_word(u64::from(*permits), LINE, out)?;
            }
        }
        Ok(())
    }

    ghost apart = { sem_apart };
}
