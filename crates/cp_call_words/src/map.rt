//! Calls of maps.
ghost use Rattle.std.specs.Prelude.{◌≡◌, ◌++◌, ◌∷◌, [], OnOk};
ghost use Rattle.cp_grammar.specs.Readers.{Reads};
ghost use Rattle.cp_call_words.specs.Values.{key_word, value_word};
ghost use Rattle.cp_call_words.specs.ObjectCalls.{map_word, map_calls};
ghost use Rattle.cp_call_words.specs.Apart.{map_apart};

use crate::asking::CallWords;
use crate::{append_hex_word, take_hex_word};
use cp_base::{Items, NoMemory};
use cp_grammar::{LINE, SPACE, Stop, append_word, is_token};
use cp_object_ops::MapOp;
use std::alloc::Global;

const MOST_KEY: usize = 64;

const MOST_VALUE: usize = 1024;

/// A key, and the end after it.
fn take_key(alloc: Global, bytes: &[u8], end: u8) -> Result<(Items<u8>, &[u8]), Stop>
    ensures { Reads result ((key_word end).reading bytes.now) }
{
    take_hex_word(alloc, bytes, end, 1, MOST_KEY)
}

/// A value, and the end after it.
fn take_value(alloc: Global, bytes: &[u8], end: u8) -> Result<(Items<u8>, &[u8]), Stop>
    ensures { Reads result ((value_word end).reading bytes.now) }
{
    take_hex_word(alloc, bytes, end, 0, MOST_VALUE)
}

/// Appends a key, and the end after it.
#[tactic(auto, unfolding(crate::specs::Values::hex_word))]
fn append_key(key: &Items<u8>, end: u8, out: &mut Vec<u8>) -> Result<(), NoMemory>
    ensures { OnOk result (out.new.items ≡ out.old.items ++ (key_word end).spelling key.now) }
{
    append_hex_word(key, end, out)
}

/// Appends a value, and the end after it.
#[tactic(auto, unfolding(crate::specs::Values::hex_word))]
fn append_value(value: &Items<u8>, end: u8, out: &mut Vec<u8>) -> Result<(), NoMemory>
    ensures { OnOk result (out.new.items ≡ out.old.items ++ (value_word end).spelling value.now) }
{
    append_hex_word(value, end, out)
}

/// Appends a first word, a key and a value.
fn append_pair(
    word: &[u8],
    key: &Items<u8>,
    value: &Items<u8>,
    out: &mut Vec<u8>,
) -> Result<(), NoMemory>
    ensures { OnOk result (out.new.items ≡ out.old.items
        ++ ((word.now ++ 32 ∷ []) ++ ((key_word 32).spelling key.now ++ (value_word 10).spelling value.now))) }
{
    append_word(word, SPACE, out)?;
    append_key(key, SPACE, out)?;
    append_value(value, LINE, out)?;
    Ok(())
}

impl CallWords for MapOp {
    ghost first = { map_word };

    ghost calls = { map_calls };

    #[tactic(auto, unfolding(crate::specs::ObjectCalls::map_calls))]
    fn take_call<'a>(
        alloc: Global,
        word: &[u8],
        end: u8,
        bytes: &'a [u8],
    ) -> Result<(MapOp, &'a [u8]), Stop> {
        if is_token(word, end, b"get", SPACE) {
            let (key, rest) = take_key(alloc, bytes, LINE)?;
            return Ok((MapOp::Get(key), rest));
        }
        if is_token(word, end, b"set", SPACE) {
            let (key, rest) = take_key(alloc, bytes, SPACE)?;
            let (value, rest) = take_value(alloc, rest, LINE)?;
            return Ok((MapOp::Set(key, value), rest));
        }
        if is_token(word, end, b"put", SPACE) {
            let (key, rest) = take_key(alloc, bytes, SPACE)?;
            let (value, rest) = take_value(alloc, rest, LINE)?;
            return Ok((MapOp::Put(key, value), rest));
        }
        if is_token(word, end, b"remove", SPACE) {
            let (key, rest) = take_key(alloc, bytes, LINE)?;
            return Ok((MapOp::Remove(key), rest));
        }
        if is_token(word, end, b"delete", SPACE) {
            let (key, rest) = take_key(alloc, bytes, LINE)?;
            return Ok((MapOp::Delete(key), rest));
        }
        if is_token(word, end, b"putifabsent", SPACE) {
            let (key, rest) = take_key(alloc, bytes, SPACE)?;
            let (value, rest) = take_value(alloc, rest, LINE)?;
            return Ok((MapOp::PutIfAbsent(key, value), rest));
        }
        if is_token(word, end, b"cas", SPACE) {
            let (key, rest) = take_key(alloc, bytes, SPACE)?;
            let (old, rest) = take_value(alloc, rest, SPACE)?;
            let (next, rest) = take_value(alloc, rest, LINE)?;
            return Ok((MapOp::Cas(key, old, next), rest));
        }
        Err(Stop::Left(bytes.len()))
    }

    #[tactic(auto, unfolding(crate::specs::ObjectCalls::map_calls))]
    fn append_call(&self, out: &mut Vec<u8>) -> Result<(), NoMemory> {
        match self {
            MapOp::Get(key) => {
                append_word(b"get", SPACE, out)?;
                append_key(key, LINE, out)?;
            }
            MapOp::Set(key, value) => append_pair(b"set", key, value, out)?,
            MapOp::Put(key, value) => append_pair(b"put", key, value, out)?,
            MapOp::Remove(key) => {
                append_word(b"remove", SPACE, out)?;
                append_key(key, LINE, out)?;
            }
            MapOp::Delete(key) => {
                append_word(b"delete", SPACE, out)?;
                append_key(key, LINE, out)?;
            }
            MapOp::PutIfAbsent(key, value) => append_pair(b"putifabsent", key, value, out)?,
            MapOp::Cas(key, old, next) => {
                append_word(b"cas", SPACE, out)?;
                append_key(key, SPACE, out)?;
                append_value(old, SPACE, out)?;
                append_value(next, LINE, out)?;
            }
        }
        Ok(())
    }

    ghost apart = { map_apart };
}
