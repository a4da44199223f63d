//! Objects as a call names them.
ghost use Rattle.std.specs.Prelude.{◌≡◌, ◌++◌, ◌∷◌, [], true, false, OnOk, IfOk, MatchOption};
ghost use Rattle.std.specs.Option.{option_copied};
ghost use Rattle.cp_grammar.specs.Readers.{Reads};
ghost use Rattle.cp_call_words.specs.Objects.{object_of, object_with, object_text, group_text, is_object, object_word};
ghost use Rattle.cp_call_words.specs.Shown.{named, with_group};

use crate::{is_word, read_group, read_name};
use cp_base::{Name, NoMemory, split_at_byte};
use cp_events::Object;
use cp_grammar::{SPACE, Stop, take_word};
use std::alloc::Global;

/// What stands before the first `@`, and what stands behind it.
#[tactic(auto, using(crate::proofs::ObjectWords::alone, crate::proofs::ObjectWords::in_group))]
fn split(word: &[u8]) -> (&[u8], Option<&[u8]>)
    ensures { object_of word.now ≡ object_with result.0.now (option_copied result.1) }
{
    match split_at_byte(b'@', word) {
        None => (word, None),
        Some((name, group)) => (name, Some(group)),
    }
}

/// The object of a name and of a group, where a call may name them.
fn read_parts(
    alloc: Global,
    managed: bool,
    name: &[u8],
    group: Option<&[u8]>,
) -> Result<Option<Object>, NoMemory>
    ensures { IfOk result (λ read.
        MatchOption read (is_object managed (object_with name.now (option_copied group.entry)) ≡ false) (λ object.
        (is_object managed (object_with name.now (option_copied group.entry)) ≡ true)
        × (object ≡ object_with name.now (option_copied group.entry)))) }
{
    let Some(name) = read_name(alloc, name)? else {
        return Ok(None);
    };
    let Some(group) = group else {
        return Ok(Some(Object { name, group: None }));
    };
    let Some(group) = read_group(alloc, managed, group)? else {
        return Ok(None);
    };
    Ok(Some(Object {
        name,
        group: Some(group),
    }))
}

/// The object that a word is, where a call may name it.
fn read_object(alloc: Global, managed: bool, word: &[u8]) -> Result<Option<Object>, NoMemory>
    ensures { IfOk result (λ read.
        MatchOption read (is_object managed (object_of word.now) ≡ false) (λ object.
        (is_object managed (object_of word.now) ≡ true) × (object ≡ object_of word.now))) }
{
    // Most calls name no group.
    if let Some(name) = read_name(alloc, word)? {
        return Ok(Some(Object { name, group: None }));
    }
    let (name, group) = split(word);
    read_parts(alloc, managed, name, group)
}

/// An object, and a space after it.
#[tactic(auto, unfolding(crate::specs::Objects::object_word))]
pub fn take_object(alloc: Global, managed: bool, bytes: &[u8]) -> Result<(Object, &[u8]), Stop>
    ensures { Reads result ((object_word managed).reading bytes.now) }
{
    let (word, rest) = take_word(bytes, SPACE)?;
    match read_object(alloc, managed, word)? {
        Some(object) => Ok((object, rest)),
        None => Err(Stop::Left(bytes.len())),
    }
}

/// The group to be named: none where the text is to be short and the group is `default`.
pub fn named(short: bool, group: &Option<Name>) -> Option<&Name>
    ensures { option_copied result ≡ named short group.now }
{
    let Some(name) = group else {
        return None;
    };
    if short && is_word(name.as_bytes(), b"default") {
        return None;
    }
    Some(name)
}

/// Appends `@` and the group, where there is one.
fn append_group(group: Option<&Name>, out: &mut Vec<u8>) -> Result<(), NoMemory>
    ensures { OnOk result (out.new.items ≡ out.old.items ++ group_text (option_copied group.entry)) }
{
    if let Some(name) = group {
        out.push(b'@')?;
        out.extend_from_slice(name.as_bytes())?;
    }
    Ok(())
}

/// Appends an object, and a space after it.
pub fn append_object(object: &Object, short: bool, out: &mut Vec<u8>) -> Result<(), NoMemory>
    ensures { OnOk result (out.new.items ≡ out.old.items ++ (object_text (with_group (named short) object.now) ++ 32 ∷ [])) }
{
    out.extend_from_slice(object.name.as_bytes())?;
    append_group(named(short, &object.group), out)?;
    out.push(SPACE)?;
    Ok(())
}
