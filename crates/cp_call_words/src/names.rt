//! Words of names.
ghost use Rattle.std.specs.Prelude.{◌≡◌, ◌++◌, true, false, cond, not, codes, OnOk, IfOk, MatchOption};
ghost use Rattle.cp_grammar.specs.Words.{same_bytes};
ghost use Rattle.cp_grammar.specs.Readers.{Reads};
ghost use Rattle.cp_call_words.specs.Values.{is_name, name_word, may_be_named, is_group, group_word};

use cp_base::{Name, NameError, NoMemory};
use cp_grammar::{Stop, append_word, take_word};
use std::alloc::Global;

/// The name that bytes are.
#[tactic(auto, using(cp_base::proofs::NameLemmas::is_name, cp_base::proofs::NameLemmas::no_name))]
pub fn read_name(alloc: Global, bytes: &[u8]) -> Result<Option<Name>, NoMemory>
    ensures { IfOk result (λ read. MatchOption read (is_name bytes.now ≡ false) (λ name. (is_name bytes.now ≡ true) × (name ≡ bytes.now))) }
{
    match Name::read(alloc, bytes) {
        Ok(name) => Ok(Some(name)),
        Err(NameError::BadName(_)) => Ok(None),
        Err(NameError::NoMemory) => Err(NoMemory),
    }
}

/// Whether bytes are this word.
pub fn is_word(bytes: &[u8], word: &[u8]) -> bool
    ensures { result ≡ same_bytes bytes.now word.now }
{
    bytes == word
}

fn may_be_named(managed: bool, bytes: &[u8]) -> bool
    ensures { result ≡ may_be_named managed bytes.now }
{
    if managed {
        !is_word(bytes, b"METADATA")
    } else {
        is_word(bytes, b"default")
    }
}

/// The group that a call may name by these bytes: any but METADATA where groups are managed, else `default` alone.
pub fn read_group(alloc: Global, managed: bool, bytes: &[u8]) -> Result<Option<Name>, NoMemory>
    ensures { IfOk result (λ read.
        MatchOption read (is_group managed bytes.now ≡ false) (λ name. (is_group managed bytes.now ≡ true)
        × (name ≡ bytes.now))) }
{
    if !may_be_named(managed, bytes) {
        return Ok(None);
    }
    read_name(alloc, bytes)
}

/// A name, and the end after it.
#[tactic(auto, unfolding(crate::specs::Values::name_word))]
pub fn take_name_word(alloc: Global, bytes: &[u8], end: u8) -> Result<(Name, &[u8]), Stop>
    ensures { Reads result ((name_word end).reading bytes.now) }
{
    let (word, rest) = take_word(bytes, end)?;
    match read_name(alloc, word)? {
        Some(name) => Ok((name, rest)),
        None => Err(Stop::Left(bytes.len())),
    }
}

/// The name of a group that a call may name, and the end after it.
#[tactic(auto, unfolding(crate::specs::Values::group_word))]
pub fn take_group_word(
    alloc: Global,
    managed: bool,
    bytes: &[u8],
    end: u8,
) -> Result<(Name, &[u8]), Stop>
    ensures { Reads result ((group_word managed end).reading bytes.now) }
{
    let (word, rest) = take_word(bytes, end)?;
    match read_group(alloc, managed, word)? {
        Some(name) => Ok((name, rest)),
        None => Err(Stop::Left(bytes.len())),
    }
}

/// Appends a name, and the end after it.
#[tactic(auto, unfolding(crate::specs::Values::name_word))]
pub fn append_name_word(name: &Name, end: u8, out: &mut Vec<u8>) -> Result<(), NoMemory>
    ensures { OnOk result (out.new.items ≡ out.old.items ++ (name_word end).spelling name.now) }
{
    append_word(name.as_bytes(), end, out)
}
