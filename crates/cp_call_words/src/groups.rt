//! Calls that name no object: about sessions, groups and members.
ghost use Rattle.std.specs.Prelude.{◌≡◌, ◌++◌, true, OnOk};
ghost use Rattle.cp_grammar.specs.Readers.{Reads};
ghost use Rattle.cp_call_words.specs.Calls.{only_if, closing, on_group, on_member, on_change};
ghost use Rattle.cp_call_words.specs.Shown.{named};

use crate::object::named;
use crate::{
    append_member_word, append_name_word, take_group_word, take_index_word, take_member_word,
    take_name_word,
};
use cp_base::{Name, NoMemory};
use cp_events::GroupCall;
use cp_grammar::{LINE, SPACE, Stop, append_number_word, append_word, is_token, take_token};
use cp_ops::{ChangeOp, MemberOp};
use std::alloc::Global;

/// `close`, with a group or without, and the bytes after it.
#[tactic(auto, unfolding(crate::specs::Calls::closing))]
pub fn take_closing(
    alloc: Global,
    managed: bool,
    bytes: &[u8],
) -> Result<(Option<Name>, &[u8]), Stop>
    ensures { Reads result ((closing managed).reading bytes.now) }
{
    let (word, end, rest) = take_token(bytes)?;
    if is_token(word, end, b"close", LINE) {
        return Ok((None, rest));
    }
    if is_token(word, end, b"close", SPACE) {
        let (group, rest) = take_group_word(alloc, managed, rest, LINE)?;
        return Ok((Some(group), rest));
    }
    Err(Stop::Left(rest.len()))
}

/// Appends `close`, with a group or without.
#[tactic(auto, unfolding(crate::specs::Calls::closing, crate::specs::Values::group_word))]
pub fn append_closing(group: &Option<Name>, short: bool, out: &mut Vec<u8>) -> Result<(), NoMemory>
    ensures { OnOk result (out.new.items ≡ out.old.items ++ (closing true).spelling (named short group.now)) }
{
    match named(short, group) {
        None => append_word(b"close", LINE, out)?,
        Some(name) => {
            append_word(b"close", SPACE, out)?;
            append_word(name.as_bytes(), LINE, out)?;
        }
    }
    Ok(())
}

#[tactic(auto, unfolding(crate::specs::Calls::on_group))]
fn take_on_group(alloc: Global, bytes: &[u8]) -> Result<(GroupCall, &[u8]), Stop>
    ensures { Reads result (on_group.reading bytes.now) }
{
    let (word, end, rest) = take_token(bytes)?;
    if is_token(word, end, b"create", SPACE) {
        let (name, rest) = take_name_word(alloc, rest, LINE)?;
        return Ok((GroupCall::Create(name), rest));
    }
    if is_token(word, end, b"destroy", SPACE) {
        let (name, rest) = take_name_word(alloc, rest, LINE)?;
        return Ok((GroupCall::Destroy(name), rest));
    }
    Err(Stop::Left(rest.len()))
}

/// A call about groups, where such calls may stand, and the bytes after it.
pub fn take_group_call(
    alloc: Global,
    may_stand: bool,
    bytes: &[u8],
) -> Result<(GroupCall, &[u8]), Stop>
    ensures { Reads result ((only_if may_stand on_group).reading bytes.now) }
{
    if !may_stand {
        return Err(Stop::Left(bytes.len()));
    }
    take_on_group(alloc, bytes)
}

/// Appends a call about groups.
#[tactic(auto, unfolding(crate::specs::Calls::on_group))]
pub fn append_group_call(call: &GroupCall, out: &mut Vec<u8>) -> Result<(), NoMemory>
    ensures { OnOk result (out.new.items ≡ out.old.items ++ on_group.spelling call.now) }
{
    match call {
        GroupCall::Create(name) => {
            append_word(b"create", SPACE, out)?;
            append_name_word(name, LINE, out)?;
        }
        GroupCall::Destroy(name) => {
            append_word(b"destroy", SPACE, out)?;
            append_name_word(name, LINE, out)?;
        }
    }
    Ok(())
}

#[tactic(auto, unfolding(crate::specs::Calls::on_member))]
fn take_on_member(bytes: &[u8]) -> Result<(MemberOp, &[u8]), Stop>
    ensures { Reads result (on_member.reading bytes.now) }
{
    let (word, end, rest) = take_token(bytes)?;
    if is_token(word, end, b"leave", SPACE) {
        let (member, rest) = take_member_word(rest, LINE)?;
        return Ok((MemberOp::Leave(member), rest));
    }
    if is_token(word, end, b"join", SPACE) {
        let (member, rest) = take_member_word(rest, LINE)?;
        return Ok((MemberOp::Join(member), rest));
    }
    Err(Stop::Left(rest.len()))
}

/// A call about members, where such calls may stand, and the bytes after it.
pub fn take_member_call(may_stand: bool, bytes: &[u8]) -> Result<(MemberOp, &[u8]), Stop>
    ensures { Reads result ((only_if may_stand on_member).reading bytes.now) }
{
    if !may_stand {
        return Err(Stop::Left(bytes.len()));
    }
    take_on_member(bytes)
}

/// Appends a call about members.
#[tactic(auto, unfolding(crate::specs::Calls::on_member))]
pub fn append_member_call(op: &MemberOp, out: &mut Vec<u8>) -> Result<(), NoMemory>
    ensures { OnOk result (out.new.items ≡ out.old.items ++ on_member.spelling op.now) }
{
    match op {
        MemberOp::Leave(member) => {
            append_word(b"leave", SPACE, out)?;
            append_member_word(*member, LINE, out)?;
        }
        MemberOp::Join(member) => {
            append_word(b"join", SPACE, out)?;
            append_member_word(*member, LINE, out)?;
        }
    }
    Ok(())
}

#[tactic(auto, unfolding(crate::specs::Calls::on_change))]
fn take_on_change(bytes: &[u8]) -> Result<(ChangeOp, &[u8]), Stop>
    ensures { Reads result (on_change.reading bytes.now) }
{
    let (word, end, rest) = take_token(bytes)?;
    if is_token(word, end, b"add", SPACE) {
        let (member, rest) = take_member_word(rest, SPACE)?;
        let (expected, rest) = take_index_word(rest, LINE)?;
        return Ok((ChangeOp::Add(member, expected), rest));
    }
    if is_token(word, end, b"remove", SPACE) {
        let (member, rest) = take_member_word(rest, SPACE)?;
        let (expected, rest) = take_index_word(rest, LINE)?;
        return Ok((ChangeOp::Remove(member, expected), rest));
    }
    Err(Stop::Left(rest.len()))
}

/// A change of members, where it may stand, and the bytes after it.
pub fn take_change_call(may_stand: bool, bytes: &[u8]) -> Result<(ChangeOp, &[u8]), Stop>
    ensures { Reads result ((only_if may_stand on_change).reading bytes.now) }
{
    if !may_stand {
        return Err(Stop::Left(bytes.len()));
    }
    take_on_change(bytes)
}

/// Appends a change of members.
#[tactic(auto, unfolding(crate::specs::Calls::on_change))]
pub fn append_change_call(op: &ChangeOp, out: &mut Vec<u8>) -> Result<(), NoMemory>
    ensures { OnOk result (out.new.items ≡ out.old.items ++ on_change.spelling op.now) }
{
    match op {
        ChangeOp::Add(member, expected) => {
            append_word(b"add", SPACE, out)?;
            append_member_word(*member, SPACE, out)?;
            append_number_word(*expected, LINE, out)?;
        }
        ChangeOp::Remove(member, expected) => {
            append_word(b"remove", SPACE, out)?;
            append_member_word(*member, SPACE, out)?;
            append_number_word(*expected, LINE, out)?;
        }
    }
    Ok(())
}
