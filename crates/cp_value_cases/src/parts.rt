//! Cases of the parts of a journal, and of configurations.
use crate::ending::CaseEnd;
use crate::notation::{byte_of, bytes_of, number_of, split};
use cp_base::{GroupId, NoMemory, write_hex};
use cp_message::append_numbers_text;
use cp_op_values::{append_hex_text, append_members_text, append_numbered};
use cp_parts::{
    Config, LogEntry, Part, SnapshotHead, config_of_entry, head_of_snapshot, state_bytes,
};
use std::alloc::Global;

/// Appends term and bytes of each entry.
fn append_entries(entries: &[LogEntry], out: &mut Vec<u8>) -> Result<(), NoMemory> {
    for entry in entries.iter() {
        append_numbered(b" ", entry.term, out)?;
        out.push(b':')?;
        write_hex(entry.bytes.as_slice(), out)?;
    }
    Ok(())
}

/// Appends a word and numbers.
fn append_word(word: &[u8], numbers: &[u64], out: &mut Vec<u8>) -> Result<(), NoMemory> {
    out.extend_from_slice(word)?;
    append_numbers_text(numbers, out)
}

/// Appends a part: its name and its fields.
pub fn append_part(part: &Part, out: &mut Vec<u8>) -> Result<(), NoMemory> {
    match part {
        Part::Start(restart) => append_word(b"start", &[*restart], out)?,
        Part::State(group, term, vote) => {
            append_word(b"state", &[group.0, *term, u64::from(*vote)], out)?;
        }
        Part::Append(group, term, vote, after, entries) => {
            append_word(b"append", &[group.0, *term, u64::from(*vote), *after], out)?;
            append_entries(entries.as_slice(), out)?;
        }
        Part::Begin(group, members) => {
            append_word(b"begin", &[group.0], out)?;
            append_members_text(members.as_slice(), out)?;
        }
        Part::End(group) => append_word(b"end", &[group.0], out)?,
        Part::Snapshot(group, term, vote, index, bytes) => {
            append_word(
                b"snapshot",
                &[group.0, *term, u64::from(*vote), *index],
                out,
            )?;
            out.push(b' ')?;
            append_hex_text(bytes, out)?;
        }
        Part::Start2(restart) => append_word(b"start2", &[*restart], out)?,
    }
    Ok(())
}

/// Appends index, plan and members of a configuration.
fn append_config(config: &Config, out: &mut Vec<u8>) -> Result<(), NoMemory> {
    append_word(b"index plan", &[config.index, config.plan], out)?;
    out.extend_from_slice(b" members")?;
    append_members_text(config.members.as_slice(), out)
}

/// The configuration that an entry at an index brings.
fn show_config(alloc: Global, index: u64, bytes: &[u8], out: &mut Vec<u8>) -> Result<(), NoMemory> {
    match config_of_entry(alloc, index, bytes)? {
        Some(config) => append_config(&config, out),
        None => Ok(out.extend_from_slice(b"none")?),
    }
}

/// Appends the term and the configuration that a snapshot begins with.
pub fn append_head(head: &SnapshotHead, out: &mut Vec<u8>) -> Result<(), NoMemory> {
    append_numbered(b"term ", head.term, out)?;
    out.push(b' ')?;
    append_config(&head.config, out)
}

/// What the bytes of a snapshot begin with.
fn show_head(alloc: Global, bytes: &[u8], out: &mut Vec<u8>) -> Result<(), NoMemory> {
    match head_of_snapshot(alloc, bytes)? {
        Some(head) => append_head(&head, out),
        None => Ok(out.extend_from_slice(b"none")?),
    }
}

/// The bytes of a state of a group, a term and a vote, which need no memory.
fn show_state(words: &str, out: &mut Vec<u8>) -> Result<(), CaseEnd> {
    let (group, behind) = split(words);
    let (term, vote) = split(behind);
    let bytes = state_bytes(GroupId(number_of(group)?), number_of(term)?, byte_of(vote)?);
    Ok(write_hex(&bytes, out)?)
}

/// Shows a case of these kinds, and tells whether it is one.
pub fn show(alloc: Global, kind: &str, words: &str, out: &mut Vec<u8>) -> Result<bool, CaseEnd> {
    let (index, behind) = split(words);
    match kind {
        "state" => show_state(words, out)?,
        "config" => show_config(alloc, number_of(index)?, &bytes_of(alloc, behind)?, out)?,
        "head" => show_head(alloc, &bytes_of(alloc, words)?, out)?,
        _ => return Ok(false),
    }
    Ok(true)
}
