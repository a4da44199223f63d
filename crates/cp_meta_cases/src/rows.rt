//! Rows of entries from a text, applied to METADATA's machine, and the text of what they show.
ghost use Rattle.std.specs.Prelude.{◌≤◌, ◌^◌, IfOk};

use crate::answers;
use crate::lists::{append_group_of, append_lists};
use cp_answers::Answer;
use cp_base::limits::LAST_NUMBER;
use cp_base::{Invocation, Items, NoMemory, Text, read_decimal, read_hex, write_hex};
use cp_grammar::ReadError;
use cp_io::{Fault, ReadEnd, Sink, Source, read_all, write_all};
use cp_meta::MetaMachine;
use cp_op_values::append_numbered;
use cp_ops::Entry;
use std::alloc::{AllocError, AllocFailed, Global};

/// Why rows were not shown to their end.
#[derive(Clone, Copy, Debug, PartialEq, Eq)]
pub enum RowsEnd {
    /// A line is no row, or the input is too long or cannot be read.
    BadInput,
    /// The output cannot be written.
    WriteFault,
    NoMemory,
}

impl From<NoMemory> for RowsEnd {
    fn from(_: NoMemory) -> RowsEnd {
        RowsEnd::NoMemory
    }
}

impl From<AllocError> for RowsEnd {
    fn from(_: AllocError) -> RowsEnd {
        RowsEnd::NoMemory
    }
}

impl<T: Drop> From<AllocFailed<T>> for RowsEnd {
    fn from(_: AllocFailed<T>) -> RowsEnd {
        RowsEnd::NoMemory
    }
}

impl From<ReadError> for RowsEnd {
    fn from(error: ReadError) -> RowsEnd {
        match error {
            ReadError::NotInGrammar(_place) => RowsEnd::BadInput,
            ReadError::NoMemory => RowsEnd::NoMemory,
        }
    }
}

impl From<ReadEnd> for RowsEnd {
    fn from(end: ReadEnd) -> RowsEnd {
        match end {
            ReadEnd::Failed | ReadEnd::TooLong => RowsEnd::BadInput,
            ReadEnd::NoMemory => RowsEnd::NoMemory,
        }
    }
}

impl From<Fault> for RowsEnd {
    fn from(fault: Fault) -> RowsEnd {
        match fault {
            Fault::Failed => RowsEnd::WriteFault,
            Fault::NoMemory => RowsEnd::NoMemory,
        }
    }
}

/// The index that a word spells.
fn index_of(word: &str) -> Result<u64, RowsEnd>
    ensures { IfOk result (λ index. index ≤ 2 ^ 62) }
{
    match read_decimal(word.as_bytes()) {
        Some(index) if index <= LAST_NUMBER => Ok(index),
        _ => Err(RowsEnd::BadInput),
    }
}

/// The bytes whose hexadecimal digits stand in words, one behind another.
fn bytes_of(alloc: Global, words: &str) -> Result<Vec<u8>, RowsEnd> {
    let mut bytes = Vec::new(alloc);
    for word in words.split_whitespace() {
        let Some(part) = read_hex(alloc, word.as_bytes())? else {
            return Err(RowsEnd::BadInput);
        };
        bytes.extend_from_slice(&part)?;
    }
    Ok(bytes)
}

/// Appends the line of an answer: `answer C T N ANSWER`.
fn append_answer(told: &(Invocation, Answer), out: &mut Vec<u8>) -> Result<(), NoMemory> {
    let (call, answer) = told;
    append_numbered(b"answer ", u64::from(call.client.number()), out)?;
    append_numbered(b" ", u64::from(call.thread.0), out)?;
    append_numbered(b" ", call.number, out)?;
    out.push(b' ')?;
    answer.append_text(out)?;
    out.push(b'\n')?;
    Ok(())
}

/// Appends the lines of answers.
fn append_answers(told: &Items<(Invocation, Answer)>, out: &mut Vec<u8>) -> Result<(), NoMemory> {
    for answer in told.as_slice().iter() {
        append_answer(answer, out)?;
    }
    Ok(())
}

/// The entry that bytes spell.
fn entry_of(alloc: Global, bytes: &[u8]) -> Result<Entry, RowsEnd> {
    Ok(Entry::read(alloc, bytes)?)
}

/// Appends the line of an entry: its index and its words.
fn append_entry(index: u64, entry: &Entry, out: &mut Vec<u8>) -> Result<(), NoMemory> {
    append_numbered(b"", index, out)?;
    out.push(b' ')?;
    entry.append_text(out)?;
    out.push(b'\n')?;
    Ok(())
}

/// Applies the entry of an index, and appends its line and those of its answers.
fn show_entry(
    alloc: Global,
    machine: &mut MetaMachine,
    index: u64,
    bytes: &[u8],
    out: &mut Vec<u8>,
) -> Result<(), RowsEnd>
    requires { index ≤ 2 ^ 62 }
{
    append_entry(index, &entry_of(alloc, bytes)?, out)?;
    append_answers(&answers(alloc, machine, index, bytes)?, out)?;
    Ok(())
}

/// Begins with the machine that bytes restore, or appends the place of the first field that fails.
fn show_restore(
    alloc: Global,
    machine: &mut MetaMachine,
    bytes: &[u8],
    out: &mut Vec<u8>,
) -> Result<(), RowsEnd> {
    match MetaMachine::read_bytes(alloc, bytes) {
        Ok(restored) => {
            *machine = restored;
            out.extend_from_slice(b"restored\n")?;
            Ok(())
        }
        Err(ReadError::NotInGrammar(place)) => {
            append_numbered(b"no state, at ", place as u64, out)?;
            out.push(b'\n')?;
            Ok(())
        }
        Err(ReadError::NoMemory) => Err(RowsEnd::NoMemory),
    }
}

/// Appends the bytes that restore to the machine, as hexadecimal digits.
fn show_snapshot(alloc: Global, machine: &MetaMachine, out: &mut Vec<u8>) -> Result<(), RowsEnd> {
    let mut bytes = Vec::new(alloc);
    machine.write_bytes(&mut bytes)?;
    out.extend_from_slice(b"snapshot ")?;
    write_hex(&bytes, out)?;
    out.push(b'\n')?;
    Ok(())
}

/// The number of members that a word spells, from 1 to 9.
fn members_of(word: &str) -> Result<u8, RowsEnd>
    ensures { IfOk result (λ members. (1 ≤ members) × (members ≤ 9)) }
{
    match read_decimal(word.as_bytes()) {
        Some(members) if 1 <= members && members <= 9 => Ok(members as u8),
        _ => Err(RowsEnd::BadInput),
    }
}

/// A new machine of so many members, of which so many are those of the first groups.
fn new_machine(alloc: Global, words: &str) -> Result<MetaMachine, RowsEnd> {
    let Some((members, size)) = words.split_once(' ') else {
        return Err(RowsEnd::BadInput);
    };
    let members = members_of(members)?;
    let size = members_of(size)?;
    if members < size {
        return Err(RowsEnd::BadInput);
    }
    Ok(MetaMachine::begin(alloc, members, size)?)
}

/// Does what a row of more than one word asks for.
fn show_words(
    alloc: Global,
    machine: &mut MetaMachine,
    first: &str,
    words: &str,
    out: &mut Vec<u8>,
) -> Result<(), RowsEnd> {
    if first == "new" {
        *machine = new_machine(alloc, words)?;
        return Ok(());
    }
    if first == "group" {
        append_group_of(machine, index_of(words)?, out)?;
        return Ok(());
    }
    let bytes = bytes_of(alloc, words)?;
    if first == "restore" {
        return show_restore(alloc, machine, &bytes, out);
    }
    show_entry(alloc, machine, index_of(first)?, &bytes, out)
}

/// Does what a row asks for: an index and the bytes of an entry, `new` with two numbers, `group` with one, `restore` and the
/// bytes of a state, `snapshot`, or `show`.
fn show_row(
    alloc: Global,
    machine: &mut MetaMachine,
    row: &str,
    out: &mut Vec<u8>,
) -> Result<(), RowsEnd> {
    if row == "snapshot" {
        return show_snapshot(alloc, machine, out);
    }
    if row == "show" {
        append_lists(machine, out)?;
        return Ok(());
    }
    match row.split_once(' ') {
        Some((first, words)) => show_words(alloc, machine, first, words, out),
        None => Err(RowsEnd::BadInput),
    }
}

/// What the rows of a text show, one on each line that is not empty and does not begin with `#`.
fn shown(alloc: Global, text: &str) -> Result<Vec<u8>, RowsEnd> {
    let mut machine = MetaMachine::begin(alloc, 1, 1)?;
    let mut out = Vec::new(alloc);
    for line in text.lines() {
        if !line.is_empty() && !line.starts_with('#') {
            show_row(alloc, &mut machine, line, &mut out)?;
        }
    }
    Ok(out)
}

/// Applies the rows that a source gives, the first of them to a machine of one member, and writes to a sink what they show.
pub fn show_rows<S: Source, K: Sink>(
    alloc: Global,
    source: &mut S,
    sink: &mut K,
) -> Result<(), RowsEnd> {
    let bytes = read_all(alloc, source)?;
    let Ok(text) = str::from_utf8(&bytes) else {
        return Err(RowsEnd::BadInput);
    };
    let out = shown(alloc, text)?;
    write_all(sink, &out)?;
    Ok(())
}
