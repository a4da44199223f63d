//! The lines of a text, each answered by one line.
use crate::end::End;
use crate::words::{Words, split};
use cp_base::write_decimal;
use cp_io::{Sink, Source, read_all, write_all};
use std::alloc::Global;

/// Tables that lines call.
pub trait Tables {
    /// Makes the call that words spell, and shows its answer.
    fn answer(&mut self, words: &mut Words, out: &mut Vec<u8>) -> Result<(), End>;
}

/// The answer of a line with one call.
fn answer_of<T: Tables>(alloc: Global, tables: &mut T, line: &str) -> Result<Vec<u8>, End> {
    let mut words = Words::new(alloc, line);
    let mut out = Vec::new(alloc);
    tables.answer(&mut words, &mut out)?;
    if !words.is_done() {
        return Err(End::BadLine);
    }
    Ok(out)
}

/// A line with a number in the place of each `%`.
fn numbered(alloc: Global, line: &str, number: u64) -> Result<Vec<u8>, End> {
    let mut out = Vec::new(alloc);
    for byte in line.as_bytes() {
        if *byte == b'%' {
            write_decimal(number, &mut out)?;
        } else {
            out.push(*byte)?;
        }
    }
    Ok(out)
}

/// The answer of a line with a number in the place of each `%`.
fn numbered_answer<T: Tables>(
    alloc: Global,
    tables: &mut T,
    line: &str,
    number: u64,
) -> Result<Vec<u8>, End> {
    let bytes = numbered(alloc, line, number)?;
    match str::from_utf8(&bytes) {
        Ok(line) => answer_of(alloc, tables, line),
        Err(_) => Err(End::BadLine),
    }
}

/// Makes the call of a line with each of these numbers in turn, and gives the last answer.
fn repeated<T: Tables>(alloc: Global, tables: &mut T, line: &str) -> Result<Vec<u8>, End> {
    let mut words = Words::new(alloc, line);
    let first = words.number()?;
    let last = words.number()?;
    let mut out = Vec::new(alloc);
    for number in first..last.saturating_add(1) {
        out = numbered_answer(alloc, tables, words.rest(), number)?;
    }
    Ok(out)
}

/// The answer of a line with one call, or with a call that is repeated.
fn call_answer<T: Tables>(alloc: Global, tables: &mut T, line: &str) -> Result<Vec<u8>, End> {
    let (first, rest) = split(line);
    if first == "repeat" {
        return repeated(alloc, tables, rest);
    }
    answer_of(alloc, tables, line)
}

/// Whether a line is empty or a comment.
fn is_comment(line: &str) -> bool {
    matches!(line.as_bytes(), [] | [b'#', ..])
}

/// The answer of a line with a call: `bad line` where it is no case.
fn line_answer<T: Tables>(alloc: Global, tables: &mut T, line: &str) -> Result<Vec<u8>, End> {
    match call_answer(alloc, tables, line) {
        Err(End::BadLine) => Ok(Vec::from_slice(alloc, b"bad line")?),
        answer => answer,
    }
}

/// Appends the answer of a line: its own text where it is empty or a comment.
fn append_answer<T: Tables>(
    alloc: Global,
    tables: &mut T,
    line: &str,
    out: &mut Vec<u8>,
) -> Result<(), End> {
    if is_comment(line) {
        out.extend_from_slice(line.as_bytes())?;
        return Ok(());
    }
    let answer = line_answer(alloc, tables, line)?;
    out.extend_from_slice(&answer)?;
    Ok(())
}

/// The answers of the lines of a text.
fn answers<T: Tables>(alloc: Global, tables: &mut T, text: &str) -> Result<Vec<u8>, End> {
    let mut out = Vec::new(alloc);
    for line in text.lines() {
        append_answer(alloc, tables, line, &mut out)?;
        out.push(b'\n')?;
    }
    Ok(out)
}

/// Answers the lines that a source gives, to a sink. Comments and empty lines stay as they are, and a line that is no case is
/// answered by `bad line`. `repeat A B LINE` makes the call of LINE with each number from A to B in the place of `%`, and gives
/// the last answer.
pub fn answer_lines<T: Tables, S: Source, K: Sink>(
    alloc: Global,
    tables: &mut T,
    source: &mut S,
    sink: &mut K,
) -> Result<(), End> {
    let bytes = read_all(alloc, source)?;
    let Ok(text) = str::from_utf8(&bytes) else {
        return Err(End::BadLine);
    };
    let out = answers(alloc, tables, text)?;
    write_all(sink, &out)?;
    Ok(())
}
