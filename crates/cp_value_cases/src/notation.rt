//! How a case spells bytes and numbers, and how bytes, errors and places are shown.
use crate::ending::CaseEnd;
use cp_base::{NoMemory, read_hex, write_hex};
use cp_grammar::{Stop, read_own_decimal};
use cp_op_values::append_numbered;
use std::alloc::Global;
use std::fmt::Display;

/// The most times that a word repeats its bytes.
const MOST_TIMES: u64 = 10_000;

/// The number that a word spells.
pub fn number_of(word: &str) -> Result<u64, CaseEnd> {
    match read_own_decimal(word.as_bytes()) {
        Some(number) => Ok(number),
        None => Err(CaseEnd::BadInput),
    }
}

/// The number below 256 that a word spells.
pub fn byte_of(word: &str) -> Result<u8, CaseEnd> {
    match u8::try_from(number_of(word)?) {
        Ok(number) => Ok(number),
        Err(_) => Err(CaseEnd::BadInput),
    }
}

/// The number below 2^32 that a word spells.
pub fn short_of(word: &str) -> Result<u32, CaseEnd> {
    match u32::try_from(number_of(word)?) {
        Ok(number) => Ok(number),
        Err(_) => Err(CaseEnd::BadInput),
    }
}

/// The first word, and what stands after the space behind it.
pub fn split(words: &str) -> (&str, &str) {
    match words.split_once(' ') {
        Some(parts) => parts,
        None => (words, ""),
    }
}

/// The bytes whose digits these are.
fn digits(alloc: Global, text: &str) -> Result<Vec<u8>, CaseEnd> {
    match read_hex(alloc, text.as_bytes())? {
        Some(bytes) => Ok(bytes),
        None => Err(CaseEnd::BadInput),
    }
}

/// Appends bytes so many times.
fn append_times(bytes: &[u8], times: u64, out: &mut Vec<u8>) -> Result<(), CaseEnd> {
    for _ in 0..times.min(MOST_TIMES) {
        out.extend_from_slice(bytes)?;
    }
    Ok(())
}

/// Appends the bytes of a word: digits, or digits, `*` and how often.
fn append_word(alloc: Global, word: &str, out: &mut Vec<u8>) -> Result<(), CaseEnd> {
    match word.split_once('*') {
        Some((text, times)) => append_times(&digits(alloc, text)?, number_of(times)?, out),
        None => append_times(&digits(alloc, word)?, 1, out),
    }
}

/// Appends the bytes of words.
fn append_words(alloc: Global, words: &str, out: &mut Vec<u8>) -> Result<(), CaseEnd> {
    for word in words.split_whitespace() {
        append_word(alloc, word, out)?;
    }
    Ok(())
}

/// The bytes that a case spells: words of hexadecimal digits, with `*` and how often behind them or not, and texts
/// between quotes.
pub fn bytes_of(alloc: Global, text: &str) -> Result<Vec<u8>, CaseEnd> {
    let mut bytes = Vec::new(alloc);
    let mut quoted = false;
    for piece in text.split('"') {
        if quoted {
            bytes.extend_from_slice(piece.as_bytes())?;
        } else {
            append_words(alloc, piece, &mut bytes)?;
        }
        quoted = !quoted;
    }
    Ok(bytes)
}

/// The bytes of words, and the end of a line behind them.
pub fn line_of(alloc: Global, words: &str) -> Result<Vec<u8>, CaseEnd> {
    let mut line = Vec::from_slice(alloc, words.as_bytes())?;
    line.push(b'\n')?;
    Ok(line)
}

/// Appends the text of an error.
pub fn append_error<E: Display>(
    alloc: Global,
    error: &E,
    out: &mut Vec<u8>,
) -> Result<(), CaseEnd> {
    let text = error.to_string(alloc)?;
    out.extend_from_slice(text.as_bytes())?;
    Ok(())
}

/// Appends ` = ` and the digits of what was written.
pub fn append_written(written: &[u8], out: &mut Vec<u8>) -> Result<(), NoMemory> {
    out.extend_from_slice(b" = ")?;
    write_hex(written, out)
}

/// Appends the bytes after a value, where there are some.
pub fn append_left(rest: &[u8], out: &mut Vec<u8>) -> Result<(), NoMemory> {
    if rest.is_empty() {
        return Ok(());
    }
    out.extend_from_slice(b", left ")?;
    write_hex(rest, out)
}

/// Appends where a reader stopped: so many bytes before the end.
pub fn append_stop(stop: Stop, out: &mut Vec<u8>) -> Result<(), CaseEnd> {
    match stop {
        Stop::Left(left) => Ok(append_numbered(b"stops, left ", left as u64, out)?),
        Stop::NoMemory => Err(CaseEnd::NoMemory),
    }
}
