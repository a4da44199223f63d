//! The words of a case, and of what is told.
use crate::end::CaseEnd;
use cp_base::{NoMemory, read_decimal, read_hex, write_decimal, write_hex};
use std::alloc::Global;

/// The words of a step.
pub fn words_of(alloc: Global, step: &str) -> Result<Vec<String>, CaseEnd> {
    let mut words = Vec::new(alloc);
    for word in step.split_whitespace() {
        words.push(word.to_string(alloc)?)?;
    }
    Ok(words)
}

/// The number that a word spells.
fn number_of(word: &str) -> Result<u64, CaseEnd> {
    match read_decimal(word.as_bytes()) {
        Some(number) => Ok(number),
        None => Err(CaseEnd::BadInput),
    }
}

/// The word at a place.
pub fn word_at(words: &[String], place: usize) -> Result<&str, CaseEnd> {
    match words.get(place) {
        Some(word) => Ok(word.as_str()),
        None => Err(CaseEnd::BadInput),
    }
}

/// The number at a place.
pub fn number_at(words: &[String], place: usize) -> Result<u64, CaseEnd> {
    number_of(word_at(words, place)?)
}

/// The numbers from a place on.
pub fn numbers_from(alloc: Global, words: &[String], place: usize) -> Result<Vec<u64>, CaseEnd> {
    let mut numbers = Vec::new(alloc);
    for word in words.iter().skip(place) {
        numbers.push(number_of(word)?)?;
    }
    Ok(numbers)
}

/// The bytes whose hexadecimal digits a word has; `-` has none.
fn bytes_of(alloc: Global, word: &str) -> Result<Vec<u8>, CaseEnd> {
    if word == "-" {
        return Ok(Vec::new(alloc));
    }
    match read_hex(alloc, word.as_bytes())? {
        Some(bytes) => Ok(bytes),
        None => Err(CaseEnd::BadInput),
    }
}

/// The bytes at a place.
pub fn bytes_at(alloc: Global, words: &[String], place: usize) -> Result<Vec<u8>, CaseEnd> {
    bytes_of(alloc, word_at(words, place)?)
}

/// The bytes from a place on, one behind another.
pub fn bytes_from(alloc: Global, words: &[String], place: usize) -> Result<Vec<u8>, CaseEnd> {
    let mut bytes = Vec::new(alloc);
    for word in words.iter().skip(place) {
        bytes.extend_from_slice(&bytes_of(alloc, word)?)?;
    }
    Ok(bytes)
}

/// Tells words.
pub fn tell(words: &[u8], out: &mut Vec<u8>) -> Result<(), NoMemory> {
    out.extend_from_slice(words)?;
    Ok(())
}

/// Tells a number.
pub fn tell_number(number: u64, out: &mut Vec<u8>) -> Result<(), NoMemory> {
    write_decimal(number, out)
}

/// Tells numbers, with a space before each but the first.
pub fn tell_numbers(numbers: &[u64], out: &mut Vec<u8>) -> Result<(), NoMemory> {
    let mut is_first = true;
    for number in numbers {
        if !is_first {
            tell(b" ", out)?;
        }
        tell_number(*number, out)?;
        is_first = false;
    }
    Ok(())
}

/// Tells bytes by their hexadecimal digits, and no byte by `-`.
pub fn tell_bytes(bytes: &[u8], out: &mut Vec<u8>) -> Result<(), NoMemory> {
    if bytes.is_empty() {
        return tell(b"-", out);
    }
    write_hex(bytes, out)
}

/// Tells `yes` or `no`.
pub fn tell_whether(is: bool, out: &mut Vec<u8>) -> Result<(), NoMemory> {
    tell(
        if is {
            b"yes".as_slice()
        } else {
            b"no".as_slice()
        },
        out,
    )
}
