//! What is shown of answers: words, numbers and lists of them.
use crate::end::End;
use cp_base::{Name, write_decimal, write_signed};

/// How many of a list are shown.
pub const MOST_SHOWN: usize = 8;

/// Parts what comes from what was shown before.
pub fn part(out: &mut Vec<u8>) -> Result<(), End> {
    if !out.is_empty() {
        out.push(b' ')?;
    }
    Ok(())
}

/// Shows a word.
pub fn show(word: &[u8], out: &mut Vec<u8>) -> Result<(), End> {
    part(out)?;
    out.extend_from_slice(word)?;
    Ok(())
}

/// Shows a number.
pub fn show_number(number: u64, out: &mut Vec<u8>) -> Result<(), End> {
    part(out)?;
    write_decimal(number, out)?;
    Ok(())
}

/// Shows a number with a sign.
pub fn show_value(value: i64, out: &mut Vec<u8>) -> Result<(), End> {
    part(out)?;
    write_signed(value, out)?;
    Ok(())
}

/// Shows how many there are, of a word behind it.
pub fn show_numbered(word: &[u8], number: u64, out: &mut Vec<u8>) -> Result<(), End> {
    show(word, out)?;
    show_number(number, out)
}

/// Shows a number, or `none`.
pub fn show_found(number: Option<u64>, out: &mut Vec<u8>) -> Result<(), End> {
    match number {
        Some(number) => show_number(number, out),
        None => show(b"none", out),
    }
}

/// Shows whether it is so.
pub fn show_flag(flag: bool, out: &mut Vec<u8>) -> Result<(), End> {
    if flag {
        show(b"true", out)
    } else {
        show(b"false", out)
    }
}

/// Shows the length of a list, in front of its first items.
pub fn show_length(length: usize, out: &mut Vec<u8>) -> Result<(), End> {
    show_number(length as u64, out)?;
    out.push(b':')?;
    Ok(())
}

/// Shows that a list goes on, where it does.
pub fn show_end(length: usize, out: &mut Vec<u8>) -> Result<(), End> {
    if length > MOST_SHOWN {
        show(b"..", out)?;
    }
    Ok(())
}

/// Shows a list of numbers.
pub fn show_numbers(numbers: &[u64], out: &mut Vec<u8>) -> Result<(), End> {
    show_length(numbers.len(), out)?;
    for number in numbers.iter().take(MOST_SHOWN) {
        show_number(*number, out)?;
    }
    show_end(numbers.len(), out)
}

/// Shows a list of names.
pub fn show_names(names: &[Name], out: &mut Vec<u8>) -> Result<(), End> {
    show_length(names.len(), out)?;
    for name in names.iter().take(MOST_SHOWN) {
        show(name.as_bytes(), out)?;
    }
    show_end(names.len(), out)
}
