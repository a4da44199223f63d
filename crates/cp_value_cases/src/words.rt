//! Cases of words, of lists of members, and of the calls of a schedule. The end of a line is put behind what stands in the
//! case.
use crate::ending::CaseEnd;
use crate::notation::{
    append_left, append_stop, append_written, bytes_of, line_of, number_of, split,
};
use cp_base::NoMemory;
use cp_call_words::{
    Context, append_hex_word, append_name_word, append_signed_word, put_shown_user_op, put_user_op,
    take_group_word, take_hex_word, take_signed_word, take_user_op,
};
use cp_events::UserOp;
use cp_grammar::{
    LINE, SPACE, append_number_word, append_word, is_token, take_members, take_number_word,
    take_token, take_word,
};
use cp_op_values::append_members_text;
use std::alloc::Global;

/// Appends a line that was written, without its end.
fn append_line(mut line: Vec<u8>, out: &mut Vec<u8>) -> Result<(), NoMemory> {
    let end = line.pop();
    out.extend_from_slice(&line)?;
    if end != Some(LINE) {
        out.extend_from_slice(b" without an end")?;
    }
    Ok(())
}

/// Members at the front of bytes, and the bytes after them.
fn show_members(alloc: Global, bytes: &[u8], out: &mut Vec<u8>) -> Result<(), CaseEnd> {
    match take_members(alloc, bytes) {
        Ok((members, rest)) => {
            out.extend_from_slice(b"members")?;
            append_members_text(members.as_slice(), out)?;
            Ok(append_left(rest, out)?)
        }
        Err(stop) => append_stop(stop, out),
    }
}

fn append_token(
    alloc: Global,
    word: &[u8],
    end: u8,
    rest: &[u8],
    out: &mut Vec<u8>,
) -> Result<(), CaseEnd> {
    if is_token(word, end, b"add", SPACE) {
        out.extend_from_slice(b"the token ")?;
    }
    out.extend_from_slice(word)?;
    let mut written = Vec::new(alloc);
    append_word(word, end, &mut written)?;
    append_written(&written, out)?;
    Ok(append_left(rest, out)?)
}

/// The word at the front and its end, and whether they are `add` and a space.
fn show_token(alloc: Global, bytes: &[u8], out: &mut Vec<u8>) -> Result<(), CaseEnd> {
    match take_token(bytes) {
        Ok((word, end, rest)) => append_token(alloc, word, end, rest, out),
        Err(stop) => append_stop(stop, out),
    }
}

/// A word that ends its line.
fn show_word(bytes: &[u8], out: &mut Vec<u8>) -> Result<(), CaseEnd> {
    match take_word(bytes, LINE) {
        Ok((word, rest)) => {
            out.extend_from_slice(word)?;
            Ok(append_left(rest, out)?)
        }
        Err(stop) => append_stop(stop, out),
    }
}

/// A number that ends its line.
fn show_number(alloc: Global, most: u64, bytes: &[u8], out: &mut Vec<u8>) -> Result<(), CaseEnd> {
    match take_number_word(bytes, LINE, most) {
        Ok((number, rest)) => {
            let mut line = Vec::new(alloc);
            append_number_word(number, LINE, &mut line)?;
            append_line(line, out)?;
            Ok(append_left(rest, out)?)
        }
        Err(stop) => append_stop(stop, out),
    }
}

fn show_signed(alloc: Global, bytes: &[u8], out: &mut Vec<u8>) -> Result<(), CaseEnd> {
    match take_signed_word(bytes, LINE) {
        Ok((number, rest)) => {
            let mut line = Vec::new(alloc);
            append_signed_word(number, LINE, &mut line)?;
            append_line(line, out)?;
            Ok(append_left(rest, out)?)
        }
        Err(stop) => append_stop(stop, out),
    }
}

/// From `least` to 2 bytes, as `x` and digits.
fn show_hex(alloc: Global, least: u64, bytes: &[u8], out: &mut Vec<u8>) -> Result<(), CaseEnd> {
    match take_hex_word(alloc, bytes, LINE, least as usize, 2) {
        Ok((items, rest)) => {
            let mut line = Vec::new(alloc);
            append_hex_word(&items, LINE, &mut line)?;
            append_line(line, out)?;
            Ok(append_left(rest, out)?)
        }
        Err(stop) => append_stop(stop, out),
    }
}

/// The name of a group that a call may name.
fn show_group(
    alloc: Global,
    context: Context,
    bytes: &[u8],
    out: &mut Vec<u8>,
) -> Result<(), CaseEnd> {
    match take_group_word(alloc, context.managed, bytes, LINE) {
        Ok((name, rest)) => {
            let mut line = Vec::new(alloc);
            append_name_word(&name, LINE, &mut line)?;
            append_line(line, out)?;
            Ok(append_left(rest, out)?)
        }
        Err(stop) => append_stop(stop, out),
    }
}

/// The context of a word: groups are made by calls, or `default` is the only one, with members or alone.
fn context_of(word: &str) -> Result<Context, CaseEnd> {
    let (managed, members) = match word {
        "managed" => (true, true),
        "fixed" => (false, true),
        "alone" => (false, false),
        _ => return Err(CaseEnd::BadInput),
    };
    Ok(Context { managed, members })
}

/// A call as it is written again, and what is left behind it.
fn show_written(
    alloc: Global,
    context: Context,
    op: &UserOp,
    rest: &[u8],
    out: &mut Vec<u8>,
) -> Result<(), CaseEnd> {
    let mut line = Vec::new(alloc);
    put_user_op(context, op, &mut line)?;
    append_line(line, out)?;
    Ok(append_left(rest, out)?)
}

/// A call as a transcript shows it, and what is left behind it.
fn show_printed(alloc: Global, op: &UserOp, rest: &[u8], out: &mut Vec<u8>) -> Result<(), CaseEnd> {
    let mut line = Vec::new(alloc);
    put_shown_user_op(op, &mut line)?;
    append_line(line, out)?;
    Ok(append_left(rest, out)?)
}

/// The call of a line, as it is written again.
fn show_call(
    alloc: Global,
    context: Context,
    bytes: &[u8],
    out: &mut Vec<u8>,
) -> Result<(), CaseEnd> {
    match take_user_op(alloc, context, bytes) {
        Ok((op, rest)) => show_written(alloc, context, &op, rest, out),
        Err(stop) => append_stop(stop, out),
    }
}

/// The call of a line, as a transcript shows it.
fn show_shown(
    alloc: Global,
    context: Context,
    bytes: &[u8],
    out: &mut Vec<u8>,
) -> Result<(), CaseEnd> {
    match take_user_op(alloc, context, bytes) {
        Ok((op, rest)) => show_printed(alloc, &op, rest, out),
        Err(stop) => append_stop(stop, out),
    }
}

/// Shows a case of these kinds, and tells whether it is one. A bound or a context stands before the words of a line.
pub fn show(alloc: Global, kind: &str, words: &str, out: &mut Vec<u8>) -> Result<bool, CaseEnd> {
    let (first, behind) = split(words);
    match kind {
        "members" => show_members(alloc, &bytes_of(alloc, words)?, out)?,
        "token" => show_token(alloc, &line_of(alloc, words)?, out)?,
        "word" => show_word(&line_of(alloc, words)?, out)?,
        "number" => show_number(alloc, number_of(first)?, &line_of(alloc, behind)?, out)?,
        "signed_word" => show_signed(alloc, &line_of(alloc, words)?, out)?,
        "hex_word" => show_hex(alloc, number_of(first)?, &line_of(alloc, behind)?, out)?,
        "group_word" => show_group(alloc, context_of(first)?, &line_of(alloc, behind)?, out)?,
        "call" => show_call(alloc, context_of(first)?, &line_of(alloc, behind)?, out)?,
        "shown" => show_shown(alloc, context_of(first)?, &line_of(alloc, behind)?, out)?,
        _ => return Ok(false),
    }
    Ok(true)
}
