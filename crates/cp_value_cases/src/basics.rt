//! Cases of names, decimals, hexadecimal texts, clients, texts that a byte parts, and lists.
use crate::ending::CaseEnd;
use crate::notation::{append_error, byte_of, bytes_of, number_of, split};
use cp_base::{
    ClientId, ClientNo, Items, Name, NoMemory, read_decimal, read_hex, read_signed, split_at_byte,
    write_decimal, write_hex, write_signed,
};
use cp_message::append_numbers_text;
use cp_op_values::{append_members_text, append_numbered};
use std::alloc::Global;

/// The name that bytes spell: its bytes, or why they spell none.
fn show_name(alloc: Global, bytes: &[u8], out: &mut Vec<u8>) -> Result<(), CaseEnd> {
    match Name::read(alloc, bytes) {
        Ok(name) => Ok(out.extend_from_slice(name.as_bytes())?),
        Err(error) => append_error(alloc, &error, out),
    }
}

fn name_of(alloc: Global, word: &str) -> Result<Name, CaseEnd> {
    match Name::read(alloc, word.as_bytes()) {
        Ok(name) => Ok(name),
        Err(_) => Err(CaseEnd::BadInput),
    }
}

/// Appends how two values stand to each other.
fn append_order(is_before: bool, is_same: bool, out: &mut Vec<u8>) -> Result<(), NoMemory> {
    if is_before {
        out.extend_from_slice(b"before, ")?;
    } else {
        out.extend_from_slice(b"not before, ")?;
    }
    if is_same {
        out.extend_from_slice(b"same")?;
    } else {
        out.extend_from_slice(b"other")?;
    }
    Ok(())
}

/// How a copy of the first name stands to the second.
fn show_names(alloc: Global, words: &str, out: &mut Vec<u8>) -> Result<(), CaseEnd> {
    let (first, second) = split(words);
    let first = name_of(alloc, first)?.clone()?;
    let second = name_of(alloc, second)?;
    Ok(append_order(first < second, first == second, out)?)
}

fn show_decimal(bytes: &[u8], out: &mut Vec<u8>) -> Result<(), NoMemory> {
    match read_decimal(bytes) {
        Some(number) => write_decimal(number, out),
        None => Ok(out.extend_from_slice(b"none")?),
    }
}

fn show_signed(bytes: &[u8], out: &mut Vec<u8>) -> Result<(), NoMemory> {
    match read_signed(bytes) {
        Some(number) => write_signed(number, out),
        None => Ok(out.extend_from_slice(b"none")?),
    }
}

/// Appends `x` and the digits of bytes, and their numbers.
fn append_bytes_read(bytes: &[u8], out: &mut Vec<u8>) -> Result<(), NoMemory> {
    out.push(b'x')?;
    write_hex(bytes, out)?;
    append_members_text(bytes, out)
}

fn show_hex(alloc: Global, text: &[u8], out: &mut Vec<u8>) -> Result<(), NoMemory> {
    match read_hex(alloc, text)? {
        Some(bytes) => append_bytes_read(&bytes, out),
        None => Ok(out.extend_from_slice(b"none")?),
    }
}

fn client_of(word: &str) -> Result<ClientId, CaseEnd> {
    Ok(ClientId::in_replay(ClientNo(byte_of(word)?)))
}

/// The sixteen bytes of a client of a replay, and its number.
fn show_client(word: &str, out: &mut Vec<u8>) -> Result<(), CaseEnd> {
    let client = client_of(word)?;
    write_hex(&client.0.into_bytes(), out)?;
    Ok(append_numbered(b" ", u64::from(client.number()), out)?)
}

fn show_clients(words: &str, out: &mut Vec<u8>) -> Result<(), CaseEnd> {
    let (first, second) = split(words);
    let first = client_of(first)?;
    let second = client_of(second)?;
    Ok(append_order(first < second, first == second, out)?)
}

/// What stands before the first space of a text, and what stands behind it.
fn show_parts(text: &[u8], out: &mut Vec<u8>) -> Result<(), NoMemory> {
    let Some((front, behind)) = split_at_byte(b' ', text) else {
        return Ok(out.extend_from_slice(b"none")?);
    };
    out.push(b'"')?;
    out.extend_from_slice(front)?;
    out.extend_from_slice(b"\" and \"")?;
    out.extend_from_slice(behind)?;
    Ok(out.push(b'"')?)
}

/// Appends `empty`, or how many numbers a list has and the numbers.
fn append_list(list: &Items<u64>, out: &mut Vec<u8>) -> Result<(), NoMemory> {
    if list.is_empty() {
        return Ok(out.extend_from_slice(b"empty")?);
    }
    write_decimal(list.len() as u64, out)?;
    out.extend_from_slice(b" items")?;
    append_numbers_text(list.as_slice(), out)
}

/// Appends the number at a place of a list.
fn append_item(list: &Items<u64>, place: usize, out: &mut Vec<u8>) -> Result<(), NoMemory> {
    append_numbered(b"; at ", place as u64, out)?;
    match list.get(place) {
        Some(number) => append_numbered(b" ", *number, out),
        None => Ok(out.extend_from_slice(b" none")?),
    }
}

/// Appends whether a copy is the same as its list.
fn append_same(is_same: bool, out: &mut Vec<u8>) -> Result<(), NoMemory> {
    if is_same {
        out.extend_from_slice(b"; same")?;
    } else {
        out.extend_from_slice(b"; other")?;
    }
    Ok(())
}

/// Appends whether a copy of a list is the same, also with one more number, and what the copy has then as a `Vec`.
fn append_copy(list: &Items<u64>, more: u64, out: &mut Vec<u8>) -> Result<(), CaseEnd> {
    let mut copy = list.clone()?;
    append_same(copy == *list, out)?;
    copy.push(more)?;
    append_same(copy == *list, out)?;
    out.extend_from_slice(b"; ")?;
    let again = Items::from_vec(copy.into_vec());
    Ok(append_list(&again, out)?)
}

/// A list before and after numbers are put into it, two of its places, and a copy with 9 behind it.
fn show_items(alloc: Global, words: &str, out: &mut Vec<u8>) -> Result<(), CaseEnd> {
    let mut list = Items::new(alloc);
    append_list(&list, out)?;
    for word in words.split_whitespace() {
        list.push(number_of(word)?)?;
    }
    out.extend_from_slice(b"; ")?;
    append_list(&list, out)?;
    append_item(&list, 1, out)?;
    append_item(&list, 2, out)?;
    append_copy(&list, 9, out)
}

/// Shows a case of these kinds, and tells whether it is one.
pub fn show(alloc: Global, kind: &str, words: &str, out: &mut Vec<u8>) -> Result<bool, CaseEnd> {
    match kind {
        "name" => show_name(alloc, &bytes_of(alloc, words)?, out)?,
        "names" => show_names(alloc, words, out)?,
        "decimal" => show_decimal(&bytes_of(alloc, words)?, out)?,
        "signed" => show_signed(&bytes_of(alloc, words)?, out)?,
        "hex" => show_hex(alloc, &bytes_of(alloc, words)?, out)?,
        "client" => show_client(words, out)?,
        "clients" => show_clients(words, out)?,
        "parts" => show_parts(&bytes_of(alloc, words)?, out)?,
        "items" => show_items(alloc, words, out)?,
        _ => return Ok(false),
    }
    Ok(true)
}
