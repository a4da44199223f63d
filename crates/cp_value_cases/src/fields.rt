//! Cases of single fields: what is read at the front of bytes, the place after it, and what is written for it.
use crate::ending::CaseEnd;
use crate::notation::{
    append_error, append_written, byte_of, bytes_of, number_of, short_of, split,
};
use cp_base::{NoMemory, write_decimal, write_hex, write_signed};
use cp_codec::{
    FieldError, read_bytes, read_flag, read_i64, read_u8, read_u32, read_u64, write_bytes,
    write_flag, write_i64, write_u8, write_u32, write_u64,
};
use cp_op_values::append_numbered;
use std::alloc::Global;

/// Appends the place after a field, and what was written for it.
fn append_place(place: usize, written: &[u8], out: &mut Vec<u8>) -> Result<(), NoMemory> {
    append_numbered(b" to ", place as u64, out)?;
    append_written(written, out)
}

fn append_u8(alloc: Global, number: u8, place: usize, out: &mut Vec<u8>) -> Result<(), CaseEnd> {
    write_decimal(u64::from(number), out)?;
    let mut written = Vec::new(alloc);
    write_u8(number, &mut written)?;
    Ok(append_place(place, &written, out)?)
}

fn append_u32(alloc: Global, number: u32, place: usize, out: &mut Vec<u8>) -> Result<(), CaseEnd> {
    write_decimal(u64::from(number), out)?;
    let mut written = Vec::new(alloc);
    write_u32(number, &mut written)?;
    Ok(append_place(place, &written, out)?)
}

fn append_u64(alloc: Global, number: u64, place: usize, out: &mut Vec<u8>) -> Result<(), CaseEnd> {
    write_decimal(number, out)?;
    let mut written = Vec::new(alloc);
    write_u64(number, &mut written)?;
    Ok(append_place(place, &written, out)?)
}

fn append_i64(alloc: Global, number: i64, place: usize, out: &mut Vec<u8>) -> Result<(), CaseEnd> {
    write_signed(number, out)?;
    let mut written = Vec::new(alloc);
    write_i64(number, &mut written)?;
    Ok(append_place(place, &written, out)?)
}

fn append_flag(alloc: Global, flag: bool, place: usize, out: &mut Vec<u8>) -> Result<(), CaseEnd> {
    if flag {
        out.extend_from_slice(b"true")?;
    } else {
        out.extend_from_slice(b"false")?;
    }
    let mut written = Vec::new(alloc);
    write_flag(flag, &mut written)?;
    Ok(append_place(place, &written, out)?)
}

fn append_bytes(
    alloc: Global,
    bytes: &[u8],
    place: usize,
    out: &mut Vec<u8>,
) -> Result<(), CaseEnd> {
    if bytes.len() > u32::MAX as usize {
        return Err(CaseEnd::BadInput);
    }
    write_hex(bytes, out)?;
    let mut written = Vec::new(alloc);
    write_bytes(bytes, &mut written)?;
    Ok(append_place(place, &written, out)?)
}

fn append_fault(alloc: Global, error: FieldError, out: &mut Vec<u8>) -> Result<(), CaseEnd> {
    append_error(alloc, &error, out)
}

fn show_u8(alloc: Global, most: u8, bytes: &[u8], out: &mut Vec<u8>) -> Result<(), CaseEnd> {
    match read_u8(bytes, most) {
        Ok((number, place)) => append_u8(alloc, number, place, out),
        Err(error) => append_fault(alloc, error, out),
    }
}

fn show_u32(alloc: Global, most: u32, bytes: &[u8], out: &mut Vec<u8>) -> Result<(), CaseEnd> {
    match read_u32(bytes, most) {
        Ok((number, place)) => append_u32(alloc, number, place, out),
        Err(error) => append_fault(alloc, error, out),
    }
}

fn show_u64(alloc: Global, most: u64, bytes: &[u8], out: &mut Vec<u8>) -> Result<(), CaseEnd> {
    match read_u64(bytes, most) {
        Ok((number, place)) => append_u64(alloc, number, place, out),
        Err(error) => append_fault(alloc, error, out),
    }
}

fn show_i64(alloc: Global, bytes: &[u8], out: &mut Vec<u8>) -> Result<(), CaseEnd> {
    match read_i64(bytes) {
        Ok((number, place)) => append_i64(alloc, number, place, out),
        Err(error) => append_fault(alloc, error, out),
    }
}

fn show_flag(alloc: Global, bytes: &[u8], out: &mut Vec<u8>) -> Result<(), CaseEnd> {
    match read_flag(bytes) {
        Ok((flag, place)) => append_flag(alloc, flag, place, out),
        Err(error) => append_fault(alloc, error, out),
    }
}

fn show_bytes(alloc: Global, most: u32, bytes: &[u8], out: &mut Vec<u8>) -> Result<(), CaseEnd> {
    match read_bytes(bytes, most) {
        Ok((lent, place)) => append_bytes(alloc, lent, place, out),
        Err(error) => append_fault(alloc, error, out),
    }
}

/// Shows a case of these kinds, and tells whether it is one. Numbers and lengths have their bound before the bytes.
pub fn show(alloc: Global, kind: &str, words: &str, out: &mut Vec<u8>) -> Result<bool, CaseEnd> {
    let (most, behind) = split(words);
    match kind {
        "u8" => show_u8(alloc, byte_of(most)?, &bytes_of(alloc, behind)?, out)?,
        "u32" => show_u32(alloc, short_of(most)?, &bytes_of(alloc, behind)?, out)?,
        "u64" => show_u64(alloc, number_of(most)?, &bytes_of(alloc, behind)?, out)?,
        "i64" => show_i64(alloc, &bytes_of(alloc, words)?, out)?,
        "flag" => show_flag(alloc, &bytes_of(alloc, words)?, out)?,
        "bytes" => show_bytes(alloc, short_of(most)?, &bytes_of(alloc, behind)?, out)?,
        _ => return Ok(false),
    }
    Ok(true)
}
