//! Calls that all tables share, on rows of small numbers.
ghost use Rattle.std.specs.Prelude.{◌≡◌, is_some};
ghost use Rattle.std.specs.Ordering.{nat_cmp};
ghost use Rattle.cp_group_state.specs.Rows.{find};

use crate::outcomes::show_pushed;
use cp_base::Items;
use cp_case_lines::{End, Words, show, show_number};
use cp_rows::{push_row, put_row, rising_rows, write_row};
use std::collections::BTreeMap;

/// Rows under numbers.
pub type Rows = BTreeMap<u64, u8>;

/// The row that the next words spell, by its key.
fn pair(words: &mut Words) -> Result<(u64, u8), End> {
    let key = words.number()?;
    let row = words.byte()?;
    Ok((key, row))
}

/// The rows that all words spell.
fn pairs(words: &mut Words) -> Result<Items<(u64, u8)>, End> {
    let mut pairs = Items::new(words.alloc());
    for _ in 0..words.rest().len() {
        if words.is_done() {
            break;
        }
        pairs.push(pair(words)?)?;
    }
    Ok(pairs)
}

fn rising(rows: &mut Rows, words: &mut Words, out: &mut Vec<u8>) -> Result<(), End> {
    let pairs = pairs(words)?;
    match rising_rows(words.alloc(), pairs)? {
        Some(made) => {
            *rows = made;
            show(b"ok", out)
        }
        None => show(b"none", out),
    }
}

fn put(rows: &mut Rows, words: &mut Words, out: &mut Vec<u8>) -> Result<(), End> {
    let (key, row) = pair(words)?;
    put_row(rows, key, row)?;
    show(b"ok", out)
}

fn push(rows: &mut Rows, words: &mut Words, out: &mut Vec<u8>) -> Result<(), End> {
    let (key, row) = pair(words)?;
    show_pushed(push_row(rows, key, row), out)
}

fn has(rows: &BTreeMap<u64, u8>, key: u64) -> bool
    ensures { result ≡ is_some (find nat_cmp rows.now.entries key) }
{
    rows.contains_key(&key)
}

fn write(rows: &mut Rows, words: &mut Words, out: &mut Vec<u8>) -> Result<(), End> {
    let (key, row) = pair(words)?;
    if !has(rows, key) {
        return show(b"none", out);
    }
    write_row(rows, &key, row);
    show(b"ok", out)
}

fn get(rows: &Rows, words: &mut Words, out: &mut Vec<u8>) -> Result<(), End> {
    let key = words.number()?;
    match rows.get(&key) {
        Some(row) => show_number(u64::from(*row), out),
        None => show(b"none", out),
    }
}

/// Makes the call that words spell, and shows its answer.
pub fn answer(rows: &mut Rows, words: &mut Words, out: &mut Vec<u8>) -> Result<(), End> {
    match words.word()? {
        "rising" => rising(rows, words, out),
        "put" => put(rows, words, out),
        "push" => push(rows, words, out),
        "write" => write(rows, words, out),
        "get" => get(rows, words, out),
        "count" => show_number(rows.len() as u64, out),
        _ => Err(End::BadLine),
    }
}
