//! Calls of the tables of longs, references and maps.
use crate::operations::{long_op, map_op, ref_op};
use cp_atomic::{Longs, Refs};
use cp_base::{Items, Name};
use cp_case_lines::{End, Words, show, show_answer, show_number, show_value};
use cp_map::Maps;
use cp_ops::{Answer, MapOp, RefOp};

fn apply_long(longs: &mut Longs, words: &mut Words, out: &mut Vec<u8>) -> Result<(), End> {
    let word = words.word()?;
    let op = long_op(words)?;
    let name = words.name_of(word)?;
    let answer = longs.apply(&name, &op)?;
    show_answer(&answer, out)
}

fn value_of_long(longs: &Longs, words: &mut Words, out: &mut Vec<u8>) -> Result<(), End> {
    let name = words.name()?;
    show_value(longs.value(&name), out)
}

fn destroy_long(longs: &mut Longs, words: &mut Words, out: &mut Vec<u8>) -> Result<(), End> {
    let name = words.name()?;
    longs.destroy(&name);
    show(b"ok", out)
}

/// Makes the call on longs that words spell, and shows its answer.
pub fn answer_long(longs: &mut Longs, words: &mut Words, out: &mut Vec<u8>) -> Result<(), End> {
    match words.word()? {
        "apply" => apply_long(longs, words, out),
        "value" => value_of_long(longs, words, out),
        "destroy" => destroy_long(longs, words, out),
        "count" => show_number(longs.rows().len() as u64, out),
        _ => Err(End::BadLine),
    }
}

/// Applies an operation, and shows its answer.
fn apply_ref_op(refs: &mut Refs, name: &Name, op: &RefOp, out: &mut Vec<u8>) -> Result<(), End> {
    let answer = refs.apply(name, op)?;
    show_answer(&answer, out)
}

fn apply_ref(refs: &mut Refs, words: &mut Words, out: &mut Vec<u8>) -> Result<(), End> {
    let name = words.name()?;
    let op = ref_op(words)?;
    apply_ref_op(refs, &name, &op, out)
}

fn destroy_ref(refs: &mut Refs, words: &mut Words, out: &mut Vec<u8>) -> Result<(), End> {
    let name = words.name()?;
    refs.destroy(&name);
    show(b"ok", out)
}

/// Shows bytes, or `null`.
fn show_bytes(bytes: Option<&Items<u8>>, out: &mut Vec<u8>) -> Result<(), End> {
    match bytes {
        Some(bytes) => show_answer(&Answer::Ref(Some(bytes.clone()?)), out),
        None => show_answer(&Answer::Ref(None), out),
    }
}

fn value_of_ref(refs: &Refs, words: &mut Words, out: &mut Vec<u8>) -> Result<(), End> {
    let name = words.name()?;
    show_bytes(refs.value(&name), out)
}

/// Makes the call on references that words spell, and shows its answer.
pub fn answer_ref(refs: &mut Refs, words: &mut Words, out: &mut Vec<u8>) -> Result<(), End> {
    match words.word()? {
        "apply" => apply_ref(refs, words, out),
        "value" => value_of_ref(refs, words, out),
        "destroy" => destroy_ref(refs, words, out),
        "count" => show_number(refs.rows().len() as u64, out),
        _ => Err(End::BadLine),
    }
}

/// Applies an operation, and shows its answer.
fn apply_map_op(maps: &mut Maps, name: &Name, op: &MapOp, out: &mut Vec<u8>) -> Result<(), End> {
    let answer = maps.apply(name, op)?;
    show_answer(&answer, out)
}

fn apply_map(maps: &mut Maps, words: &mut Words, out: &mut Vec<u8>) -> Result<(), End> {
    let name = words.name()?;
    let op = map_op(words)?;
    apply_map_op(maps, &name, &op, out)
}

fn destroy_map(maps: &mut Maps, words: &mut Words, out: &mut Vec<u8>) -> Result<(), End> {
    let name = words.name()?;
    maps.destroy(&name);
    show(b"ok", out)
}

fn value_in_map(maps: &Maps, words: &mut Words, out: &mut Vec<u8>) -> Result<(), End> {
    let name = words.name()?;
    let key = words.bytes()?;
    show_bytes(maps.value(&name, &key)?, out)
}

/// Makes the call on maps that words spell, and shows its answer.
pub fn answer_map(maps: &mut Maps, words: &mut Words, out: &mut Vec<u8>) -> Result<(), End> {
    match words.word()? {
        "apply" => apply_map(maps, words, out),
        "value" => value_in_map(maps, words, out),
        "destroy" => destroy_map(maps, words, out),
        "count" => show_number(maps.rows().len() as u64, out),
        _ => Err(End::BadLine),
    }
}
