//! Calls of the table of latches.
use crate::operations::latch_op;
use crate::outcomes::show_latch_outcome;
use cp_case_lines::{End, Words, show, show_number};
use cp_latch::Latches;

fn apply(latches: &mut Latches, words: &mut Words, out: &mut Vec<u8>) -> Result<(), End> {
    let word = words.word()?;
    let call = words.call()?;
    let op = latch_op(words)?;
    let name = words.name_of(word)?;
    let outcome = latches.apply(&name, &call, &op)?;
    show_latch_outcome(&outcome, out)
}

fn count_of(latches: &Latches, words: &mut Words, out: &mut Vec<u8>) -> Result<(), End> {
    let name = words.name()?;
    show_number(u64::from(latches.count(&name)), out)
}

fn round_of(latches: &Latches, words: &mut Words, out: &mut Vec<u8>) -> Result<(), End> {
    let name = words.name()?;
    show_number(latches.round(&name), out)
}

fn destroy(latches: &mut Latches, words: &mut Words, out: &mut Vec<u8>) -> Result<(), End> {
    let name = words.name()?;
    latches.destroy(&name);
    show(b"ok", out)
}

/// Makes the call that words spell, and shows its answer.
pub fn answer(latches: &mut Latches, words: &mut Words, out: &mut Vec<u8>) -> Result<(), End> {
    match words.word()? {
        "apply" => apply(latches, words, out),
        "count-of" => count_of(latches, words, out),
        "round-of" => round_of(latches, words, out),
        "destroy" => destroy(latches, words, out),
        "count" => show_number(latches.rows().len() as u64, out),
        _ => Err(End::BadLine),
    }
}
