//! Calls of the list of destroyed objects.
use cp_case_lines::{End, Words, show_flag, show_number};
use cp_remembered::Gone;

fn is_gone(gone: &Gone, words: &mut Words, out: &mut Vec<u8>) -> Result<(), End> {
    let kind = words.kind()?;
    let name = words.name()?;
    show_flag(gone.is_gone(kind, &name)?, out)
}

fn add(gone: &mut Gone, words: &mut Words, out: &mut Vec<u8>) -> Result<(), End> {
    let kind = words.kind()?;
    let name = words.name()?;
    show_flag(gone.add(kind, &name)?, out)
}

/// Makes the call that words spell, and shows its answer.
pub fn answer(gone: &mut Gone, words: &mut Words, out: &mut Vec<u8>) -> Result<(), End> {
    match words.word()? {
        "is-gone" => is_gone(gone, words, out),
        "add" => add(gone, words, out),
        "count" => show_number(gone.rows().len() as u64, out),
        _ => Err(End::BadLine),
    }
}
