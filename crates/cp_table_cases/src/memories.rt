//! Calls of the table of what is remembered of threads.
use cp_base::Items;
use cp_case_lines::{End, Words, show, show_answer, show_number};
use cp_group_state::{MemoryRow, Waiter};
use cp_ops::Answer;
use cp_remembered::Memory;

/// What the next words say of a call: `waits`, or its answer.
fn state(words: &mut Words) -> Result<Option<Answer>, End> {
    let word = words.word()?;
    if word == "waits" {
        return Ok(None);
    }
    Ok(Some(words.answer_from(word)?))
}

/// The row that the next words spell: session, thread, number, and `waits` or the answer.
fn next_row(words: &mut Words) -> Result<((u64, u8), MemoryRow), End> {
    let session = words.number()?;
    let thread = words.byte()?;
    let number = words.number()?;
    let answer = state(words)?;
    Ok(((session, thread), MemoryRow { number, answer }))
}

/// The rows that all words spell.
fn rows(words: &mut Words) -> Result<Items<((u64, u8), MemoryRow)>, End> {
    let mut rows = Items::new(words.alloc());
    for _ in 0..words.rest().len() {
        if words.is_done() {
            break;
        }
        rows.push(next_row(words)?)?;
    }
    Ok(rows)
}

fn from_rows(memory: &mut Memory, words: &mut Words, out: &mut Vec<u8>) -> Result<(), End> {
    let rows = rows(words)?;
    match Memory::from_rows(words.alloc(), rows)? {
        Some(made) => {
            *memory = made;
            show(b"ok", out)
        }
        None => show(b"none", out),
    }
}

fn remember(memory: &mut Memory, words: &mut Words, out: &mut Vec<u8>) -> Result<(), End> {
    let who = words.holder()?;
    let number = words.number()?;
    let answer = state(words)?;
    memory.remember(who.session, who.thread, number, answer)?;
    show(b"ok", out)
}

/// Notes the answer that the next words spell, for a waiter.
fn note_answer(
    memory: &mut Memory,
    waiter: &Waiter,
    words: &mut Words,
    out: &mut Vec<u8>,
) -> Result<(), End> {
    let answer = words.answer()?;
    memory.note(waiter, answer);
    show(b"ok", out)
}

fn note(memory: &mut Memory, words: &mut Words, out: &mut Vec<u8>) -> Result<(), End> {
    let waiter = words.waiter()?;
    note_answer(memory, &waiter, words, out)
}

fn show_row(row: &MemoryRow, out: &mut Vec<u8>) -> Result<(), End> {
    show_number(row.number, out)?;
    match &row.answer {
        Some(answer) => show_answer(answer, out),
        None => show(b"waits", out),
    }
}

fn find(memory: &Memory, words: &mut Words, out: &mut Vec<u8>) -> Result<(), End> {
    let who = words.holder()?;
    match memory.find(who.session, who.thread) {
        Some(row) => show_row(row, out),
        None => show(b"none", out),
    }
}

fn forget(memory: &mut Memory, words: &mut Words, out: &mut Vec<u8>) -> Result<(), End> {
    let sessions = words.numbers()?;
    memory.forget(&sessions);
    show(b"ok", out)
}

/// Makes the call that words spell, and shows its answer.
pub fn answer(memory: &mut Memory, words: &mut Words, out: &mut Vec<u8>) -> Result<(), End> {
    match words.word()? {
        "from-rows" => from_rows(memory, words, out),
        "remember" => remember(memory, words, out),
        "note" => note(memory, words, out),
        "find" => find(memory, words, out),
        "forget" => forget(memory, words, out),
        "count" => show_number(memory.rows().len() as u64, out),
        _ => Err(End::BadLine),
    }
}
