//! Calls of the table of calls that wait.
use crate::outcomes::{show_bad_rows, show_joined};
use cp_base::Items;
use cp_case_lines::{End, Words, show, show_flag, show_number, show_waiter, show_waiters};
use cp_group_state::Waiter;
use cp_wait::Waits;

/// The waiters that all words spell.
fn rows(words: &mut Words) -> Result<Items<Waiter>, End> {
    let mut rows = Items::new(words.alloc());
    for _ in 0..words.rest().len() {
        if words.is_done() {
            break;
        }
        rows.push(words.waiter()?)?;
    }
    Ok(rows)
}

fn from_rows(waits: &mut Waits, words: &mut Words, out: &mut Vec<u8>) -> Result<(), End> {
    let rows = rows(words)?;
    match Waits::from_rows(words.alloc(), rows) {
        Ok(made) => {
            *waits = made;
            show(b"ok", out)
        }
        Err(error) => show_bad_rows(error, out),
    }
}

/// Has a call wait that does not wait yet.
fn join_waiter(waits: &mut Waits, waiter: Waiter, out: &mut Vec<u8>) -> Result<(), End> {
    if waits.stands(&waiter.call) {
        return show(b"stands", out);
    }
    show_joined(waits.join(waiter), out)
}

fn join(waits: &mut Waits, words: &mut Words, out: &mut Vec<u8>) -> Result<(), End> {
    let waiter = words.waiter()?;
    join_waiter(waits, waiter, out)
}

fn first(waits: &Waits, words: &mut Words, out: &mut Vec<u8>) -> Result<(), End> {
    let kind = words.kind()?;
    let name = words.name()?;
    show_waiter(waits.first(kind, &name), out)
}

fn on_object(waits: &Waits, words: &mut Words, out: &mut Vec<u8>) -> Result<(), End> {
    let kind = words.kind()?;
    let name = words.name()?;
    let waiters = waits.on_object(kind, &name)?;
    show_waiters(waiters.as_slice(), out)
}

fn served(waits: &Waits, words: &mut Words, out: &mut Vec<u8>) -> Result<(), End> {
    let kind = words.kind()?;
    let word = words.word()?;
    let available = words.value()?;
    let name = words.name_of(word)?;
    let waiters = waits.served(kind, &name, available)?;
    show_waiters(waiters.as_slice(), out)
}

fn leave(waits: &mut Waits, words: &mut Words, out: &mut Vec<u8>) -> Result<(), End> {
    let call = words.call()?;
    let waiter = waits.leave(&call);
    show_waiter(waiter.as_ref(), out)
}

/// The waiters of these sessions end.
fn end_sessions(waits: &mut Waits, words: &mut Words, out: &mut Vec<u8>) -> Result<(), End> {
    let sessions = words.numbers()?;
    let ended = waits.of_sessions(&sessions)?;
    waits.end(ended.as_slice());
    show_waiters(ended.as_slice(), out)
}

fn limited(waits: &Waits, words: &mut Words, out: &mut Vec<u8>) -> Result<(), End> {
    let place = words.byte()?;
    show_waiter(waits.limited(usize::from(place)), out)
}

fn waiter(waits: &Waits, words: &mut Words, out: &mut Vec<u8>) -> Result<(), End> {
    let call = words.call()?;
    show_waiter(waits.waiter(&call), out)
}

fn of_call(waits: &Waits, words: &mut Words, out: &mut Vec<u8>) -> Result<(), End> {
    let call = words.call()?;
    let waiters = waits.of_call(&call)?;
    show_waiters(waiters.as_slice(), out)
}

fn older(waits: &Waits, words: &mut Words, out: &mut Vec<u8>) -> Result<(), End> {
    let call = words.call()?;
    let waiters = waits.older(&call)?;
    show_waiters(waiters.as_slice(), out)
}

fn of_sessions(waits: &Waits, words: &mut Words, out: &mut Vec<u8>) -> Result<(), End> {
    let sessions = words.numbers()?;
    let waiters = waits.of_sessions(&sessions)?;
    show_waiters(waiters.as_slice(), out)
}

fn all(waits: &Waits, out: &mut Vec<u8>) -> Result<(), End> {
    let waiters = waits.all()?;
    show_waiters(waiters.as_slice(), out)
}

/// Makes the call that words spell and that changes nothing, and shows its answer.
fn answer_read(waits: &Waits, call: &str, words: &mut Words, out: &mut Vec<u8>) -> Result<(), End> {
    match call {
        "len" => show_number(waits.len() as u64, out),
        "count" => show_number(waits.rows().len() as u64, out),
        "stands" => show_flag(waits.stands(&words.call()?), out),
        "waiter" => waiter(waits, words, out),
        "first" => first(waits, words, out),
        "served" => served(waits, words, out),
        "on-object" => on_object(waits, words, out),
        "of-call" => of_call(waits, words, out),
        "older" => older(waits, words, out),
        "of-sessions" => of_sessions(waits, words, out),
        "all" => all(waits, out),
        "limited-len" => show_number(waits.limited_len() as u64, out),
        "limited" => limited(waits, words, out),
        _ => Err(End::BadLine),
    }
}

/// Makes the call that words spell, and shows its answer.
pub fn answer(waits: &mut Waits, words: &mut Words, out: &mut Vec<u8>) -> Result<(), End> {
    match words.word()? {
        "from-rows" => from_rows(waits, words, out),
        "join" => join(waits, words, out),
        "leave" => leave(waits, words, out),
        "end-sessions" => end_sessions(waits, words, out),
        call => answer_read(waits, call, words, out),
    }
}
