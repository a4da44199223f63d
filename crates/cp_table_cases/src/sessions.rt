//! Calls of the table of sessions.
use crate::outcomes::show_created;
use cp_base::Items;
use cp_case_lines::{End, Words, show, show_flag, show_found, show_number, show_numbers};
use cp_group_state::SessionRow;
use cp_session::Sessions;

/// The row that the next words spell: session, client, version.
fn next_row(words: &mut Words) -> Result<(u64, SessionRow), End> {
    let session = words.number()?;
    let client = words.client()?;
    let version = words.number()?;
    Ok((session, SessionRow { client, version }))
}

/// The rows that all words spell.
fn rows(words: &mut Words) -> Result<Items<(u64, SessionRow)>, End> {
    let mut rows = Items::new(words.alloc());
    for _ in 0..words.rest().len() {
        if words.is_done() {
            break;
        }
        rows.push(next_row(words)?)?;
    }
    Ok(rows)
}

fn from_rows(sessions: &mut Sessions, words: &mut Words, out: &mut Vec<u8>) -> Result<(), End> {
    let rows = rows(words)?;
    match Sessions::from_rows(words.alloc(), rows)? {
        Some(made) => {
            *sessions = made;
            show(b"ok", out)
        }
        None => show(b"none", out),
    }
}

fn create(sessions: &mut Sessions, words: &mut Words, out: &mut Vec<u8>) -> Result<(), End> {
    let index = words.number()?;
    let client = words.client()?;
    show_created(sessions.create(index, &client), out)
}

/// The pair that the next words spell: session and version.
fn pair(words: &mut Words) -> Result<(u64, u64), End> {
    let session = words.number()?;
    let version = words.number()?;
    Ok((session, version))
}

/// The pairs that all words spell.
fn pairs(words: &mut Words) -> Result<Vec<(u64, u64)>, End> {
    let mut pairs = Vec::new(words.alloc());
    for _ in 0..words.rest().len() {
        if words.is_done() {
            break;
        }
        pairs.push(pair(words)?)?;
    }
    Ok(pairs)
}

fn is_open(sessions: &Sessions, words: &mut Words, out: &mut Vec<u8>) -> Result<(), End> {
    let session = words.number()?;
    let client = words.client()?;
    show_flag(sessions.is_open(session, &client), out)
}

fn close_all(sessions: &mut Sessions, words: &mut Words, out: &mut Vec<u8>) -> Result<(), End> {
    let closed = words.numbers()?;
    sessions.close_all(&closed);
    show(b"ok", out)
}

fn expire(sessions: &mut Sessions, words: &mut Words, out: &mut Vec<u8>) -> Result<(), End> {
    let seen = pairs(words)?;
    let expired = sessions.expire(&seen)?;
    show_numbers(&expired, out)
}

/// Makes the call that words spell, and shows its answer.
pub fn answer(sessions: &mut Sessions, words: &mut Words, out: &mut Vec<u8>) -> Result<(), End> {
    match words.word()? {
        "from-rows" => from_rows(sessions, words, out),
        "create" => create(sessions, words, out),
        "heartbeat" => show_found(sessions.heartbeat(words.number()?), out),
        "close" => show_flag(sessions.close(words.number()?), out),
        "close-all" => close_all(sessions, words, out),
        "expire" => expire(sessions, words, out),
        "is-open" => is_open(sessions, words, out),
        "version" => show_found(sessions.version(words.number()?), out),
        "count" => show_number(sessions.rows().len() as u64, out),
        _ => Err(End::BadLine),
    }
}
