//! Calls of the table of locks.
ghost use Rattle.std.specs.Prelude.{◌≡◌, is_some};
ghost use Rattle.cp_group_state.specs.Rows.{find, name_cmp};

use crate::outcomes::{show_released, show_taken};
use cp_base::{Items, Name};
use cp_case_lines::{End, Words, show, show_found, show_names, show_number, show_numbered};
use cp_group_state::{Holder, LockRow};
use cp_lock::Locks;

/// The row that the next words spell: name, session, thread, fence, holds.
fn next_row(words: &mut Words) -> Result<(Name, LockRow), End> {
    let word = words.word()?;
    let holder = words.holder()?;
    let fence = words.number()?;
    let holds = words.count()?;
    let name = words.name_of(word)?;
    let row = LockRow {
        holder,
        fence,
        holds,
    };
    Ok((name, row))
}

/// The rows that all words spell.
fn rows(words: &mut Words) -> Result<Items<(Name, LockRow)>, End> {
    let mut rows = Items::new(words.alloc());
    for _ in 0..words.rest().len() {
        if words.is_done() {
            break;
        }
        rows.push(next_row(words)?)?;
    }
    Ok(rows)
}

fn from_rows(locks: &mut Locks, words: &mut Words, out: &mut Vec<u8>) -> Result<(), End> {
    let rows = rows(words)?;
    match Locks::from_rows(words.alloc(), rows)? {
        Some(made) => {
            *locks = made;
            show(b"ok", out)
        }
        None => show(b"none", out),
    }
}

fn acquire(locks: &mut Locks, words: &mut Words, out: &mut Vec<u8>) -> Result<(), End> {
    let index = words.number()?;
    let word = words.word()?;
    let who = words.holder()?;
    let most = words.count()?;
    let name = words.name_of(word)?;
    show_taken(locks.acquire(index, &name, &who, most), out)
}

fn release(locks: &mut Locks, words: &mut Words, out: &mut Vec<u8>) -> Result<(), End> {
    let word = words.word()?;
    let who = words.holder()?;
    let name = words.name_of(word)?;
    show_released(locks.release(&name, &who), out)
}

fn has_row(locks: &Locks, name: &Name) -> bool
    ensures { result ≡ is_some (find name_cmp locks.now name.now) }
{
    locks.rows().contains_key(name)
}

fn grant(locks: &mut Locks, words: &mut Words, out: &mut Vec<u8>) -> Result<(), End> {
    let index = words.number()?;
    let word = words.word()?;
    let who = words.holder()?;
    let name = words.name_of(word)?;
    if !has_row(locks, &name) {
        return show(b"no-row", out);
    }
    locks.grant(index, &name, &who);
    show(b"ok", out)
}

fn show_holder(holder: &Holder, out: &mut Vec<u8>) -> Result<(), End> {
    show_number(holder.session, out)?;
    show_number(u64::from(holder.thread.0), out)
}

fn show_row(row: &LockRow, out: &mut Vec<u8>) -> Result<(), End> {
    show_holder(&row.holder, out)?;
    show_numbered(b"fence", row.fence, out)?;
    show_numbered(b"holds", u64::from(row.holds), out)
}

fn show_owner(owner: Option<&Holder>, out: &mut Vec<u8>) -> Result<(), End> {
    match owner {
        Some(holder) => show_holder(holder, out),
        None => show_found(None, out),
    }
}

fn close_session(locks: &mut Locks, words: &mut Words, out: &mut Vec<u8>) -> Result<(), End> {
    let session = words.number()?;
    let freed = locks.close_session(session)?;
    show_names(&freed, out)
}

fn close_sessions(locks: &mut Locks, words: &mut Words, out: &mut Vec<u8>) -> Result<(), End> {
    let sessions = words.numbers()?;
    let freed = locks.close_sessions(&sessions)?;
    show_names(&freed, out)
}

fn destroy(locks: &mut Locks, words: &mut Words, out: &mut Vec<u8>) -> Result<(), End> {
    let name = words.name()?;
    locks.destroy(&name);
    show(b"ok", out)
}

fn row(locks: &Locks, words: &mut Words, out: &mut Vec<u8>) -> Result<(), End> {
    let name = words.name()?;
    show_row(&locks.row(&name), out)
}

fn owner(locks: &Locks, words: &mut Words, out: &mut Vec<u8>) -> Result<(), End> {
    let name = words.name()?;
    show_owner(locks.owner(&name), out)
}

fn fence(locks: &Locks, words: &mut Words, out: &mut Vec<u8>) -> Result<(), End> {
    let name = words.name()?;
    show_number(locks.fence(&name), out)
}

/// Makes the call that words spell and that changes nothing, and shows its answer.
fn answer_read(locks: &Locks, call: &str, words: &mut Words, out: &mut Vec<u8>) -> Result<(), End> {
    match call {
        "row" => row(locks, words, out),
        "owner" => owner(locks, words, out),
        "fence" => fence(locks, words, out),
        "count" => show_number(locks.rows().len() as u64, out),
        _ => Err(End::BadLine),
    }
}

/// Makes the call that words spell, and shows its answer.
pub fn answer(locks: &mut Locks, words: &mut Words, out: &mut Vec<u8>) -> Result<(), End> {
    match words.word()? {
        "from-rows" => from_rows(locks, words, out),
        "acquire" => acquire(locks, words, out),
        "release" => release(locks, words, out),
        "grant" => grant(locks, words, out),
        "close-session" => close_session(locks, words, out),
        "close-sessions" => close_sessions(locks, words, out),
        "destroy" => destroy(locks, words, out),
        call => answer_read(locks, call, words, out),
    }
}
