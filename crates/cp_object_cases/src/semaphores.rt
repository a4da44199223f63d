//! Calls of the table of semaphores.
use crate::operations::sem_op;
use crate::outcomes::show_sem_outcome;
use cp_base::{Items, Name, NoMemory};
use cp_case_lines::{
    End, Words, show, show_number, show_numbered, show_objects, show_value, show_waiters,
};
use cp_group_state::Waiter;
use cp_ops::Kind;
use cp_semaphore::{Semaphores, concerned, left_by};
use cp_wait::Waits;
use std::collections::BTreeMap;

fn apply(semaphores: &mut Semaphores, words: &mut Words, out: &mut Vec<u8>) -> Result<(), End> {
    let kind = words.kind()?;
    let word = words.word()?;
    let op = sem_op(words)?;
    let name = words.name_of(word)?;
    let outcome = semaphores.apply(kind, &name, &op)?;
    show_sem_outcome(&outcome, out)
}

fn available(semaphores: &Semaphores, words: &mut Words, out: &mut Vec<u8>) -> Result<(), End> {
    let kind = words.kind()?;
    let name = words.name()?;
    match semaphores.available(kind, &name)? {
        Some(available) => show_value(available, out),
        None => show(b"none", out),
    }
}

/// The waiters that what stands available serves take their permits. None where there is no such semaphore.
fn take_each(
    semaphores: &mut Semaphores,
    waits: &Waits,
    kind: Kind,
    name: &Name,
) -> Result<Option<Items<Waiter>>, NoMemory> {
    let Some(available) = semaphores.available(kind, name)? else {
        return Ok(None);
    };
    let served = waits.served(kind, name, available)?;
    semaphores.take_each(kind, name, served.as_slice())?;
    Ok(Some(served))
}

/// Waiters that were served wait no more.
fn show_served(
    waits: &mut Waits,
    served: Option<&Items<Waiter>>,
    out: &mut Vec<u8>,
) -> Result<(), End> {
    let Some(served) = served else {
        return show(b"none", out);
    };
    waits.end(served.as_slice());
    show_waiters(served.as_slice(), out)
}

/// Who waits for a semaphore is served.
fn serve(
    semaphores: &mut Semaphores,
    waits: &mut Waits,
    words: &mut Words,
    out: &mut Vec<u8>,
) -> Result<(), End> {
    let kind = words.kind()?;
    let name = words.name()?;
    let served = take_each(semaphores, waits, kind, &name)?;
    show_served(waits, served.as_ref(), out)
}

fn destroy(semaphores: &mut Semaphores, words: &mut Words, out: &mut Vec<u8>) -> Result<(), End> {
    let kind = words.kind()?;
    let name = words.name()?;
    semaphores.destroy(kind, &name)?;
    show(b"ok", out)
}

/// Shows what a session holds.
fn show_held(session: u64, held: &BTreeMap<Name, u64>, out: &mut Vec<u8>) -> Result<(), End> {
    for (name, permits) in held {
        show_number(session, out)?;
        show_numbered(name.as_bytes(), *permits, out)?;
    }
    Ok(())
}

/// Shows what sessions hold.
fn show_holdings(semaphores: &Semaphores, out: &mut Vec<u8>) -> Result<(), End> {
    show(b"held", out)?;
    for (session, held) in semaphores.holdings() {
        show_held(*session, held, out)?;
    }
    Ok(())
}

/// The semaphores of which these sessions hold permits, or on which they wait.
fn show_concerned(
    semaphores: &Semaphores,
    waits: &Waits,
    words: &mut Words,
    out: &mut Vec<u8>,
) -> Result<(), End> {
    let sessions = words.numbers()?;
    let ended = waits.of_sessions(&sessions)?;
    let found = concerned(words.alloc(), semaphores, &sessions, ended.as_slice())?;
    show_objects(found.as_slice(), out)
}

/// The semaphores on which these sessions wait.
fn show_left(
    semaphores: &Semaphores,
    waits: &Waits,
    words: &mut Words,
    out: &mut Vec<u8>,
) -> Result<(), End> {
    let sessions = words.numbers()?;
    let ended = waits.of_sessions(&sessions)?;
    let found = left_by(words.alloc(), semaphores, ended.as_slice())?;
    show_objects(found.as_slice(), out)
}

fn close_sessions(
    semaphores: &mut Semaphores,
    words: &mut Words,
    out: &mut Vec<u8>,
) -> Result<(), End> {
    let sessions = words.numbers()?;
    semaphores.close_sessions(&sessions);
    show(b"ok", out)
}

/// Makes the call that words spell, and shows its answer.
pub fn answer(
    semaphores: &mut Semaphores,
    waits: &mut Waits,
    words: &mut Words,
    out: &mut Vec<u8>,
) -> Result<(), End> {
    match words.word()? {
        "apply" => apply(semaphores, words, out),
        "available" => available(semaphores, words, out),
        "serve" => serve(semaphores, waits, words, out),
        "close-sessions" => close_sessions(semaphores, words, out),
        "destroy" => destroy(semaphores, words, out),
        "concerned" => show_concerned(semaphores, waits, words, out),
        "left-by" => show_left(semaphores, waits, words, out),
        "holdings" => show_holdings(semaphores, out),
        "count" => show_number(semaphores.rows().len() as u64, out),
        _ => Err(End::BadLine),
    }
}
