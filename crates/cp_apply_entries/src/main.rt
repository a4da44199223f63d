//! Applies as many times 100,000 entries of all kinds, over 10,000 rows, as it is given words. Where the first word is `check`, 10,000
//! sessions ask for one lock instead: one owns it, 9,999 calls wait and one more of another thread, the next is turned away, and the
//! owner's session is closed. The status is 0 where all are answered as they must be. Then the rows of the standard input are applied
//! to one new machine, and what they are answered is printed. Each row is one line: the index of an entry and the entry's bytes, as
//! hexadecimal digits that spaces may part; `look` and the bytes of a read that needs no entry; `restore` and the bytes of a state,
//! with which the machine goes on where they spell one; `snapshot`, which shows the bytes of the machine's state; `new` for a new
//! machine. Lines that begin with `#` are comments. A line that is no row gives status 1, and then nothing is printed.
#![tactic(auto)]

ghost use Rattle.std.specs.Prelude.{◌≤◌, ◌^◌};

mod rows;

use cp_answers::Answer;
use cp_base::{Invocation, Items, NoMemory};
use cp_io::{Reading, Writing};
use cp_resource::GroupMachine;
use rows::{RowsEnd, show_rows};
use std::alloc::{AllocError, Global};
use std::env;
use std::process::ExitCode;
use std::rt::Env;

/// The bytes of a call of a client's thread.
fn call(
    alloc: Global,
    client: u64,
    thread: u8,
    number: u64,
    op: &[u8],
) -> Result<Vec<u8>, AllocError> {
    let mut bytes = Vec::from_slice(alloc, &[1])?;
    bytes.extend_from_slice(&u128::from(client).to_be_bytes())?;
    bytes.push(thread)?;
    bytes.extend_from_slice(&number.to_be_bytes())?;
    bytes.extend_from_slice(op)?;
    Ok(bytes)
}

/// The operation of a kind on the object that has a row's number for its name.
fn on_row(alloc: Global, kind: u8, row: u64, rest: &[u8]) -> Result<Vec<u8>, AllocError> {
    let name = row.to_string(alloc)?;
    let name = name.as_bytes();
    let mut bytes = Vec::from_slice(alloc, &[kind, 0, 0, 0])?;
    bytes.push(name.len() as u8)?;
    bytes.extend_from_slice(name)?;
    bytes.extend_from_slice(rest)?;
    Ok(bytes)
}

/// The same where the row's session is named behind the operation's part.
fn in_session(
    alloc: Global,
    kind: u8,
    row: u64,
    part: u8,
    rest: &[u8],
) -> Result<Vec<u8>, AllocError> {
    let mut bytes = Vec::from_slice(alloc, &[part])?;
    bytes.extend_from_slice(&row.to_be_bytes())?;
    bytes.extend_from_slice(rest)?;
    on_row(alloc, kind, row, &bytes)
}

/// The row of an entry.
fn row_of(number: u64) -> u64 {
    if number <= 10000 {
        number
    } else {
        (number / 9 % 10000) * 7919 % 10000 + 1
    }
}

/// The operation of an entry: at first each client opens a session, then all kinds follow on one row after another.
fn operation(alloc: Global, number: u64, row: u64) -> Result<Vec<u8>, AllocError> {
    if number <= 10000 {
        return Vec::from_slice(alloc, &[7, 0]);
    }
    match number % 9 {
        0 => on_row(alloc, 1, row, &[3, 0, 0, 0, 0, 0, 0, 0, 1]),
        1 => on_row(alloc, 2, row, &[1, 1, 0, 0, 0, 4, 1, 2, 3, 4]),
        2 => in_session(alloc, 3, row, 1, &[0, 0, 0, 0, 0]),
        3 => in_session(alloc, 3, row, 2, &[]),
        4 => on_row(alloc, 4, row, &[1, 0, 0, 0, 100]),
        5 => in_session(alloc, 4, row, 2, &[0, 0, 0, 1, 0]),
        6 => on_row(alloc, 6, row, &[2, 0, 0, 0, 3]),
        7 => on_row(alloc, 6, row, &[3, 0, 0, 0, 0, 0, 0, 0, 1]),
        _ => on_row(alloc, 12, row, &[2, 0, 0, 0, 1, 7, 0, 0, 0, 2, 8, 9]),
    }
}

/// Applies the entry of an index, and gives its answers.
fn answers(
    alloc: Global,
    machine: &mut GroupMachine,
    index: u64,
    entry: &[u8],
) -> Result<Items<(Invocation, Answer)>, NoMemory>
    requires { index ≤ 2 ^ 62 }
{
    let mut out = Items::new(alloc);
    machine.apply_bytes(index, entry, &mut out)?;
    Ok(out)
}

/// Applies so many entries.
fn apply_all(alloc: Global, machine: &mut GroupMachine, count: u64) -> Result<(), NoMemory>
    requires { count ≤ 2 ^ 40 }
{
    for number in 1..count + 1 {
        let row = row_of(number);
        let op = operation(alloc, number, row)?;
        let entry = call(alloc, row, 1, number, &op)?;
        answers(alloc, machine, number, &entry)?;
    }
    Ok(())
}

/// 10,000 clients open sessions.
fn open_all(alloc: Global, machine: &mut GroupMachine) -> Result<(), NoMemory> {
    for client in 1..10001u64 {
        let entry = call(alloc, client, 1, 1, &[7, 0])?;
        answers(alloc, machine, client, &entry)?;
    }
    Ok(())
}

/// Each client asks for one lock.
fn acquire_all(alloc: Global, machine: &mut GroupMachine) -> Result<(), NoMemory> {
    for client in 1..10001u64 {
        let mut op = Vec::from_slice(alloc, &[3, 0, 0, 0, 1, b'k', 1])?;
        op.extend_from_slice(&client.to_be_bytes())?;
        op.extend_from_slice(&[0, 0, 0, 0, 0])?;
        let entry = call(alloc, client, 1, 2, &op)?;
        answers(alloc, machine, client + 10000, &entry)?;
    }
    Ok(())
}

/// The answers to an acquire of the lock by a client's second thread.
fn acquire_once_more(
    alloc: Global,
    machine: &mut GroupMachine,
    index: u64,
    client: u64,
) -> Result<Items<(Invocation, Answer)>, NoMemory>
    requires { index ≤ 2 ^ 62 }
{
    let mut op = Vec::from_slice(alloc, &[3, 0, 0, 0, 1, b'k', 1])?;
    op.extend_from_slice(&client.to_be_bytes())?;
    op.extend_from_slice(&[0, 0, 0, 0, 0])?;
    let entry = call(alloc, client, 2, 1, &op)?;
    answers(alloc, machine, index, &entry)
}

/// Whether the answer at this place is this one.
fn is_told(told: &Items<(Invocation, Answer)>, place: usize, answer: &Answer) -> bool {
    match told.get(place) {
        Some(told) => told.1 == *answer,
        None => false,
    }
}

/// Whether one more call waits, which makes 10,000, and the next is told that the table is full.
fn is_full_then(alloc: Global, machine: &mut GroupMachine) -> Result<bool, NoMemory> {
    let waits = acquire_once_more(alloc, machine, 20001, 1)?;
    let turned_away = acquire_once_more(alloc, machine, 20002, 2)?;
    Ok(waits.is_empty() && is_told(&turned_away, 0, &Answer::TableFull(10000)))
}

/// Whether the close of the owner's session ends that client's other wait, and hands the lock to the first that waits.
fn is_handed_over(alloc: Global, machine: &mut GroupMachine) -> Result<bool, NoMemory> {
    let close = call(alloc, 1, 1, 3, &[7, 2, 0, 0, 0, 0, 0, 0, 0, 1])?;
    let told = answers(alloc, machine, 20003, &close)?;
    Ok(
        told.len() == 3
            && is_told(&told, 0, &Answer::Ok)
            && is_told(&told, 1, &Answer::SessionExpired(1))
            && is_told(&told, 2, &Answer::Fence(20003)),
    )
}

/// Whether 10,000 sessions that ask for one lock are answered as they must be.
fn waits_as_it_must(alloc: Global, machine: &mut GroupMachine) -> Result<bool, NoMemory> {
    open_all(alloc, machine)?;
    acquire_all(alloc, machine)?;
    Ok(is_full_then(alloc, machine)? && is_handed_over(alloc, machine)?)
}

/// Whether a new machine answers as it must.
fn answers_as_it_must(alloc: Global) -> Result<bool, NoMemory> {
    let mut machine = GroupMachine::begin(alloc)?;
    waits_as_it_must(alloc, &mut machine)
}

/// Whether the first word is `check`.
fn is_check(words: &[String]) -> bool {
    match words {
        [word, ..] => word.as_str() == "check",
        [] => false,
    }
}

/// The words behind the program's name.
fn words_of(rt: &(impl Env + AllocGlobal)) -> Option<Vec<String>> {
    let mut words = Vec::new(rt.alloc());
    let Ok(all) = env::args(rt) else {
        return None;
    };
    for word in all.skip(1).take(100) {
        if words.push(word).is_err() {
            return None;
        }
    }
    Some(words)
}

/// The status of rows that were shown, or not to their end.
fn status_of(shown: Result<(), RowsEnd>) -> u8 {
    match shown {
        Ok(()) => 0,
        Err(RowsEnd::BadInput) => 1,
        Err(RowsEnd::NoMemory) => 4,
        Err(RowsEnd::WriteFault) => 5,
    }
}

fn main(rt: HostRuntime) -> ExitCode {
    let alloc = rt.alloc();
    let Some(words) = words_of(&rt) else {
        return ExitCode::from(1);
    };
    if is_check(&words) {
        let Ok(true) = answers_as_it_must(alloc) else {
            return ExitCode::from(3);
        };
        let mut source = Reading::new(rt.stdin());
        let mut sink = Writing::new(rt.stdout());
        return ExitCode::from(status_of(show_rows(alloc, &mut source, &mut sink)));
    }
    let Ok(mut machine) = GroupMachine::begin(alloc) else {
        return ExitCode::from(2);
    };
    let count = 100000 * words.len().min(100) as u64;
    match apply_all(alloc, &mut machine, count) {
        Ok(()) => ExitCode::from(0),
        Err(NoMemory) => ExitCode::from(4),
    }
}
