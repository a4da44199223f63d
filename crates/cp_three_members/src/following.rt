//! What one follower answers to what a leader hands it.

use crate::group::Group;
use crate::lines::Lines;
use crate::running::deliver;
use cp_base::limits::MOST_CHUNK;
use cp_base::{GroupId, Items};
use cp_message::{Append, Body, Chunk, LogEntry, Message};
use std::alloc::Global;

/// The head of a snapshot of term 1 with the first configuration, whose members are 1 to 3.
const HEAD: [u8; 31] = [
    0, 0, 0, 0, 0, 0, 0, 1, 0, 0, 0, 0, 0, 0, 0, 0, 0, 0, 0, 0, 0, 0, 0, 0, 0, 0, 0, 3, 1, 2, 3,
];

/// What the leader of term 1 says to member 2.
fn said(body: Body) -> Message {
    Message {
        from: 1,
        to: 2,
        body,
    }
}

/// Asks for these entries behind an index.
fn append(previous_index: u64, previous_term: u64, commit: u64, entries: Vec<LogEntry>) -> Message {
    said(Body::Append(Append {
        group: GroupId(1),
        term: 1,
        previous_index,
        previous_term,
        commit,
        entries: Items::from_vec(entries),
    }))
}

/// The empty entry of term 1.
fn empty_entry(alloc: Global) -> Option<Vec<LogEntry>> {
    let mut entries = Vec::new(alloc);
    let entry = LogEntry {
        term: 1,
        bytes: Items::new(alloc),
    };
    match entries.push(entry) {
        Ok(()) => Some(entries),
        Err(_) => None,
    }
}

/// A piece of the snapshot of an index.
fn piece(index: u64, offset: u32, last: bool, bytes: Vec<u8>) -> Message {
    said(Body::Snapshot(Chunk {
        group: GroupId(1),
        term: 1,
        index,
        offset,
        last,
        bytes: Items::from_vec(bytes),
    }))
}

/// The first bytes of a snapshot: its head, and zeros.
fn first_bytes(alloc: Global) -> Option<Vec<u8>> {
    let Ok(mut bytes) = Vec::from_slice(alloc, &HEAD) else {
        return None;
    };
    match bytes.resize(MOST_CHUNK as usize, 0) {
        Ok(()) => Some(bytes),
        Err(_) => None,
    }
}

/// The last bytes of a snapshot.
fn last_bytes(alloc: Global) -> Option<Vec<u8>> {
    match Vec::from_slice(alloc, &[7]) {
        Ok(bytes) => Some(bytes),
        Err(_) => None,
    }
}

/// Hands a message to the follower, and tells what it does.
fn hand(alloc: Global, group: &mut Group, message: Message, lines: &mut Lines) -> bool {
    deliver(alloc, group, message, lines) && lines.wrote(2, group.wrote()).is_ok()
}

/// Hands over the empty entry behind an index.
fn hand_entry(
    alloc: Global,
    group: &mut Group,
    previous: (u64, u64),
    commit: u64,
    lines: &mut Lines,
) -> bool {
    match empty_entry(alloc) {
        Some(entries) => hand(
            alloc,
            group,
            append(previous.0, previous.1, commit, entries),
            lines,
        ),
        None => false,
    }
}

/// The empty entry comes once, once more when it is committed, and behind an index that the log lacks. Gives the lines.
pub fn repeat(alloc: Global) -> Option<Vec<u8>> {
    let mut group = Group::start(alloc)?;
    let mut lines = Lines::new(alloc, true);
    let done = hand_entry(alloc, &mut group, (0, 0), 0, &mut lines)
        && hand_entry(alloc, &mut group, (0, 0), 1, &mut lines)
        && hand_entry(alloc, &mut group, (3, 1), 1, &mut lines);
    if done { Some(lines.into_text()) } else { None }
}

/// A snapshot comes in two pieces, with a piece of another between them. Gives the lines.
pub fn install(alloc: Global) -> Option<Vec<u8>> {
    let mut group = Group::start(alloc)?;
    let mut lines = Lines::new(alloc, true);
    let first = piece(5, 0, false, first_bytes(alloc)?);
    let other = piece(9, MOST_CHUNK, true, last_bytes(alloc)?);
    let last = piece(5, MOST_CHUNK, true, last_bytes(alloc)?);
    let beat = append(0, 0, 0, Vec::new(alloc));
    let done = hand(alloc, &mut group, beat, &mut lines)
        && hand(alloc, &mut group, first, &mut lines)
        && hand(alloc, &mut group, other, &mut lines)
        && hand(alloc, &mut group, last, &mut lines);
    if done { Some(lines.into_text()) } else { None }
}
