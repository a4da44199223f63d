//! What the program does with three members.

use crate::group::Group;
use crate::lines::Lines;
use cp_message::Message;
use std::alloc::Global;

/// So often all messages are handed over at most until none is left.
const MOST_WAVES: u32 = 1000;

/// So many entries are appended before messages are handed over. A leader sends a follower again what it has not acknowledged yet, so a
/// batch costs its square.
const BATCH: u64 = 8;

/// The entry of the first call of thread 1 of client 1: `long a add 1`.
const CALL: [u8; 41] = [
    1, 0, 0, 0, 0, 0, 0, 0x80, 0, 0x80, 0, 0, 0, 0, 0, 0, 1, 1, 0, 0, 0, 0, 0, 0, 0, 1, 1, 0, 0, 0,
    1, b'a', 3, 0, 0, 0, 0, 0, 0, 0, 1,
];

/// The first member is elected.
fn stand(alloc: Global, group: &mut Group, lines: &mut Lines) -> bool {
    group.tick(alloc, 2000)
        && lines.tell(1, 0, 0, group.messages(), 0).is_ok()
        && settle(alloc, group, lines)
}

/// Hands a message over, and tells what comes of it.
pub fn deliver(alloc: Global, group: &mut Group, message: Message, lines: &mut Lines) -> bool {
    let to = message.to;
    let before = group.commit(to);
    let old = group.messages().len();
    group.take(alloc, message)
        && lines
            .tell(to, before, group.commit(to), group.messages(), old)
            .is_ok()
}

/// Hands these messages over.
fn deliver_all(alloc: Global, group: &mut Group, wave: Vec<Message>, lines: &mut Lines) -> bool {
    for message in wave {
        if !deliver(alloc, group, message, lines) {
            return false;
        }
    }
    true
}

/// Hands messages over, in their order, until there are none.
fn settle(alloc: Global, group: &mut Group, lines: &mut Lines) -> bool {
    for _ in 0..MOST_WAVES {
        let wave = group.take_messages(alloc);
        if wave.is_empty() {
            return true;
        }
        if !deliver_all(alloc, group, wave, lines) {
            return false;
        }
    }
    false
}

/// Appends the entry of one call, and tells what is sent.
fn call(alloc: Global, group: &mut Group, lines: &mut Lines) -> bool {
    group.propose(alloc, &CALL)
        && lines
            .tell(1, group.commit(1), group.commit(1), group.messages(), 0)
            .is_ok()
        && settle(alloc, group, lines)
}

/// The first member is elected, and one entry is committed. Gives the lines.
pub fn elect(alloc: Global) -> Option<Vec<u8>> {
    let mut group = Group::start(alloc)?;
    let mut lines = Lines::new(alloc, true);
    if stand(alloc, &mut group, &mut lines) && call(alloc, &mut group, &mut lines) {
        Some(lines.into_text())
    } else {
        None
    }
}

/// The first member is asked to remove the third, and what is sent is told.
fn remove(alloc: Global, group: &mut Group, lines: &mut Lines) -> bool {
    group.remove_third(alloc)
        && lines
            .tell(1, group.commit(1), group.commit(1), group.messages(), 0)
            .is_ok()
        && settle(alloc, group, lines)
}

/// The first member is elected, and the third is removed. Gives the lines.
pub fn shrink(alloc: Global) -> Option<Vec<u8>> {
    let mut group = Group::start(alloc)?;
    let mut lines = Lines::new(alloc, true);
    if stand(alloc, &mut group, &mut lines) && remove(alloc, &mut group, &mut lines) {
        Some(lines.into_text())
    } else {
        None
    }
}

/// Appends so many entries of 100 bytes, and hands messages over until there are none.
fn fill(alloc: Global, group: &mut Group, count: u64, lines: &mut Lines) -> bool {
    let entry = [1; 100];
    for _ in 0..count {
        if !group.propose(alloc, &entry) {
            return false;
        }
    }
    settle(alloc, group, lines)
}

/// Appends so many entries, in batches.
fn fill_all(alloc: Global, group: &mut Group, count: u64, lines: &mut Lines) -> bool {
    for _ in 0..count / BATCH {
        if !fill(alloc, group, BATCH, lines) {
            return false;
        }
    }
    fill(alloc, group, count % BATCH, lines)
}

/// The first member is elected, and so many entries of 100 bytes are committed at all three: whether they are.
pub fn bench(alloc: Global, count: u64) -> bool {
    let Some(mut group) = Group::start(alloc) else {
        return false;
    };
    let mut lines = Lines::new(alloc, false);
    let done = stand(alloc, &mut group, &mut lines)
        && fill_all(alloc, &mut group, count, &mut lines)
        && group.tick(alloc, 3000)
        && settle(alloc, &mut group, &mut lines);
    let most = count.saturating_add(1);
    done && group.commit(1) == most && group.commit(2) == most && group.commit(3) == most
}
