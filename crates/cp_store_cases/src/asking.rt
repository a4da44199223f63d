//! Steps that ask a store.
use crate::end::CaseEnd;
use crate::verb::Verb;
use crate::words::{number_at, tell, tell_bytes, tell_number, tell_numbers, tell_whether};
use cp_base::{GroupId, NoMemory};
use cp_disk::Disk;
use cp_log::Store;
use cp_parts::Config;

/// Tells term, vote, base and last of a group, or that it does not stand.
fn tell_group<D: Disk>(
    store: &Store<D>,
    group: GroupId,
    out: &mut Vec<u8>,
) -> Result<(), NoMemory> {
    if !store.has(group) {
        return tell(b"none", out);
    }
    let numbers = [
        store.term(group),
        u64::from(store.vote(group)),
        store.base(group),
        store.last(group),
    ];
    tell_numbers(&numbers, out)
}

/// Tells the term at an index.
fn tell_term<D: Disk>(
    store: &Store<D>,
    group: GroupId,
    index: u64,
    out: &mut Vec<u8>,
) -> Result<(), NoMemory> {
    if !store.has(group) {
        return tell(b"none", out);
    }
    match store.term_at(group, index) {
        Some(term) => tell_number(term, out),
        None => tell(b"none", out),
    }
}

fn tell_found(found: Option<&[u8]>, out: &mut Vec<u8>) -> Result<(), NoMemory> {
    match found {
        Some(bytes) => tell_bytes(bytes, out),
        None => tell(b"none", out),
    }
}

/// Tells the bytes of the entry at an index.
fn tell_entry<D: Disk>(
    store: &Store<D>,
    group: GroupId,
    index: u64,
    out: &mut Vec<u8>,
) -> Result<(), NoMemory> {
    if !store.has(group) {
        return tell(b"none", out);
    }
    tell_found(store.entry(group, index), out)
}

/// Tells the bytes of the snapshot.
fn tell_snapshot<D: Disk>(
    store: &Store<D>,
    group: GroupId,
    out: &mut Vec<u8>,
) -> Result<(), NoMemory> {
    if !store.has(group) {
        return tell(b"none", out);
    }
    tell_found(store.snapshot(group), out)
}

fn tell_members(config: &Config, out: &mut Vec<u8>) -> Result<(), NoMemory> {
    tell_number(config.index, out)?;
    for member in config.members.as_slice() {
        tell(b" ", out)?;
        tell_number(u64::from(*member), out)?;
    }
    Ok(())
}

/// Tells the index and the members of the configuration in force at an index.
fn tell_config<D: Disk>(
    store: &Store<D>,
    group: GroupId,
    index: u64,
    out: &mut Vec<u8>,
) -> Result<(), NoMemory> {
    if store.has(group) && store.base(group) <= index && index <= store.last(group) {
        return tell_members(store.config_at(group, index), out);
    }
    tell(b"none", out)
}

/// Tells the groups that stand.
pub fn tell_groups<D: Disk>(store: &Store<D>, out: &mut Vec<u8>) -> Result<(), NoMemory> {
    let mut is_first = true;
    for group in store.groups() {
        if !is_first {
            tell(b" ", out)?;
        }
        tell_number(group.0, out)?;
        is_first = false;
    }
    Ok(())
}

/// Tells whether a group has ended.
fn tell_ended<D: Disk>(
    store: &Store<D>,
    group: GroupId,
    out: &mut Vec<u8>,
) -> Result<(), NoMemory> {
    tell_whether(store.ended(group), out)
}

/// Asks for a group of a store, and tells the answer.
pub fn ask_group<D: Disk>(
    store: &Store<D>,
    group: GroupId,
    verb: Verb,
    words: &[String],
    out: &mut Vec<u8>,
) -> Result<(), CaseEnd> {
    match verb {
        Verb::Group => Ok(tell_group(store, group, out)?),
        Verb::Term => Ok(tell_term(store, group, number_at(words, 3)?, out)?),
        Verb::Entry => Ok(tell_entry(store, group, number_at(words, 3)?, out)?),
        Verb::Config => Ok(tell_config(store, group, number_at(words, 3)?, out)?),
        Verb::Snapshot => Ok(tell_snapshot(store, group, out)?),
        Verb::Ended => Ok(tell_ended(store, group, out)?),
        _ => Err(CaseEnd::BadInput),
    }
}
