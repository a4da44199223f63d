//! Cases, and what is told of them.
use crate::asking::{ask_group, tell_groups};
use crate::disk::{CaseDisk, new_disk};
use crate::end::CaseEnd;
use crate::journal::{self, CaseJournal};
use crate::store::{self, CaseStore};
use crate::streams::{Streams, read_drip, read_reader, write_writer};
use crate::verb::{Subject, Verb, subject_of, verb_of};
use crate::words::{bytes_from, number_at, tell, tell_number, word_at, words_of};
use cp_base::GroupId;
use cp_disk::MemoryDisk;
use cp_io::{Sink, Source, read_all, write_all};
use cp_log::Store;
use std::alloc::Global;

/// What stands over the bytes of a case's disk.
#[derive(Drop)]
enum Held {
    Nothing,
    Disk(CaseDisk),
    Journal(CaseJournal),
    Store(CaseStore),
}

fn of_journal(place: journal::Place) -> Held {
    match place {
        journal::Place::Open(journal) => Held::Journal(journal),
        journal::Place::Closed(disk) => Held::Disk(disk),
    }
}

fn of_store(place: store::Place) -> Held {
    match place {
        store::Place::Open(store) => Held::Store(store),
        store::Place::Closed(disk) => Held::Disk(disk),
    }
}

/// A step with the disk, which stands alone.
fn on_disk(
    alloc: Global,
    held: Held,
    verb: Verb,
    words: &[String],
    out: &mut Vec<u8>,
) -> Result<Held, CaseEnd> {
    match held {
        Held::Nothing => {
            let disk = new_disk(alloc, words)?;
            tell(b"ok", out)?;
            Ok(Held::Disk(disk))
        }
        Held::Disk(disk) => {
            let mut disk = disk;
            disk.step(alloc, verb, words, out)?;
            Ok(Held::Disk(disk))
        }
        _ => Err(CaseEnd::BadInput),
    }
}

fn on_open_journal(
    alloc: Global,
    journal: CaseJournal,
    verb: Verb,
    words: &[String],
    out: &mut Vec<u8>,
) -> Result<Held, CaseEnd> {
    let mut journal = journal;
    match verb {
        Verb::Append => {
            let body = bytes_from(alloc, words, 2)?;
            Ok(of_journal(journal.append(alloc, &body, out)?))
        }
        Verb::Bytes => {
            tell_number(journal.bytes(), out)?;
            Ok(Held::Journal(journal))
        }
        Verb::Stop => {
            journal.stop_after(number_at(words, 2)?);
            tell(b"ok", out)?;
            Ok(Held::Journal(journal))
        }
        Verb::Close => {
            tell(b"ok", out)?;
            Ok(Held::Disk(journal.close()))
        }
        _ => Err(CaseEnd::BadInput),
    }
}

/// A step with a journal over the disk.
fn on_journal(
    alloc: Global,
    held: Held,
    verb: Verb,
    words: &[String],
    out: &mut Vec<u8>,
) -> Result<Held, CaseEnd> {
    match held {
        Held::Disk(disk) => {
            if let Verb::Open = verb {
                return Ok(of_journal(journal::open(alloc, disk, out)?));
            }
            tell(b"no journal", out)?;
            Ok(Held::Disk(disk))
        }
        Held::Journal(journal) => on_open_journal(alloc, journal, verb, words, out),
        _ => Err(CaseEnd::BadInput),
    }
}

/// Asks a store, and tells the answer.
fn ask(
    store: &Store<MemoryDisk>,
    verb: Verb,
    words: &[String],
    out: &mut Vec<u8>,
) -> Result<(), CaseEnd> {
    match verb {
        Verb::Restart => Ok(tell_number(store.restart(), out)?),
        Verb::Groups => Ok(tell_groups(store, out)?),
        Verb::Bytes => Ok(tell_number(store.journal_bytes(), out)?),
        _ => ask_group(store, GroupId(number_at(words, 2)?), verb, words, out),
    }
}

fn on_open_store(
    alloc: Global,
    store: CaseStore,
    verb: Verb,
    words: &[String],
    out: &mut Vec<u8>,
) -> Result<Held, CaseEnd> {
    let mut store = store;
    match verb {
        Verb::Write => {
            let body = bytes_from(alloc, words, 2)?;
            Ok(of_store(store.write(alloc, &body, out)?))
        }
        Verb::Stop => {
            store.stop_after(number_at(words, 2)?);
            tell(b"ok", out)?;
            Ok(Held::Store(store))
        }
        Verb::Close => {
            tell(b"ok", out)?;
            Ok(Held::Disk(store.close()))
        }
        other => {
            ask(&store.store, other, words, out)?;
            Ok(Held::Store(store))
        }
    }
}

/// A step with a store over the disk.
fn on_store(
    alloc: Global,
    held: Held,
    verb: Verb,
    words: &[String],
    out: &mut Vec<u8>,
) -> Result<Held, CaseEnd> {
    match held {
        Held::Disk(disk) => {
            if let Verb::Open = verb {
                let size = number_at(words, 2)?;
                let place = store::open(alloc, disk, words.len() > 3, size, out)?;
                return Ok(of_store(place));
            }
            tell(b"no store", out)?;
            Ok(Held::Disk(disk))
        }
        Held::Store(store) => on_open_store(alloc, store, verb, words, out),
        _ => Err(CaseEnd::BadInput),
    }
}

/// A step with a disk, or with what stands over it.
fn on_held(
    alloc: Global,
    held: Held,
    subject: Subject,
    verb: Verb,
    words: &[String],
    out: &mut Vec<u8>,
) -> Result<Held, CaseEnd> {
    match subject {
        Subject::Disk => on_disk(alloc, held, verb, words, out),
        Subject::Journal => on_journal(alloc, held, verb, words, out),
        Subject::Store => on_store(alloc, held, verb, words, out),
        _ => Err(CaseEnd::BadInput),
    }
}

/// Does a step of a case, and tells what came out.
fn go(
    alloc: Global,
    streams: &mut Streams,
    held: Held,
    words: &[String],
    out: &mut Vec<u8>,
) -> Result<Held, CaseEnd> {
    let Some(subject) = subject_of(word_at(words, 0)?) else {
        return Err(CaseEnd::BadInput);
    };
    let Some(verb) = verb_of(word_at(words, 1)?) else {
        return Err(CaseEnd::BadInput);
    };
    match subject {
        Subject::Source => streams.source_step(alloc, verb, words, out)?,
        Subject::Sink => streams.sink_step(alloc, verb, words, out)?,
        Subject::Drip => read_drip(alloc, words, out)?,
        Subject::Reader => read_reader(alloc, words, out)?,
        Subject::Writer => write_writer(alloc, words, out)?,
        subject => return on_held(alloc, held, subject, verb, words, out),
    }
    Ok(held)
}

/// Does the steps of a case, one after another, and tells on one line what came out of each.
fn tell_case(alloc: Global, case: &str, out: &mut Vec<u8>) -> Result<(), CaseEnd> {
    let mut streams = Streams::new();
    let mut held = Held::Nothing;
    let mut is_first = true;
    for step in case.split(';') {
        if !is_first {
            tell(b"; ", out)?;
        }
        let words = words_of(alloc, step)?;
        held = go(alloc, &mut streams, held, &words, out)?;
        is_first = false;
    }
    tell(b"\n", out)?;
    Ok(())
}

/// What the cases of a text tell, one on each line. A line that is empty or begins with `#` is told as it stands.
fn told(alloc: Global, text: &str) -> Result<Vec<u8>, CaseEnd> {
    let mut out = Vec::new(alloc);
    for line in text.lines() {
        if line.is_empty() || line.starts_with('#') {
            tell(line.as_bytes(), &mut out)?;
            tell(b"\n", &mut out)?;
        } else {
            tell_case(alloc, line, &mut out)?;
        }
    }
    Ok(out)
}

/// Reads cases from a source, and writes to a sink what they tell.
pub fn tell_cases<S: Source, K: Sink>(
    alloc: Global,
    source: &mut S,
    sink: &mut K,
) -> Result<(), CaseEnd> {
    let bytes = read_all(alloc, source)?;
    let Ok(text) = str::from_utf8(&bytes) else {
        return Err(CaseEnd::BadInput);
    };
    let out = told(alloc, text)?;
    write_all(sink, &out)?;
    Ok(())
}
