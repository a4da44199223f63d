//! The words that say what a step of a case does.
//!
//! With `BYTES` for hexadecimal digits, or `-` for no byte, and numbers otherwise:
//! - `source new BYTES FAILS..`, a source over these bytes, whose calls with these numbers fail; `source read N`, one read into a buffer
//!   of so many bytes; `source all`, a read to the end; `drip all BYTES`, the same of a source that gives one byte at a time; `reader all
//!   BYTES`, of std's reader
//! - `sink new MOST FAILS..`, a sink that takes at most so many bytes at a time; `sink write BYTES`, one write; `sink all BYTES`; `sink
//!   bytes`, what it took; `writer all BYTES BYTES`, to std's writer the first bytes whole, and the others by one write
//! - `disk new BYTES FAILS..`, `disk len`, `disk bytes`, `disk write AT BYTES`, `disk cut N`, `disk sync`, `disk crash CHOICE`, `disk stop
//!   CALLS`, `disk struck`; those that read, write or cut ask for the length first
//! - `journal open`, `journal append BYTES..`, `journal bytes`, `journal stop CALLS`, `journal close`
//! - `store open SIZE`, or with `managed` behind it, `store write BYTES..`, a part, where it is legal; `store restart`, `store group GROUP`
//!   (term, vote, base and last), `store term GROUP INDEX`, `store entry GROUP INDEX`, `store config GROUP INDEX`, `store snapshot GROUP`,
//!   `store groups`, `store ended GROUP`, `store bytes`, `store stop CALLS`, `store close`
//!
//! A journal or a store that a disk fault has spent is closed: the disk stands alone again.

/// What a step is about.
#[derive(Clone, Copy)]
pub enum Subject {
    Source,
    Drip,
    Reader,
    Sink,
    Writer,
    Disk,
    Journal,
    Store,
}

/// What a step does.
#[derive(Clone, Copy)]
pub enum Verb {
    New,
    All,
    Bytes,
    Read,
    Write,
    Open,
    Append,
    Close,
    Stop,
    Len,
    Cut,
    Sync,
    Crash,
    Struck,
    Restart,
    Group,
    Term,
    Entry,
    Config,
    Snapshot,
    Groups,
    Ended,
}

fn stream_of(word: &str) -> Option<Subject> {
    if word == "source" {
        Some(Subject::Source)
    } else if word == "drip" {
        Some(Subject::Drip)
    } else if word == "reader" {
        Some(Subject::Reader)
    } else if word == "sink" {
        Some(Subject::Sink)
    } else if word == "writer" {
        Some(Subject::Writer)
    } else {
        None
    }
}

/// What a word says that a step is about.
pub fn subject_of(word: &str) -> Option<Subject> {
    if word == "disk" {
        Some(Subject::Disk)
    } else if word == "journal" {
        Some(Subject::Journal)
    } else if word == "store" {
        Some(Subject::Store)
    } else {
        stream_of(word)
    }
}

fn disk_verb(word: &str) -> Option<Verb> {
    if word == "len" {
        Some(Verb::Len)
    } else if word == "cut" {
        Some(Verb::Cut)
    } else if word == "sync" {
        Some(Verb::Sync)
    } else if word == "crash" {
        Some(Verb::Crash)
    } else if word == "struck" {
        Some(Verb::Struck)
    } else {
        None
    }
}

fn group_verb(word: &str) -> Option<Verb> {
    if word == "group" {
        Some(Verb::Group)
    } else if word == "term" {
        Some(Verb::Term)
    } else if word == "entry" {
        Some(Verb::Entry)
    } else if word == "config" {
        Some(Verb::Config)
    } else if word == "snapshot" {
        Some(Verb::Snapshot)
    } else {
        disk_verb(word)
    }
}

fn file_verb(word: &str) -> Option<Verb> {
    if word == "open" {
        Some(Verb::Open)
    } else if word == "append" {
        Some(Verb::Append)
    } else if word == "close" {
        Some(Verb::Close)
    } else if word == "restart" {
        Some(Verb::Restart)
    } else if word == "groups" {
        Some(Verb::Groups)
    } else if word == "ended" {
        Some(Verb::Ended)
    } else {
        group_verb(word)
    }
}

/// What a word says that a step does.
pub fn verb_of(word: &str) -> Option<Verb> {
    if word == "new" {
        Some(Verb::New)
    } else if word == "all" {
        Some(Verb::All)
    } else if word == "bytes" {
        Some(Verb::Bytes)
    } else if word == "read" {
        Some(Verb::Read)
    } else if word == "write" {
        Some(Verb::Write)
    } else if word == "stop" {
        Some(Verb::Stop)
    } else {
        file_verb(word)
    }
}
