//! Rows of a text, and what each of them shows. A row is one line; an empty line and one that begins with `#` is none.

use crate::changes::{may_change_row, new_config_row, new_members_row};
use crate::chunks::{
    bytes_row, chunk_row, from_start_row, goes_on_row, piece_row, would_row, writes_own_row,
};
use crate::elections::{quorum_row, standing_row, vote_row};
use crate::following::{install, repeat};
use crate::replies::{appended_row, commit_row, expire_row, propose_row, ready_row, refused_row};
use crate::running::{elect, shrink};
use cp_base::NoMemory;
use cp_io::{Fault, ReadEnd, Sink, Source, read_all, write_all};
use cp_snapshot::Assembler;
use std::alloc::{AllocError, AllocFailed, Global};

/// Why rows were not shown to their end.
#[derive(Clone, Copy, Debug, PartialEq, Eq)]
pub enum RowsEnd {
    /// A line is no row, or the input is too long or cannot be read.
    BadInput,
    /// The output cannot be written.
    WriteFault,
    NoMemory,
}

impl From<NoMemory> for RowsEnd {
    fn from(_: NoMemory) -> RowsEnd {
        RowsEnd::NoMemory
    }
}

impl From<AllocError> for RowsEnd {
    fn from(_: AllocError) -> RowsEnd {
        RowsEnd::NoMemory
    }
}

impl<T: Drop> From<AllocFailed<T>> for RowsEnd {
    fn from(_: AllocFailed<T>) -> RowsEnd {
        RowsEnd::NoMemory
    }
}

impl From<ReadEnd> for RowsEnd {
    fn from(end: ReadEnd) -> RowsEnd {
        match end {
            ReadEnd::Failed | ReadEnd::TooLong => RowsEnd::BadInput,
            ReadEnd::NoMemory => RowsEnd::NoMemory,
        }
    }
}

impl From<Fault> for RowsEnd {
    fn from(fault: Fault) -> RowsEnd {
        match fault {
            Fault::Failed => RowsEnd::WriteFault,
            Fault::NoMemory => RowsEnd::NoMemory,
        }
    }
}

/// Appends what a run of a group told.
fn show_run(lines: Option<Vec<u8>>, out: &mut Vec<u8>) -> Result<(), RowsEnd> {
    match lines {
        Some(lines) => Ok(out.extend_from_slice(&lines)?),
        None => Err(RowsEnd::BadInput),
    }
}

/// Appends what a group told whose run has this name.
fn run_row(alloc: Global, words: &[&str], out: &mut Vec<u8>) -> Result<(), RowsEnd> {
    let [name] = words else {
        return Err(RowsEnd::BadInput);
    };
    if *name == "elect" {
        show_run(elect(alloc), out)
    } else if *name == "remove" {
        show_run(shrink(alloc), out)
    } else if *name == "repeat" {
        show_run(repeat(alloc), out)
    } else if *name == "install" {
        show_run(install(alloc), out)
    } else {
        Err(RowsEnd::BadInput)
    }
}

/// Appends what is decided of a vote, of members, or of entries.
fn decide(alloc: Global, name: &str, words: &[&str], out: &mut Vec<u8>) -> Result<(), RowsEnd> {
    if name == "standing" {
        standing_row(alloc, words, out)
    } else if name == "vote" {
        vote_row(words, out)
    } else if name == "quorum" {
        quorum_row(alloc, words, out)
    } else if name == "appended" {
        appended_row(alloc, words, out)
    } else if name == "propose" {
        propose_row(words, out)
    } else if name == "expire" {
        expire_row(words, out)
    } else if name == "commit" {
        commit_row(words, out)
    } else if name == "refused" {
        refused_row(words, out)
    } else if name == "ready" {
        ready_row(alloc, words, out)
    } else if name == "may-change" {
        may_change_row(alloc, words, out)
    } else if name == "new-members" {
        new_members_row(alloc, words, out)
    } else if name == "new-config" {
        new_config_row(alloc, words, out)
    } else if name == "goes-on" {
        goes_on_row(words, out)
    } else if name == "piece" {
        piece_row(alloc, words, out)
    } else if name == "from-start" {
        from_start_row(words, out)
    } else if name == "writes-own" {
        writes_own_row(words, out)
    } else {
        Err(RowsEnd::BadInput)
    }
}

/// Appends what the row of a name shows. Pieces of snapshots are joined to those of the rows before.
fn answer(
    alloc: Global,
    joined: &mut Assembler,
    name: &str,
    words: &[&str],
    out: &mut Vec<u8>,
) -> Result<(), RowsEnd> {
    if name == "chunk" {
        chunk_row(alloc, joined, words, out)
    } else if name == "would" {
        would_row(alloc, joined, words, out)
    } else if name == "bytes" {
        bytes_row(joined, words, out)
    } else {
        decide(alloc, name, words, out)
    }
}

/// Appends a row and behind it what it shows: the lines of a run, or one more word or some.
fn show_row(
    alloc: Global,
    joined: &mut Assembler,
    line: &str,
    out: &mut Vec<u8>,
) -> Result<(), RowsEnd> {
    let words: Vec<&str> = line.split(' ').collect(alloc)?;
    let [name, rest @ ..] = words.as_slice() else {
        return Err(RowsEnd::BadInput);
    };
    out.extend_from_slice(line.as_bytes())?;
    if *name == "run" {
        out.push(b'\n')?;
        return run_row(alloc, rest, out);
    }
    out.extend_from_slice(b":")?;
    answer(alloc, joined, name, rest, out)?;
    Ok(out.push(b'\n')?)
}

/// What the rows of a text show.
fn shown(alloc: Global, text: &str) -> Result<Vec<u8>, RowsEnd> {
    let mut joined = Assembler::new(alloc);
    let mut out = Vec::new(alloc);
    for line in text.lines() {
        if line == "new" {
            joined = Assembler::new(alloc);
        } else if line == "clear" {
            joined.clear();
        } else if !line.is_empty() && !line.starts_with('#') {
            show_row(alloc, &mut joined, line, &mut out)?;
        }
    }
    Ok(out)
}

/// Writes to a sink what the rows that a source gives show.
pub fn show_rows<S: Source, K: Sink>(
    alloc: Global,
    source: &mut S,
    sink: &mut K,
) -> Result<(), RowsEnd> {
    let bytes = read_all(alloc, source)?;
    let Ok(text) = str::from_utf8(&bytes) else {
        return Err(RowsEnd::BadInput);
    };
    let out = shown(alloc, text)?;
    write_all(sink, &out)?;
    Ok(())
}
