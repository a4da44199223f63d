//! Rows on snapshots and their pieces.

use crate::rows::RowsEnd;
use crate::words::{
    bytes, flag, index, peer, short_number, show_bytes, show_flag, show_number, show_peer,
    show_word,
};
use cp_base::{GroupId, NoMemory};
use cp_message::Chunk;
use cp_snapshot::{Assembler, Progress, chunk, from_start, goes_on, writes_own};
use std::alloc::Global;

/// Appends how far a piece brought its snapshot; of a whole one its bytes.
fn show_progress(
    progress: Progress,
    joined: &Assembler,
    out: &mut Vec<u8>,
) -> Result<(), NoMemory> {
    match progress {
        Progress::More(received) => {
            show_word("more", out)?;
            show_number(u64::from(received), out)
        }
        Progress::Whole => {
            show_word("whole", out)?;
            show_bytes(joined.bytes(), out)
        }
        Progress::TooLong => show_word("too-long", out),
    }
}

/// A piece of the snapshot of an index, from the leader of term 1.
fn piece_of(alloc: Global, words: &[&str]) -> Result<Chunk, RowsEnd> {
    let [at, offset, last, piece] = words else {
        return Err(RowsEnd::BadInput);
    };
    let index = index(at)?;
    let offset = short_number(offset)?;
    let last = flag(last)?;
    let bytes = bytes(alloc, piece)?;
    Ok(Chunk {
        group: GroupId(1),
        term: 1,
        index,
        offset,
        last,
        bytes,
    })
}

/// `chunk INDEX OFFSET LAST BYTES`: how far a piece from the leader of term 1 brings the snapshot of an index.
pub fn chunk_row(
    alloc: Global,
    joined: &mut Assembler,
    words: &[&str],
    out: &mut Vec<u8>,
) -> Result<(), RowsEnd> {
    let piece = piece_of(alloc, words)?;
    let progress = joined.take(&piece)?;
    Ok(show_progress(progress, joined, out)?)
}

/// `would INDEX OFFSET LAST BYTES`: the whole bytes of the snapshot that such a piece would make whole, or `none`.
pub fn would_row(
    alloc: Global,
    joined: &Assembler,
    words: &[&str],
    out: &mut Vec<u8>,
) -> Result<(), RowsEnd> {
    let piece = piece_of(alloc, words)?;
    match joined.whole_with(alloc, &piece)? {
        Some(whole) => show_bytes(&whole, out)?,
        None => show_word("none", out)?,
    }
    Ok(())
}

/// `piece BYTES OFFSET`: what a leader sends of its snapshot from an offset on, and whether it is the last piece.
pub fn piece_row(alloc: Global, words: &[&str], out: &mut Vec<u8>) -> Result<(), RowsEnd> {
    let [snapshot, offset] = words else {
        return Err(RowsEnd::BadInput);
    };
    let snapshot = bytes(alloc, snapshot)?;
    let offset = short_number(offset)?;
    if offset as usize > snapshot.len() {
        return Err(RowsEnd::BadInput);
    }
    let (piece, last) = chunk(snapshot.as_slice(), offset);
    show_bytes(piece, out)?;
    Ok(show_flag(last, out)?)
}

/// `from-start PEER`: what a leader keeps of a member where it has a new snapshot.
pub fn from_start_row(words: &[&str], out: &mut Vec<u8>) -> Result<(), RowsEnd> {
    let [known] = words else {
        return Err(RowsEnd::BadInput);
    };
    Ok(show_peer(from_start(peer(known)?), out)?)
}

/// `bytes`: what is received so far.
pub fn bytes_row(joined: &Assembler, words: &[&str], out: &mut Vec<u8>) -> Result<(), RowsEnd> {
    if !words.is_empty() {
        return Err(RowsEnd::BadInput);
    }
    Ok(show_bytes(joined.bytes(), out)?)
}

/// `goes-on PEER BASE LENGTH INDEX RECEIVED`: what a leader keeps of a member that has received so much; or `none`.
pub fn goes_on_row(words: &[&str], out: &mut Vec<u8>) -> Result<(), RowsEnd> {
    let [known, base, length, at, received] = words else {
        return Err(RowsEnd::BadInput);
    };
    let known = peer(known)?;
    let length = short_number(length)? as usize;
    match goes_on(
        known,
        index(base)?,
        length,
        index(at)?,
        short_number(received)?,
    ) {
        Some(peer) => show_peer(peer, out)?,
        None => show_word("none", out)?,
    }
    Ok(())
}

/// `writes-own MAY-WRITE WROTE LENGTH`: whether a member writes a snapshot of its own of so many bytes.
pub fn writes_own_row(words: &[&str], out: &mut Vec<u8>) -> Result<(), RowsEnd> {
    let [may_write, wrote, length] = words else {
        return Err(RowsEnd::BadInput);
    };
    let length = short_number(length)? as usize;
    Ok(show_flag(writes_own(flag(may_write)?, flag(wrote)?, length), out)?)
}
