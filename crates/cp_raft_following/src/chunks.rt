//! Chunks of snapshots.
ghost use Rattle.std.specs.Prelude.{◌≡◌, is_none, IfOk};
ghost use Rattle.std.specs.Option.{option_map};
ghost use Rattle.cp_parts.specs.Heads.{head_of};
ghost use Rattle.cp_snapshot.specs.Decisions.{progress_at};
ghost use Rattle.cp_rules.specs.Snapshots as snapshots;
ghost use Rattle.cp_raft_state.specs.Doing.{Does};
ghost use Rattle.cp_raft_following.specs.Heading.{headed};

use cp_base::{Items, NoMemory};
use cp_election::adopted;
use cp_message::{Chunk, Message};
use cp_parts::{Part, head_of_snapshot};
use cp_raft_state::{
    Did, Group, Joined, Seat, Volatile, ballot_of, ballot_part, done, post, snapshot_reply,
};
use std::alloc::Global;

/// Whether bytes begin with no head of a snapshot.
fn lacks_head(alloc: Global, bytes: &[u8]) -> Result<bool, NoMemory>
    ensures { IfOk result (λ lacks. lacks ≡ is_none (head_of bytes.now)) }
{
    Ok(head_of_snapshot(alloc, bytes)?.is_none())
}

/// Answers how far the snapshot of a chunk is, in the ballot of the chunk's term.
fn answers<G: Group>(
    stored: &G,
    seat: Seat,
    from: u8,
    chunk: &Chunk,
    done_with: bool,
    received: u32,
    state: &Volatile,
    out: &mut Vec<Message>,
) -> Result<Did, NoMemory>
    ensures { IfOk result (λ did. Does seat
        (snapshots.answers (G.stored stored.now) state.now from chunk.now.term chunk.now.index done_with received)
        did state.now out.old.items out.new.items) }
{
    let body = snapshot_reply(seat.group, chunk.term, chunk.index, done_with, received);
    post(seat, from, body, out)?;
    let now = adopted(chunk.term, ballot_of(stored));
    Ok(done(ballot_part(stored, seat.group, now)))
}

/// A whole snapshot is installed.
fn installs<G: Group>(
    stored: &G,
    seat: Seat,
    from: u8,
    chunk: &Chunk,
    bytes: Items<u8>,
    state: &mut Volatile,
    out: &mut Vec<Message>,
) -> Result<Did, NoMemory>
    ensures { IfOk result (λ did. Does seat
        (snapshots.installs (G.stored stored.now) state.old from chunk.now.term chunk.now.index bytes)
        did state.new out.old.items out.new.items) }
{
    state.follow(from);
    state.set_commit(chunk.index);
    state.forget_chunks();
    let body = snapshot_reply(seat.group, chunk.term, chunk.index, true, 0);
    post(seat, from, body, out)?;
    let now = adopted(chunk.term, ballot_of(stored));
    let part = Part::Snapshot(seat.group, now.term, now.vote, chunk.index, bytes);
    Ok(done(Some(part)))
}

/// All bytes of a snapshot are there; they begin with its head, or change nothing.
fn takes_whole<G: Group>(
    alloc: Global,
    stored: &G,
    seat: Seat,
    from: u8,
    chunk: &Chunk,
    bytes: Items<u8>,
    state: &mut Volatile,
    out: &mut Vec<Message>,
) -> Result<Did, NoMemory>
    ensures { IfOk result (λ did. Does seat
        (snapshots.takes_chunk (G.stored stored.now) state.old from chunk.now.term chunk.now.index (snapshots.Whole bytes))
        did state.new out.old.items out.new.items) }
{
    if lacks_head(alloc, bytes.as_slice())? {
        Ok(done(None))
    } else {
        installs(stored, seat, from, chunk, bytes, state, out)
    }
}

/// A chunk of a snapshot that is not committed here.
fn takes_chunk<G: Group>(
    alloc: Global,
    stored: &G,
    seat: Seat,
    from: u8,
    chunk: &Chunk,
    state: &mut Volatile,
    out: &mut Vec<Message>,
) -> Result<Did, NoMemory>
    ensures { IfOk result (λ did. Does seat
        (snapshots.takes_chunk (G.stored stored.now) state.old from chunk.now.term chunk.now.index
        (progress_at chunk.now state.old.received))
        did state.new out.old.items out.new.items) }
{
    match state.take_chunk(alloc, chunk)? {
        Joined::TooLong => Ok(done(None)),
        Joined::More(received) => {
            state.follow(from);
            answers(stored, seat, from, chunk, false, received, state, out)
        }
        Joined::Whole(bytes) => takes_whole(alloc, stored, seat, from, chunk, bytes, state, out),
    }
}

/// A chunk of a snapshot comes from a leader.
pub fn on_snapshot<G: Group>(
    alloc: Global,
    stored: &G,
    seat: Seat,
    from: u8,
    chunk: &Chunk,
    state: &mut Volatile,
    out: &mut Vec<Message>,
) -> Result<Did, NoMemory>
    ensures { IfOk result (λ did. Does seat
        (snapshots.on_snapshot (G.stored stored.now) state.old from chunk.now.term chunk.now.index
        chunk.now.offset chunk.now.last chunk.now.bytes)
        did state.new out.old.items out.new.items) }
{
    let own = stored.term();
    if chunk.term < own {
        let body = snapshot_reply(seat.group, own, chunk.index, false, 0);
        post(seat, from, body, out)?;
        return Ok(done(None));
    }
    if chunk.index <= state.commit() {
        state.follow(from);
        return answers(stored, seat, from, chunk, true, 0, state, out);
    }
    takes_chunk(alloc, stored, seat, from, chunk, state, out)
}

/// The whole bytes, where they begin with the head of a snapshot.
fn with_head(alloc: Global, whole: Option<Vec<u8>>) -> Result<Option<Vec<u8>>, NoMemory>
    ensures { IfOk result (λ found. option_map (λ bytes. bytes.items) found ≡ headed (option_map (λ bytes. bytes.items) whole)) }
{
    match whole {
        Some(bytes) => {
            if lacks_head(alloc, bytes.as_slice())? {
                Ok(None)
            } else {
                Ok(Some(bytes))
            }
        }
        None => Ok(None),
    }
}

/// The whole bytes of the snapshot that a chunk would install, if it would.
pub fn completes<G: Group>(
    alloc: Global,
    stored: &G,
    chunk: &Chunk,
    state: &Volatile,
) -> Result<Option<Vec<u8>>, NoMemory>
    ensures { IfOk result (λ whole. option_map (λ bytes. bytes.items) whole
        ≡ snapshots.completes (G.stored stored.now) state.now chunk.now.term chunk.now.index chunk.now.offset
        chunk.now.last chunk.now.bytes) }
{
    if chunk.term < stored.term() {
        return Ok(None);
    }
    if chunk.index <= state.commit() {
        return Ok(None);
    }
    with_head(alloc, state.whole_with(alloc, chunk)?)
}
