//! Snapshots, which go in chunks, and what the sender is answered.
ghost use Rattle.std.specs.Prelude.{◌≡◌, ◌++◌, OnOk};
ghost use Rattle.cp_base.specs.Text.{Grew};
ghost use Rattle.cp_message.specs.RaftLaws.{chunk_lawful, snapshot_reply_lawful};
ghost use Rattle.cp_message.specs.Snapshots.{chunk_grammar, snapshot_reply, last_text, progress_text};

use crate::entries::take_copy;
use crate::text::append_numbers_text;
use cp_base::limits::MOST_CHUNK;
use cp_base::{GroupId, Items, NoMemory, Text};
use cp_grammar::{
    Spelled, Stop, append_bytes, append_flag, append_index, append_u32, take_flag, take_index,
    take_u32,
};
use std::alloc::Global;

/// Hands a piece of a snapshot to a follower.
#[derive(Clone, Debug, PartialEq, Eq, Drop)]
pub struct Chunk {
    pub group: GroupId,
    pub term: u64,
    /// The index of the snapshot.
    pub index: u64,
    /// How many bytes of the snapshot stand before these.
    pub offset: u32,
    /// Whether these are its last bytes.
    pub last: bool,
    /// At most 32,768 bytes.
    pub bytes: Items<u8>,
}

/// Answers a piece of a snapshot.
#[derive(Clone, Copy, Debug, PartialEq, Eq)]
pub struct SnapshotReply {
    pub group: GroupId,
    pub term: u64,
    /// The index of the snapshot.
    pub index: u64,
    /// Whether the follower has the whole snapshot, or what it covers.
    pub done: bool,
    /// Else how many bytes it has.
    pub received: u32,
}

impl Spelled for Chunk {
    ghost grammar = { chunk_grammar };

    #[tactic(auto, unfolding(crate::specs::Snapshots::chunk_grammar))]
    fn take<'a>(alloc: Global, bytes: &'a [u8]) -> Result<(Chunk, &'a [u8]), Stop> {
        let (group, rest) = GroupId::take(alloc, bytes)?;
        let (term, rest) = take_index(rest)?;
        let (index, rest) = take_index(rest)?;
        let (offset, rest) = take_u32(rest, u32::MAX)?;
        let (last, rest) = take_flag(rest)?;
        let (bytes, rest) = take_copy(alloc, MOST_CHUNK, rest)?;
        let chunk = Chunk {
            group,
            term,
            index,
            offset,
            last,
            bytes,
        };
        Ok((chunk, rest))
    }

    #[tactic(auto, unfolding(crate::specs::Snapshots::chunk_grammar))]
    fn append(&self, out: &mut Vec<u8>) -> Result<(), NoMemory> {
        self.group.append(out)?;
        append_index(self.term, out)?;
        append_index(self.index, out)?;
        append_u32(self.offset, out)?;
        append_flag(self.last, out)?;
        append_bytes(self.bytes.as_slice(), out)?;
        Ok(())
    }

    ghost lawful = { chunk_lawful };
}

impl Spelled for SnapshotReply {
    ghost grammar = { snapshot_reply };

    #[tactic(auto, unfolding(crate::specs::Snapshots::snapshot_reply))]
    fn take<'a>(alloc: Global, bytes: &'a [u8]) -> Result<(SnapshotReply, &'a [u8]), Stop> {
        let (group, rest) = GroupId::take(alloc, bytes)?;
        let (term, rest) = take_index(rest)?;
        let (index, rest) = take_index(rest)?;
        let (done, rest) = take_flag(rest)?;
        let (received, rest) = take_u32(rest, u32::MAX)?;
        let reply = SnapshotReply {
            group,
            term,
            index,
            done,
            received,
        };
        Ok((reply, rest))
    }

    #[tactic(auto, unfolding(crate::specs::Snapshots::snapshot_reply))]
    fn append(&self, out: &mut Vec<u8>) -> Result<(), NoMemory> {
        self.group.append(out)?;
        append_index(self.term, out)?;
        append_index(self.index, out)?;
        append_flag(self.done, out)?;
        append_u32(self.received, out)?;
        Ok(())
    }

    ghost lawful = { snapshot_reply_lawful };
}

fn append_last_text(last: bool, out: &mut Vec<u8>) -> Result<(), NoMemory>
    ensures ok { OnOk result (out.new.items ≡ out.old.items ++ last_text last) }
    ensures grew { Grew out.old.items out.new.items }
{
    if last {
        out.extend_from_slice(b" last")?;
    } else {
        out.extend_from_slice(b" more")?;
    }
    Ok(())
}

fn append_progress_text(done: bool, received: u32, out: &mut Vec<u8>) -> Result<(), NoMemory>
    ensures ok { OnOk result (out.new.items ≡ out.old.items ++ progress_text done received) }
    ensures grew { Grew out.old.items out.new.items }
{
    if done {
        out.extend_from_slice(b" done")?;
    } else {
        out.extend_from_slice(b" more")?;
        append_numbers_text(&[u64::from(received)], out)?;
    }
    Ok(())
}

/// The words of the text behind the first, each after a space.
impl Text for Chunk {
    ghost use Rattle.cp_message.specs.Snapshots.{chunk_text};

    ghost text = { chunk_text };

    fn append_text(&self, out: &mut Vec<u8>) -> Result<(), NoMemory> {
        let numbers = [self.group.0, self.term, self.index, u64::from(self.offset)];
        append_numbers_text(&numbers, out)?;
        append_last_text(self.last, out)?;
        Ok(())
    }
}

/// The words of the text behind the first, each after a space.
impl Text for SnapshotReply {
    ghost use Rattle.cp_message.specs.Snapshots.{snapshot_reply_text};

    ghost text = { snapshot_reply_text };

    fn append_text(&self, out: &mut Vec<u8>) -> Result<(), NoMemory> {
        append_numbers_text(&[self.group.0, self.term, self.index], out)?;
        append_progress_text(self.done, self.received, out)?;
        Ok(())
    }
}
