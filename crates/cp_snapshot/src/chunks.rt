//! What a leader sends of its snapshot.
ghost use Rattle.std.specs.Prelude.{◌≡◌, ◌≤◌, length, take, drop, nat_le};
ghost use Rattle.cp_rules.specs.Limits.{chunk_bytes, most_snapshot};
ghost use Rattle.cp_rules.specs.Sending.{chunk, is_last_chunk};
ghost use Rattle.cp_rules.specs.Snapshots.{from_start};
ghost use Rattle.cp_snapshot.specs.Decisions.{goes_on};

use cp_base::limits::{MOST_CHUNK, MOST_SNAPSHOT};
use cp_rules::Peer;

/// The bytes from an offset on.
fn from_offset(bytes: &[u8], offset: u32) -> &[u8]
    requires { offset ≤ length bytes.now }
    ensures { result.now ≡ drop offset bytes.now }
{
    &bytes[offset as usize..]
}

/// The first bytes, as many as a chunk has.
fn front(bytes: &[u8]) -> &[u8]
    ensures { result.now ≡ take chunk_bytes bytes.now }
{
    if bytes.len() <= MOST_CHUNK as usize {
        bytes
    } else {
        &bytes[..MOST_CHUNK as usize]
    }
}

/// The piece of a snapshot from an offset on, at most 32,768 bytes, and whether it reaches the end.
pub fn chunk(bytes: &[u8], offset: u32) -> (&[u8], bool)
    requires { offset ≤ length bytes.now }
    ensures piece { result.0.now ≡ chunk bytes.now offset }
    ensures last { result.1 ≡ is_last_chunk bytes.now offset }
{
    let rest = from_offset(bytes, offset);
    (front(rest), rest.len() <= MOST_CHUNK as usize)
}

/// Whether a snapshot of so many bytes may be written.
pub fn fits(length: usize) -> bool
    ensures { result ≡ nat_le length most_snapshot }
{
    length <= MOST_SNAPSHOT as usize
}

/// What a leader keeps of a member that has received so many bytes of the snapshot of an index, and is sent the chunk
/// there; none where that says nothing new. Its own snapshot has this base as its index, and so many bytes.
pub fn goes_on(peer: Peer, base: u64, length: usize, index: u64, received: u32) -> Option<Peer>
    ensures { result ≡ goes_on peer base length index received }
{
    if index == base && received as usize <= length && peer.next <= base {
        Some(Peer {
            next: peer.next,
            matched: peer.matched,
            offset: received,
        })
    } else {
        None
    }
}

/// What a leader keeps of a member where it has a new snapshot.
pub fn from_start(peer: Peer) -> Peer
    ensures { result ≡ from_start peer }
{
    Peer {
        next: peer.next,
        matched: peer.matched,
        offset: 0,
    }
}
