//! What a leader sends to a member, and when it beats.
ghost use Rattle.std.specs.Prelude.{◌≡◌, ◌≤◌, ◌-◌, ◌&&◌, ◌||◌, nat_le};
ghost use Rattle.cp_log_rules.specs.Persistent.{last};
ghost use Rattle.cp_rules.specs.Limits.{beat_period, most_index};
ghost use Rattle.cp_rules.specs.Local.{is_leader};
ghost use Rattle.cp_rules.specs.Persistent.{known_term};
ghost use Rattle.cp_replicate.specs.Decisions.{to_send};

use crate::batching::batch;
use crate::by_index::Log;
use cp_election::is_leader;
use cp_rules::{LogEnd, Peer, Role};

/// Milliseconds between two beats of a leader.
const BEAT_PERIOD: u64 = 1_000;

/// What a leader sends to a member.
#[derive(Clone, Copy, Debug, PartialEq, Eq)]
pub enum Sending {
    /// The chunk of its snapshot from this offset on.
    Chunk(u32),
    /// So many entries, which follow this index with its term.
    Entries(LogEnd, u64),
}

/// Whether a member is sent the snapshot, since the base covers what it lacks next.
pub fn needs_snapshot(peer: Peer, base: u64) -> bool
    ensures { result ≡ nat_le peer.next base }
{
    peer.next <= base
}

/// The term of an index of a log, 0 where it is not there.
pub fn known_term<L: Log>(log: &L, index: u64) -> u64
    ensures { result ≡ known_term (L.stored log.now) index }
{
    match log.term_at(index) {
        Some(term) => term,
        None => 0,
    }
}

/// What a leader sends to a member of which it keeps this: what that one lacks next, or a chunk of the snapshot where
/// the base covers it.
pub fn to_send<L: Log>(log: &L, peer: Peer) -> Sending
    requires { last (L.stored log.now) ≤ most_index }
    ensures { result ≡ to_send (L.stored log.now) peer }
{
    if needs_snapshot(peer, log.base()) {
        return Sending::Chunk(peer.offset);
    }
    let index = peer.next - 1;
    let term = known_term(log, index);
    Sending::Entries(LogEnd { term, index }, batch(log, peer.next))
}

/// Whether a leader beats in a tick, by its clock and the one at its last beat: it appended in this tick, or the period
/// is over.
pub fn is_beat_due(role: Role, appended: bool, clock: u64, beat: u64) -> bool
    ensures { result ≡ (is_leader role && (appended || nat_le beat_period (clock - beat))) }
{
    is_leader(role) && (appended || BEAT_PERIOD <= clock.saturating_sub(beat))
}
