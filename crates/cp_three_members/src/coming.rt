//! What may come to a member.
ghost use Rattle.std.specs.Prelude.{true, None, ◌≡◌, ◌≤◌, ◌-◌, ◌^◌, length, map};
ghost use Rattle.cp_agreement_facts.specs.Entries.{members_in};
ghost use Rattle.cp_rules.specs.Limits.{most_index};
ghost use Rattle.cp_rules_ranges.specs.Ranges.{AreInRange, AppendIsInRange, ChunkIsInRange, EndIsInRange, IsMember, most_entry};
ghost use Rattle.cp_raft_state.specs.Said.{body_in, end_in, entry_in};
ghost use Rattle.cp_three_members.specs.Coming.{IsSaid};

use cp_base::limits::{LAST_NUMBER, MOST_CHUNK, MOST_ENTRIES, MOST_ENTRY};
use cp_message::{Append, Body, Chunk, LogEntry, Message, VoteRequest};

/// Whether a number may be a term, an index or a round.
fn is_index(number: u64) -> bool
    ensures { result ≡ true → number ≤ most_index }
{
    number <= LAST_NUMBER
}

/// Each number of 32 bits may be a place in a snapshot.
fn is_offset(number: u32) -> bool
    ensures { result ≡ true → number ≤ 2 ^ 32 - 1 }
{
    number <= u32::MAX
}

/// Whether entries are in range.
fn are_entries(entries: &[LogEntry]) -> bool
    ensures { result ≡ true → AreInRange (map entry_in entries.now) }
{
    let mut rest = entries;
    while let [entry, after @ ..] = rest {
        if entry.term > LAST_NUMBER || entry.bytes.len() > MOST_ENTRY as usize {
            return false;
        }
        rest = after;
    }
    true
}

/// Whether the request for a vote is in range.
fn is_request(request: &VoteRequest) -> bool
    ensures { result ≡ true → (request.now.term ≤ most_index) × EndIsInRange (end_in request.now) }
{
    is_index(request.term) && is_index(request.last_term) && is_index(request.last_index)
}

/// Whether entries to append are in range.
fn is_append(append: &Append) -> bool
    ensures { result ≡ true → AppendIsInRange append.now.term append.now.previous_index append.now.previous_term
        append.now.commit (map entry_in append.now.entries) }
{
    let entries = append.entries.as_slice();
    is_index(append.term)
        && is_index(append.previous_term)
        && is_index(append.commit)
        && is_index(append.previous_index)
        && entries.len() <= MOST_ENTRIES as usize
        && is_index(append.previous_index + entries.len() as u64)
        && are_entries(entries)
}

/// Whether a piece of a snapshot is in range.
fn is_chunk(chunk: &Chunk) -> bool
    ensures { result ≡ true → ChunkIsInRange chunk.now.term chunk.now.index chunk.now.offset chunk.now.bytes }
{
    is_offset(chunk.offset)
        && is_index(chunk.term)
        && is_index(chunk.index)
        && chunk.bytes.len() <= MOST_CHUNK as usize
}

/// Whether a body is of a kind for members of a group, and in range.
fn is_said(body: &Body) -> bool
    ensures { result ≡ true → IsSaid (body_in body.now) }
{
    match body {
        Body::PreVote(request) => is_request(request),
        Body::PreVoteReply(reply) => is_index(reply.term),
        Body::Vote(request) => is_request(request),
        Body::VoteReply(reply) => is_index(reply.term),
        Body::Append(append) => is_append(append),
        Body::AppendReply(reply) => is_index(reply.term) && is_index(reply.index),
        Body::Snapshot(chunk) => is_chunk(chunk),
        Body::SnapshotReply(reply) => {
            is_offset(reply.received) && is_index(reply.term) && is_index(reply.index)
        }
        Body::Confirm(ask) => is_index(ask.term) && is_index(ask.round),
        Body::Confirmed(reply) => is_index(reply.term) && is_index(reply.round),
        _ => false,
    }
}

/// Whether a member may have sent the message.
pub fn may_come(message: &Message) -> bool
    ensures from { result ≡ true → IsMember message.now.from }
    ensures said { result ≡ true → IsSaid (body_in message.now.body) }
{
    1 <= message.from && message.from <= 9 && is_said(&message.body)
}

/// Whether an entry is that of a call: it is short enough, and brings no configuration.
#[tactic(auto, using(crate::proofs::Comes::call_is_plain))]
pub fn is_call(entry: &[u8]) -> bool
    ensures short { result ≡ true → length entry.now ≤ most_entry }
    ensures plain { result ≡ true → members_in entry.now ≡ None }
{
    !entry.is_empty() && entry[0] == 1 && entry.len() <= MOST_ENTRY as usize
}
