//! The messages that a member sends.
ghost use Rattle.std.specs.Prelude.{◌≡◌, ◌≤◌, ◌<◌, ◌+◌, ◌++◌, [], ◌∷◌, IsOk, OnOk};
ghost use Rattle.cp_rules.specs.Local as body;
ghost use Rattle.cp_message.specs.declared.body.Body.TheVariants as bodies;
ghost use Rattle.cp_rules_ranges.specs.Messages.{body_of};
ghost use Rattle.cp_raft_state.specs.Room.{spare};

use crate::seat::Seat;
use cp_base::{GroupId, Items, NoMemory};
use cp_message::{
    Append, AppendReply, Body, Chunk, Confirm, Confirmed, LogEntry, Message, SnapshotReply,
    VoteReply, VoteRequest,
};
use cp_rules::LogEnd;

/// Puts a message behind the others. It takes no memory where there is room.
pub fn post(seat: Seat, to: u8, body: Body, out: &mut Vec<Message>) -> Result<(), NoMemory>
    ensures sends { OnOk result (out.new.items ≡ out.old.items ++ record { from = seat.me; to = to; body = body } ∷ []) }
    ensures frugal { 0 < spare out.old → IsOk result }
    ensures room { spare out.old ≤ spare out.new + 1 }
{
    let message = Message {
        from: seat.me,
        to,
        body,
    };
    match out.push(message) {
        Ok(()) => Ok(()),
        Err(_) => Err(NoMemory),
    }
}

pub fn pre_vote_body(group: GroupId, term: u64, end: LogEnd) -> Body
    ensures { result ≡ body_of group (body.PreVote term end) }
{
    Body::PreVote(VoteRequest {
        group,
        term,
        last_index: end.index,
        last_term: end.term,
    })
}

pub fn pre_vote_reply(group: GroupId, term: u64, granted: bool) -> Body
    ensures { result ≡ body_of group (body.PreVoteReply term granted) }
{
    Body::PreVoteReply(VoteReply {
        group,
        term,
        granted,
    })
}

pub fn vote_body(group: GroupId, term: u64, end: LogEnd) -> Body
    ensures { result ≡ body_of group (body.Vote term end) }
{
    Body::Vote(VoteRequest {
        group,
        term,
        last_index: end.index,
        last_term: end.term,
    })
}

pub fn vote_reply(group: GroupId, term: u64, granted: bool) -> Body
    ensures { result ≡ body_of group (body.VoteReply term granted) }
{
    Body::VoteReply(VoteReply {
        group,
        term,
        granted,
    })
}

/// Entries behind an index, with how far the leader has committed.
pub fn append_body(
    group: GroupId,
    term: u64,
    previous_index: u64,
    previous_term: u64,
    commit: u64,
    entries: Items<LogEntry>,
) -> Body
    ensures { result ≡ bodies.Append (record {
      group = group;
      term = term;
      previous_index = previous_index;
      previous_term = previous_term;
      commit = commit;
      entries = entries;
    }) }
{
    Body::Append(Append {
        group,
        term,
        previous_index,
        previous_term,
        commit,
        entries,
    })
}

pub fn append_reply(group: GroupId, term: u64, accepted: bool, index: u64) -> Body
    ensures { result ≡ body_of group (body.AppendReply term accepted index) }
{
    Body::AppendReply(AppendReply {
        group,
        term,
        accepted,
        index,
    })
}

pub fn chunk_body(
    group: GroupId,
    term: u64,
    index: u64,
    offset: u32,
    last: bool,
    bytes: Items<u8>,
) -> Body
    ensures { result ≡ body_of group (body.Snapshot term index offset last bytes) }
{
    Body::Snapshot(Chunk {
        group,
        term,
        index,
        offset,
        last,
        bytes,
    })
}

pub fn snapshot_reply(group: GroupId, term: u64, index: u64, done: bool, received: u32) -> Body
    ensures { result ≡ body_of group (body.SnapshotReply term index done received) }
{
    Body::SnapshotReply(SnapshotReply {
        group,
        term,
        index,
        done,
        received,
    })
}

pub fn confirm_body(group: GroupId, term: u64, round: u64) -> Body
    ensures { result ≡ body_of group (body.Confirm term round) }
{
    Body::Confirm(Confirm { group, term, round })
}

pub fn confirmed(group: GroupId, term: u64, accepted: bool, round: u64) -> Body
    ensures { result ≡ body_of group (body.Confirmed term accepted round) }
{
    Body::Confirmed(Confirmed {
        group,
        term,
        accepted,
        round,
    })
}
