//! Which rule a message takes.
ghost use Rattle.std.specs.Prelude.{◌≡◌, ◌≤◌, true, false, Some, IfOk, IsOk, IfSome, IsSome};
ghost use Rattle.std.specs.Option.{ForSome};
ghost use Rattle.cp_rules.specs.Local as local;
ghost use Rattle.cp_rules.specs.Steps as steps;
ghost use Rattle.cp_rules_ranges.specs.Laws.{MayStep};
ghost use Rattle.cp_raft_state.specs.Doing.{Does};
ghost use Rattle.cp_raft_state.specs.Room.{spare};
ghost use Rattle.cp_raft_state.specs.Said.{body_in};
ghost use Rattle.cp_raft.specs.Frugal.{is_on_vote};
ghost use Rattle.cp_raft.specs.Offices.{takes_office};

use crate::electing::{on_prevote_reply, on_vote_reply};
use cp_base::NoMemory;
use cp_message::{Body, Message};
use cp_raft_following::{on_append, on_confirm, on_prevote, on_snapshot, on_vote};
use cp_raft_leading::{on_append_reply, on_confirmed, on_snapshot_reply};
use cp_raft_state::{Did, Group, Seat, Volatile};
use std::alloc::Global;

/// A message comes from another member of the group. One on a vote that brings no leadership takes no memory where there is
/// room for eight messages.
pub fn on_message<G: Group>(
    alloc: Global,
    stored: &G,
    seat: Seat,
    message: &Message,
    state: &mut Volatile,
    out: &mut Vec<Message>,
) -> Result<Did, NoMemory>
    requires kind { IsSome (body_in message.now.body) }
    requires may { ForSome (body_in message.now.body) (λ body. MayStep seat.me (G.stored stored.now) state.old
        (local.Got message.now.from body)) }
    ensures did { IfSome (body_in message.now.body) (λ body. IfOk result (λ did. Does seat
        (steps.on_message seat.me (G.stored stored.now) state.old message.now.from body)
        did state.new out.old.items out.new.items)) }
    ensures frugal { (body : local.Body) → body_in message.now.body ≡ Some body → is_on_vote body ≡ true
        → takes_office state.old (steps.on_message seat.me
        (G.stored stored.now) state.old message.now.from body) ≡ false → 8 ≤ spare out.old → IsOk result }
{
    let from = message.from;
    match &message.body {
        Body::PreVote(request) => on_prevote(stored, seat, from, request, state, out),
        Body::PreVoteReply(reply) => on_prevote_reply(stored, seat, from, reply, state, out),
        Body::Vote(request) => on_vote(stored, seat, from, request, state, out),
        Body::VoteReply(reply) => on_vote_reply(alloc, stored, seat, from, reply, state, out),
        Body::Append(append) => on_append(alloc, stored, seat, from, append, state, out),
        Body::AppendReply(reply) => on_append_reply(alloc, stored, seat, from, reply, state, out),
        Body::Snapshot(chunk) => on_snapshot(alloc, stored, seat, from, chunk, state, out),
        Body::SnapshotReply(reply) => {
            on_snapshot_reply(alloc, stored, seat, from, reply, state, out)
        }
        Body::Confirm(ask) => on_confirm(stored, seat, from, ask, state, out),
        Body::Confirmed(reply) => Ok(on_confirmed(stored, seat, from, reply, state)),
        _ => unreachable!(),
    }
}
