//! What a leader sends.
ghost use Rattle.std.specs.Prelude.{◌≡◌, ◌≤◌, ◌<◌, ◌++◌, [], ◌∷◌, ℕ, List, length, map, nat_le, if◌then◌else◌, IfOk, OnOk};
ghost use Rattle.cp_log_rules.specs.Persistent.{last};
ghost use Rattle.cp_rules.specs.Limits.{most_index};
ghost use Rattle.cp_rules.specs.declared.role.Role.TheVariants as role;
ghost use Rattle.cp_rules.specs.Sending as sending;
ghost use Rattle.cp_rules.specs.Volatile.{peer};
ghost use Rattle.cp_rules.specs.Persistent.{others};
ghost use Rattle.cp_rules_facts.specs.Soundness.{IsPlaced};
ghost use Rattle.cp_rules_ranges.specs.Messages.{body_of};
ghost use Rattle.cp_raft_state.specs.Messages.{messages_of};
ghost use Rattle.cp_raft_leading.specs.Asks.{to_others};

use crate::copying::entries_from;
use cp_base::{GroupId, Items, NoMemory};
use cp_election::is_leader;
use cp_message::{Body, Message};
use cp_raft_state::{Group, Seat, Volatile, chunk_body, members, post};
use cp_replicate::needs_snapshot;
use cp_rules::Peer;
use cp_snapshot::chunk;
use std::alloc::Global;

/// The piece of the snapshot from this byte on.
pub fn chunk_from<G: Group>(
    alloc: Global,
    stored: &G,
    group: GroupId,
    offset: u32,
) -> Result<Body, NoMemory>
    requires snapshot { 0 < (G.stored stored.now).base }
    requires within { offset ≤ length (G.stored stored.now).snapshot }
    ensures { IfOk result (λ body. body ≡ body_of group (sending.chunk_from (G.stored stored.now) offset)) }
{
    let (piece, last) = chunk(stored.snapshot(), offset);
    let bytes = Vec::from_slice(alloc, piece)?;
    Ok(chunk_body(
        group,
        stored.term(),
        stored.base(),
        offset,
        last,
        Items::from_vec(bytes),
    ))
}

/// What a member lacks of which a leader keeps this: entries, or a chunk of the snapshot where the base covers them.
fn lacking<G: Group>(
    alloc: Global,
    stored: &G,
    group: GroupId,
    state: &Volatile,
    peer: Peer,
) -> Result<Body, NoMemory>
    requires last { last (G.stored stored.now) ≤ most_index }
    requires placed { IsPlaced (last (G.stored stored.now)) (length (G.stored stored.now).snapshot) peer }
    ensures { IfOk result (λ body. body ≡ body_of group (if nat_le peer.next (G.stored stored.now).base
        then sending.chunk_from (G.stored stored.now) peer.offset
        else sending.entries_from (G.stored stored.now) state.now peer.next)) }
{
    if needs_snapshot(peer, stored.base()) {
        return chunk_from(alloc, stored, group, peer.offset);
    }
    entries_from(alloc, stored, group, state, peer.next)
}

/// Sends a member what it lacks: entries, or a chunk of the snapshot where the base covers them.
pub fn append_to<G: Group>(
    alloc: Global,
    stored: &G,
    seat: Seat,
    state: &Volatile,
    member: u8,
    out: &mut Vec<Message>,
) -> Result<(), NoMemory>
    requires last { last (G.stored stored.now) ≤ most_index }
    requires placed { IsPlaced (last (G.stored stored.now)) (length (G.stored stored.now).snapshot) (peer state.now.peers member) }
    ensures { OnOk result (out.new.items ≡ out.old.items
        ++ messages_of seat (sending.append_to (G.stored stored.now) state.now member ∷ [])) }
{
    let body = lacking(alloc, stored, seat.group, state, state.peer(member))?;
    post(seat, member, body, out)
}

/// Sends a member what it lacks, unless it is oneself.
#[tactic(auto, using(crate::proofs::Others::to_self))]
fn append_to_other<G: Group>(
    alloc: Global,
    stored: &G,
    seat: Seat,
    state: &Volatile,
    member: u8,
    out: &mut Vec<Message>,
) -> Result<(), NoMemory>
    requires last { last (G.stored stored.now) ≤ most_index }
    requires placed { IsPlaced (last (G.stored stored.now)) (length (G.stored stored.now).snapshot) (peer state.now.peers member) }
    ensures { OnOk result ((rest : List ℕ) → out.new.items
        ++ to_others seat (sending.append_to (G.stored stored.now) state.now) rest
        ≡ out.old.items ++ to_others seat (sending.append_to (G.stored stored.now) state.now) (member ∷ rest)) }
{
    if member == seat.me {
        return Ok(());
    }
    append_to(alloc, stored, seat, state, member, out)?;
    Ok(())
}

/// Sends all of these members but oneself what they lack.
fn append_to_others<G: Group>(
    alloc: Global,
    stored: &G,
    seat: Seat,
    state: &Volatile,
    members: &[u8],
    out: &mut Vec<Message>,
) -> Result<(), NoMemory>
    requires last { last (G.stored stored.now) ≤ most_index }
    requires placed { (member : ℕ) → IsPlaced (last (G.stored stored.now))
        (length (G.stored stored.now).snapshot) (peer state.now.peers member) }
    ensures { OnOk result (out.new.items ≡ out.old.items
        ++ messages_of seat (map (sending.append_to (G.stored stored.now) state.now) (others seat.me members.now))) }
{
    let mut rest = members;
    while let [member, others @ ..] = rest {
        append_to_other(alloc, stored, seat, state, *member, out)?;
        rest = others;
    }
    Ok(())
}

/// Sends all others what they lack, from one that leads.
#[tactic(auto, using(cp_rules_facts::proofs::Basics::leader_is))]
pub fn appends<G: Group>(
    alloc: Global,
    stored: &G,
    seat: Seat,
    state: &Volatile,
    out: &mut Vec<Message>,
) -> Result<(), NoMemory>
    requires last { last (G.stored stored.now) ≤ most_index }
    requires placed { state.now.role ≡ role.Leader → (member : ℕ)
        → IsPlaced (last (G.stored stored.now)) (length (G.stored stored.now).snapshot) (peer state.now.peers member) }
    ensures { OnOk result (out.new.items ≡ out.old.items ++ messages_of seat (sending.appends seat.me (G.stored stored.now) state.now)) }
{
    if !is_leader(state.role()) {
        return Ok(());
    }
    append_to_others(alloc, stored, seat, state, members(stored), out)
}
