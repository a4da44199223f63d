//! What a leader takes from replies.
ghost use Rattle.std.specs.Prelude.{◌≡◌, ◌≤◌, ◌<◌, ◌&&◌, ◌++◌, [], ◌∷◌, length, Some, None, nat_lt, if◌then◌else◌, IfOk, OnOk};
ghost use Rattle.cp_parts.specs.declared.part.Part.TheVariants as journal;
ghost use Rattle.cp_log_rules.specs.Persistent.{last};
ghost use Rattle.cp_rules.specs.declared.outcome.Outcome.TheVariants as outcome;
ghost use Rattle.cp_rules.specs.AppendReplies as replies;
ghost use Rattle.cp_rules.specs.Limits.{most_index};
ghost use Rattle.cp_rules.specs.Local as local;
ghost use Rattle.cp_rules.specs.Local.{does, reply, is_leader};
ghost use Rattle.cp_rules.specs.Sending.{append_to, chunk_from};
ghost use Rattle.cp_rules.specs.Snapshots as snapshots;
ghost use Rattle.cp_rules.specs.Terms as terms;
ghost use Rattle.cp_rules.specs.Terms.{steps_down};
ghost use Rattle.cp_rules.specs.Volatile.{peer, with_peer};
ghost use Rattle.cp_rules_facts.specs.Soundness.{IsPlaced};
ghost use Rattle.cp_rules_ranges.specs.Laws.{MayStep};
ghost use Rattle.cp_raft_state.specs.Doing.{Does};
ghost use Rattle.cp_raft_state.specs.Messages.{messages_of};
ghost use Rattle.cp_raft_leading.specs.Replying.{MayLead, leads_on, falls_to};

use crate::committing::commits;
use crate::{append_to, chunk_from};
use cp_base::{GroupId, NoMemory};
use cp_election::is_leader;
use cp_message::{AppendReply, Message, SnapshotReply};
use cp_parts::Part;
use cp_raft_state::{Did, Group, Seat, Volatile, done, members, post};
use cp_replicate::{AppendReplied, append_replied, is_answered, matched, needs_snapshot};
use cp_rules::{Peer, Role};
use cp_snapshot::goes_on;
use std::alloc::Global;

/// A reply of a greater term.
pub fn adopts(group: GroupId, term: u64, state: &mut Volatile) -> Did
    ensures part { result ≡ record { part = Some (journal.State group term 0); outcome = outcome.Done } }
    ensures state { state.new ≡ steps_down state.old }
{
    state.step_down();
    done(Some(Part::State(group, term, 0)))
}

/// A reply at one that does not lead: its term is adopted where it is greater.
fn adopts_greater<G: Group>(stored: &G, seat: Seat, term: u64, state: &mut Volatile) -> Did
    ensures { Does seat
        (if nat_lt (G.stored stored.now).term term then terms.adopts term (G.stored stored.now) state.old else does None state.old [])
        result state.new [] [] }
{
    if stored.term() < term {
        adopts(seat.group, term, state)
    } else {
        done(None)
    }
}

/// Whether one of this role still leads, and a member of which it keeps this lacks entries.
fn lacks<G: Group>(stored: &G, role: Role, peer: Peer) -> bool
    ensures { result ≡ (is_leader role && nat_lt peer.matched (last (G.stored stored.now))) }
{
    is_leader(role) && peer.matched < stored.last()
}

/// Sends a member what it lacks, where that is due.
#[tactic(auto, using(crate::proofs::Doing::same))]
fn append_if<G: Group>(
    alloc: Global,
    stored: &G,
    seat: Seat,
    state: &Volatile,
    member: u8,
    is_due: bool,
    out: &mut Vec<Message>,
) -> Result<(), NoMemory>
    requires last { last (G.stored stored.now) ≤ most_index }
    requires placed { IsPlaced (last (G.stored stored.now)) (length (G.stored stored.now).snapshot) (peer state.now.peers member) }
    ensures { OnOk result (out.new.items ≡ out.old.items
        ++ messages_of seat (if is_due then append_to (G.stored stored.now) state.now member ∷ [] else [])) }
{
    if is_due {
        append_to(alloc, stored, seat, state, member, out)
    } else {
        Ok(())
    }
}

/// A member holds more than it was known to hold; the leader commits what it can, and sends it what it lacks.
fn leads_on<G: Group>(
    alloc: Global,
    stored: &G,
    seat: Seat,
    from: u8,
    peer: Peer,
    state: &mut Volatile,
    out: &mut Vec<Message>,
) -> Result<Did, NoMemory>
    requires leads { MayLead (G.stored stored.now) state.old }
    requires from { from < 10 }
    requires peer { IsPlaced (last (G.stored stored.now)) (length (G.stored stored.now).snapshot) peer }
    ensures { IfOk result (λ did. Does seat
        (leads_on seat.me (G.stored stored.now) state.old from peer)
        did state.new out.old.items out.new.items) }
{
    state.set_peer(from, peer);
    commits(stored, seat.me, state);
    let is_due = lacks(stored, state.role(), peer);
    append_if(alloc, stored, seat, state, from, is_due, out)?;
    Ok(done(None))
}

/// A member holds all up to an index.
#[tactic(auto, using(crate::proofs::Doing::same))]
fn matches<G: Group>(
    alloc: Global,
    stored: &G,
    seat: Seat,
    from: u8,
    index: u64,
    state: &mut Volatile,
    out: &mut Vec<Message>,
) -> Result<Did, NoMemory>
    requires leads { MayLead (G.stored stored.now) state.old }
    requires from { from < 10 }
    ensures { IfOk result (λ did. Does seat
        (replies.matches seat.me (G.stored stored.now) state.old from index)
        did state.new out.old.items out.new.items) }
{
    match matched(state.peer(from), stored.last(), index) {
        AppendReplied::Matched(peer) => leads_on(alloc, stored, seat, from, peer, state, out),
        AppendReplied::Adopted => Ok(done(None)),
        AppendReplied::Ignored => Ok(done(None)),
        AppendReplied::FellBack(_) => Ok(done(None)),
    }
}

/// A member lacks what an append followed.
fn falls_to<G: Group>(
    alloc: Global,
    stored: &G,
    seat: Seat,
    from: u8,
    peer: Peer,
    state: &mut Volatile,
    out: &mut Vec<Message>,
) -> Result<Did, NoMemory>
    requires leads { MayLead (G.stored stored.now) state.old }
    requires from { from < 10 }
    requires peer { IsPlaced (last (G.stored stored.now)) (length (G.stored stored.now).snapshot) peer }
    ensures { IfOk result (λ did. Does seat
        (falls_to (G.stored stored.now) state.old from peer)
        did state.new out.old.items out.new.items) }
{
    let known = state.peer(from);
    state.set_peer(from, peer);
    append_if(
        alloc,
        stored,
        seat,
        state,
        from,
        peer.next < known.next,
        out,
    )?;
    Ok(done(None))
}

/// The reply to an append, at one that leads.
#[tactic(auto, using(crate::proofs::Doing::same))]
fn takes_reply<G: Group>(
    alloc: Global,
    stored: &G,
    seat: Seat,
    from: u8,
    reply: &AppendReply,
    state: &mut Volatile,
    out: &mut Vec<Message>,
) -> Result<Did, NoMemory>
    requires leads { MayLead (G.stored stored.now) state.old }
    requires from { from < 10 }
    requires named { reply.now.index ≤ most_index }
    ensures { IfOk result (λ did. Does seat
        (replies.on_append_reply seat.me (G.stored stored.now) state.old from reply.now.term reply.now.accepted reply.now.index)
        did state.new out.old.items out.new.items) }
{
    let known = state.peer(from);
    let replied = append_replied(
        state.role(),
        stored.term(),
        members(stored),
        from,
        known,
        stored.last(),
        reply,
    );
    match replied {
        AppendReplied::Adopted => Ok(adopts(seat.group, reply.term, state)),
        AppendReplied::Ignored => Ok(done(None)),
        AppendReplied::Matched(peer) => leads_on(alloc, stored, seat, from, peer, state, out),
        AppendReplied::FellBack(peer) => falls_to(alloc, stored, seat, from, peer, state, out),
    }
}

/// The reply to an append.
pub fn on_append_reply<G: Group>(
    alloc: Global,
    stored: &G,
    seat: Seat,
    from: u8,
    reply: &AppendReply,
    state: &mut Volatile,
    out: &mut Vec<Message>,
) -> Result<Did, NoMemory>
    requires may { MayStep seat.me (G.stored stored.now) state.old
        (local.Got from (local.AppendReply reply.now.term reply.now.accepted reply.now.index)) }
    ensures { IfOk result (λ did. Does seat
        (replies.on_append_reply seat.me (G.stored stored.now) state.old from reply.now.term reply.now.accepted reply.now.index)
        did state.new out.old.items out.new.items) }
{
    if is_leader(state.role()) {
        takes_reply(alloc, stored, seat, from, reply, state, out)
    } else {
        Ok(adopts_greater(stored, seat, reply.term, state))
    }
}

/// A member has received so much of the snapshot, and is sent the chunk there.
fn sends_chunk<G: Group>(
    alloc: Global,
    stored: &G,
    seat: Seat,
    from: u8,
    peer: Peer,
    received: u32,
    state: &mut Volatile,
    out: &mut Vec<Message>,
) -> Result<Did, NoMemory>
    requires snapshot { 0 < (G.stored stored.now).base }
    requires within { received ≤ length (G.stored stored.now).snapshot }
    requires from { from < 10 }
    ensures { IfOk result (λ did. Does seat
        (does None (with_peer from peer state.old) (reply from (chunk_from (G.stored stored.now) received)))
        did state.new out.old.items out.new.items) }
{
    state.set_peer(from, peer);
    let body = chunk_from(alloc, stored, seat.group, received)?;
    post(seat, from, body, out)?;
    Ok(done(None))
}

/// A member has received so much of a snapshot. Where that is of the leader's own, and says how to go on, it is sent the
/// chunk there.
#[tactic(auto, using(crate::proofs::Doing::same))]
fn sends_more<G: Group>(
    alloc: Global,
    stored: &G,
    seat: Seat,
    from: u8,
    index: u64,
    received: u32,
    state: &mut Volatile,
    out: &mut Vec<Message>,
) -> Result<Did, NoMemory>
    requires leads { MayLead (G.stored stored.now) state.old }
    requires from { from < 10 }
    ensures { IfOk result (λ did. Does seat
        (snapshots.sends_more (G.stored stored.now) state.old from index received)
        did state.new out.old.items out.new.items) }
{
    let known = state.peer(from);
    if !needs_snapshot(known, stored.base()) {
        return Ok(done(None));
    }
    match goes_on(
        known,
        stored.base(),
        stored.snapshot().len(),
        index,
        received,
    ) {
        Some(peer) => sends_chunk(alloc, stored, seat, from, peer, received, state, out),
        None => Ok(done(None)),
    }
}

/// The reply to a chunk.
#[tactic(auto, using(crate::proofs::Doing::same))]
pub fn on_snapshot_reply<G: Group>(
    alloc: Global,
    stored: &G,
    seat: Seat,
    from: u8,
    reply: &SnapshotReply,
    state: &mut Volatile,
    out: &mut Vec<Message>,
) -> Result<Did, NoMemory>
    requires may { MayStep seat.me (G.stored stored.now) state.old
        (local.Got from (local.SnapshotReply reply.now.term reply.now.index reply.now.done reply.now.received)) }
    ensures { IfOk result (λ did. Does seat
        (snapshots.on_snapshot_reply seat.me (G.stored stored.now) state.old from reply.now.term reply.now.index
        reply.now.done reply.now.received)
        did state.new out.old.items out.new.items) }
{
    if stored.term() < reply.term {
        return Ok(adopts(seat.group, reply.term, state));
    }
    if !is_answered(
        state.role(),
        stored.term(),
        members(stored),
        from,
        reply.term,
    ) {
        return Ok(done(None));
    }
    if reply.done {
        matches(alloc, stored, seat, from, reply.index, state, out)
    } else {
        sends_more(
            alloc,
            stored,
            seat,
            from,
            reply.index,
            reply.received,
            state,
            out,
        )
    }
}
