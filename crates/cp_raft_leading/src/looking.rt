//! Reads without entries.
ghost use Rattle.std.specs.Prelude.{◌≡◌, ◌<◌, ◌==◌, ◌&&◌, [], IfOk};
ghost use Rattle.cp_rules.specs.Confirming as confirming;
ghost use Rattle.cp_rules.specs.Limits.{most_index};
ghost use Rattle.cp_rules.specs.Local as local;
ghost use Rattle.cp_rules.specs.Local.{is_leader};
ghost use Rattle.cp_rules_ranges.specs.Laws.{MayStep};
ghost use Rattle.cp_raft_state.specs.Doing.{Does};

use crate::replying::adopts;
use crate::{Ask, ask_others};
use cp_answers::Refusal;
use cp_base::{Invocation, Items, NoMemory};
use cp_election::is_leader;
use cp_message::{Confirmed, Message};
use cp_raft_state::{Did, Group, Seat, Volatile, done, members, refused};
use cp_rules::Role;
use std::alloc::Global;

/// So many reads that wait make a leader refuse another.
const MOST_LOOKS: u32 = 100;

/// Whether a reply confirms to one of this role that it leads this term.
fn is_confirmed(role: Role, own_term: u64, reply: &Confirmed) -> bool
    ensures { result ≡ (reply.now.accepted && (is_leader role && (reply.now.term == own_term))) }
{
    reply.accepted && is_leader(role) && reply.term == own_term
}

/// A member confirms that one leads, or does not.
pub fn on_confirmed<G: Group>(
    stored: &G,
    seat: Seat,
    from: u8,
    reply: &Confirmed,
    state: &mut Volatile,
) -> Did
    requires may { MayStep seat.me (G.stored stored.now) state.old
        (local.Got from (local.Confirmed reply.now.term reply.now.accepted reply.now.round)) }
    ensures { Does seat
        (confirming.on_confirmed (G.stored stored.now) state.old from reply.now.term reply.now.accepted reply.now.round)
        result state.new [] [] }
{
    if stored.term() < reply.term {
        adopts(seat.group, reply.term, state)
    } else if is_confirmed(state.role(), stored.term(), reply) {
        state.confirm_round(from, reply.round);
        done(None)
    } else {
        done(None)
    }
}

/// A read begins a round, at one that leads.
fn begins_round<G: Group>(
    alloc: Global,
    stored: &G,
    seat: Seat,
    call: Invocation,
    attempt: u64,
    op: &[u8],
    state: &mut Volatile,
    out: &mut Vec<Message>,
) -> Result<Did, NoMemory>
    requires { state.old.reads.round < most_index }
    ensures { IfOk result (λ did. Does seat
        (confirming.begins_round seat.me (G.stored stored.now) state.old
        (confirming.waits (G.stored stored.now) state.old.reads call attempt op.now))
        did state.new out.old.items out.new.items) }
{
    let op = Vec::from_slice(alloc, op)?;
    state.wait(call, attempt, stored.last(), Items::from_vec(op))?;
    let ask = Ask::Confirm(stored.term(), state.round());
    ask_others(seat, members(stored), ask, out)?;
    Ok(done(None))
}

/// A read is asked for.
#[tactic(auto, using(crate::proofs::Doing::same))]
pub fn on_read<G: Group>(
    alloc: Global,
    stored: &G,
    seat: Seat,
    call: Invocation,
    attempt: u64,
    op: &[u8],
    state: &mut Volatile,
    out: &mut Vec<Message>,
) -> Result<Did, NoMemory>
    requires may { MayStep seat.me (G.stored stored.now) state.old (local.Read call attempt op.now) }
    ensures { IfOk result (λ did. Does seat
        (confirming.on_read seat.me (G.stored stored.now) state.old call attempt op.now)
        did state.new out.old.items out.new.items) }
{
    if !is_leader(state.role()) {
        return Ok(refused(Refusal::NotLeader(state.leader())));
    }
    if MOST_LOOKS as usize <= state.waiting() {
        return Ok(refused(Refusal::Overloaded(MOST_LOOKS)));
    }
    begins_round(alloc, stored, seat, call, attempt, op, state, out)
}
