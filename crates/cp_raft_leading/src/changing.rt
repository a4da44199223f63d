//! Changes of members.
ghost use Rattle.std.specs.Prelude.{◌≡◌, ◌≤◌, ◌<◌, ◌^◌, length, Some, ◌++◌, IfOk, OnOk};
ghost use Rattle.cp_base.specs.declared.identifier.Invocation.{Invocation};
ghost use Rattle.cp_grammar.specs.Fields.{optional};
ghost use Rattle.cp_parts.specs.Configs as configs;
ghost use Rattle.cp_grammar.specs.Common as common;
ghost use Rattle.cp_grammar.specs.Common.{invocation};
ghost use Rattle.cp_log_rules.specs.Persistent.{last};
ghost use Rattle.cp_rules.specs.Changes as changes;
ghost use Rattle.cp_rules.specs.Limits.{most_index};
ghost use Rattle.cp_rules.specs.Local as local;
ghost use Rattle.cp_rules.specs.Persistent.{members};
ghost use Rattle.cp_rules.specs.Requests.{unless_refused};
ghost use Rattle.cp_rules.specs.Spelling.{members_entry};
ghost use Rattle.cp_rules_ranges.specs.Laws.{MayStep};
ghost use Rattle.cp_rules_ranges.specs.Ranges.{IsMember};
ghost use Rattle.cp_raft_state.specs.Doing.{Does};
ghost use Rattle.cp_raft_leading.specs.Changing.{IsNamed};
ghost use Rattle.cp_raft_leading.specs.Replying.{MayLead};

use crate::requesting::proposes;
use cp_base::{Invocation, Items, NoMemory};
use cp_change::{changed, may_change};
use cp_election::new_peer;
use cp_grammar::{Spelled, append_bytes, append_index, append_u8, append_u64};
use cp_message::Message;
use cp_raft_state::{Did, Group, Seat, Volatile, members, refused};
use cp_replicate::{known_term, may_propose};
use cp_rules::Change;
use std::alloc::Global;

/// The byte of an entry that brings a configuration.
const MEMBERS_ENTRY: u8 = 4;

/// Appends a call.
#[tactic(auto, unfolding(cp_grammar::specs::Common::invocation, cp_grammar::specs::Common::client_id, cp_grammar::specs::Common::thread_no))]
fn append_call(call: &Invocation, out: &mut Vec<u8>) -> Result<(), NoMemory>
    requires { length call.now.client.0 ≡ 16 }
    ensures { OnOk result (out.new.items ≡ out.old.items ++ invocation.spelling call.now) }
{
    call.client.append(out)?;
    append_u8(call.thread.0, out)?;
    append_index(call.number, out)?;
    Ok(())
}

/// Appends the call that asked for a configuration, if one did.
fn append_asker(call: &Option<Invocation>, out: &mut Vec<u8>) -> Result<(), NoMemory>
    requires { IsNamed call.now }
    ensures { OnOk result (out.new.items ≡ out.old.items ++ (optional invocation).spelling call.now) }
{
    match call {
        Some(call) => {
            append_u8(1, out)?;
            append_call(call, out)?;
            Ok(())
        }
        None => append_u8(0, out),
    }
}

/// Appends members: how many, and a byte for each.
fn append_members(list: &Items<u8>, out: &mut Vec<u8>) -> Result<(), NoMemory>
    requires { length list.now < 2 ^ 32 }
    ensures { OnOk result (out.new.items ≡ out.old.items ++ common.members.spelling list.now) }
{
    append_bytes(list.as_slice(), out)
}

/// Appends an entry that sets these members.
#[tactic(auto, unfolding(cp_parts::specs::Configs::members_entry))]
fn append_members_entry(
    call: &Option<Invocation>,
    plan: u64,
    list: &Items<u8>,
    out: &mut Vec<u8>,
) -> Result<(), NoMemory>
    requires call { IsNamed call.now }
    requires few { length list.now < 2 ^ 32 }
    ensures { OnOk result (out.new.items ≡ out.old.items ++ configs.members_entry.spelling (call.now, (plan, list.now))) }
{
    append_u8(MEMBERS_ENTRY, out)?;
    append_asker(call, out)?;
    append_u64(plan, out)?;
    append_members(list, out)?;
    Ok(())
}

/// The bytes of an entry that sets these members, with the call that asked for it, if one did, and the number of a plan.
fn members_entry(
    alloc: Global,
    call: &Option<Invocation>,
    plan: u64,
    list: &Items<u8>,
) -> Result<Items<u8>, NoMemory>
    requires call { IsNamed call.now }
    requires few { length list.now < 2 ^ 32 }
    ensures { IfOk result (λ entry. entry ≡ members_entry call.now plan list.now) }
{
    let mut out = Vec::new(alloc);
    append_members_entry(call, plan, list, &mut out)?;
    Ok(Items::from_vec(out))
}

/// An added member begins with the entry that adds it.
fn adds<G: Group>(stored: &G, change: &Change, state: &mut Volatile)
    requires room { last (G.stored stored.now) < most_index }
    requires member { IsMember change.now.member.0 }
    ensures { state.new ≡ changes.with_added (G.stored stored.now) state.old change.now }
{
    if change.add {
        state.set_peer(change.member.0, new_peer(stored.last() + 1));
    }
}

/// A leader appends the entry of a change.
fn changes<G: Group>(
    alloc: Global,
    stored: &G,
    seat: Seat,
    change: &Change,
    plan: u64,
    call: &Option<Invocation>,
    state: &mut Volatile,
    out: &mut Vec<Message>,
) -> Result<Did, NoMemory>
    requires leads { MayLead (G.stored stored.now) state.old }
    requires room { last (G.stored stored.now) < most_index }
    requires few { length (members (G.stored stored.now)) ≤ 9 }
    requires member { IsMember change.now.member.0 }
    requires call { IsNamed call.now }
    ensures { IfOk result (λ did. Does seat
        (changes.changes seat.me (G.stored stored.now) state.old change.now plan call.now)
        did state.new out.old.items out.new.items) }
{
    let made = changed(alloc, change, members(stored))?;
    let entry = members_entry(alloc, call, plan, &made)?;
    adds(stored, change, state);
    proposes(alloc, stored, seat, entry, state, out)
}

/// A change of members is asked for, of one that leads and has room.
#[tactic(auto, using(crate::proofs::Doing::same))]
fn changes_if_fit<G: Group>(
    alloc: Global,
    stored: &G,
    seat: Seat,
    change: &Change,
    plan: u64,
    call: &Option<Invocation>,
    state: &mut Volatile,
    out: &mut Vec<Message>,
) -> Result<Did, NoMemory>
    requires leads { MayLead (G.stored stored.now) state.old }
    requires room { last (G.stored stored.now) < most_index }
    requires few { length (members (G.stored stored.now)) ≤ 9 }
    requires member { IsMember change.now.member.0 }
    requires call { IsNamed call.now }
    ensures { IfOk result (λ did. Does seat
        (unless_refused (changes.refuses_change (G.stored stored.now) state.old change.now) state.old
        (changes.changes seat.me (G.stored stored.now) state.old change.now plan call.now))
        did state.new out.old.items out.new.items) }
{
    let committed = known_term(stored, state.commit());
    match may_change(
        stored.config(),
        change,
        state.commit(),
        committed,
        stored.term(),
    ) {
        Ok(()) => changes(alloc, stored, seat, change, plan, call, state, out),
        Err(refusal) => Ok(refused(refusal)),
    }
}

/// A change of members is asked for.
#[tactic(auto, using(crate::proofs::Doing::same))]
pub fn on_change<G: Group>(
    alloc: Global,
    stored: &G,
    seat: Seat,
    change: &Change,
    plan: u64,
    call: &Option<Invocation>,
    state: &mut Volatile,
    out: &mut Vec<Message>,
) -> Result<Did, NoMemory>
    requires may { MayStep seat.me (G.stored stored.now) state.old (local.ChangeMembers change.now plan call.now) }
    requires member { IsMember change.now.member.0 }
    ensures { IfOk result (λ did. Does seat
        (changes.on_change seat.me (G.stored stored.now) state.old change.now plan call.now)
        did state.new out.old.items out.new.items) }
{
    match may_propose(state.role(), state.leader(), stored.last(), state.commit()) {
        Ok(()) => changes_if_fit(alloc, stored, seat, change, plan, call, state, out),
        Err(refusal) => Ok(refused(refusal)),
    }
}
