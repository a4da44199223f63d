//! A tick: the clock moves; then timeouts, an expiry, a snapshot and a beat, in this order.
ghost use Rattle.std.specs.Prelude.{◌≡◌, ◌≤◌, ◌<◌, ◌++◌, ℕ, List, false, [], Some, None, length, IfOk, OnOk};
ghost use Rattle.std.specs.Option.{option_map};
ghost use Rattle.cp_parts.specs.Heads.{head_of};
ghost use Rattle.cp_agreement_facts.specs.Entries.{members_in};
ghost use Rattle.cp_log_rules.specs.Persistent.{last};
ghost use Rattle.cp_rules.specs.declared.role.Role.TheVariants as role;
ghost use Rattle.cp_rules.specs.declared.outcome.Outcome.TheVariants as outcome;
ghost use Rattle.cp_rules.specs.Limits.{most_index};
ghost use Rattle.cp_rules.specs.Local as local;
ghost use Rattle.cp_rules.specs.Local.{does};
ghost use Rattle.cp_rules.specs.Parts.{part_of};
ghost use Rattle.cp_rules.specs.Persistent.{after_part};
ghost use Rattle.cp_rules.specs.PreVotes as prevotes;
ghost use Rattle.cp_rules.specs.Requests as requests;
ghost use Rattle.cp_rules.specs.Snapshots.{own_head, own_snapshot};
ghost use Rattle.cp_rules.specs.Ticks as ticks;
ghost use Rattle.cp_rules.specs.Volatile.{peer};
ghost use Rattle.cp_rules_facts.specs.Soundness.{IsPlaced, IsSnapshotDue, IsSound};
ghost use Rattle.cp_rules_ranges.specs.Laws.{MayStep};
ghost use Rattle.cp_replicate.specs.Decisions.{may_expire};
ghost use Rattle.cp_raft_state.specs.Doing.{Does};
ghost use Rattle.cp_raft_state.specs.Messages.{messages_of};
ghost use Rattle.cp_raft.specs.Ticking.{beat_sends, beaten, from_new, own_bytes, own_part};

use crate::electing::times_out;
use crate::snapshots::own_bytes;
use cp_base::{Items, NoMemory};
use cp_election::is_leader;
use cp_message::Message;
use cp_parts::Part;
use cp_raft_leading::{Ask, appends, ask_others, proposes};
use cp_raft_state::{Did, Group, Seat, Snapshotted, Volatile, done, members};
use cp_replicate::{is_beat_due, may_expire};
use std::alloc::Global;

/// The latest round again, where reads wait.
fn confirms_again<G: Group>(
    stored: &G,
    seat: Seat,
    state: &Volatile,
    out: &mut Vec<Message>,
) -> Result<(), NoMemory>
    ensures { OnOk result (out.new.items ≡ out.old.items
        ++ messages_of seat (ticks.confirms_again seat.me (G.stored stored.now) state.now.reads)) }
{
    if state.waiting() == 0 {
        return Ok(());
    }
    let ask = Ask::Confirm(stored.term(), state.round());
    ask_others(seat, members(stored), ask, out)
}

/// One that leads, and has appended nothing, beats where the period is over: it sends all others what they lack, and the
/// latest round again.
fn beat<G: Group>(
    alloc: Global,
    stored: &G,
    seat: Seat,
    state: &mut Volatile,
    out: &mut Vec<Message>,
) -> Result<(), NoMemory>
    requires leads { state.old.role ≡ role.Leader }
    requires last { last (G.stored stored.now) ≤ most_index }
    requires placed { (member : ℕ) → IsPlaced (last (G.stored stored.now))
        (length (G.stored stored.now).snapshot) (peer state.old.peers member) }
    ensures state { OnOk result (state.new ≡ beaten state.old) }
    ensures sends { OnOk result (out.new.items ≡ out.old.items ++ messages_of seat (beat_sends seat.me (G.stored stored.now) state.old)) }
{
    if !is_beat_due(state.role(), false, state.clock(), state.beat()) {
        return Ok(());
    }
    state.mark_beat();
    appends(alloc, stored, seat, state, out)?;
    confirms_again(stored, seat, state, out)
}

/// The part of a snapshot of the member's own.
fn own_part<G: Group>(stored: &G, seat: Seat, index: u64, bytes: Items<u8>) -> Part
    ensures { Some result ≡ option_map (part_of seat.group) (own_part (G.stored stored.now) index (Some bytes)) }
{
    Part::Snapshot(seat.group, stored.term(), stored.vote(), index, bytes)
}

/// One that leads takes a snapshot of its own, and beats.
fn beats_after<G: Group>(
    alloc: Global,
    stored: &G,
    seat: Seat,
    bytes: Items<u8>,
    state: &mut Volatile,
    out: &mut Vec<Message>,
) -> Result<Did, NoMemory>
    requires leads { state.old.role ≡ role.Leader }
    requires last { last (G.stored stored.now) ≤ most_index }
    requires placed { (member : ℕ) → IsPlaced (last (G.stored stored.now))
        (length (G.stored stored.now).snapshot) (peer state.old.peers member) }
    requires above { (G.stored stored.now).base < state.old.commit }
    requires within { state.old.commit ≤ last (G.stored stored.now) }
    requires reads_back { head_of bytes ≡ Some (own_head (G.stored stored.now) state.old.commit) }
    ensures did { IfOk result (λ did. did ≡ record {
      part = option_map (part_of seat.group)
          (own_part (G.stored stored.now) state.old.commit (Some bytes));
      outcome = outcome.Done;
    }) }
    ensures state { OnOk result (state.new ≡ beaten (from_new (Some bytes) state.old)) }
    ensures sends { OnOk result (out.new.items ≡ out.old.items
        ++ messages_of seat (beat_sends seat.me (after_part
        (own_part (G.stored stored.now) state.old.commit (Some bytes)) (G.stored stored.now))
        (from_new (Some bytes) state.old))) }
{
    let index = state.commit();
    state.send_from_start();
    let after = Snapshotted::from(stored, index, bytes.as_slice());
    beat(alloc, &after, seat, state, out)?;
    Ok(done(Some(own_part(stored, seat, index, bytes))))
}

/// A tick at one that leads and appends nothing.
fn idles<G: Group>(
    alloc: Global,
    stored: &G,
    seat: Seat,
    may_write: bool,
    machine: &Option<Items<u8>>,
    state: &mut Volatile,
    out: &mut Vec<Message>,
) -> Result<Did, NoMemory>
    requires leads { state.old.role ≡ role.Leader }
    requires sound { IsSound seat.me (G.stored stored.now) state.old }
    requires last { last (G.stored stored.now) ≤ most_index }
    requires due { (bytes : List ℕ) → machine.now ≡ Some bytes → IsSnapshotDue (G.stored stored.now) state.old bytes }
    ensures { IfOk result (λ did. Does seat
        (ticks.beats seat.me (G.stored stored.now) (own_snapshot (G.stored stored.now) (does None state.old []) may_write machine.now))
        did state.new out.old.items out.new.items) }
{
    match own_bytes(alloc, stored, state.commit(), may_write, machine)? {
        Some(bytes) => {
            let did = beats_after(alloc, stored, seat, bytes, state, out)?;
            Ok(did)
        }
        None => {
            beat(alloc, stored, seat, state, out)?;
            Ok(done(None))
        }
    }
}

/// The bytes, copied.
fn copied(alloc: Global, bytes: &[u8]) -> Result<Items<u8>, NoMemory>
    ensures { IfOk result (λ copy. copy ≡ bytes.now) }
{
    Ok(Items::from_vec(Vec::from_slice(alloc, bytes)?))
}

/// A leader appends an expiry and beats, unless it steps down.
fn expires<G: Group>(
    alloc: Global,
    stored: &G,
    seat: Seat,
    entry: &[u8],
    state: &mut Volatile,
    out: &mut Vec<Message>,
) -> Result<Did, NoMemory>
    requires sound { IsSound seat.me (G.stored stored.now) state.old }
    requires leads { state.old.role ≡ role.Leader }
    requires room { last (G.stored stored.now) < most_index }
    requires plain { members_in entry.now ≡ None }
    ensures { IfOk result (λ did. Does seat
        (ticks.beats seat.me (G.stored stored.now) (requests.proposes seat.me (G.stored stored.now) state.old entry.now))
        did state.new out.old.items out.new.items) }
{
    let copy = copied(alloc, entry)?;
    let did = proposes(alloc, stored, seat, copy, state, out)?;
    if !is_leader(state.role()) {
        return Ok(did);
    }
    state.mark_beat();
    confirms_again(stored, seat, state, out)?;
    Ok(did)
}

/// Whether an expiry that is due is appended.
fn takes_expiry<G: Group>(stored: &G, state: &Volatile, may_write: bool) -> bool
    ensures { result ≡ may_expire state.now.role state.now.leader (last (G.stored stored.now)) state.now.commit may_write }
{
    may_expire(
        state.role(),
        state.leader(),
        stored.last(),
        state.commit(),
        may_write,
    )
}

/// A tick at one that leads.
fn leads_on<G: Group>(
    alloc: Global,
    stored: &G,
    seat: Seat,
    may_write: bool,
    expiry: &Option<Items<u8>>,
    machine: &Option<Items<u8>>,
    state: &mut Volatile,
    out: &mut Vec<Message>,
) -> Result<Did, NoMemory>
    requires leads { state.old.role ≡ role.Leader }
    requires sound { IsSound seat.me (G.stored stored.now) state.old }
    requires last { last (G.stored stored.now) ≤ most_index }
    requires plain { (entry : List ℕ) → expiry.now ≡ Some entry → members_in entry ≡ None }
    requires due { (bytes : List ℕ) → machine.now ≡ Some bytes → IsSnapshotDue (G.stored stored.now) state.old bytes }
    ensures { IfOk result (λ did. Does seat
        (ticks.beats seat.me (G.stored stored.now) (own_snapshot (G.stored stored.now)
        (ticks.expires seat.me (G.stored stored.now) state.old may_write expiry.now) may_write machine.now))
        did state.new out.old.items out.new.items) }
{
    match expiry {
        Some(entry) => {
            if takes_expiry(stored, state, may_write) {
                let did = expires(alloc, stored, seat, entry.as_slice(), state, out)?;
                Ok(did)
            } else {
                let did = idles(alloc, stored, seat, may_write, machine, state, out)?;
                Ok(did)
            }
        }
        None => idles(alloc, stored, seat, may_write, machine, state, out),
    }
}

/// A tick at one that does not lead. Who has written in it takes no snapshot, and nobody beats.
fn waits<G: Group>(
    alloc: Global,
    stored: &G,
    seat: Seat,
    may_write: bool,
    machine: &Option<Items<u8>>,
    state: &mut Volatile,
    out: &mut Vec<Message>,
) -> Result<Did, NoMemory>
    requires follows { local.is_leader state.old.role ≡ false }
    requires sound { IsSound seat.me (G.stored stored.now) state.old }
    requires due { (bytes : List ℕ) → machine.now ≡ Some bytes → IsSnapshotDue (G.stored stored.now) state.old bytes }
    ensures { IfOk result (λ did. Does seat
        (ticks.beats seat.me (G.stored stored.now) (own_snapshot (G.stored stored.now)
        (prevotes.times_out seat.me (G.stored stored.now) state.old may_write) may_write machine.now))
        did state.new out.old.items out.new.items) }
{
    let index = state.commit();
    let bytes = own_bytes(alloc, stored, index, may_write, machine)?;
    let did = times_out(alloc, stored, seat, may_write, state, out)?;
    if did.part.is_some() {
        return Ok(did);
    }
    match bytes {
        Some(bytes) => {
            state.send_from_start();
            Ok(done(Some(own_part(stored, seat, index, bytes))))
        }
        None => Ok(done(None)),
    }
}

/// The clock moves.
pub fn on_tick<G: Group>(
    alloc: Global,
    stored: &G,
    seat: Seat,
    now: u64,
    may_write: bool,
    expiry: &Option<Items<u8>>,
    machine: &Option<Items<u8>>,
    state: &mut Volatile,
    out: &mut Vec<Message>,
) -> Result<Did, NoMemory>
    requires may { MayStep seat.me (G.stored stored.now) state.old (local.Tick now may_write expiry.now machine.now) }
    ensures { IfOk result (λ did. Does seat
        (ticks.on_tick seat.me (G.stored stored.now) state.old now may_write expiry.now machine.now)
        did state.new out.old.items out.new.items) }
{
    state.set_clock(now);
    if is_leader(state.role()) {
        leads_on(alloc, stored, seat, may_write, expiry, machine, state, out)
    } else {
        waits(alloc, stored, seat, may_write, machine, state, out)
    }
}
