//! What a step does, before its part is written.
ghost use Rattle.std.specs.Prelude.{◌≡◌, ◌≤◌, true, false, [], Some, IfOk, IsOk, OnOk, IfSome, IsSome};
ghost use Rattle.std.specs.Option.{ForSome};
ghost use Rattle.cp_log_rules.specs.Persistent.{last};
ghost use Rattle.cp_rules.specs.Limits.{most_index};
ghost use Rattle.cp_rules.specs.Local.{Event, is_leader};
ghost use Rattle.cp_rules.specs.Steps as steps;
ghost use Rattle.cp_rules_ranges.specs.Laws.{MayStep};
ghost use Rattle.cp_raft_state.specs.Doing.{Does};
ghost use Rattle.cp_raft_state.specs.Room.{spare};
ghost use Rattle.cp_raft.specs.Deciding.{Decides};
ghost use Rattle.cp_raft.specs.Events.{event_of};
ghost use Rattle.cp_raft.specs.Frugal.{NoneReady, has_entries, is_voting};
ghost use Rattle.cp_raft.specs.Offices.{takes_office};
ghost use Rattle.cp_raft.specs.Settling.{Settles, members_after};
ghost use Rattle.cp_raft.specs.Taking.{NamesMember};

use crate::event::RaftEvent;
use crate::messages::on_message;
use crate::out::RaftOut;
use crate::settling::take_ready;
use crate::ticking::on_tick;
use cp_base::NoMemory;
use cp_election::is_leader;
use cp_message::Message;
use cp_raft_leading::{on_change, on_propose, on_read};
use cp_raft_state::{Did, Group, Seat, Volatile};
use std::alloc::Global;

/// What the rule of the event does.
fn rule<G: Group>(
    alloc: Global,
    stored: &G,
    seat: Seat,
    event: &RaftEvent,
    state: &mut Volatile,
    out: &mut Vec<Message>,
) -> Result<Did, NoMemory>
    requires kind { IsSome (event_of event.now) }
    requires may { ForSome (event_of event.now) (λ e. MayStep seat.me (G.stored stored.now) state.old e) }
    requires names { ForSome (event_of event.now) (λ e. NamesMember e) }
    ensures did { IfSome (event_of event.now) (λ e. IfOk result (λ did. Does seat
        (steps.rule seat.me (G.stored stored.now) state.old e)
        did state.new out.old.items out.new.items)) }
    ensures frugal { (e : Event) → event_of event.now ≡ Some e → is_voting e ≡ true
        → takes_office state.old (steps.rule seat.me (G.stored stored.now) state.old e) ≡ false
        → 8 ≤ spare out.old → IsOk result }
{
    match event {
        RaftEvent::Tick {
            now,
            may_write,
            expiry,
            snapshot,
        } => on_tick(
            alloc, stored, seat, *now, *may_write, expiry, snapshot, state, out,
        ),
        RaftEvent::Got(message) => on_message(alloc, stored, seat, message, state, out),
        RaftEvent::Propose(entry) => {
            on_propose(alloc, stored, seat, entry.as_slice(), state, out)
        }
        RaftEvent::Change(change, plan, call) => {
            on_change(alloc, stored, seat, change, *plan, call, state, out)
        }
        RaftEvent::Look(call, attempt, op) => {
            on_read(
                alloc,
                stored,
                seat,
                *call,
                *attempt,
                op.as_slice(),
                state,
                out,
            )
        }
    }
}

/// Reads are settled after a rule: those that are ready at one that leads, and all at one that does not.
fn settle<G: Group>(
    alloc: Global,
    stored: &G,
    seat: Seat,
    did: &Did,
    state: &mut Volatile,
    out: &mut RaftOut,
) -> Result<(), NoMemory>
    requires { last (G.stored stored.now) ≤ most_index }
    ensures settles { OnOk result (Settles seat.me (members_after (G.stored stored.now) did.now.part) state.old state.new out.new) }
    ensures messages { out.new.messages.items ≡ out.old.messages.items }
    ensures frugal { (is_leader state.old.role ≡ true → (has_entries did.now.part ≡ false)
        × NoneReady seat.me (G.stored stored.now) state.old) → IsOk result }
{
    if is_leader(state.role()) {
        out.looks = take_ready(alloc, stored, seat, &did.part, state)?;
        out.lost = Vec::new(alloc);
    } else {
        out.looks = Vec::new(alloc);
        out.lost = state.lose_reads(alloc);
    }
    Ok(())
}

/// What a step does, before its part is written. Nothing after it takes memory but the store. One on a vote takes none either,
/// where it brings no leadership, no read is ready, and there is room for eight messages.
pub fn decide<G: Group>(
    alloc: Global,
    stored: &G,
    seat: Seat,
    event: &RaftEvent,
    state: &mut Volatile,
    out: &mut RaftOut,
) -> Result<Did, NoMemory>
    requires kind { IsSome (event_of event.now) }
    requires may { ForSome (event_of event.now) (λ e. MayStep seat.me (G.stored stored.now) state.old e) }
    requires names { ForSome (event_of event.now) (λ e. NamesMember e) }
    requires reads { is_leader state.old.role ≡ false → state.old.reads.looks ≡ [] }
    ensures reads { OnOk result (is_leader state.new.role ≡ false → state.new.reads.looks ≡ []) }
    ensures did { IfSome (event_of event.now) (λ e. IfOk result (λ did. Decides seat
        (steps.step seat.me (G.stored stored.now) state.old e)
        did state.new out.old out.new)) }
    ensures frugal { (e : Event) → event_of event.now ≡ Some e → is_voting e ≡ true
        → takes_office state.old (steps.step seat.me (G.stored stored.now) state.old e) ≡ false
        → NoneReady seat.me (G.stored stored.now) state.old → 8 ≤ spare out.old.messages → IsOk result }
{
    let did = rule(alloc, stored, seat, event, state, &mut out.messages)?;
    settle(alloc, stored, seat, &did, state, out)?;
    Ok(did)
}
