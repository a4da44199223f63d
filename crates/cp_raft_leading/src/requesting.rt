//! Entries that a leader is asked to append.
ghost use Rattle.std.specs.Prelude.{◌≡◌, ◌≤◌, ◌<◌, ℕ, suc, length, IfOk};
ghost use Rattle.cp_log_rules.specs.Persistent.{last};
ghost use Rattle.cp_rules.specs.Limits.{most_index};
ghost use Rattle.cp_rules.specs.Local as local;
ghost use Rattle.cp_rules.specs.Requests as requests;
ghost use Rattle.cp_rules.specs.Volatile.{peer};
ghost use Rattle.cp_rules_facts.specs.Soundness.{IsPlaced};
ghost use Rattle.cp_rules_ranges.specs.Laws.{MayStep};
ghost use Rattle.cp_raft_state.specs.Doing.{Does};

use crate::creating::creates;
use cp_base::{Items, NoMemory};
use cp_message::Message;
use cp_raft_state::{Did, Group, Seat, Volatile, ballot_of, refused};
use cp_replicate::may_propose;
use cp_rules::Outcome;
use std::alloc::Global;

/// A leader appends an entry, and tells its index.
pub fn proposes<G: Group>(
    alloc: Global,
    stored: &G,
    seat: Seat,
    entry: Items<u8>,
    state: &mut Volatile,
    out: &mut Vec<Message>,
) -> Result<Did, NoMemory>
    requires room { last (G.stored stored.now) < most_index }
    requires above_base { (G.stored stored.now).base ≤ state.old.commit }
    requires within { state.old.commit ≤ last (G.stored stored.now) }
    requires placed { (member : ℕ) → IsPlaced (suc (last (G.stored stored.now)))
        (length (G.stored stored.now).snapshot) (peer state.old.peers member) }
    ensures { IfOk result (λ did. Does seat
        (requests.proposes seat.me (G.stored stored.now) state.old entry)
        did state.new out.old.items out.new.items) }
{
    let Did { part, outcome: _ } = creates(
        alloc,
        stored,
        seat,
        ballot_of(stored),
        entry,
        state,
        out,
    )?;
    let outcome = Outcome::Proposed(stored.last() + 1);
    Ok(Did { part, outcome })
}

/// An entry is proposed.
#[tactic(auto, using(crate::proofs::Doing::same))]
pub fn on_propose<G: Group>(
    alloc: Global,
    stored: &G,
    seat: Seat,
    entry: &[u8],
    state: &mut Volatile,
    out: &mut Vec<Message>,
) -> Result<Did, NoMemory>
    requires may { MayStep seat.me (G.stored stored.now) state.old (local.Propose entry.now) }
    ensures { IfOk result (λ did. Does seat
        (requests.on_propose seat.me (G.stored stored.now) state.old entry.now)
        did state.new out.old.items out.new.items) }
{
    match may_propose(state.role(), state.leader(), stored.last(), state.commit()) {
        Ok(()) => {
            let copy = Vec::from_slice(alloc, entry)?;
            proposes(alloc, stored, seat, Items::from_vec(copy), state, out)
        }
        Err(refusal) => Ok(refused(refusal)),
    }
}
