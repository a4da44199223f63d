//! Reads after a rule.
ghost use Rattle.std.specs.Prelude.{◌≡◌, ◌≤◌, false, filter, IfOk, IsOk, OnOk};
ghost use Rattle.cp_log_rules.specs.Persistent.{last};
ghost use Rattle.cp_rules.specs.Limits.{most_index};
ghost use Rattle.cp_rules.specs.Confirming.{is_ready};
ghost use Rattle.cp_raft_state.specs.Looking.{without_ready};
ghost use Rattle.cp_raft.specs.Frugal.{NoneReady, has_entries};
ghost use Rattle.cp_raft.specs.Settling.{brought_by, members_after};

use cp_base::NoMemory;
use cp_parts::{Config, Part, config_of_entry};
use cp_raft_state::{Group, Look, Seat, Volatile, members};
use std::alloc::Global;

/// The configuration that the part of a leader's step brings, with an entry at this index.
fn brought(alloc: Global, index: u64, part: &Option<Part>) -> Result<Option<Config>, NoMemory>
    ensures config { IfOk result (λ config. config ≡ brought_by index part.now) }
    ensures frugal { has_entries part.now ≡ false → IsOk result }
{
    match part {
        Some(Part::Append(_group, _term, _vote, _after, entries)) => match entries.as_slice() {
            [entry] => config_of_entry(alloc, index, entry.bytes.as_slice()),
            _ => Ok(None),
        },
        _ => Ok(None),
    }
}

/// Tells the reads that are ready at a leader after its part. Where that has no entries and none is ready, it takes no memory.
pub fn take_ready<G: Group>(
    alloc: Global,
    stored: &G,
    seat: Seat,
    part: &Option<Part>,
    state: &mut Volatile,
) -> Result<Vec<Look>, NoMemory>
    requires { last (G.stored stored.now) ≤ most_index }
    ensures looks { IfOk result (λ looks. looks.items ≡ filter
        (is_ready seat.me (members_after (G.stored stored.now) part.now) state.old.reads state.old.commit)
        state.old.reads.looks) }
    ensures state { OnOk result (state.new ≡ without_ready seat.me (members_after (G.stored stored.now) part.now) state.old) }
    ensures frugal { has_entries part.now ≡ false → NoneReady seat.me (G.stored stored.now) state.old → IsOk result }
{
    match brought(alloc, stored.last() + 1, part)? {
        Some(config) => {
            let looks = state.take_ready(alloc, seat.me, config.members.as_slice())?;
            Ok(looks)
        }
        None => {
            let looks = state.take_ready(alloc, seat.me, members(stored))?;
            Ok(looks)
        }
    }
}
