//! Entries as they stand in an append.
ghost use Rattle.std.specs.Prelude.{◌≡◌, ◌≤◌, ◌<◌, map, take, IfOk};
ghost use Rattle.std.specs.Option.{option_map};
ghost use Rattle.cp_replicate.specs.Logs.{from};
ghost use Rattle.cp_log_rules.specs.Persistent.{entry_at, last};
ghost use Rattle.cp_rules.specs.Limits.{most_index};
ghost use Rattle.cp_rules.specs.Sending as sending;
ghost use Rattle.cp_rules.specs.Sending.{entries_from};
ghost use Rattle.cp_rules_ranges.specs.Messages.{body_of, entry_of};

use cp_base::{GroupId, Items, NoMemory};
use cp_message::{Body, LogEntry};
use cp_raft_state::{Group, Volatile, append_body};
use cp_replicate::{batch, known_term};
use std::alloc::Global;

/// The entry at an index, copied; none at others.
#[tactic(auto, using(crate::proofs::Copies::entry_known, crate::proofs::Copies::no_entry))]
fn copy_at<G: Group>(alloc: Global, stored: &G, index: u64) -> Result<Option<LogEntry>, NoMemory>
    ensures { IfOk result (λ entry. entry ≡ option_map entry_of (entry_at (G.stored stored.now) index)) }
{
    let Some(lent) = stored.entry(index) else {
        return Ok(None);
    };
    let term = known_term(stored, index);
    let bytes = Items::from_vec(Vec::from_slice(alloc, lent)?);
    Ok(Some(LogEntry { term, bytes }))
}

/// So many entries from an index on, copied, or those that there are.
#[tactic(auto, using(crate::proofs::Copies::one_more, crate::proofs::Copies::all_taken, crate::proofs::Copies::in_log))]
fn copies<G: Group>(
    alloc: Global,
    stored: &G,
    next: u64,
    count: u64,
) -> Result<Items<LogEntry>, NoMemory>
    requires base { (G.stored stored.now).base < next }
    requires last { last (G.stored stored.now) ≤ most_index }
    ensures { IfOk result (λ entries. entries ≡ map entry_of (take count (from (G.stored stored.now) next))) }
{
    let mut index = next;
    let mut left = count;
    let mut copies = Vec::new(alloc);
    while left > 0 {
        match copy_at(alloc, stored, index)? {
            Some(entry) => {
                copies.push(entry)?;
                index += 1;
                left -= 1;
            }
            None => return Ok(Items::from_vec(copies)),
        }
    }
    Ok(Items::from_vec(copies))
}

/// The entries of an append from an index on, as many as one append has.
#[tactic(auto, using(crate::proofs::Copies::as_batch))]
fn batch_from<G: Group>(alloc: Global, stored: &G, next: u64) -> Result<Items<LogEntry>, NoMemory>
    requires base { (G.stored stored.now).base < next }
    requires last { last (G.stored stored.now) ≤ most_index }
    ensures { IfOk result (λ entries. entries ≡ map entry_of (sending.batch (from (G.stored stored.now) next))) }
{
    let count = batch(stored, next);
    copies(alloc, stored, next, count)
}

/// An append of what follows the index before `next`, as much as one append has.
pub fn entries_from<G: Group>(
    alloc: Global,
    stored: &G,
    group: GroupId,
    state: &Volatile,
    next: u64,
) -> Result<Body, NoMemory>
    requires base { (G.stored stored.now).base < next }
    requires last { last (G.stored stored.now) ≤ most_index }
    ensures { IfOk result (λ body. body ≡ body_of group (entries_from (G.stored stored.now) state.now next)) }
{
    let entries = batch_from(alloc, stored, next)?;
    let previous = next - 1;
    Ok(append_body(
        group,
        stored.term(),
        previous,
        known_term(stored, previous),
        state.commit(),
        entries,
    ))
}
