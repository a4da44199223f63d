//! Which entries go into one append.
ghost use Rattle.std.specs.Prelude.{◌≡◌, ◌<◌, ◌≤◌, suc, length};
ghost use Rattle.cp_log_rules.specs.Persistent.{last};
ghost use Rattle.cp_rules.specs.Limits.{most_index};
ghost use Rattle.cp_rules.specs.Sending.{batch, within};
ghost use Rattle.cp_replicate.specs.Logs.{size_at, fitting, from};

use crate::by_index::Log;
use cp_base::limits::{MOST_CHUNK, MOST_ENTRIES};

/// How many bytes the entry at an index has.
fn size_at<L: Log>(log: &L, index: u64) -> Option<u64>
    ensures { result ≡ size_at (L.stored log.now) index }
{
    match log.entry(index) {
        Some(entry) => Some(entry.len() as u64),
        None => None,
    }
}

/// How many bytes the entry at an index has, where there is room for it.
fn fitting<L: Log>(log: &L, index: u64, bytes: u64) -> Option<u64>
    ensures { result ≡ fitting (size_at (L.stored log.now) index) bytes }
{
    match size_at(log, index) {
        Some(size) => { if size <= bytes { Some(size) } else { None } }
        None => None,
    }
}

/// How many entries from an index on there is room for.
#[tactic(auto, using(crate::proofs::Batches::stops, crate::proofs::Batches::goes_on, crate::proofs::Batches::in_log, crate::proofs::Batches::at_most))]
fn within<L: Log>(log: &L, index: u64, count: u64, bytes: u64) -> u64
    requires base { (L.stored log.now).base < index }
    requires last { last (L.stored log.now) ≤ most_index }
    requires index { index ≤ suc most_index }
    ensures value { result ≡ length (within (from (L.stored log.now) index) count bytes) }
    ensures few { result ≤ count }
{
    let mut index = index;
    let mut count = count;
    let mut bytes = bytes;
    let mut taken = 0;
    while count > 0 {
        match fitting(log, index, bytes) {
            Some(size) => {
                index += 1;
                count -= 1;
                bytes -= size;
                taken += 1;
            }
            None => return taken,
        }
    }
    taken
}

/// How many entries from an index on, which the base does not cover, go into one append: the first, and as many after it
/// as there is room for.
#[tactic(auto, using(crate::proofs::Batches::nothing, crate::proofs::Batches::first, crate::proofs::Batches::within_log))]
pub fn batch<L: Log>(log: &L, next: u64) -> u64
    requires base { (L.stored log.now).base < next }
    requires last { last (L.stored log.now) ≤ most_index }
    ensures { result ≡ length (batch (from (L.stored log.now) next)) }
{
    match size_at(log, next) {
        None => 0,
        Some(size) => {
            let bytes = u64::from(MOST_CHUNK).saturating_sub(size);
            1 + within(log, next + 1, u64::from(MOST_ENTRIES) - 1, bytes)
        }
    }
}
