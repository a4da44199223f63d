//! What a follower does with an append.
ghost use Rattle.std.specs.Prelude.{◌≡◌, ◌+◌, ◌-◌, ◌<◌, ◌^◌, drop, length, map};
ghost use Rattle.cp_log_rules.specs.Persistent.{term_at};
ghost use Rattle.cp_rules.specs.Persistent.{has_term};
ghost use Rattle.cp_rules.specs.Appends.{follower_commit, refused_index};
ghost use Rattle.cp_replicate.specs.Logs.{entry_of};
ghost use Rattle.cp_replicate.specs.Decisions.{differs, compared, followed};

use crate::by_index::Log;
use cp_message::LogEntry;

/// What a follower does with the entries of an append.
#[derive(Clone, Copy, Debug, PartialEq, Eq)]
pub enum Followed {
    /// It lacks the index before them, or has another term there; the leader may go on from this index.
    Refused(u64),
    /// It has them all, and its log stays as it is.
    Kept,
    /// They differ from what it has committed, which a leader never sends: its log stays, and it does not answer.
    Conflict,
    /// They replace its log behind this index, where they first differ from it.
    Replaced(u64),
}

/// Whether a log has this term at an index.
pub fn has_term<L: Log>(log: &L, index: u64, term: u64) -> bool
    ensures { result ≡ has_term (L.stored log.now) index term }
{
    match log.term_at(index) {
        Some(own) => own == term,
        None => false,
    }
}

/// The index behind which entries that follow an index first differ from a log: they go past its end there, or have
/// another term. None where the log has them all.
pub fn first_difference<L: Log>(log: &L, after: u64, entries: &[LogEntry]) -> Option<u64>
    requires { after + length entries.now < 2 ^ 64 }
    ensures { result ≡ differs (term_at (L.stored log.now)) after (map entry_of entries.now) }
{
    let mut after = after;
    let mut rest = entries;
    while let [entry, others @ ..] = rest {
        if !has_term(log, after + 1, entry.term) {
            return Some(after);
        }
        after += 1;
        rest = others;
    }
    None
}

/// The entries behind the first so many.
pub fn behind(entries: &[LogEntry], count: u64) -> &[LogEntry]
    ensures items { map entry_of result.now ≡ drop count (map entry_of entries.now) }
    ensures length { length result.now ≡ length entries.now - count }
{
    let mut count = count;
    let mut rest = entries;
    while count > 0 {
        match rest {
            [_, others @ ..] => {
                count -= 1;
                rest = others;
            }
            [] => return rest,
        }
    }
    rest
}

/// What a follower with this commit does with entries that follow an index which it has.
fn compared<L: Log>(log: &L, commit: u64, after: u64, entries: &[LogEntry]) -> Followed
    requires { after + length entries.now < 2 ^ 64 }
    ensures { result ≡ compared commit (differs (term_at (L.stored log.now)) after (map entry_of entries.now)) }
{
    match first_difference(log, after, entries) {
        None => Followed::Kept,
        Some(after) => {
            if after < commit {
                Followed::Conflict
            } else {
                Followed::Replaced(after)
            }
        }
    }
}

/// What a follower with this commit does with entries that follow an index of this term, in an append of a term that is
/// not smaller than its own. What its base covers is left out.
pub fn follow<L: Log>(
    log: &L,
    commit: u64,
    previous: u64,
    previous_term: u64,
    entries: &[LogEntry],
) -> Followed
    requires { previous + length entries.now < 2 ^ 64 }
    ensures { result ≡ followed (L.stored log.now) commit previous previous_term (map entry_of entries.now) }
{
    let base = log.base();
    if previous < base {
        return compared(log, commit, base, behind(entries, base - previous));
    }
    if has_term(log, previous, previous_term) {
        compared(log, commit, previous, entries)
    } else {
        Followed::Refused(refused_index(log.last(), previous))
    }
}

/// The index that a refusal names, of a follower whose log ends at `last`.
pub fn refused_index(last: u64, previous: u64) -> u64
    ensures { result ≡ refused_index last previous }
{
    last.min(previous.saturating_sub(1))
}

/// How far a follower has committed after an append that it took, with what the leader told and up to which index its
/// log follows the leader's.
pub fn follower_commit(commit: u64, told: u64, index: u64) -> u64
    ensures { result ≡ follower_commit commit told index }
{
    commit.max(told.min(index))
}
