//! The end of what is remembered of closed sessions.
ghost use Rattle.std.specs.Prelude.{◌≡◌, ◌<◌, ℕ, length, None, IsSome, MatchOption};
ghost use Rattle.cp_group_state.specs.Rows.{find, holder_cmp};
ghost use Rattle.cp_remembered.specs.Forgetting.{IsFirstFrom, IsNoneFrom, forgotten, of_others};

use cp_group_state::MemoryRow;
use std::collections::BTreeMap;

/// The first key of this session or a later one.
fn first_from(rows: &BTreeMap<(u64, u8), MemoryRow>, session: u64) -> Option<(u64, u8)>
    ensures { MatchOption result (IsNoneFrom (session, 0) rows.now.entries) (λ key. IsFirstFrom (session, 0) key rows.now.entries) }
{
    match rows.range((session, 0)..).next() {
        Some((key, _row)) => Some(*key),
        None => None,
    }
}

/// A thread that has a row in this session, if there is one.
#[tactic(auto, using(crate::proofs::Forgotten::none_from, crate::proofs::Forgotten::none_past))]
fn thread_of(rows: &BTreeMap<(u64, u8), MemoryRow>, session: u64) -> Option<u8>
    ensures { MatchOption result ((t : ℕ) → find holder_cmp rows.now.entries (session, t) ≡ None)
        (λ t. IsSome (find holder_cmp rows.now.entries (session, t))) }
{
    match first_from(rows, session) {
        Some(key) => { if key.0 == session { Some(key.1) } else { None } }
        None => None,
    }
}

/// What is remembered of a thread of the session goes.
fn forget_thread(rows: &mut BTreeMap<(u64, u8), MemoryRow>, session: u64, thread: u8)
    requires { IsSome (find holder_cmp rows.old.entries (session, thread)) }
    ensures others { of_others session rows.new.entries ≡ of_others session rows.old.entries }
    ensures less { length rows.new.entries < length rows.old.entries }
{
    rows.remove(&(session, thread));
}

/// What is remembered of the session goes.
fn forget_one(rows: &mut BTreeMap<(u64, u8), MemoryRow>, session: u64)
    ensures { rows.new.entries ≡ of_others session rows.old.entries }
{
    while let Some(thread) = thread_of(rows, session) {
        forget_thread(rows, session, thread);
    }
}

/// What is remembered of these sessions goes, of one after the other.
pub fn forget_each(rows: &mut BTreeMap<(u64, u8), MemoryRow>, sessions: &[u64])
    ensures { rows.new.entries ≡ forgotten sessions.now rows.old.entries }
{
    let mut rest = sessions;
    while let [session, after @ ..] = rest {
        forget_one(rows, *session);
        rest = after;
    }
}
