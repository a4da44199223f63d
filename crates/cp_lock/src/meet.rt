//! What an acquire and a release meet in the rows.
ghost use Rattle.std.specs.Prelude.{◌≡◌, ◌-◌, false};
ghost use Rattle.cp_group_state.specs.Rows.{has_room, most, name_cmp};
ghost use Rattle.cp_group_state.specs.Locks.{free_lock, held_once, is_free, is_held_by, lock_at, most_holds};
ghost use Rattle.cp_group_state.specs.Invariants.{IsHeldOrFree};
ghost use Rattle.cp_lock.specs.Meetings.{IsAgain, IsAsked, IsStep};

use cp_base::limits::{MOST_HOLDS, MOST_ROWS};
use cp_base::{Name, ThreadNo};
use cp_group_state::{Holder, LockRow};
use std::collections::BTreeMap;

/// What an acquire meets.
pub enum Asked {
    /// Nobody holds the lock.
    Free,
    /// The thread holds it, and this is the row with one hold more.
    Again(LockRow),
    /// The thread holds it as often as it may.
    Most(u32),
    /// Another thread holds it.
    Busy,
}

/// What a release meets.
pub enum Step {
    /// The thread doesn't hold the lock.
    Not,
    /// The thread holds it once.
    Last,
    /// The thread holds it, and this is the row with one hold less.
    Less(LockRow),
}

/// The row of a lock that nobody holds.
pub fn free_row() -> LockRow
    ensures row { result ≡ free_lock }
    ensures well { IsHeldOrFree result }
{
    LockRow {
        holder: Holder {
            session: 0,
            thread: ThreadNo(0),
        },
        fence: 0,
        holds: 0,
    }
}

/// The row of a lock that is held once.
pub fn row_held_once(who: &Holder, fence: u64) -> LockRow
    ensures row { result ≡ held_once who.now fence }
    ensures well { IsHeldOrFree result }
{
    LockRow {
        holder: *who,
        fence,
        holds: 1,
    }
}

/// Whether nobody holds the lock.
pub fn is_free_row(row: &LockRow) -> bool
    ensures { result ≡ is_free row.now }
{
    row.holds == 0
}

fn is_owned_by(row: &LockRow, who: &Holder) -> bool
    ensures { result ≡ is_held_by who.now row.now }
{
    !is_free_row(row) && row.holder.session == who.session && row.holder.thread.0 == who.thread.0
}

fn most_under(limit: u32) -> u32
    ensures { result ≡ most_holds limit }
{
    if limit == 0 { MOST_HOLDS } else { limit }
}

fn once_more(row: &LockRow, limit: u32) -> Asked
    ensures { IsAgain result row.now limit }
{
    let most = most_under(limit);
    if row.holds < most {
        Asked::Again(LockRow {
            holder: row.holder,
            fence: row.fence,
            holds: row.holds + 1,
        })
    } else {
        Asked::Most(most)
    }
}

/// What an acquire by this holder meets.
pub fn meet_acquire(rows: &BTreeMap<Name, LockRow>, name: &Name, who: &Holder, limit: u32) -> Asked
    ensures { IsAsked result name.now who.now limit rows.now.entries }
{
    match rows.get(name) {
        None => Asked::Free,
        Some(row) => {
            if is_free_row(row) {
                Asked::Free
            } else if is_owned_by(row, who) {
                once_more(row, limit)
            } else {
                Asked::Busy
            }
        }
    }
}

fn once_less(row: &LockRow) -> LockRow
    requires { is_free row.now ≡ false }
    ensures { result ≡ record row.now { holds = row.now.holds - 1 } }
{
    LockRow {
        holder: row.holder,
        fence: row.fence,
        holds: row.holds - 1,
    }
}

/// What a release by this holder meets.
pub fn meet_release(rows: &BTreeMap<Name, LockRow>, name: &Name, who: &Holder) -> Step
    ensures { IsStep result name.now who.now rows.now.entries }
{
    match rows.get(name) {
        None => Step::Not,
        Some(row) => {
            if !is_owned_by(row, who) {
                Step::Not
            } else if row.holds == 1 {
                Step::Last
            } else {
                Step::Less(once_less(row))
            }
        }
    }
}

/// Whether there is room for a row under this name.
pub fn has_room_for(rows: &BTreeMap<Name, LockRow>, name: &Name) -> bool
    ensures { result ≡ has_room name_cmp most rows.now.entries name.now }
{
    rows.contains_key(name) || rows.len() < MOST_ROWS as usize
}
