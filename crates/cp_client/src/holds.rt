//! What an answer does to a thread's record of a lock that it holds.
ghost use Rattle.std.specs.Prelude.{◌≡◌, ◌<◌, ℕ, IsTrue, IfOk, OnOk};
ghost use Rattle.cp_group_state.specs.Rows.{find};
ghost use Rattle.cp_client_rules.specs.Clients.{lock_cmp};
ghost use Rattle.cp_client_rules.specs.Holds.{ends_holding, held_after, holding, is_lock, is_owner, is_unlock, lowered, raised};
ghost use Rattle.cp_client.specs.Calling.{call_of};
ghost use Rattle.cp_client.specs.Changes.{change_of, changed};
ghost use Rattle.cp_client.specs.Rooms.{HoldsHaveRoom};

use crate::call::Call;
use cp_answers::Answer;
use cp_base::limits::LAST_NUMBER;
use cp_base::{GroupId, Name, NoMemory, ThreadNo};
use cp_client_rules::{HoldRecord, Purpose};
use cp_events::{LockCall, UserOp};
use cp_op_values::Kind;
use cp_rows::put_row;
use std::collections::BTreeMap;

/// A lock of a group as a thread knows it: the thread, the group, the name.
pub type LockKey = (u8, u64, Name);

/// What an answer to a call on a lock does to the thread's record of the lock.
#[derive(Clone, Copy)]
pub enum Change {
    /// One hold more.
    Raises,
    /// One hold less.
    Lowers,
    /// The record goes.
    Ends,
    /// The session expired: a record goes, and ownership is lost.
    Expires,
    /// Nothing.
    Stays,
}

pub fn key_of(thread: ThreadNo, group: GroupId, name: &Name) -> Result<LockKey, NoMemory>
    ensures { IfOk result (λ key. key ≡ (thread.0, group.0, name.now)) }
{
    Ok((thread.0, group.0, name.clone()?))
}

/// The record of a lock.
pub fn record_of(holds: &BTreeMap<LockKey, HoldRecord>, key: &LockKey) -> Option<HoldRecord>
    ensures { result ≡ find lock_cmp holds.now.entries key.now }
{
    holds.get(key).copied()
}

/// Whether no count of holds is near the end of its range.
#[tactic(auto, using(crate::proofs::Rooms::all_room))]
pub fn have_room(holds: &BTreeMap<LockKey, HoldRecord>) -> bool
    ensures { IsTrue result → HoldsHaveRoom holds.now.entries }
{
    holds.values().all(|record| record.holds < LAST_NUMBER)
}

/// One hold more.
fn raise(
    holds: &mut BTreeMap<LockKey, HoldRecord>,
    key: LockKey,
    session: u64,
) -> Result<(), NoMemory>
    requires { HoldsHaveRoom holds.old.entries }
    ensures { OnOk result (holds.new.entries ≡ raised session key holds.old.entries) }
{
    match record_of(holds, &key) {
        None => put_row(holds, key, HoldRecord { session, holds: 1 }),
        Some(record) => {
            let more = HoldRecord {
                session: record.session,
                holds: record.holds + 1,
            };
            put_row(holds, key, more)
        }
    }
}

/// One hold less; a record of no holds goes.
fn lower(holds: &mut BTreeMap<LockKey, HoldRecord>, key: LockKey) -> Result<(), NoMemory>
    ensures { OnOk result (holds.new.entries ≡ lowered key (find lock_cmp holds.old.entries key) holds.old.entries) }
{
    match record_of(holds, &key) {
        None => Ok(()),
        Some(record) => {
            if record.holds > 1 {
                let less = HoldRecord {
                    session: record.session,
                    holds: record.holds - 1,
                };
                put_row(holds, key, less)
            } else {
                holds.remove(&key);
                Ok(())
            }
        }
    }
}

fn is_owner(call: LockCall) -> bool
    ensures { result ≡ is_owner call }
{
    match call {
        LockCall::Owner => true,
        LockCall::Lock | LockCall::Try(_) | LockCall::Unlock => false,
    }
}

fn is_unlock(call: LockCall) -> bool
    ensures { result ≡ is_unlock call }
{
    match call {
        LockCall::Unlock => true,
        LockCall::Lock | LockCall::Try(_) | LockCall::Owner => false,
    }
}

fn change_of(call: LockCall, answer: &Answer) -> Change
    ensures { result ≡ change_of call answer.now }
{
    match answer {
        Answer::Fence(_) => if is_owner(call) {
            Change::Stays
        } else {
            Change::Raises
        },
        Answer::Ok => if is_unlock(call) {
            Change::Lowers
        } else {
            Change::Stays
        },
        Answer::NotOwner | Answer::ObjectDestroyed | Answer::GroupDestroyed(_) => Change::Ends,
        Answer::SessionExpired(_) => if is_owner(call) {
            Change::Stays
        } else {
            Change::Expires
        },
        _ => Change::Stays,
    }
}

/// The change is made, and the answer that the call ends with is given.
fn make_change(
    holds: &mut BTreeMap<LockKey, HoldRecord>,
    which: Change,
    key: LockKey,
    session: u64,
    answer: Answer,
) -> Result<Answer, NoMemory>
    requires { HoldsHaveRoom holds.old.entries }
    ensures holds { OnOk result (holds.new.entries ≡ (changed which key session answer holds.old.entries).holds) }
    ensures answer { IfOk result (λ last. last ≡ (changed which key session answer holds.old.entries).answer) }
{
    match which {
        Change::Raises => raise(holds, key, session)?,
        Change::Lowers => lower(holds, key)?,
        Change::Ends => {
            holds.remove(&key);
        }
        Change::Expires => {
            if holds.remove(&key).is_some() {
                return Ok(Answer::OwnershipLost);
            }
        }
        Change::Stays => {}
    }
    Ok(answer)
}

fn is_lock(kind: Kind) -> bool
    ensures { result ≡ is_lock kind }
{
    match kind {
        Kind::Lock => true,
        Kind::Long | Kind::Ref | Kind::Sem | Kind::Jsem | Kind::Latch | Kind::Map => false,
    }
}

/// Whether the answer says that the thread doesn't hold the lock.
fn ends_holding(answer: &Answer) -> bool
    ensures { result ≡ ends_holding answer.now }
{
    match answer {
        Answer::NotOwner | Answer::ObjectDestroyed | Answer::GroupDestroyed(_) => true,
        _ => false,
    }
}

/// An answer to a call on the lock itself, in this session.
#[tactic(auto, using(crate::proofs::Cases::held_changed))]
fn hold_after(
    holds: &mut BTreeMap<LockKey, HoldRecord>,
    key: LockKey,
    call: LockCall,
    session: u64,
    answer: Answer,
) -> Result<Answer, NoMemory>
    requires { HoldsHaveRoom holds.old.entries }
    ensures holds { OnOk result (holds.new.entries ≡ (held_after key call session answer holds.old.entries).holds) }
    ensures answer { IfOk result (λ last. last ≡ (held_after key call session answer holds.old.entries).answer) }
{
    let which = change_of(call, &answer);
    make_change(holds, which, key, session, answer)
}

/// An answer to a call: the records change, and the answer that the call ends with is given.
pub fn holding(
    holds: &mut BTreeMap<LockKey, HoldRecord>,
    call: &Call,
    purpose: Purpose,
    answer: Answer,
) -> Result<Answer, NoMemory>
    requires { HoldsHaveRoom holds.old.entries }
    ensures holds { OnOk result (holds.new.entries
        ≡ (holding call.now.thread call.now.group call.now.op purpose answer holds.old.entries).holds) }
    ensures answer { IfOk result (λ last. last
        ≡ (holding call.now.thread call.now.group call.now.op purpose answer holds.old.entries).answer) }
{
    match &call.op {
        UserOp::Lock(object, lock) => match purpose {
            Purpose::ForItself(session) => {
                let key = key_of(call.thread, call.group, &object.name)?;
                hold_after(holds, key, *lock, session, answer)
            }
            Purpose::ForSession | Purpose::ForRound => Ok(answer),
        },
        UserOp::Destroy(kind, object) => {
            if is_lock(*kind) && ends_holding(&answer) {
                let key = key_of(call.thread, call.group, &object.name)?;
                holds.remove(&key);
            }
            Ok(answer)
        }
        _ => Ok(answer),
    }
}
