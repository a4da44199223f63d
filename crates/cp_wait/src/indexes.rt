//! The indexes by which waiters are found.
ghost use Rattle.std.specs.Prelude.{◌≡◌, ◌++◌, ◌∷◌, [], false, List, OnOk, OnErr};
ghost use Rattle.cp_group_state.specs.Waiters.{stands};
ghost use Rattle.cp_group_state.specs.Invariants.{CallsDiffer};
ghost use Rattle.cp_group_state.specs.declared.rows.Waiter.{Waiter};
ghost use Rattle.cp_wait.specs.Arrivals.{is_limited, is_of_thread, without_waiter};
ghost use Rattle.cp_wait.specs.Indexes.{object_calls, thread_calls, session_calls, limited_calls, is_on, is_of_session, is_limited_at, Came, Went, Stayed, IsIndexed, IsPartlyIndexed, IsOnly, FromFresh};

use crate::calls::Calls;
use crate::{index, shelf};
use cp_base::{ClientId, Invocation, Name, NoMemory, ThreadNo};
use cp_group_state::Waiter;
use cp_ops::{Kind, Wish};
use std::alloc::Global;
use std::collections::BTreeMap;

/// The calls that wait on an object, of a thread, of a session, and those that wait for some time only: each in order
/// of arrival.
#[derive(Drop)]
pub(crate) struct Indexes {
    pub(crate) objects: BTreeMap<Kind, BTreeMap<Name, Calls>>,
    pub(crate) threads: BTreeMap<(ClientId, ThreadNo), Calls>,
    pub(crate) sessions: BTreeMap<u64, Calls>,
    pub(crate) limited: Calls,
}

/// The indexes of no waiter.
pub(crate) fn new(alloc: Global) -> Indexes
    ensures { IsIndexed [] result }
{
    Indexes {
        objects: BTreeMap::new(alloc),
        threads: BTreeMap::new(alloc),
        sessions: BTreeMap::new(alloc),
        limited: Calls::new(alloc),
    }
}

fn enter_object(
    shelf: &mut BTreeMap<Kind, BTreeMap<Name, Calls>>,
    alloc: Global,
    waiter: &Waiter,
) -> Result<(), NoMemory>
    ensures ok { OnOk result (Came is_on waiter.now (object_calls shelf.old) (object_calls shelf.new)) }
    ensures err { OnErr result (Stayed (object_calls shelf.old) (object_calls shelf.new)) }
{
    let name = waiter.name.clone()?;
    match shelf::add(shelf, alloc, waiter.kind, name, waiter.call) {
        Ok(()) => Ok(()),
        Err(NoMemory) => Err(NoMemory),
    }
}

fn enter_thread(
    threads: &mut BTreeMap<(ClientId, ThreadNo), Calls>,
    alloc: Global,
    waiter: &Waiter,
) -> Result<(), NoMemory>
    ensures ok { OnOk result (Came is_of_thread waiter.now (thread_calls threads.old) (thread_calls threads.new)) }
    ensures err { OnErr result (Stayed (thread_calls threads.old) (thread_calls threads.new)) }
{
    let call = waiter.call;
    match index::add(threads, alloc, (call.client, call.thread), call) {
        Ok(()) => Ok(()),
        Err(NoMemory) => Err(NoMemory),
    }
}

fn enter_session(
    sessions: &mut BTreeMap<u64, Calls>,
    alloc: Global,
    waiter: &Waiter,
) -> Result<(), NoMemory>
    ensures ok { OnOk result (Came is_of_session waiter.now (session_calls sessions.old) (session_calls sessions.new)) }
    ensures err { OnErr result (Stayed (session_calls sessions.old) (session_calls sessions.new)) }
{
    index::add(sessions, alloc, waiter.session, waiter.call)?;
    Ok(())
}

fn is_limited(wish: &Wish) -> bool
    ensures { result ≡ is_limited wish.now }
{
    match wish {
        Wish::NoLimit => false,
        Wish::Within(_) => true,
    }
}

fn enter_limited(limited: &mut Calls, waiter: &Waiter) -> Result<(), NoMemory>
    ensures ok { OnOk result (Came is_limited_at waiter.now (limited_calls limited.old) (limited_calls limited.new)) }
    ensures err { OnErr result (Stayed (limited_calls limited.old) (limited_calls limited.new)) }
{
    if is_limited(&waiter.wish) {
        limited.add(waiter.call)?;
    }
    Ok(())
}

fn leave_object(shelf: &mut BTreeMap<Kind, BTreeMap<Name, Calls>>, waiter: &Waiter)
    ensures { Went is_on waiter.now (object_calls shelf.old) (object_calls shelf.new) }
{
    shelf::remove(shelf, &waiter.kind, &waiter.name, &waiter.call);
}

fn leave_thread(threads: &mut BTreeMap<(ClientId, ThreadNo), Calls>, waiter: &Waiter)
    ensures { Went is_of_thread waiter.now (thread_calls threads.old) (thread_calls threads.new) }
{
    let call = waiter.call;
    index::remove(threads, &(call.client, call.thread), &call);
}

fn leave_session(sessions: &mut BTreeMap<u64, Calls>, waiter: &Waiter)
    ensures { Went is_of_session waiter.now (session_calls sessions.old) (session_calls sessions.new) }
{
    index::remove(sessions, &waiter.session, &waiter.call);
}

fn leave_limited(limited: &mut Calls, waiter: &Waiter)
    ensures { Went is_limited_at waiter.now (limited_calls limited.old) (limited_calls limited.new) }
{
    if is_limited(&waiter.wish) {
        limited.remove(&waiter.call);
    }
}

/// A waiter comes to each index in turn, as far as there is memory.
fn enter_each(indexes: &mut Indexes, alloc: Global, waiter: &Waiter) -> Result<(), NoMemory>
    ensures ok { OnOk result (FromFresh (λ ws. IsIndexed (ws ++ waiter.now ∷ []) indexes.new) waiter.now indexes.old) }
    ensures part { OnErr result (FromFresh (λ ws. IsPartlyIndexed ws waiter.now indexes.new) waiter.now indexes.old) }
{
    match enter_object(&mut indexes.objects, alloc, waiter) {
        Ok(()) => {}
        Err(NoMemory) => return Err(NoMemory),
    }
    match enter_thread(&mut indexes.threads, alloc, waiter) {
        Ok(()) => {}
        Err(NoMemory) => return Err(NoMemory),
    }
    match enter_session(&mut indexes.sessions, alloc, waiter) {
        Ok(()) => {}
        Err(NoMemory) => return Err(NoMemory),
    }
    match enter_limited(&mut indexes.limited, waiter) {
        Ok(()) => {}
        Err(NoMemory) => return Err(NoMemory),
    }
    Ok(())
}

/// A waiter goes from all indexes.
pub(crate) fn leave(indexes: &mut Indexes, waiter: &Waiter)
    ensures gone { (ws : List Waiter) → CallsDiffer ws → IsOnly waiter.now ws → IsIndexed ws indexes.old →
        IsIndexed (without_waiter waiter.now.call ws) indexes.new }
    ensures undone { (ws : List Waiter) → CallsDiffer ws → stands waiter.now.call ws ≡ false →
        IsPartlyIndexed ws waiter.now indexes.old → IsIndexed ws indexes.new }
{
    leave_object(&mut indexes.objects, waiter);
    leave_thread(&mut indexes.threads, waiter);
    leave_session(&mut indexes.sessions, waiter);
    leave_limited(&mut indexes.limited, waiter);
}

/// A waiter that doesn't stand yet comes last in all indexes. Where memory runs out, they stay.
pub(crate) fn enter(indexes: &mut Indexes, alloc: Global, waiter: &Waiter) -> Result<(), NoMemory>
    ensures ok { OnOk result (FromFresh (λ ws. CallsDiffer ws → IsIndexed (ws ++ waiter.now ∷ []) indexes.new) waiter.now indexes.old) }
    ensures err { OnErr result (FromFresh (λ ws. CallsDiffer ws → IsIndexed ws indexes.new) waiter.now indexes.old) }
{
    match enter_each(indexes, alloc, waiter) {
        Ok(()) => Ok(()),
        Err(NoMemory) => {
            leave(indexes, waiter);
            Err(NoMemory)
        }
    }
}

/// The calls that wait on an object, in order of arrival.
pub(crate) fn on_object<'a>(indexes: &'a Indexes, kind: Kind, name: &Name) -> &'a [Invocation]
    ensures { result.now ≡ object_calls indexes.now.objects (name.now, kind) }
{
    shelf::calls_under(&indexes.objects, &kind, name)
}

/// The calls of this call's thread that wait, in order of arrival.
pub(crate) fn of_thread<'a>(indexes: &'a Indexes, call: &Invocation) -> &'a [Invocation]
    ensures { result.now ≡ thread_calls indexes.now.threads (call.now.client, call.now.thread) }
{
    index::calls_at(&indexes.threads, &(call.client, call.thread))
}

/// The calls of a session that wait, in order of arrival.
pub(crate) fn of_session(indexes: &Indexes, session: u64) -> &[Invocation]
    ensures { result.now ≡ session_calls indexes.now.sessions session }
{
    index::calls_at(&indexes.sessions, &session)
}
