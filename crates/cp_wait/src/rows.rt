//! The waiters under their calls.
ghost use Rattle.std.specs.Prelude.{◌≡◌, ◌++◌, ◌∷◌, [], None, is_some, slice_get, IfOk, IfErr, OnOk, OnErr};
ghost use Rattle.std.specs.Option.{option_copied};
ghost use Rattle.std.specs.Map.{lookup, remove_entry};
ghost use Rattle.cp_group_state.specs.Waiters.{same_call};
ghost use Rattle.cp_wait.specs.Queues.{waiters_at, waiter_at, served_at};

use cp_base::{Invocation, Items, NoMemory};
use cp_group_state::Waiter;
use indexmap::IndexMap;
use std::alloc::Global;

/// The waiter of a call.
pub(crate) fn row_of<'a>(
    rows: &'a IndexMap<Invocation, Waiter>,
    call: &Invocation,
) -> Option<&'a Waiter>
    ensures { option_copied result ≡ lookup (same_call call.now) rows.now.entries }
{
    rows.get(call)
}

/// Whether there is a waiter of a call.
pub(crate) fn has_row(rows: &IndexMap<Invocation, Waiter>, call: &Invocation) -> bool
    ensures { result ≡ is_some (lookup (same_call call.now) rows.now.entries) }
{
    rows.contains_key(call)
}

/// The waiter of the call at a place of a list.
pub(crate) fn nth<'a>(
    rows: &'a IndexMap<Invocation, Waiter>,
    calls: &[Invocation],
    place: usize,
) -> Option<&'a Waiter>
    ensures { option_copied result ≡ waiter_at (slice_get calls.now place) rows.now.entries }
{
    match calls.get(place) {
        Some(call) => row_of(rows, call),
        None => None,
    }
}

/// Takes the waiter of a call out. The others keep their order.
pub(crate) fn take_row(rows: &mut IndexMap<Invocation, Waiter>, call: &Invocation) -> Option<Waiter>
    ensures value { result ≡ lookup (same_call call.now) rows.old.entries }
    ensures rest { rows.new.entries ≡ remove_entry (same_call call.now) rows.old.entries }
{
    rows.shift_remove(call)
}

/// Puts a waiter last. Where memory runs out, the rows stay, and the waiter comes back.
pub(crate) fn add_row(rows: &mut IndexMap<Invocation, Waiter>, waiter: Waiter) -> Result<(), Waiter>
    requires { lookup (same_call waiter.call) rows.old.entries ≡ None }
    ensures ok { OnOk result (rows.new.entries ≡ rows.old.entries ++ (waiter.call, waiter) ∷ []) }
    ensures err { OnErr result (rows.new.entries ≡ rows.old.entries) }
    ensures back { IfErr result (λ back. back ≡ waiter) }
{
    match rows.insert(waiter.call, waiter) {
        Ok(_) => Ok(()),
        Err(refused) => {
            let (_call, waiter) = refused.value;
            Err(waiter)
        }
    }
}

/// The waiters of these calls, copied, in the order of the calls.
pub(crate) fn gather(
    alloc: Global,
    rows: &IndexMap<Invocation, Waiter>,
    calls: &[Invocation],
) -> Result<Items<Waiter>, NoMemory>
    ensures { IfOk result (λ found. found ≡ waiters_at calls.now rows.now.entries) }
{
    let mut found = Items::new(alloc);
    let mut rest = calls;
    while let [call, after @ ..] = rest {
        if let Some(waiter) = row_of(rows, call) {
            found.push(waiter.clone()?)?;
        }
        rest = after;
    }
    Ok(found)
}

/// The waiters of these calls, copied, that what is available serves, strictly in the order of the calls.
pub(crate) fn serve(
    alloc: Global,
    rows: &IndexMap<Invocation, Waiter>,
    calls: &[Invocation],
    available: i64,
) -> Result<Items<Waiter>, NoMemory>
    ensures { IfOk result (λ found. found ≡ served_at available calls.now rows.now.entries) }
{
    let mut found = Items::new(alloc);
    let mut left = available;
    let mut rest = calls;
    while let [call, after @ ..] = rest {
        if let Some(waiter) = row_of(rows, call) {
            let wanted = i64::from(waiter.permits);
            if left < wanted {
                return Ok(found);
            }
            left -= wanted;
            found.push(waiter.clone()?)?;
        }
        rest = after;
    }
    Ok(found)
}
