//! What sessions hold.
ghost use Rattle.std.specs.Prelude.{◌≡◌, ◌∷◌, ℕ, List, not, Some, None, unwrap_or, bytes_eq, IfOk, OnOk, OnErr};
ghost use Rattle.std.specs.List.{filter};
ghost use Rattle.std.specs.Map.{keys_of};
ghost use Rattle.std.specs.Ordering.{nat_cmp};
ghost use Rattle.cp_group_state.specs.Rows.{find};
ghost use Rattle.cp_group_state.specs.Semaphores.{held, set_held};
ghost use Rattle.cp_semaphore.specs.Nested.{flat, found, held_option, IsNested, Sets, SameHoldings, ClosesSession, without_name};

use cp_base::{Name, NoMemory};
use std::alloc::{AllocError, Global};
use std::collections::BTreeMap;

fn found(holdings: &BTreeMap<u64, BTreeMap<Name, u64>>, session: u64, name: &Name) -> u64
    ensures { result ≡ unwrap_or (found holdings.now.entries (session, name.now)) 0 }
{
    match holdings.get(&session) {
        Some(held) => match held.get(name) {
            Some(permits) => *permits,
            None => 0,
        },
        None => 0,
    }
}

/// What a session holds of the semaphore of a name.
pub(crate) fn held(holdings: &BTreeMap<u64, BTreeMap<Name, u64>>, session: u64, name: &Name) -> u64
    requires { IsNested holdings.now.entries }
    ensures { result ≡ held (flat holdings.now.entries) session name.now }
{
    found(holdings, session, name)
}

/// A session holds so many permits of the semaphore of a name. Where memory runs out, all holdings stay.
fn put(
    holdings: &mut BTreeMap<u64, BTreeMap<Name, u64>>,
    alloc: Global,
    session: u64,
    name: Name,
    permits: u64,
) -> Result<(), NoMemory>
    ensures ok { OnOk result (Sets session name (Some permits) holdings.old.entries holdings.new.entries) }
    ensures err { OnErr result (SameHoldings holdings.old.entries holdings.new.entries) }
    ensures nested { IsNested holdings.old.entries → IsNested holdings.new.entries }
{
    match holdings.get_mut(&session) {
        Some(held) => {
            held.insert(name, permits)?;
            Ok(())
        }
        None => {
            let mut held = BTreeMap::new(alloc);
            held.insert(name, permits)?;
            holdings.insert(session, held)?;
            Ok(())
        }
    }
}

/// A session holds nothing of the semaphore of a name.
fn remove(holdings: &mut BTreeMap<u64, BTreeMap<Name, u64>>, session: u64, name: &Name)
    ensures gone { Sets session name.now None holdings.old.entries holdings.new.entries }
    ensures nested { IsNested holdings.old.entries → IsNested holdings.new.entries }
{
    let emptied = match holdings.get_mut(&session) {
        Some(held) => {
            held.remove(name);
            held.is_empty()
        }
        None => false,
    };
    if emptied {
        holdings.remove(&session);
    }
}

/// A session holds so many permits of the semaphore of a name. Where memory runs out, all holdings stay.
pub(crate) fn set(
    holdings: &mut BTreeMap<u64, BTreeMap<Name, u64>>,
    alloc: Global,
    session: u64,
    name: &Name,
    permits: u64,
) -> Result<(), NoMemory>
    requires { IsNested holdings.old.entries }
    ensures ok { OnOk result (flat holdings.new.entries ≡ set_held (flat holdings.old.entries) session name.now permits) }
    ensures err { OnErr result (flat holdings.new.entries ≡ flat holdings.old.entries) }
    ensures nested { IsNested holdings.new.entries }
{
    if permits == 0 {
        remove(holdings, session, name);
        return Ok(());
    }
    let name = name.clone()?;
    match put(holdings, alloc, session, name, permits) {
        Ok(()) => Ok(()),
        Err(NoMemory) => Err(NoMemory),
    }
}

/// Takes out what a session holds.
pub(crate) fn close(
    holdings: &mut BTreeMap<u64, BTreeMap<Name, u64>>,
    session: u64,
) -> Option<BTreeMap<Name, u64>>
    ensures held { result ≡ find nat_cmp holdings.old.entries session }
    ensures gone { ClosesSession session holdings.old.entries holdings.new.entries }
    ensures nested { IsNested holdings.old.entries → IsNested holdings.new.entries }
{
    holdings.remove(&session)
}

/// The sessions that hold something.
fn sessions_of(
    alloc: Global,
    holdings: &BTreeMap<u64, BTreeMap<Name, u64>>,
) -> Result<Vec<u64>, AllocError>
    ensures { IfOk result (λ sessions. sessions.items ≡ keys_of holdings.now.entries) }
{
    holdings.keys().copied().collect(alloc)
}

/// The first of some sessions holds nothing of the semaphore of a name.
fn remove_first(holdings: &mut BTreeMap<u64, BTreeMap<Name, u64>>, session: u64, name: &Name)
    ensures gone { (sessions : List ℕ) (q : ℕ × List ℕ) → without_name name.now sessions holdings.new.entries q ≡ without_name
        name.now (session ∷ sessions) holdings.old.entries q }
    ensures nested { IsNested holdings.old.entries → IsNested holdings.new.entries }
{
    remove(holdings, session, name);
}

/// These sessions hold nothing of the semaphore of a name.
fn remove_each(holdings: &mut BTreeMap<u64, BTreeMap<Name, u64>>, sessions: &[u64], name: &Name)
    ensures gone { (q : ℕ × List ℕ) → found holdings.new.entries q ≡ without_name name.now sessions.now holdings.old.entries q }
    ensures nested { IsNested holdings.old.entries → IsNested holdings.new.entries }
{
    let mut rest = sessions;
    while let [session, after @ ..] = rest {
        remove_first(holdings, *session, name);
        rest = after;
    }
}

/// Nobody holds anything of the semaphore of a name. Where memory runs out, all holdings stay.
pub(crate) fn forget(
    holdings: &mut BTreeMap<u64, BTreeMap<Name, u64>>,
    alloc: Global,
    name: &Name,
) -> Result<(), NoMemory>
    requires { IsNested holdings.old.entries }
    ensures ok { OnOk result (flat holdings.new.entries ≡ filter (λ e. not (bytes_eq name.now e.0.1)) (flat holdings.old.entries)) }
    ensures err { OnErr result (holdings.new ≡ holdings.old) }
    ensures nested { IsNested holdings.new.entries }
{
    let sessions = sessions_of(alloc, holdings)?;
    remove_each(holdings, &sessions, name);
    Ok(())
}
