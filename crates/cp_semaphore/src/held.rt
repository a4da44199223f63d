//! The names of the semaphores of which sessions hold permits.
ghost use Rattle.std.specs.Prelude.{◌≡◌, ◌||◌, ℕ, List, bytes_eq, IfOk, OnOk};
ghost use Rattle.std.specs.List.{list_any};
ghost use Rattle.cp_group_state.specs.Sessions.{is_among};
ghost use Rattle.cp_semaphore.specs.Nested.{flat};
ghost use Rattle.cp_semaphore.specs.Concerns.{has, held_named};

use crate::names::add;
use cp_base::{Name, NoMemory};
use std::alloc::Global;
use std::collections::BTreeMap;

fn is_among(sessions: &[u64], own: u64) -> bool
    ensures { result ≡ is_among sessions.now own }
{
    sessions.iter().any(|session| *session == own)
}

/// The names under which one session holds permits go into a set.
fn add_each(names: &mut BTreeMap<Name, ()>, held: &BTreeMap<Name, u64>) -> Result<(), NoMemory>
    ensures { OnOk result ((name : List ℕ) → has names.new.entries
        name ≡ (has names.old.entries name || list_any (λ e. bytes_eq name e.0) held.now.entries)) }
{
    for (name, _permits) in held {
        add(names, name)?;
    }
    Ok(())
}

/// The names under which these sessions hold permits.
pub fn names_held(
    alloc: Global,
    holdings: &BTreeMap<u64, BTreeMap<Name, u64>>,
    sessions: &[u64],
) -> Result<BTreeMap<Name, ()>, NoMemory>
    ensures { IfOk result (λ names. (name : List ℕ) → has names.entries name ≡ held_named sessions.now (flat holdings.now.entries) name) }
{
    let mut names = BTreeMap::new(alloc);
    for (session, held) in holdings {
        if is_among(sessions, *session) {
            add_each(&mut names, held)?;
        }
    }
    Ok(names)
}
