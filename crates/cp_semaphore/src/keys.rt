//! The semaphores that have to be served, by name.
ghost use Rattle.std.specs.Prelude.{◌≡◌, ◌&&◌, ◌||◌, ℕ, List, IfOk};
ghost use Rattle.std.specs.List.{filter};
ghost use Rattle.std.specs.Map.{keys_of};
ghost use Rattle.cp_op_values.specs.declared.kind.Kind.TheVariants as kinds;
ghost use Rattle.cp_group_state.specs.Semaphores.{is_held};
ghost use Rattle.cp_semaphore.specs.Concerns.{has, held_named, is_concerned, is_left, left_named};

use crate::Semaphores;
use crate::held::names_held;
use crate::left::{names_left, waits_on};
use crate::names::has;
use cp_base::{Items, Name, NoMemory};
use cp_group_state::Waiter;
use cp_ops::Kind;
use std::alloc::Global;
use std::collections::BTreeMap;

/// Whether one of these waited on this object, by the names of the semaphores that they left.
fn is_left(
    ended: &[Waiter],
    sems: &BTreeMap<Name, ()>,
    jsems: &BTreeMap<Name, ()>,
    name: &Name,
    kind: Kind,
) -> bool
    requires sems { (name : List ℕ) → has sems.now.entries name ≡ left_named ended.now kinds.Sem name }
    requires jsems { (name : List ℕ) → has jsems.now.entries name ≡ left_named ended.now kinds.Jsem name }
    ensures { result ≡ is_left ended.now (name.now, kind) }
{
    match kind {
        Kind::Sem => has(sems, name),
        Kind::Jsem => has(jsems, name),
        Kind::Long => is_left_slowly(ended, name, Kind::Long),
        Kind::Ref => is_left_slowly(ended, name, Kind::Ref),
        Kind::Lock => is_left_slowly(ended, name, Kind::Lock),
        Kind::Latch => is_left_slowly(ended, name, Kind::Latch),
        Kind::Map => is_left_slowly(ended, name, Kind::Map),
    }
}

/// Whether one of these waited on this object.
fn is_left_slowly(ended: &[Waiter], name: &Name, kind: Kind) -> bool
    ensures { result ≡ is_left ended.now (name.now, kind) }
{
    ended.iter().any(|waiter| waits_on(kind, name, waiter))
}

/// Whether permits of the semaphore are among those that are held under these names.
fn is_held_named(held: &BTreeMap<Name, ()>, name: &Name, kind: Kind) -> bool
    ensures { result ≡ (is_held kind && has held.now.entries name.now) }
{
    match kind {
        Kind::Sem => has(held, name),
        Kind::Long => false,
        Kind::Ref => false,
        Kind::Lock => false,
        Kind::Jsem => false,
        Kind::Latch => false,
        Kind::Map => false,
    }
}

/// The semaphores on which one of these waited, by name.
pub fn left_by(
    alloc: Global,
    semaphores: &Semaphores,
    ended: &[Waiter],
) -> Result<Items<(Name, Kind)>, NoMemory>
    ensures { IfOk result (λ keys. keys ≡ filter (is_left ended.now) (keys_of semaphores.now.rows)) }
{
    let sems = names_left(alloc, Kind::Sem, ended)?;
    let jsems = names_left(alloc, Kind::Jsem, ended)?;
    let mut keys = Items::new(alloc);
    for ((name, kind), _row) in semaphores.rows() {
        if is_left(ended, &sems, &jsems, name, *kind) {
            keys.push((name.clone()?, *kind))?;
        }
    }
    Ok(keys)
}

/// The semaphores of which these sessions hold permits, or on which one of these waited, by name.
pub fn concerned(
    alloc: Global,
    semaphores: &Semaphores,
    sessions: &[u64],
    ended: &[Waiter],
) -> Result<Items<(Name, Kind)>, NoMemory>
    ensures { IfOk result (λ keys. keys ≡ filter (is_concerned sessions.now ended.now semaphores.now.holdings)
        (keys_of semaphores.now.rows)) }
{
    let sems = names_left(alloc, Kind::Sem, ended)?;
    let jsems = names_left(alloc, Kind::Jsem, ended)?;
    let held = names_held(alloc, semaphores.holdings(), sessions)?;
    let mut keys = Items::new(alloc);
    for ((name, kind), _row) in semaphores.rows() {
        if is_held_named(&held, name, *kind) || is_left(ended, &sems, &jsems, name, *kind) {
            keys.push((name.clone()?, *kind))?;
        }
    }
    Ok(keys)
}
