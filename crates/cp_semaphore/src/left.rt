//! The names of the objects that waiters left.
ghost use Rattle.std.specs.Prelude.{◌≡◌, ◌==◌, ◌||◌, ◌&&◌, bytes_eq, ℕ, List, IfOk, OnOk};
ghost use Rattle.cp_group_state.specs.Rows.{kind_number};
ghost use Rattle.cp_group_state.specs.Waiters.{waits_on};
ghost use Rattle.cp_semaphore.specs.Concerns.{has, left_named};

use crate::names::add;
use cp_base::{Name, NoMemory};
use cp_group_state::Waiter;
use cp_ops::Kind;
use std::alloc::Global;
use std::collections::BTreeMap;

fn number_of(kind: Kind) -> u8
    ensures { result ≡ kind_number kind }
{
    match kind {
        Kind::Long => 1,
        Kind::Ref => 2,
        Kind::Lock => 3,
        Kind::Sem => 4,
        Kind::Jsem => 5,
        Kind::Latch => 6,
        Kind::Map => 7,
    }
}

/// Whether the waiter waited for this object.
pub fn waits_on(kind: Kind, name: &Name, waiter: &Waiter) -> bool
    ensures { result ≡ waits_on kind name.now waiter.now }
{
    number_of(kind) == number_of(waiter.kind) && *name == waiter.name
}

/// The name of what a waiter waited for goes into a set, where it is of this kind.
fn add_left(names: &mut BTreeMap<Name, ()>, kind: Kind, waiter: &Waiter) -> Result<(), NoMemory>
    ensures { OnOk result ((name : List ℕ) → has names.new.entries name ≡ (has names.old.entries name || waits_on kind name waiter.now)) }
{
    if number_of(kind) == number_of(waiter.kind) {
        add(names, &waiter.name)?;
    }
    Ok(())
}

/// The names of the objects of a kind that these waiters left.
pub fn names_left(
    alloc: Global,
    kind: Kind,
    ended: &[Waiter],
) -> Result<BTreeMap<Name, ()>, NoMemory>
    ensures { IfOk result (λ names. (name : List ℕ) → has names.entries name ≡ left_named ended.now kind name) }
{
    let mut names = BTreeMap::new(alloc);
    let mut rest = ended;
    while let [waiter, after @ ..] = rest {
        add_left(&mut names, kind, waiter)?;
        rest = after;
    }
    Ok(names)
}
