//! Calls under two keys.
ghost use Rattle.std.specs.Prelude.{◌≡◌, [], OnOk, OnErr};
ghost use Rattle.cp_wait.specs.Keys.{calls_under, SameCallsUnder, CameUnderBoth, WentFromBoth};

use crate::calls::Calls;
use crate::index;
use cp_base::{Invocation, NoMemory};
use std::alloc::Global;
use std::collections::BTreeMap;

/// The calls under two keys.
pub(crate) fn calls_under<'a, A: Ord, B: Ord>(
    shelf: &'a BTreeMap<A, BTreeMap<B, Calls>>,
    outer: &A,
    inner: &B,
) -> &'a [Invocation]
    ensures { result.now ≡ calls_under A.cmp B.cmp shelf.now outer.now inner.now }
{
    match shelf.get(outer) {
        Some(index) => index::calls_at(index, inner),
        None => &[],
    }
}

/// A call comes last under its keys. Where memory runs out, all keys keep their calls.
pub(crate) fn add<A: Ord + Drop, B: Ord + Drop>(
    shelf: &mut BTreeMap<A, BTreeMap<B, Calls>>,
    alloc: Global,
    outer: A,
    inner: B,
    call: Invocation,
) -> Result<(), NoMemory>
    ensures ok { OnOk result (CameUnderBoth A.cmp B.cmp outer inner call shelf.old shelf.new) }
    ensures err { OnErr result (SameCallsUnder A.cmp B.cmp shelf.old shelf.new) }
{
    match shelf.get_mut(&outer) {
        Some(index) => {
            index::add(index, alloc, inner, call)?;
            Ok(())
        }
        None => {
            let mut index = BTreeMap::new(alloc);
            index::add(&mut index, alloc, inner, call)?;
            shelf.insert(outer, index)?;
            Ok(())
        }
    }
}

/// A call leaves its keys.
pub(crate) fn remove<A: Ord, B: Ord + Drop>(
    shelf: &mut BTreeMap<A, BTreeMap<B, Calls>>,
    outer: &A,
    inner: &B,
    call: &Invocation,
)
    ensures { WentFromBoth A.cmp B.cmp outer.now inner.now call.now shelf.old shelf.new }
{
    if let Some(index) = shelf.get_mut(outer) {
        index::remove(index, inner, call);
    }
}
