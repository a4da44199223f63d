//! Calls under keys.
ghost use Rattle.std.specs.Prelude.{◌≡◌, [], OnOk, OnErr};
ghost use Rattle.cp_wait.specs.Keys.{calls_at, SameCalls, CameUnder, WentFrom};

use crate::calls::Calls;
use cp_base::{Invocation, NoMemory};
use std::alloc::Global;
use std::collections::BTreeMap;

/// The calls under a key.
pub(crate) fn calls_at<'a, K: Ord>(index: &'a BTreeMap<K, Calls>, key: &K) -> &'a [Invocation]
    ensures { result.now ≡ calls_at K.cmp index.now key.now }
{
    match index.get(key) {
        Some(calls) => calls.as_slice(),
        None => &[],
    }
}

/// Puts a key with its first call, or leaves the index.
fn add_first<K: Ord + Drop>(
    index: &mut BTreeMap<K, Calls>,
    alloc: Global,
    key: K,
    call: Invocation,
) -> Result<(), NoMemory>
    requires { calls_at K.cmp index.old key ≡ [] }
    ensures ok { OnOk result (CameUnder K.cmp key call index.old index.new) }
    ensures err { OnErr result (SameCalls K.cmp index.old index.new) }
{
    let mut calls = Calls::new(alloc);
    calls.add(call)?;
    index.insert(key, calls)?;
    Ok(())
}

/// A call comes last under its key. Where memory runs out, each key keeps its calls.
pub(crate) fn add<K: Ord + Drop>(
    index: &mut BTreeMap<K, Calls>,
    alloc: Global,
    key: K,
    call: Invocation,
) -> Result<(), NoMemory>
    ensures ok { OnOk result (CameUnder K.cmp key call index.old index.new) }
    ensures err { OnErr result (SameCalls K.cmp index.old index.new) }
{
    match index.get_mut(&key) {
        Some(calls) => {
            calls.add(call)?;
            Ok(())
        }
        None => add_first(index, alloc, key, call),
    }
}

/// A call leaves its key; a key without calls goes.
pub(crate) fn remove<K: Ord + Drop>(index: &mut BTreeMap<K, Calls>, key: &K, call: &Invocation)
    ensures { WentFrom K.cmp key.now call.now index.old index.new }
{
    let emptied = match index.get_mut(key) {
        Some(calls) => {
            calls.remove(call);
            calls.is_empty()
        }
        None => false,
    };
    if emptied {
        index.remove(key);
    }
}
