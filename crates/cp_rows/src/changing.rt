//! Rows under keys: changes of one row of an ordered map, whose entries are a list of rows of the group's definitions.

ghost use Rattle.std.specs.Prelude.{◌≡◌, ◌∷◌, ◌++◌, [], true, IfErr, IfOk, IsSome, OnErr, OnOk};
ghost use Rattle.cp_group_state.specs.Rows.{find, put};
ghost use Rattle.cp_rows.specs.Behind.{IsPushError, MakesMap, is_above};

use cp_base::{Items, NoMemory};
use std::alloc::Global;
use std::collections::BTreeMap;
use thiserror::Error;

/// Why a row was not put behind the others. The rows are as they were.
#[derive(Clone, Copy, Debug, PartialEq, Eq, Error)]
pub enum PushError {
    /// Its key isn't above those of the others.
    #[error("a row out of order")]
    OutOfOrder,
    /// There was no memory.
    #[error("no memory")]
    NoMemory,
}

/// Puts a row under a key, in the place of the one that is there, or leaves the rows.
pub fn put_row<K: Ord + Drop, V: Drop>(
    rows: &mut BTreeMap<K, V>,
    key: K,
    row: V,
) -> Result<(), NoMemory>
    ensures ok { OnOk result (rows.new.entries ≡ put K.cmp rows.old.entries key row) }
    ensures err { OnErr result (rows.new.entries ≡ rows.old.entries) }
{
    rows.insert(key, row)?;
    Ok(())
}

/// Writes a row in the place of the one that is there under the key.
pub fn write_row<K: Ord, V: Drop>(rows: &mut BTreeMap<K, V>, key: &K, row: V)
    requires { IsSome (find K.cmp rows.old.entries key.now) }
    ensures { rows.new.entries ≡ put K.cmp rows.old.entries key.now row }
{
    match rows.get_mut(key) {
        None => unreachable!(),
        Some(place) => {
            *place = row;
        }
    }
}

/// Whether the key is above those of all rows.
fn is_above_all<K: Ord, V>(rows: &BTreeMap<K, V>, key: &K) -> bool
    ensures { result ≡ is_above K.cmp rows.now.entries key.now }
{
    match rows.last_key_value() {
        Some((last, _)) => last.cmp(key).is_lt(),
        None => true,
    }
}

/// Puts a row behind the others, or leaves them.
#[tactic(auto, using(crate::proofs::Ordered::put_last))]
pub fn push_row<K: Ord + Drop, V: Drop>(
    rows: &mut BTreeMap<K, V>,
    key: K,
    row: V,
) -> Result<(), PushError>
    ensures rows { OnOk result (rows.new.entries ≡ rows.old.entries ++ (key, row) ∷ []) }
    ensures above { OnOk result (is_above K.cmp rows.old.entries key ≡ true) }
    ensures error { IfErr result (λ error. IsPushError error (is_above K.cmp rows.old.entries key)) }
    ensures same { OnErr result (rows.new.entries ≡ rows.old.entries) }
{
    if !is_above_all(rows, &key) {
        return Err(PushError::OutOfOrder);
    }
    match put_row(rows, key, row) {
        Ok(()) => Ok(()),
        Err(NoMemory) => Err(PushError::NoMemory),
    }
}

/// The map of these rows: none exactly where their keys don't rise.
#[tactic(auto, using(crate::proofs::Ordered::goes_on, crate::proofs::Ordered::out_of_order))]
pub fn rising_rows<K: Ord + Drop, V: Drop>(
    alloc: Global,
    rows: Items<(K, V)>,
) -> Result<Option<BTreeMap<K, V>>, NoMemory>
    ensures { IfOk result (MakesMap K.cmp rows) }
{
    let mut map = BTreeMap::new(alloc);
    for (key, row) in rows.into_vec() {
        match push_row(&mut map, key, row) {
            Ok(()) => {}
            Err(PushError::OutOfOrder) => return Ok(None),
            Err(PushError::NoMemory) => return Err(NoMemory),
        }
    }
    Ok(Some(map))
}
