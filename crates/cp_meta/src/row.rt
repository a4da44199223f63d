//! Lists of rows by rising keys, read and written.
ghost use Rattle.std.specs.Prelude.{◌≡◌, ◌<◌, ◌^◌, ◌++◌, [], ℕ, List, length, OnOk};
ghost use Rattle.std.specs.Int.{w32};
ghost use Rattle.std.specs.List.{AllByRecursion};
ghost use Rattle.cp_grammar.specs.Fields.{number};
ghost use Rattle.cp_grammar.specs.Grammar.{Grammar};
ghost use Rattle.cp_grammar.specs.Lists.{items_reading, listed};
ghost use Rattle.cp_grammar.specs.Readers.{Gives, Reads};
ghost use Rattle.cp_meta.specs.Spelled.{each_spelled, list_spelled};

use cp_base::{Items, NoMemory};
use cp_grammar::{Stop, append_u32, take_u32};
use std::alloc::Global;
use std::collections::BTreeMap;

/// A key whose rows have a spelling.
pub trait RowKey<V>: Sized {
    /// The grammar of a row, which depends on the rows before it. How a row is spelled does not.
    ghost behind: { List (Self × V) → Grammar ℕ (Self × V) };

    /// Which rows have a spelling.
    ghost fits: { Self × V → Type 0 };

    /// The row at the front, and the bytes after it.
    fn take_row<'a>(
        alloc: Global,
        before: &[(Self, V)],
        bytes: &'a [u8],
    ) -> Result<((Self, V), &'a [u8]), Stop>
        ensures { Reads result ((behind before.now).reading bytes.now) };

    /// Appends the one spelling of a row.
    fn append_row(&self, value: &V, out: &mut Vec<u8>) -> Result<(), NoMemory>
        requires { fits (self.now, value.now) }
        ensures { OnOk result (out.new.items ≡ out.old.items ++ (behind []).spelling (self.now, value.now)) };
}

/// So many rows, and the bytes after them.
fn take_each<K: RowKey<V> + Drop, V: Drop>(
    alloc: Global,
    count: u32,
    bytes: &[u8],
) -> Result<(Vec<(K, V)>, &[u8]), Stop>
    ensures { Gives (λ x. (x.0.items, x.1.now)) result (items_reading K.behind [] count bytes.now) }
{
    let mut items = Vec::new(alloc);
    let mut rest = bytes;
    for _ in 0..count {
        let (item, after) = K::take_row(alloc, &items, rest)?;
        items.push(item)?;
        rest = after;
    }
    Ok((items, rest))
}

/// A count of at most `most` and so many rows, and the bytes after them.
pub fn take_rows<K: RowKey<V> + Drop, V: Drop>(
    alloc: Global,
    most: u32,
    bytes: &[u8],
) -> Result<(Items<(K, V)>, &[u8]), Stop>
    ensures { Reads result ((listed (number w32 most) K.behind).reading bytes.now) }
{
    let (count, rest) = take_u32(bytes, most)?;
    let (rows, rest) = take_each(alloc, count, rest)?;
    Ok((Items::from_vec(rows), rest))
}

/// Appends rows one after another.
#[tactic(auto, using(crate::proofs::Written::first_fits))]
fn append_each<K: RowKey<V> + Ord, V>(
    rows: &BTreeMap<K, V>,
    out: &mut Vec<u8>,
) -> Result<(), NoMemory>
    requires { AllByRecursion K.fits rows.now.entries }
    ensures { OnOk result (out.new.items ≡ out.old.items ++ each_spelled (K.behind []) rows.now.entries) }
{
    for (key, value) in rows {
        key.append_row(value, out)?;
    }
    Ok(())
}

/// Appends the number of rows, and the rows.
pub fn append_rows<K: RowKey<V> + Ord, V>(
    rows: &BTreeMap<K, V>,
    out: &mut Vec<u8>,
) -> Result<(), NoMemory>
    requires count { length rows.now.entries < 2 ^ 32 }
    requires fit { AllByRecursion K.fits rows.now.entries }
    ensures { OnOk result (out.new.items ≡ out.old.items ++ list_spelled (K.behind []) rows.now.entries) }
{
    append_u32(rows.len() as u32, out)?;
    append_each(rows, out)?;
    Ok(())
}
