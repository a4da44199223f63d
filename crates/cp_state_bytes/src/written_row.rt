//! Rows of ordered maps, appended one after another.
ghost use Rattle.std.specs.Prelude.{◌≡◌, ◌<◌, ◌^◌, ◌++◌, ℕ, length, IfOk, OnOk};
ghost use Rattle.std.specs.List.{AllByRecursion};
ghost use Rattle.cp_grammar.specs.Grammar.{Grammar};
ghost use Rattle.cp_state_bytes.specs.Spelled.{each_spelled, list_spelled};

use cp_base::NoMemory;
use cp_grammar::append_u32;
use std::collections::BTreeMap;

/// A key whose rows are spelled.
pub trait AppendRow<V>: Sized {
    /// Which rows have a spelling.
    ghost fits: { Self × V → Type 0 };

    /// The grammar of a row: that of a first one, since a row is spelled alike wherever it stands.
    ghost first: { Grammar ℕ (Self × V) };

    /// Appends the one spelling of a row.
    fn append_row(&self, value: &V, out: &mut Vec<u8>) -> Result<(), NoMemory>
        requires { fits (self.now, value.now) }
        ensures { OnOk result (out.new.items ≡ out.old.items ++ first.spelling (self.now, value.now)) };
}

/// Appends rows one after another.
#[tactic(auto, using(crate::proofs::Spellings::first_fits))]
fn append_each<K: AppendRow<V> + Ord, V>(
    rows: &BTreeMap<K, V>,
    out: &mut Vec<u8>,
) -> Result<(), NoMemory>
    requires { AllByRecursion K.fits rows.now.entries }
    ensures { OnOk result (out.new.items ≡ out.old.items ++ each_spelled K.first rows.now.entries) }
{
    for (key, value) in rows {
        key.append_row(value, out)?;
    }
    Ok(())
}

/// The number of rows, where a count can say it.
pub fn count_of(len: usize) -> Result<u32, NoMemory>
    ensures { IfOk result (λ count. (count ≡ len) × (len < 2 ^ 32)) }
{
    match u32::try_from(len) {
        Ok(count) => Ok(count),
        Err(_) => Err(NoMemory),
    }
}

/// Appends the number of rows, and the rows.
pub fn append_rows<K: AppendRow<V> + Ord, V>(
    rows: &BTreeMap<K, V>,
    out: &mut Vec<u8>,
) -> Result<(), NoMemory>
    requires { AllByRecursion K.fits rows.now.entries }
    ensures count { OnOk result (length rows.now.entries < 2 ^ 32) }
    ensures bytes { OnOk result (out.new.items ≡ out.old.items ++ list_spelled K.first rows.now.entries) }
{
    let count = count_of(rows.len())?;
    append_u32(count, out)?;
    append_each(rows, out)?;
    Ok(())
}
