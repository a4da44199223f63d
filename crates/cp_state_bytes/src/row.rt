//! Types whose values are the rows of a list.
ghost use Rattle.std.specs.Prelude.{[], List, ℕ};
ghost use Rattle.std.specs.Int.{w32};
ghost use Rattle.cp_grammar.specs.Grammar.{Grammar};
ghost use Rattle.cp_grammar.specs.Fields.{number};
ghost use Rattle.cp_grammar.specs.Lists.{listed, items_reading};
ghost use Rattle.cp_grammar.specs.Readers.{Gives, Reads};
ghost use Rattle.cp_state_bytes.specs.declared.version.Version.{Version};

use crate::version::Version;
use cp_base::Items;
use cp_grammar::{Stop, take_u32};
use std::alloc::Global;

/// A type whose values are the rows of a list.
pub trait Row: Sized + Drop {
    /// The grammar of a row, which depends on the version and on the rows before it.
    ghost behind: { Version → List Self → Grammar ℕ Self };

    /// The row at the front, and the bytes after it.
    fn take_row<'a>(
        alloc: Global,
        version: Version,
        before: &[Self],
        bytes: &'a [u8],
    ) -> Result<(Self, &'a [u8]), Stop>
        ensures { Reads result ((behind version before.now).reading bytes.now) };
}

/// So many rows, and the bytes after them.
fn take_each<T: Row>(
    alloc: Global,
    version: Version,
    count: u32,
    bytes: &[u8],
) -> Result<(Vec<T>, &[u8]), Stop>
    ensures { Gives (λ x. (x.0.items, x.1.now)) result (items_reading (T.behind version) [] count bytes.now) }
{
    let mut items = Vec::new(alloc);
    let mut rest = bytes;
    for _ in 0..count {
        let (item, after) = T::take_row(alloc, version, &items, rest)?;
        items.push(item)?;
        rest = after;
    }
    Ok((items, rest))
}

/// A count of at most `most` and so many rows, and the bytes after them.
pub fn take_rows<T: Row>(
    alloc: Global,
    version: Version,
    most: u32,
    bytes: &[u8],
) -> Result<(Items<T>, &[u8]), Stop>
    ensures { Reads result ((listed (number w32 most) (T.behind version)).reading bytes.now) }
{
    let (count, rest) = take_u32(bytes, most)?;
    let (rows, rest) = take_each(alloc, version, count, rest)?;
    Ok((Items::from_vec(rows), rest))
}
