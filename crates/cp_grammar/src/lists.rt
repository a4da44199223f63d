//! Lists: a count, and so many items.
ghost use Rattle.std.specs.Prelude.{◌≡◌, ◌++◌, ◌<◌, ◌^◌, [], length, List, ℕ, OnOk};
ghost use Rattle.std.specs.Int.{w32};
ghost use Rattle.cp_grammar.specs.Grammar.{Grammar};
ghost use Rattle.cp_grammar.specs.Lists.{listed, items_reading, items_spelling, ItemsFit};
ghost use Rattle.cp_codec.specs.Fields.{big_endian};
ghost use Rattle.cp_grammar.specs.Fields.{number, at_least};
ghost use Rattle.cp_grammar.specs.Readers.{Reads, Gives};

use crate::fields::take_u32_between;
use crate::stop::Stop;
use crate::writing::append_u32;
use cp_base::NoMemory;
use std::alloc::Global;

/// A type whose values can be the items of a list.
pub trait Item: Sized + Drop {
    /// The grammar of an item, which may depend on the items before it.
    ghost item: { List Self → Grammar ℕ Self };

    /// The item at the front, and the bytes after it.
    fn take_item<'a>(
        alloc: Global,
        before: &[Self],
        bytes: &'a [u8],
    ) -> Result<(Self, &'a [u8]), Stop>
        ensures { Reads result ((item before.now).reading bytes.now) };

    /// Appends the one spelling.
    fn append_item(&self, before: &[Self], out: &mut Vec<u8>) -> Result<(), NoMemory>
        requires { (item before.now).Fits self.now }
        ensures { OnOk result (out.new.items ≡ out.old.items ++ (item before.now).spelling self.now) };
}

/// So many items, and the bytes after them.
pub fn take_items<T: Item>(alloc: Global, count: u32, bytes: &[u8]) -> Result<(Vec<T>, &[u8]), Stop>
    ensures { Gives (λ x. (x.0.items, x.1.now)) result (items_reading T.item [] count bytes.now) }
{
    let mut items = Vec::new(alloc);
    let mut rest = bytes;
    for _ in 0..count {
        let (item, after) = T::take_item(alloc, &items, rest)?;
        items.push(item)?;
        rest = after;
    }
    Ok((items, rest))
}

/// Appends the spellings of items, one after another.
#[tactic(auto, unfolding(crate::specs::Lists::items_spelling, crate::specs::Lists::ItemsFit))]
pub fn append_items<T: Item>(items: &[T], out: &mut Vec<u8>) -> Result<(), NoMemory>
    requires { ItemsFit T.item [] items.now }
    ensures { OnOk result (out.new.items ≡ out.old.items ++ items_spelling T.item [] items.now) }
{
    for (i, item) in items.iter().enumerate() {
        item.append_item(&items[..i], out)?;
    }
    Ok(())
}

/// A count from `least` to `most` and so many items, and the bytes after them.
pub fn take_list<T: Item>(
    alloc: Global,
    least: u32,
    most: u32,
    bytes: &[u8],
) -> Result<(Vec<T>, &[u8]), Stop>
    ensures { Gives (λ x. (x.0.items, x.1.now)) result ((listed (at_least least (number w32 most)) T.item).reading bytes.now) }
{
    let (count, rest) = take_u32_between(bytes, least, most)?;
    take_items(alloc, count, rest)
}

/// Appends the count of items, and their spellings.
pub fn append_list<T: Item>(items: &[T], out: &mut Vec<u8>) -> Result<(), NoMemory>
    requires count { length items.now < 2 ^ 32 }
    requires fit { ItemsFit T.item [] items.now }
    ensures { OnOk result (out.new.items ≡ out.old.items ++ (big_endian w32 (length items.now) ++ items_spelling T.item [] items.now)) }
{
    append_u32(items.len() as u32, out)?;
    append_items(items, out)?;
    Ok(())
}
