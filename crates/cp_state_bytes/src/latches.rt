//! The list of latches, which may have only so many counted calls together.
ghost use Rattle.std.specs.Prelude.{◌≡◌, ◌-◌, ◌≤◌, [], length, IfOk};
ghost use Rattle.cp_grammar.specs.Lists.{items_reading};
ghost use Rattle.cp_grammar.specs.Readers.{Gives, Reads};
ghost use Rattle.cp_group_state.specs.Latches.{counted_calls};
ghost use Rattle.cp_state_bytes.specs.Rows.{counted_list, latch_row};
ghost use Rattle.cp_state_bytes.specs.Lists.{latch_list};

use crate::rows::take_name_behind;
use cp_base::limits::{MOST_COUNT, MOST_COUNTED, MOST_ROWS};
use cp_base::{Invocation, Items, Name};
use cp_grammar::{Stop, take_index, take_items, take_u32};
use cp_group_state::LatchRow;
use std::alloc::Global;

/// The counted calls of a latch, where those before it have so many.
#[tactic(auto, unfolding(crate::specs::Rows::counted_list))]
fn take_calls(alloc: Global, so_far: u32, bytes: &[u8]) -> Result<(Items<Invocation>, &[u8]), Stop>
    ensures { Reads result ((counted_list so_far).reading bytes.now) }
{
    let (count, rest) = take_u32(bytes, MOST_COUNTED.saturating_sub(so_far))?;
    let (calls, rest) = take_items(alloc, count, rest)?;
    Ok((Items::from_vec(calls), rest))
}

/// The same, and that there are not too many.
fn take_counted(
    alloc: Global,
    so_far: u32,
    bytes: &[u8],
) -> Result<(Items<Invocation>, &[u8]), Stop>
    ensures reads { Reads result ((counted_list so_far).reading bytes.now) }
    ensures few { IfOk result (λ x. length x.0 ≤ MOST_COUNTED - so_far) }
{
    take_calls(alloc, so_far, bytes)
}

/// A latch, where those before it have so many counted calls.
#[tactic(auto, unfolding(crate::specs::Rows::latch_row))]
fn take_latch<'a>(
    alloc: Global,
    before: &[(Name, LatchRow)],
    so_far: u32,
    bytes: &'a [u8],
) -> Result<((Name, LatchRow), &'a [u8]), Stop>
    requires { so_far ≡ counted_calls before.now }
    ensures reads { Reads result ((latch_row before.now).reading bytes.now) }
    ensures few { IfOk result (λ x. length x.0.1.counted ≤ MOST_COUNTED - so_far) }
{
    let (name, rest) = take_name_behind(alloc, before, bytes)?;
    let (round, rest) = take_index(rest)?;
    let (count, rest) = take_u32(rest, MOST_COUNT)?;
    let (counted, rest) = take_counted(alloc, so_far, rest)?;
    let row = LatchRow {
        round,
        count,
        counted,
    };
    Ok(((name, row), rest))
}

/// So many latches, and the bytes after them.
fn take_each(
    alloc: Global,
    count: u32,
    bytes: &[u8],
) -> Result<(Vec<(Name, LatchRow)>, &[u8]), Stop>
    ensures { Gives (λ x. (x.0.items, x.1.now)) result (items_reading latch_row [] count bytes.now) }
{
    let mut items = Vec::new(alloc);
    let mut rest = bytes;
    let mut so_far = 0;
    for _ in 0..count {
        let (item, after) = take_latch(alloc, &items, so_far, rest)?;
        so_far += item.1.counted.len() as u32;
        items.push(item)?;
        rest = after;
    }
    Ok((items, rest))
}

/// The latches by rising name, and the bytes after them.
#[tactic(auto, unfolding(crate::specs::Lists::latch_list))]
pub fn take_latches(alloc: Global, bytes: &[u8]) -> Result<(Items<(Name, LatchRow)>, &[u8]), Stop>
    ensures { Reads result (latch_list.reading bytes.now) }
{
    let (count, rest) = take_u32(bytes, MOST_ROWS)?;
    let (rows, rest) = take_each(alloc, count, rest)?;
    Ok((Items::from_vec(rows), rest))
}
