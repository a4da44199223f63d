//! What sessions hold: by name and session in the bytes, by session and name in the state.
ghost use Rattle.std.specs.Prelude.{◌≡◌, IfOk};
ghost use Rattle.cp_group_state.specs.Rows.{holding_cmp};
ghost use Rattle.cp_grammar.specs.Readers.{Reads};
ghost use Rattle.cp_state_bytes.specs.Lists.{by_session, holding_list, held_list};

use crate::row::take_rows;
use crate::version::Version;
use cp_base::{Items, Name, NoMemory};
use cp_grammar::Stop;
use cp_rows::put_row;
use std::alloc::Global;
use std::collections::BTreeMap;

/// The rows of a map, by rising keys.
fn rows_of<K: Ord + Drop, V: Drop>(
    alloc: Global,
    map: BTreeMap<K, V>,
) -> Result<Items<(K, V)>, NoMemory>
    ensures { IfOk result (λ rows. rows ≡ map.entries) }
{
    let mut rows = Vec::new(alloc);
    for (key, value) in map {
        rows.push((key, value))?;
    }
    Ok(Items::from_vec(rows))
}

/// What sessions hold, by session and name.
#[tactic(auto, using(crate::proofs::Resorted::one_turned, crate::proofs::Resorted::all_turned), unfolding(crate::specs::Lists::by_session))]
fn map_by_session(
    alloc: Global,
    rows: Items<((Name, u64), u64)>,
) -> Result<BTreeMap<(u64, Name), u64>, NoMemory>
    ensures { IfOk result (λ map. map.entries ≡ by_session rows) }
{
    let mut map = BTreeMap::new(alloc);
    for ((name, session), permits) in rows.into_vec() {
        put_row(&mut map, (session, name), permits)?;
    }
    Ok(map)
}

/// The rows by name and session.
#[tactic(auto, unfolding(crate::specs::Lists::held_list))]
fn take_held(alloc: Global, bytes: &[u8]) -> Result<(Items<((Name, u64), u64)>, &[u8]), Stop>
    ensures { Reads result (held_list.reading bytes.now) }
{
    take_rows(alloc, Version::Third, u32::MAX, bytes)
}

/// What sessions hold, by session and name, and the bytes after it.
#[tactic(auto, unfolding(crate::specs::Lists::holding_list))]
pub fn take_holdings(
    alloc: Global,
    bytes: &[u8],
) -> Result<(Items<((u64, Name), u64)>, &[u8]), Stop>
    ensures { Reads result (holding_list.reading bytes.now) }
{
    let (held, rest) = take_held(alloc, bytes)?;
    let map = map_by_session(alloc, held)?;
    let rows = rows_of(alloc, map)?;
    Ok((rows, rest))
}
