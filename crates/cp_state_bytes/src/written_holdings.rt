//! What sessions hold, by name and session, as the bytes have it.
ghost use Rattle.std.specs.Prelude.{◌≡◌, ◌++◌, ◌<◌, ◌^◌, [], length, IfOk, OnOk};
ghost use Rattle.std.specs.List.{AllByRecursion};
ghost use Rattle.cp_group_state.specs.Rows.{put};
ghost use Rattle.cp_semaphore.specs.Nested.{flat, under};
ghost use Rattle.cp_group_ranges.specs.Rows.{HoldingFits};
ghost use Rattle.cp_state_bytes.specs.Keys.{held_cmp};
ghost use Rattle.cp_state_bytes.specs.Lists.{by_name, sorted_into, turned};
ghost use Rattle.cp_state_bytes.specs.Rows.{held_row};
ghost use Rattle.cp_state_bytes.specs.Spelled.{HeldFits, list_spelled};

use crate::written_row::append_rows;
use cp_base::{Name, NoMemory};
use cp_rows::put_row;
use std::alloc::Global;
use std::collections::BTreeMap;

/// Puts what a session holds under a name among what others hold.
fn add(
    map: &mut BTreeMap<(Name, u64), u64>,
    name: &Name,
    session: u64,
    permits: u64,
) -> Result<(), NoMemory>
    ensures { OnOk result (map.new.entries ≡ put held_cmp map.old.entries (name.now, session) permits) }
{
    put_row(map, (name.clone()?, session), permits)
}

/// Puts what a session holds among what others hold.
fn add_session(
    map: &mut BTreeMap<(Name, u64), u64>,
    session: u64,
    held: &BTreeMap<Name, u64>,
) -> Result<(), NoMemory>
    ensures { OnOk result (map.new.entries ≡ sorted_into held_cmp turned map.old.entries (under session held.now.entries)) }
{
    for (name, permits) in held {
        add(map, name, session, *permits)?;
    }
    Ok(())
}

/// What sessions hold, by name and session.
#[tactic(auto, unfolding(crate::specs::Lists::by_name))]
fn held_by_name(
    alloc: Global,
    holdings: &BTreeMap<u64, BTreeMap<Name, u64>>,
) -> Result<BTreeMap<(Name, u64), u64>, NoMemory>
    ensures { IfOk result (λ map. map.entries ≡ by_name (flat holdings.now.entries)) }
{
    let mut map = BTreeMap::new(alloc);
    for (session, held) in holdings {
        add_session(&mut map, *session, held)?;
    }
    Ok(map)
}

/// Appends what sessions hold, by name and session.
#[tactic(auto, using(crate::proofs::Spellings::held_rows_fit))]
pub fn append_holdings(
    holdings: &BTreeMap<u64, BTreeMap<Name, u64>>,
    out: &mut Vec<u8>,
) -> Result<(), NoMemory>
    requires { AllByRecursion HoldingFits (flat holdings.now.entries) }
    ensures count { OnOk result (length (by_name (flat holdings.now.entries)) < 2 ^ 32) }
    ensures bytes { OnOk result (out.new.items ≡ out.old.items ++ list_spelled (held_row []) (by_name (flat holdings.now.entries))) }
{
    let map = held_by_name(*out.allocator(), holdings)?;
    append_rows(&map, out)
}
