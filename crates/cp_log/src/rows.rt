//! The rows of the store, by the numbers of their groups.
ghost use Rattle.std.specs.Prelude.{false, ◌≡◌, ◌==◌, ◌≤◌, ◌<◌, ◌^◌, map, position, Some, None, IsSome, IsSomeAnd, IfOk, OnOk, OnErr};
ghost use Rattle.std.specs.Ordering.{nat_cmp};
ghost use Rattle.std.specs.List.{list_any};
ghost use Rattle.std.specs.BTreeMap.{get, insert_entry, is_at};
ghost use Rattle.std.specs.BTreeSet.{insert_key};
ghost use Rattle.std.specs.Map.{keys_of, lookup, remove_entry};
ghost use Rattle.std.specs.Set.{remove_key};
ghost use Rattle.cp_base.specs.declared.limits.TheConstants.{LAST_NUMBER};
ghost use Rattle.cp_log_rules.specs.Persistent.{new_group, with_ballot, with_entries, with_head};
ghost use Rattle.cp_log_rules.specs.Durable.{changed_at};
ghost use Rattle.cp_log.specs.Room.{HasRoom};
ghost use Rattle.cp_log.specs.Rows.{rows_of, FitsBehind};

use crate::row::Row;
use cp_base::{GroupId, Items, NoMemory};
use cp_parts::{Config, LogEntry, SnapshotHead};
use std::alloc::Global;
use std::collections::{BTreeMap, BTreeSet, VecDeque};

/// Sets term and vote of a group.
pub(crate) fn set_ballot(rows: &mut BTreeMap<u64, Row>, group: u64, term: u64, vote: u8)
    requires { IsSome (get nat_cmp rows.old group) }
    ensures rows { rows_of rows.new.entries ≡ changed_at group (with_ballot term vote) (rows_of rows.old.entries) }
    ensures keys { keys_of rows.new.entries ≡ keys_of rows.old.entries }
{
    match rows.get_mut(&group) {
        Some(row) => row.set_ballot(term, vote),
        None => unreachable!(),
    }
}

/// Makes room for so many entries and configurations more of a group.
pub(crate) fn reserve(
    rows: &mut BTreeMap<u64, Row>,
    group: u64,
    entries: usize,
    configs: usize,
) -> Result<(), NoMemory>
    requires { IsSome (get nat_cmp rows.old group) }
    ensures same { rows_of rows.new.entries ≡ rows_of rows.old.entries }
    ensures keys { keys_of rows.new.entries ≡ keys_of rows.old.entries }
    ensures room { OnOk result (IsSomeAnd (get nat_cmp rows.new group) (λ row. HasRoom entries row.log × HasRoom configs row.configs)) }
{
    match rows.get_mut(&group) {
        Some(row) => row.reserve(entries, configs),
        None => unreachable!(),
    }
}

/// Puts entries behind an index of a group.
pub(crate) fn put_entries(
    rows: &mut BTreeMap<u64, Row>,
    group: u64,
    term: u64,
    vote: u8,
    after: u64,
    entries: VecDeque<LogEntry>,
    configs: VecDeque<Config>,
)
    requires { IsSomeAnd (get nat_cmp rows.old group) (FitsBehind after entries configs) }
    ensures rows { rows_of rows.new.entries ≡ changed_at group (with_entries term vote after entries.items) (rows_of rows.old.entries) }
    ensures keys { keys_of rows.new.entries ≡ keys_of rows.old.entries }
{
    match rows.get_mut(&group) {
        Some(row) => row.put_entries(term, vote, after, entries, configs),
        None => unreachable!(),
    }
}

/// Puts a snapshot of an index of a group in the place of the entries up to it.
pub(crate) fn put_snapshot(
    rows: &mut BTreeMap<u64, Row>,
    group: u64,
    term: u64,
    vote: u8,
    index: u64,
    bytes: Items<u8>,
    head: SnapshotHead,
)
    requires row { IsSomeAnd (get nat_cmp rows.old group) (λ row. row.base < index) }
    requires most { index ≤ LAST_NUMBER }
    ensures rows { rows_of rows.new.entries ≡ changed_at group (with_head term vote index bytes (Some head)) (rows_of rows.old.entries) }
    ensures keys { keys_of rows.new.entries ≡ keys_of rows.old.entries }
{
    match rows.get_mut(&group) {
        Some(row) => row.put_snapshot(term, vote, index, bytes, head),
        None => unreachable!(),
    }
}

/// Puts the row of a group in that begins with these members, where none is.
pub(crate) fn insert_row(
    alloc: Global,
    rows: &mut BTreeMap<u64, Row>,
    group: u64,
    first: Items<u8>,
) -> Result<(), NoMemory>
    requires { lookup (is_at (nat_cmp group)) (rows_of rows.old.entries) ≡ None }
    ensures rows { OnOk result (rows_of rows.new.entries ≡ insert_entry nat_cmp (rows_of rows.old.entries) group (new_group first)) }

    // Taken away again, it leaves what was.
    ensures back { OnOk result (remove_entry (is_at (nat_cmp group)) (rows_of rows.new.entries) ≡ rows_of rows.old.entries) }
    ensures back_keys { OnOk result (remove_key (is_at (nat_cmp group)) (keys_of rows.new.entries) ≡ keys_of rows.old.entries) }
    ensures err { OnErr result (rows.new.entries ≡ rows.old.entries) }
{
    match rows.insert(group, Row::new(alloc, first)) {
        Ok(_none) => Ok(()),
        Err(_) => Err(NoMemory),
    }
}

/// Takes the row of a group away.
pub(crate) fn remove_row(rows: &mut BTreeMap<u64, Row>, group: u64)
    ensures rows { rows_of rows.new.entries ≡ remove_entry (is_at (nat_cmp group)) (rows_of rows.old.entries) }
    ensures keys { keys_of rows.new.entries ≡ remove_key (is_at (nat_cmp group)) (keys_of rows.old.entries) }
{
    let _row = rows.remove(&group);
}

/// Puts a group among those that have ended, where it isn't.
pub(crate) fn insert_ended(ended: &mut BTreeSet<u64>, group: u64) -> Result<(), NoMemory>
    requires { list_any (is_at (nat_cmp group)) ended.old.keys ≡ false }
    ensures keys { OnOk result (ended.new.keys ≡ insert_key nat_cmp ended.old.keys group) }

    // Taken away again, it leaves what was.
    ensures back { OnOk result (remove_key (is_at (nat_cmp group)) ended.new.keys ≡ ended.old.keys) }
    ensures err { OnErr result (ended.new.keys ≡ ended.old.keys) }
{
    match ended.insert(group) {
        Ok(_new) => Ok(()),
        Err(_) => Err(NoMemory),
    }
}

/// The numbers of the rows, rising.
pub(crate) fn numbers_of(alloc: Global, rows: &BTreeMap<u64, Row>) -> Result<Vec<GroupId>, NoMemory>
    ensures { IfOk result (λ numbers. map (λ group. group.0) numbers.items ≡ keys_of rows.now.entries) }
{
    let mut numbers = Vec::new(alloc);
    for (number, _row) in rows {
        numbers.push(GroupId(*number))?;
    }
    Ok(numbers)
}

/// Where a number stands.
fn place_of(numbers: &[GroupId], number: u64) -> Option<usize>
    ensures { result ≡ position (λ group. group.0 == number) numbers.now }
{
    numbers.iter().position(|group| group.0 == number)
}

/// Takes a number away.
#[tactic(auto, using(crate::proofs::Numbers::number_gone, crate::proofs::Numbers::no_number))]
pub(crate) fn remove_number(numbers: &mut Vec<GroupId>, number: u64)
    ensures { map (λ group. group.0) numbers.new.items ≡ remove_key (is_at (nat_cmp number)) (map (λ group. group.0) numbers.old.items) }
{
    match place_of(numbers, number) {
        Some(place) => {
            let _removed = numbers.remove(place);
        }
        None => {}
    }
}
