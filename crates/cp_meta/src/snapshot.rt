//! METADATA's lists out of bytes, and into bytes.
ghost use Rattle.std.specs.Prelude.{◌≡◌, ◌++◌, ◌&&◌, Ok, nat_le, IfOk, OnErr, OnOk};
ghost use Rattle.cp_grammar.specs.Readers.{Gives, Reads, Tells};
ghost use Rattle.cp_meta_state.specs.declared.rows.TheConstants.{MOST_DESTROYED};
ghost use Rattle.cp_meta_state.specs.Destroying.{given_up};
ghost use Rattle.cp_meta_state.specs.Ranges.{IsOrdered, IsSound};
ghost use Rattle.cp_meta.specs.Bytes.{destroyed_list, group_list, member_list, move_list};
ghost use Rattle.cp_meta.specs.Bytes.{is_consistent, lists_grammar, moves_have_groups, restored, snapshot_grammar, spelled, state_grammar};
ghost use Rattle.cp_meta.specs.BytesLaws.{snapshot_lawful};
ghost use Rattle.cp_meta.specs.MetaRows.{state_of_rows};

use crate::destroying::destroying_rows;
use crate::row::{append_rows, take_rows};
use crate::tables::MetaTables;
use cp_base::{Items, NoMemory};
use cp_grammar::{ReadError, Spelled, Stop, append_u8, take_mark};
use cp_meta_state::{GroupRow, MOST_DESTROYED, MOST_GROUPS, MoveRow, Standing};
use cp_rows::from_rows;
use std::alloc::Global;
use std::collections::BTreeMap;

/// The version of the bytes.
const VERSION: u8 = 1;

/// The rows of METADATA's lists, as they are read.
#[derive(Drop)]
pub struct MetaRows {
    pub members: Items<(u8, Standing)>,
    pub groups: Items<(u64, GroupRow)>,
    pub destroyed: Items<(u64, ())>,
    pub moves: Items<(u64, MoveRow)>,
}

#[tactic(auto, unfolding(crate::specs::Bytes::member_list))]
fn take_members(alloc: Global, bytes: &[u8]) -> Result<(Items<(u8, Standing)>, &[u8]), Stop>
    ensures { Reads result (member_list.reading bytes.now) }
{
    take_rows(alloc, u32::MAX, bytes)
}

#[tactic(auto, unfolding(crate::specs::Bytes::group_list))]
fn take_groups(alloc: Global, bytes: &[u8]) -> Result<(Items<(u64, GroupRow)>, &[u8]), Stop>
    ensures { Reads result (group_list.reading bytes.now) }
{
    take_rows(alloc, MOST_GROUPS, bytes)
}

#[tactic(auto, unfolding(crate::specs::Bytes::destroyed_list))]
fn take_destroyed(alloc: Global, bytes: &[u8]) -> Result<(Items<(u64, ())>, &[u8]), Stop>
    ensures { Reads result (destroyed_list.reading bytes.now) }
{
    take_rows(alloc, MOST_DESTROYED, bytes)
}

#[tactic(auto, unfolding(crate::specs::Bytes::move_list))]
fn take_moves(alloc: Global, bytes: &[u8]) -> Result<(Items<(u64, MoveRow)>, &[u8]), Stop>
    ensures { Reads result (move_list.reading bytes.now) }
{
    take_rows(alloc, u32::MAX, bytes)
}

/// The rows at the front, and the bytes after them.
#[tactic(auto, unfolding(crate::specs::Bytes::lists_grammar))]
fn take_lists(alloc: Global, bytes: &[u8]) -> Result<(MetaRows, &[u8]), Stop>
    ensures { Gives (λ x. (state_of_rows x.0, x.1.now)) result (lists_grammar.reading bytes.now) }
{
    let (members, rest) = take_members(alloc, bytes)?;
    let (groups, rest) = take_groups(alloc, rest)?;
    let (destroyed, rest) = take_destroyed(alloc, rest)?;
    let (moves, rest) = take_moves(alloc, rest)?;
    let rows = MetaRows {
        members,
        groups,
        destroyed,
        moves,
    };
    Ok((rows, rest))
}

/// The rows at the front, which rise, and the bytes after them.
fn take_ordered(alloc: Global, bytes: &[u8]) -> Result<(MetaRows, &[u8]), Stop>
    ensures reads { Gives (λ x. (state_of_rows x.0, x.1.now)) result (lists_grammar.reading bytes.now) }
    ensures ordered { IfOk result (λ x. IsOrdered (state_of_rows x.0)) }
{
    take_lists(alloc, bytes)
}

/// The lists of these rows.
fn tables_of(alloc: Global, rows: MetaRows) -> Result<MetaTables, NoMemory>
    requires { IsOrdered (state_of_rows rows) }
    ensures { IfOk result (λ tables. tables ≡ state_of_rows rows) }
{
    let MetaRows {
        members,
        groups,
        destroyed,
        moves,
    } = rows;
    Ok(MetaTables {
        alloc,
        members: from_rows(alloc, members)?,
        groups: from_rows(alloc, groups)?,
        destroyed: from_rows(alloc, destroyed)?,
        moves: from_rows(alloc, moves)?,
    })
}

/// Whether each move is of a group that has a row.
fn moves_have_groups(groups: &BTreeMap<u64, GroupRow>, moves: &BTreeMap<u64, MoveRow>) -> bool
    ensures { result ≡ moves_have_groups groups.now.entries moves.now.entries }
{
    for (group, _row) in moves {
        if !groups.contains_key(group) {
            return false;
        }
    }
    true
}

/// Whether there are not too many groups that have ended or are being destroyed.
#[tactic(auto, using(crate::proofs::Walks::few_still))]
fn are_few_given_up(tables: &MetaTables) -> bool
    ensures { result ≡ nat_le (given_up tables.now) MOST_DESTROYED }
{
    let rows = destroying_rows(&tables.groups);
    tables.destroyed.len().saturating_add(rows) <= MOST_DESTROYED as usize
}

/// Whether the lists keep the rules that bind them to one another.
#[tactic(auto, unfolding(crate::specs::Bytes::is_consistent))]
fn is_consistent(tables: &MetaTables) -> bool
    ensures { result ≡ is_consistent tables.now }
{
    are_few_given_up(tables) && moves_have_groups(&tables.groups, &tables.moves)
}

/// The lists at the front, and the bytes after them.
#[tactic(auto, unfolding(crate::specs::Bytes::state_grammar))]
fn take_state(alloc: Global, bytes: &[u8]) -> Result<(MetaTables, &[u8]), Stop>
    ensures { Reads result (state_grammar.reading bytes.now) }
{
    let (rows, rest) = take_ordered(alloc, bytes)?;
    let tables = tables_of(alloc, rows)?;
    if !is_consistent(&tables) {
        return Err(Stop::Left(rest.len()));
    }
    Ok((tables, rest))
}

/// Appends the lists.
#[tactic(auto, using(crate::proofs::Written::lists_written, crate::proofs::Sound::members_counted, crate::proofs::Sound::groups_counted, crate::proofs::Sound::destroyed_counted, crate::proofs::Sound::moves_counted))]
fn append_lists(tables: &MetaTables, out: &mut Vec<u8>) -> Result<(), NoMemory>
    requires { IsSound tables.now }
    ensures { OnOk result (out.new.items ≡ out.old.items ++ state_grammar.spelling tables.now) }
{
    append_rows(&tables.members, out)?;
    append_rows(&tables.groups, out)?;
    append_rows(&tables.destroyed, out)?;
    append_rows(&tables.moves, out)?;
    Ok(())
}

impl Spelled for MetaTables {
    ghost grammar = { snapshot_grammar };

    #[tactic(auto, unfolding(crate::specs::Bytes::snapshot_grammar))]
    fn take<'a>(alloc: Global, bytes: &'a [u8]) -> Result<(MetaTables, &'a [u8]), Stop> {
        let rest = take_mark(bytes, VERSION)?;
        take_state(alloc, rest)
    }

    #[tactic(auto, using(crate::proofs::Sound::fits_are_sound), unfolding(crate::specs::Bytes::snapshot_grammar))]
    fn append(&self, out: &mut Vec<u8>) -> Result<(), NoMemory> {
        append_u8(VERSION, out)?;
        append_lists(self, out)
    }

    ghost lawful = { snapshot_lawful };
}

/// Appends bytes that restore to the lists, or leaves `out`.
#[tactic(auto, using(crate::proofs::Sound::sound_fit, crate::proofs::Sound::come_back), unfolding(crate::specs::Bytes::spelled))]
pub(crate) fn write_tables(tables: &MetaTables, out: &mut Vec<u8>) -> Result<(), NoMemory>
    requires { IsSound tables.now }
    ensures bytes { OnOk result (out.new.items ≡ out.old.items ++ spelled tables.now) }
    ensures back { OnOk result (restored (spelled tables.now) ≡ Ok tables.now) }
    ensures err { OnErr result (out.new.items ≡ out.old.items) }
{
    match cp_grammar::write(tables, out) {
        Ok(()) => Ok(()),
        Err(NoMemory) => Err(NoMemory),
    }
}

/// The lists of the state that the bytes restore, which is sound; or why they restore none.
#[tactic(auto, using(crate::proofs::Sound::fits_are_sound), unfolding(crate::specs::Bytes::restored))]
pub(crate) fn read_tables(alloc: Global, bytes: &[u8]) -> Result<MetaTables, ReadError>
    ensures exact { Tells result (restored bytes.now) }
    ensures sound { IfOk result (λ tables. IsSound tables) }
{
    match cp_grammar::read(alloc, bytes) {
        Ok(tables) => Ok(tables),
        Err(error) => Err(error),
    }
}
