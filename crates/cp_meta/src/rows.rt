//! How the rows of METADATA's lists are read and written.
ghost use Rattle.std.specs.Prelude.{◌≡◌, ◌++◌, OnOk};
ghost use Rattle.std.specs.Map.{keys_of};
ghost use Rattle.cp_grammar.specs.Common.{member_after};
ghost use Rattle.cp_grammar.specs.Readers.{Reads};
ghost use Rattle.cp_meta_state.specs.Ranges.{DestroyedFits, GroupFits, MemberFits, MoveFits};
ghost use Rattle.cp_meta.specs.Rows.{destroyed_row, group_row, is_behind, member_row, move_row, number_behind, standing_grammar};

use crate::row::RowKey;
use cp_base::limits::MOST_MEMBER;
use cp_base::{Name, NoMemory};
use cp_grammar::{
    Spelled, Stop, append_flag, append_index, append_members, append_u8, append_u64, take_flag,
    take_index, take_members, take_u8, take_u64,
};
use cp_meta_state::{GroupRow, MoveRow, Standing};
use std::alloc::Global;

/// How the member stands, and the bytes after it.
#[tactic(auto, unfolding(crate::specs::Rows::standing_grammar))]
fn take_standing(bytes: &[u8]) -> Result<(Standing, &[u8]), Stop>
    ensures { Reads result (standing_grammar.reading bytes.now) }
{
    let (tag, rest) = take_u8(bytes, 2)?;
    match tag {
        0 => Ok((Standing::Active, rest)),
        1 => Ok((Standing::Leaving, rest)),
        2 => Ok((Standing::Out, rest)),
        _ => Err(Stop::Left(rest.len())),
    }
}

#[tactic(auto, unfolding(crate::specs::Rows::standing_grammar))]
fn append_standing(standing: Standing, out: &mut Vec<u8>) -> Result<(), NoMemory>
    ensures { OnOk result (out.new.items ≡ out.old.items ++ standing_grammar.spelling standing) }
{
    match standing {
        Standing::Active => append_u8(0, out),
        Standing::Leaving => append_u8(1, out),
        Standing::Out => append_u8(2, out),
    }
}

/// The number of a member, above those before it.
#[tactic(auto, using(crate::proofs::Behind::last_is, crate::proofs::Behind::last_none), unfolding(cp_grammar::specs::Common::member_after))]
fn take_member<'a>(before: &[(u8, Standing)], bytes: &'a [u8]) -> Result<(u8, &'a [u8]), Stop>
    ensures { Reads result ((member_after (keys_of before.now)).reading bytes.now) }
{
    let last = match before.last() {
        Some((number, _)) => *number,
        None => 0,
    };
    let (number, rest) = take_u8(bytes, MOST_MEMBER)?;
    if number <= last {
        return Err(Stop::Left(bytes.len()));
    }
    Ok((number, rest))
}

/// Whether the number is above that of the last row.
fn is_behind<V>(before: &[(u64, V)], number: u64) -> bool
    ensures { result ≡ is_behind before.now number }
{
    match before.last() {
        Some((last, _)) => *last < number,
        None => true,
    }
}

/// A number above that of the last row, and the bytes after it.
#[tactic(auto, unfolding(crate::specs::Rows::number_behind))]
fn take_number<'a, V>(before: &[(u64, V)], bytes: &'a [u8]) -> Result<(u64, &'a [u8]), Stop>
    ensures { Reads result ((number_behind before.now).reading bytes.now) }
{
    let (number, rest) = take_index(bytes)?;
    if !is_behind(before, number) {
        return Err(Stop::Left(bytes.len()));
    }
    Ok((number, rest))
}

impl RowKey<Standing> for u8 {
    ghost behind = { member_row };

    ghost fits = { MemberFits };

    #[tactic(auto, unfolding(crate::specs::Rows::member_row))]
    fn take_row<'a>(
        _alloc: Global,
        before: &[(u8, Standing)],
        bytes: &'a [u8],
    ) -> Result<((u8, Standing), &'a [u8]), Stop> {
        let (member, rest) = take_member(before, bytes)?;
        let (standing, rest) = take_standing(rest)?;
        Ok(((member, standing), rest))
    }

    #[tactic(auto, unfolding(crate::specs::Rows::member_row, cp_grammar::specs::Common::member_after))]
    fn append_row(&self, standing: &Standing, out: &mut Vec<u8>) -> Result<(), NoMemory> {
        append_u8(*self, out)?;
        append_standing(*standing, out)?;
        Ok(())
    }
}

impl RowKey<GroupRow> for u64 {
    ghost behind = { group_row };

    ghost fits = { GroupFits };

    #[tactic(auto, unfolding(crate::specs::Rows::group_row))]
    fn take_row<'a>(
        alloc: Global,
        before: &[(u64, GroupRow)],
        bytes: &'a [u8],
    ) -> Result<((u64, GroupRow), &'a [u8]), Stop> {
        let (group, rest) = take_number(before, bytes)?;
        let (name, rest) = Name::take(alloc, rest)?;
        let (destroying, rest) = take_flag(rest)?;
        let (first, rest) = take_members(alloc, rest)?;
        let (index, rest) = take_index(rest)?;
        let (members, rest) = take_members(alloc, rest)?;
        let row = GroupRow {
            name,
            destroying,
            first,
            index,
            members,
        };
        Ok(((group, row), rest))
    }

    #[tactic(auto, unfolding(crate::specs::Rows::group_row, crate::specs::Rows::number_behind))]
    fn append_row(&self, row: &GroupRow, out: &mut Vec<u8>) -> Result<(), NoMemory> {
        append_index(*self, out)?;
        row.name.append(out)?;
        append_flag(row.destroying, out)?;
        append_members(&row.first, out)?;
        append_index(row.index, out)?;
        append_members(&row.members, out)?;
        Ok(())
    }
}

/// The number of a group that has ended.
impl RowKey<()> for u64 {
    ghost behind = { destroyed_row };

    ghost fits = { DestroyedFits };

    #[tactic(auto, unfolding(crate::specs::Rows::destroyed_row))]
    fn take_row<'a>(
        _alloc: Global,
        before: &[(u64, ())],
        bytes: &'a [u8],
    ) -> Result<((u64, ()), &'a [u8]), Stop> {
        let (group, rest) = take_number(before, bytes)?;
        Ok(((group, ()), rest))
    }

    #[tactic(auto, unfolding(crate::specs::Rows::destroyed_row, crate::specs::Rows::number_behind))]
    fn append_row(&self, _row: &(), out: &mut Vec<u8>) -> Result<(), NoMemory> {
        append_index(*self, out)?;
        Ok(())
    }
}

impl RowKey<MoveRow> for u64 {
    ghost behind = { move_row };

    ghost fits = { MoveFits };

    #[tactic(auto, unfolding(crate::specs::Rows::move_row))]
    fn take_row<'a>(
        _alloc: Global,
        before: &[(u64, MoveRow)],
        bytes: &'a [u8],
    ) -> Result<((u64, MoveRow), &'a [u8]), Stop> {
        let (group, rest) = take_number(before, bytes)?;
        let (plan, rest) = take_u64(rest, u64::MAX)?;
        let (add, rest) = take_u8(rest, MOST_MEMBER)?;
        let from = rest;
        let (remove, rest) = take_u8(from, MOST_MEMBER)?;
        if remove < 1 {
            return Err(Stop::Left(from.len()));
        }
        Ok(((group, MoveRow { plan, add, remove }), rest))
    }

    #[tactic(auto, unfolding(crate::specs::Rows::move_row, crate::specs::Rows::number_behind))]
    fn append_row(&self, row: &MoveRow, out: &mut Vec<u8>) -> Result<(), NoMemory> {
        append_index(*self, out)?;
        append_u64(row.plan, out)?;
        append_u8(row.add, out)?;
        append_u8(row.remove, out)?;
        Ok(())
    }
}
