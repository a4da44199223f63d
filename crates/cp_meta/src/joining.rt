//! Members join again.
ghost use Rattle.std.specs.Prelude.{◌≡◌, IfOk, OnOk};
ghost use Rattle.std.specs.List.{find};
ghost use Rattle.std.specs.Map.{keys_of};
ghost use Rattle.std.specs.Option.{option_map};
ghost use Rattle.cp_meta_state.specs.Joining.{can_move, giver, join, joining, take_over};
ghost use Rattle.cp_meta.specs.Turns.{move_for, next_move};

use crate::chosen::heaviest;
use crate::loads::{is_in, load, loaded};
use crate::standings::is_member_out;
use crate::tables::MetaTables;
use cp_answers::{Answer, Argument};
use cp_base::NoMemory;
use cp_meta_state::{GroupRow, MoveRow, Standing};
use cp_rows::put_row;
use std::alloc::Global;
use std::collections::BTreeMap;

/// The number of METADATA's own group.
const METADATA: u64 = 0;

/// Whether a group is one that can move: not METADATA, with the one member and without the other, and no move stands.
fn can_move(from: u8, to: u8, moves: &BTreeMap<u64, MoveRow>, group: u64, row: &GroupRow) -> bool
    ensures { result ≡ can_move from to moves.now.entries (group, row.now) }
{
    let members = row.members.as_slice();
    group != METADATA && is_in(members, from) && !is_in(members, to) && !moves.contains_key(&group)
}

/// A move of the lowest group that can move, if there is one.
fn first_move(
    from: u8,
    to: u8,
    groups: &BTreeMap<u64, GroupRow>,
    moves: &BTreeMap<u64, MoveRow>,
) -> Option<(u64, MoveRow)>
    ensures { result ≡ option_map (move_for from to) (find (can_move from to moves.now.entries) groups.now.entries) }
{
    for (group, row) in groups {
        if can_move(from, to, moves, *group, row) {
            let plan = row.index;
            return Some((
                *group,
                MoveRow {
                    plan,
                    add: to,
                    remove: from,
                },
            ));
        }
    }
    None
}

/// The member of greatest load, with its load.
fn giver(
    alloc: Global,
    members: &[u8],
    groups: &BTreeMap<u64, GroupRow>,
    moves: &BTreeMap<u64, MoveRow>,
) -> Result<(u8, usize), NoMemory>
    ensures { IfOk result (λ from. from ≡ giver members.now groups.now.entries moves.now.entries) }
{
    let pairs = loaded(alloc, groups, moves, members)?;
    Ok(heaviest(&pairs))
}

/// The next move to a member, if there is one: from a member whose load is greater by two or more.
#[tactic(auto, using(crate::proofs::Turns::next_some, crate::proofs::Turns::next_none))]
fn next_move(
    alloc: Global,
    member: u8,
    members: &[u8],
    groups: &BTreeMap<u64, GroupRow>,
    moves: &BTreeMap<u64, MoveRow>,
) -> Result<Option<(u64, MoveRow)>, NoMemory>
    ensures { IfOk result (λ next. next ≡ next_move member members.now groups.now.entries moves.now.entries) }
{
    let from = giver(alloc, members, groups, moves)?;
    if load(groups, moves, member) >= from.1.saturating_sub(1) {
        return Ok(None);
    }
    Ok(first_move(from.0, member, groups, moves))
}

/// Groups are to move to a member, at most so many.
#[tactic(auto, using(crate::proofs::Turns::one_turn, crate::proofs::Turns::last_turn, crate::proofs::Turns::no_turn))]
fn take_over(
    alloc: Global,
    turns: usize,
    member: u8,
    members: &[u8],
    groups: &BTreeMap<u64, GroupRow>,
    moves: &mut BTreeMap<u64, MoveRow>,
) -> Result<(), NoMemory>
    ensures { OnOk result (moves.new.entries ≡ take_over turns member members.now groups.now.entries moves.old.entries) }
{
    let mut left = turns;
    while left > 0 {
        match next_move(alloc, member, members, groups, moves)? {
            None => return Ok(()),
            Some((group, row)) => put_row(moves, group, row)?,
        }
        left -= 1;
    }
    Ok(())
}

/// The numbers of all members.
fn numbers(alloc: Global, members: &BTreeMap<u8, Standing>) -> Result<Vec<u8>, NoMemory>
    ensures { IfOk result (λ numbers. numbers.items ≡ keys_of members.now.entries) }
{
    let mut numbers = Vec::new(alloc);
    for (member, _standing) in members {
        numbers.push(*member)?;
    }
    Ok(numbers)
}

impl MetaTables {
    /// The member is active, and takes over groups.
    fn begin_joining(&mut self, member: u8) -> Result<(), NoMemory>
        ensures { OnOk result (self.new ≡ joining member self.old) }
    {
        put_row(&mut self.members, member, Standing::Active)?;
        let members = numbers(self.alloc, &self.members)?;
        let turns = self.groups.len();
        take_over(
            self.alloc,
            turns,
            member,
            &members,
            &self.groups,
            &mut self.moves,
        )
    }

    /// The member is to take part again.
    pub(crate) fn join(&mut self, member: u8) -> Result<Answer, NoMemory>
        ensures state { OnOk result (self.new ≡ (join member self.old).state) }
        ensures answer { IfOk result (λ answer. answer ≡ (join member self.old).answer) }
    {
        if self.is_unsettled() {
            return Ok(Answer::BadArgument(Argument::Leaving));
        }
        if !is_member_out(&self.members, member) {
            return Ok(Answer::BadArgument(Argument::Member));
        }
        self.begin_joining(member)?;
        Ok(Answer::Ok)
    }
}
