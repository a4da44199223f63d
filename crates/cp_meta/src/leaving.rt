//! Members leave.
ghost use Rattle.std.specs.Prelude.{◌≡◌, IfOk, OnOk};
ghost use Rattle.cp_meta_state.specs.Leaving.{end_leaving, is_unsettled, leave, leaving, moves_away, one_for, outside};

use crate::chosen::lightest;
use crate::loads::{is_in, loaded};
use crate::standings::{active, is_any_leaving, is_member_active, is_member_leaving};
use crate::tables::MetaTables;
use cp_answers::{Answer, Argument};
use cp_base::NoMemory;
use cp_meta_state::{GroupRow, MoveRow, Standing};
use cp_rows::put_row;
use std::alloc::Global;
use std::collections::BTreeMap;

/// The members of some that are not in a group.
fn outside(alloc: Global, members: &[u8], some: &[u8]) -> Result<Vec<u8>, NoMemory>
    ensures { IfOk result (λ others. others.items ≡ outside members.now some.now) }
{
    let mut others = Vec::new(alloc);
    let mut rest = some;
    while let [member, after @ ..] = rest {
        if !is_in(members, *member) {
            others.push(*member)?;
        }
        rest = after;
    }
    Ok(others)
}

/// Of some members the one of least load outside a group of these members, or 0 where there is none.
fn one_for(
    alloc: Global,
    members: &[u8],
    groups: &BTreeMap<u64, GroupRow>,
    moves: &BTreeMap<u64, MoveRow>,
    some: &[u8],
) -> Result<u8, NoMemory>
    ensures { IfOk result (λ member. member ≡ one_for members.now groups.now.entries moves.now.entries some.now) }
{
    let others = outside(alloc, members, some)?;
    let pairs = loaded(alloc, groups, moves, &others)?;
    let first = lightest(alloc, 1, &pairs)?;
    match first.first() {
        Some(member) => Ok(*member),
        None => Ok(0),
    }
}

/// Each group with a member gets a move to one of the others, by number. A move counts for the groups after it.
#[tactic(auto, using(crate::proofs::Walks::one_away, crate::proofs::Walks::none_away, crate::proofs::Walks::all_away))]
fn move_away(
    alloc: Global,
    member: u8,
    groups: &BTreeMap<u64, GroupRow>,
    others: &[u8],
    moves: &mut BTreeMap<u64, MoveRow>,
) -> Result<(), NoMemory>
    ensures { OnOk result (moves.new.entries ≡ moves_away member groups.now.entries others.now moves.old.entries) }
{
    for (group, row) in groups {
        if is_in(row.members.as_slice(), member) {
            let add = one_for(alloc, row.members.as_slice(), groups, moves, others)?;
            let plan = row.index;
            let remove = member;
            put_row(moves, *group, MoveRow { plan, add, remove })?;
        }
    }
    Ok(())
}

impl MetaTables {
    /// Whether a move stands, or a member is leaving.
    pub(crate) fn is_unsettled(&self) -> bool
        ensures { result ≡ is_unsettled self.now }
    {
        !self.moves.is_empty() || is_any_leaving(&self.members)
    }

    /// The member is leaving, and its groups are to move.
    fn begin_leaving(&mut self, member: u8) -> Result<(), NoMemory>
        ensures { OnOk result (self.new ≡ leaving member self.old) }
    {
        put_row(&mut self.members, member, Standing::Leaving)?;
        let others = active(self.alloc, &self.members)?;
        move_away(self.alloc, member, &self.groups, &others, &mut self.moves)
    }

    /// The member is to leave.
    pub(crate) fn leave(&mut self, member: u8) -> Result<Answer, NoMemory>
        ensures state { OnOk result (self.new ≡ (leave member self.old).state) }
        ensures answer { IfOk result (λ answer. answer ≡ (leave member self.old).answer) }
    {
        if self.is_unsettled() {
            return Ok(Answer::BadArgument(Argument::Leaving));
        }
        if !is_member_active(&self.members, member) {
            return Ok(Answer::BadArgument(Argument::Member));
        }
        let active = active(self.alloc, &self.members)?;
        if active.len() == 1 {
            return Ok(Answer::BadArgument(Argument::Size));
        }
        self.begin_leaving(member)?;
        Ok(Answer::Ok)
    }

    /// The member has left, where it is leaving and no move stands.
    pub(crate) fn end_leaving(&mut self, member: u8) -> Result<(), NoMemory>
        ensures { OnOk result (self.new ≡ end_leaving member self.old) }
    {
        if is_member_leaving(&self.members, member) && self.moves.is_empty() {
            put_row(&mut self.members, member, Standing::Out)?;
        }
        Ok(())
    }
}
