//! Groups are made.
ghost use Rattle.std.specs.Prelude.{◌≡◌, None, Some, IfOk, MatchOption, OnOk};
ghost use Rattle.cp_meta_state.specs.Creating.{create, given, made, make, named};

use crate::changes::{copy, put_group};
use crate::chosen::lightest;
use crate::loads::loaded;
use crate::standings::active;
use crate::tables::MetaTables;
use cp_answers::{Answer, Argument};
use cp_base::{GroupId, Items, Name, NoMemory};
use cp_meta_state::{GroupRow, MOST_GROUPS};
use std::alloc::Global;
use std::collections::BTreeMap;

/// The group of a name, with its number.
pub(crate) fn named<'a>(
    groups: &'a BTreeMap<u64, GroupRow>,
    name: &Name,
) -> Option<(u64, &'a GroupRow)>
    ensures { MatchOption result (named groups.now.entries name.now ≡ None)
        (λ e. named groups.now.entries name.now ≡ Some (e.0, e.1.now)) }
{
    for (group, row) in groups {
        if row.name == *name {
            return Some((*group, row));
        }
    }
    None
}

/// What a name that is taken is answered.
fn given(alloc: Global, group: u64, row: &GroupRow) -> Result<Answer, NoMemory>
    ensures { IfOk result (λ answer. answer ≡ given (group, row.now)) }
{
    if row.destroying {
        return Ok(Answer::GroupDestroyed(GroupId(group)));
    }
    let members = copy(alloc, row.members.as_slice())?;
    Ok(Answer::Group(GroupId(group), members))
}

impl MetaTables {
    /// A group of these members has this number; a row that has it gives way, with its move.
    fn add_group(&mut self, group: u64, name: &Name, members: &[u8]) -> Result<(), NoMemory>
        ensures { OnOk result (self.new ≡ made group name.now members.now self.old) }
    {
        put_group(self.alloc, &mut self.groups, group, name, members)?;
        self.moves.remove(&group);
        Ok(())
    }

    /// A new group has the index of its entry as its number, and stands on the active members of least load.
    fn make(&mut self, index: u64, name: &Name, size: u8) -> Result<Answer, NoMemory>
        ensures state { OnOk result (self.new ≡ (make index name.now size self.old).state) }
        ensures answer { IfOk result (λ answer. answer ≡ (make index name.now size self.old).answer) }
    {
        let active = active(self.alloc, &self.members)?;
        if active.len() < usize::from(size) {
            return Ok(Answer::BadArgument(Argument::Size));
        }
        if self.groups.len() >= MOST_GROUPS as usize {
            return Ok(Answer::TableFull(MOST_GROUPS));
        }
        let pairs = loaded(self.alloc, &self.groups, &self.moves, &active)?;
        let members = lightest(self.alloc, usize::from(size), &pairs)?;
        self.add_group(index, name, &members)?;
        Ok(Answer::Group(GroupId(index), Items::from_vec(members)))
    }

    /// The group of a name, which is made where there is none.
    pub(crate) fn create(&mut self, index: u64, name: &Name, size: u8) -> Result<Answer, NoMemory>
        ensures state { OnOk result (self.new ≡ (create index name.now size self.old).state) }
        ensures answer { IfOk result (λ answer. answer ≡ (create index name.now size self.old).answer) }
    {
        match named(&self.groups, name) {
            Some((group, row)) => given(self.alloc, group, row),
            None => self.make(index, name, size),
        }
    }
}
