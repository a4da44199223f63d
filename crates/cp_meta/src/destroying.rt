//! Groups are destroyed.
ghost use Rattle.std.specs.Prelude.{◌≡◌, ◌+◌, length, nat_lt, OnOk};
ghost use Rattle.cp_meta_state.specs.declared.rows.TheConstants.{MOST_DESTROYED};
ghost use Rattle.cp_meta_state.specs.Destroying.{destroy, destroying_rows, end_group, end_row, is_fixed};

use crate::changes::begin_destroying;
use crate::creating::named;
use crate::tables::MetaTables;
use cp_answers::{Answer, Argument};
use cp_base::{Name, NoMemory};
use cp_meta_state::{GroupRow, MOST_DESTROYED};
use cp_rows::put_row;
use std::collections::BTreeMap;

/// Whether the name is that of a group which stays.
fn is_fixed(name: &Name) -> bool
    ensures { result ≡ is_fixed name.now }
{
    name.as_bytes() == b"METADATA".as_slice() || name.as_bytes() == b"default".as_slice()
}

/// How many groups are being destroyed.
pub(crate) fn destroying_rows(groups: &BTreeMap<u64, GroupRow>) -> usize
    ensures { result ≡ destroying_rows groups.now.entries }
{
    groups.iter().filter(|(_group, row)| row.destroying).count()
}

/// Whether one more group may be destroyed.
#[tactic(auto, using(crate::proofs::Walks::few_told))]
fn may_destroy(groups: &BTreeMap<u64, GroupRow>, destroyed: &BTreeMap<u64, ()>) -> bool
    ensures { result ≡ nat_lt (length destroyed.now.entries + destroying_rows groups.now.entries) MOST_DESTROYED }
{
    let rows = destroying_rows(groups);
    destroyed.len().saturating_add(rows) < MOST_DESTROYED as usize
}

impl MetaTables {
    /// The group of a name is to be destroyed.
    pub(crate) fn destroy(&mut self, name: &Name) -> Answer
        ensures state { self.new ≡ (destroy name.now self.old).state }
        ensures answer { result ≡ (destroy name.now self.old).answer }
    {
        // What the map says of its order stands at `len`.
        let _len = self.groups.len();
        let group = match named(&self.groups, name) {
            None => return Answer::BadArgument(Argument::Group),
            Some((group, row)) => {
                if row.destroying || is_fixed(&row.name) {
                    return Answer::BadArgument(Argument::Group);
                }
                group
            }
        };
        if !may_destroy(&self.groups, &self.destroyed) {
            return Answer::TableFull(MOST_DESTROYED);
        }
        begin_destroying(&mut self.groups, group);
        self.moves.remove(&group);
        Answer::Ok
    }

    /// The row of a group and its move go, and its number is kept.
    fn keep_ended(&mut self, ended: u64) -> Result<(), NoMemory>
        ensures { OnOk result (self.new ≡ end_row ended self.old) }
    {
        self.groups.remove(&ended);
        self.moves.remove(&ended);
        put_row(&mut self.destroyed, ended, ())
    }

    /// A group that is being destroyed has ended.
    pub(crate) fn end_group(&mut self, group: u64) -> Result<(), NoMemory>
        ensures { OnOk result (self.new ≡ end_group group self.old) }
    {
        let is_ending = match self.groups.get(&group) {
            Some(row) => row.destroying,
            None => false,
        };
        if is_ending {
            self.keep_ended(group)?;
        }
        Ok(())
    }
}
