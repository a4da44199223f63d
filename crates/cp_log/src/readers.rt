//! Reading a store.
ghost use Rattle.std.specs.Prelude.{true, ◌≡◌, ◌≤◌, ◌==◌, None, Some, IfOk, map, if◌then◌else◌};
ghost use Rattle.std.specs.Option.{option_copied, option_map};
ghost use Rattle.std.specs.Map.{keys_of};
ghost use Rattle.cp_log_rules.specs.Persistent.{entry_at, last, term_at};
ghost use Rattle.cp_log_rules.specs.Configurations.{config_at};
ghost use Rattle.cp_log_rules.specs.Durable.{group_at, group_in, has_ended, has_group};
ghost use Rattle.cp_log_rules.specs.Legal.{is_legal};
ghost use Rattle.cp_log.specs.Rows.{state_of};
ghost use Rattle.cp_log.specs.Stores.{held_by};

use crate::row::Row;
use crate::store::Store;
use cp_base::{GroupId, NoMemory};
use cp_disk::Disk;
use cp_parts::{Config, Part};
use std::alloc::Global;

impl<D: Disk> Store<D> {
    /// Whether a part may follow those so far, as `write_step` asks.
    pub fn is_legal(&self, alloc: Global, part: &Part) -> Result<bool, NoMemory>
        ensures { IfOk result (λ is. is ≡ is_legal part.now (held_by self.now)) }
    {
        self.state.is_legal(alloc, part)
    }

    /// How often the member has started.
    pub fn restart(&self) -> u64
        ensures { result ≡ (held_by self.now).restart }
    {
        self.state.restart
    }

    /// Whether a group stands.
    pub fn has(&self, group: GroupId) -> bool
        ensures { result ≡ has_group (held_by self.now) group.0 }
    {
        self.state.row(group.0).is_some()
    }

    /// Whether a group has ended.
    pub fn ended(&self, group: GroupId) -> bool
        ensures { result ≡ has_ended (held_by self.now) group.0 }
    {
        self.state.ended.contains(&group.0)
    }

    /// The row of a group that stands.
    fn row(&self, group: GroupId) -> &Row
        requires { has_group (held_by self.now) group.0 ≡ true }
        ensures { state_of result.now ≡ group_in (held_by self.now) group.0 }
    {
        match self.state.row(group.0) {
            Some(row) => row,
            None => unreachable!(),
        }
    }

    /// The term of a group that stands.
    pub fn term(&self, group: GroupId) -> u64
        requires { has_group (held_by self.now) group.0 ≡ true }
        ensures { result ≡ (group_in (held_by self.now) group.0).term }
    {
        self.row(group).term
    }

    /// Who got the vote in the term of a group that stands, 0 for nobody.
    pub fn vote(&self, group: GroupId) -> u8
        requires { has_group (held_by self.now) group.0 ≡ true }
        ensures { result ≡ (group_in (held_by self.now) group.0).vote }
    {
        self.row(group).vote
    }

    /// The index of the snapshot of a group that stands, 0 where there is none.
    pub fn base(&self, group: GroupId) -> u64
        requires { has_group (held_by self.now) group.0 ≡ true }
        ensures { result ≡ (group_in (held_by self.now) group.0).base }
    {
        self.row(group).base
    }

    /// The index of the last entry of a group that stands, or its base where there is none.
    pub fn last(&self, group: GroupId) -> u64
        requires { has_group (held_by self.now) group.0 ≡ true }
        ensures { result ≡ last (group_in (held_by self.now) group.0) }
    {
        self.row(group).last()
    }

    /// The term at an index from the base to the last; none at others.
    pub fn term_at(&self, group: GroupId, index: u64) -> Option<u64>
        requires { has_group (held_by self.now) group.0 ≡ true }
        ensures { result ≡ term_at (group_in (held_by self.now) group.0) index }
    {
        self.row(group).term_at(index)
    }

    /// The bytes of the entry at an index behind the base; none at others.
    pub fn entry(&self, group: GroupId, index: u64) -> Option<&[u8]>
        requires { has_group (held_by self.now) group.0 ≡ true }
        ensures { option_copied result ≡ option_map (λ entry. entry.bytes) (entry_at (group_in (held_by self.now) group.0) index) }
    {
        match self.row(group).entry_at(index) {
            Some(entry) => Some(entry.bytes.as_slice()),
            None => None,
        }
    }

    /// The configuration in force at an index from the base to the last.
    pub fn config_at(&self, group: GroupId, index: u64) -> &Config
        requires group { has_group (held_by self.now) group.0 ≡ true }
        requires from { (group_in (held_by self.now) group.0).base ≤ index }
        requires to { index ≤ last (group_in (held_by self.now) group.0) }
        ensures { result.now ≡ config_at (group_in (held_by self.now) group.0) index }
    {
        self.row(group).config_at(index)
    }

    /// The bytes of the snapshot; none where the base is 0.
    pub fn snapshot(&self, group: GroupId) -> Option<&[u8]>
        requires { has_group (held_by self.now) group.0 ≡ true }
        ensures { option_copied result ≡ (if (group_in (held_by self.now) group.0).base == 0 then None else Some
            (group_in (held_by self.now) group.0).snapshot) }
    {
        let row = self.row(group);
        if row.base == 0 {
            None
        } else {
            Some(row.snapshot.as_slice())
        }
    }

    /// The groups that stand, by rising number.
    pub fn groups(&self) -> &[GroupId]
        ensures { map (λ group. group.0) result.now ≡ keys_of (held_by self.now).groups }
    {
        &self.state.numbers
    }
}
