//! What the store keeps in memory.
ghost use Rattle.std.specs.Prelude.{false, None, ◌≡◌, ◌≤◌, ◌<◌, ◌+◌, ◌-◌, ◌^◌, ◌++◌, [], length, map, reverse, IfOk, OnErr, IsSome, IsTrue};
ghost use Rattle.std.specs.Option.{option_copied, option_map};
ghost use Rattle.std.specs.Ordering.{nat_cmp};
ghost use Rattle.std.specs.BTreeMap.{get, insert_entry, is_at};
ghost use Rattle.std.specs.BTreeSet.{insert_key};
ghost use Rattle.std.specs.Map.{keys_of, remove_entry};
ghost use Rattle.cp_base.specs.declared.limits.TheConstants.{LAST_NUMBER};
ghost use Rattle.cp_log_rules.specs.Persistent.{new_group};
ghost use Rattle.cp_log_rules.specs.Durable.{group_at, has_ended};

use crate::change::Change;
use crate::row::Row;
use crate::rows::{
    insert_ended, insert_row, numbers_of, put_entries, put_snapshot, remove_number, remove_row,
    set_ballot,
};
use cp_base::{GroupId, Items, NoMemory};
use std::alloc::Global;
use std::collections::{BTreeMap, BTreeSet};
use std::mem;

/// What the parts of the journal stand for.
#[derive(Drop)]
pub(crate) struct Durable {
    pub restart: u64,
    /// 1 before the first part of the second format, and 2 from it on.
    pub format: u8,
    pub rows: BTreeMap<u64, Row>,
    pub ended: BTreeSet<u64>,
    /// The numbers of the rows, rising.
    pub numbers: Vec<GroupId>,
    ghost counted: { restart ≤ LAST_NUMBER },
    ghost listed: { map (λ group. group.0) numbers.items ≡ keys_of rows.entries },
}

impl Durable {
    ghost use Rattle.cp_log.specs.Changes.{committed, cancelled, Fits, IsReady};
    ghost use Rattle.cp_log.specs.Durables.{durable_of};
    ghost use Rattle.cp_log.specs.Rows.{state_of};

    /// The row of a group, if it stands.
    pub fn row(&self, group: u64) -> Option<&Row>
        ensures { option_map state_of (option_copied result) ≡ group_at (durable_of self.now) group }
    {
        self.rows.get(&group)
    }

    /// Applies a change that was prepared.
    pub fn apply(&mut self, change: Change)
        requires { Fits change self.old }
        ensures { durable_of self.new ≡ committed change (durable_of self.old) }
    {
        match change {
            Change::Start(restart, format) => {
                self.restart = restart;
                self.format = format;
            }
            Change::Ballot(group, term, vote) => set_ballot(&mut self.rows, group, term, vote),
            Change::Entries(group, term, vote, after, entries, configs) => {
                put_entries(&mut self.rows, group, term, vote, after, entries, configs);
            }
            Change::Snapshot(group, term, vote, index, bytes, head) => {
                put_snapshot(&mut self.rows, group, term, vote, index, bytes, head);
            }
            Change::Begun(_group, _numbers) => {}
            Change::Ended(group) => {
                remove_row(&mut self.rows, group);
                remove_number(&mut self.numbers, group);
            }
        }
    }

    /// Gives a change up that was prepared.
    pub fn cancel(&mut self, change: Change)
        requires { Fits change self.old }
        ensures { durable_of self.new ≡ cancelled change (durable_of self.old) }
    {
        match change {
            Change::Start(_, _) => {}
            Change::Ballot(_, _, _) => {}
            Change::Entries(_, _, _, _, _, _) => {}
            Change::Snapshot(_, _, _, _, _, _) => {}
            Change::Begun(group, numbers) => {
                remove_row(&mut self.rows, group);
                self.numbers = numbers;
            }
            Change::Ended(group) => {
                let _was = self.ended.remove(&group);
            }
        }
    }

    /// Puts the row of a group in that begins with these members.
    pub fn prepare_begin(
        &mut self,
        alloc: Global,
        group: u64,
        first: Items<u8>,
    ) -> Result<Change, NoMemory>
        requires { group_at (durable_of self.old) group ≡ None }
        ensures ok { IfOk result (λ change. IsReady change self.new (durable_of self.old)
            (record (durable_of self.old) {
              groups = insert_entry nat_cmp (durable_of self.old).groups group (new_group first);
            })) }
        ensures err { OnErr result (durable_of self.new ≡ durable_of self.old) }
    {
        match insert_row(alloc, &mut self.rows, group, first) {
            Ok(()) => {}
            Err(NoMemory) => return Err(NoMemory),
        }
        match numbers_of(alloc, &self.rows) {
            Ok(numbers) => {
                let before = mem::replace(&mut self.numbers, numbers);
                Ok(Change::Begun(group, before))
            }
            Err(NoMemory) => {
                remove_row(&mut self.rows, group);
                Err(NoMemory)
            }
        }
    }

    /// Puts a group among those that have ended.
    pub fn prepare_end(&mut self, group: u64) -> Result<Change, NoMemory>
        requires { has_ended (durable_of self.old) group ≡ false }
        ensures ok { IfOk result (λ change. IsReady change self.new (durable_of self.old)
            (record (durable_of self.old) {
              groups = remove_entry (is_at (nat_cmp group)) (durable_of self.old).groups;
              ended = insert_key nat_cmp (durable_of self.old).ended group;
            })) }
        ensures err { OnErr result (durable_of self.new ≡ durable_of self.old) }
    {
        match insert_ended(&mut self.ended, group) {
            Ok(()) => Ok(Change::Ended(group)),
            Err(NoMemory) => Err(NoMemory),
        }
    }
}
