//! The machine of METADATA.
ghost use Rattle.std.specs.Prelude.{◌≡◌, ◌++◌, ◌≤◌, Ok, IfOk, OnErr, OnOk};
ghost use Rattle.std.specs.Option.{option_copied};
ghost use Rattle.cp_base.specs.declared.limits.TheConstants.{LAST_NUMBER};
ghost use Rattle.cp_machine.specs.Machines.{AnswersFit, IsSized};
ghost use Rattle.cp_meta_state.specs.MetaState.{first_state, group_at};
ghost use Rattle.cp_meta_state.specs.Ranges.{IsSound};
ghost use Rattle.cp_grammar.specs.Readers.{Tells};
ghost use Rattle.cp_meta.specs.Bytes.{restored, spelled};
ghost use Rattle.cp_meta.specs.Stepping.{step};

use crate::snapshot::{read_tables, write_tables};
use crate::steps::apply_bytes;
use crate::tables::MetaTables;
use cp_answers::Answer;
use cp_base::{GroupId, Invocation, Items, NoMemory};
use cp_grammar::ReadError;
use cp_meta_state::{GroupRow, MoveRow, Standing};
use std::alloc::Global;
use std::collections::BTreeMap;
use std::marker::Model;

/// The machine of METADATA, which contracts see as its state. It is always sound. After want of memory in `apply` it
/// keeps nothing, and is only dropped.
#[derive(Drop)]
pub struct MetaMachine {
    alloc: Global,
    tables: MetaTables,
}

impl Model for MetaMachine {
    ghost use Rattle.cp_meta_state.specs.MetaState.{MetaState};
    ghost use Rattle.cp_meta_state.specs.Ranges.{IsSound};

    ghost Value = { MetaState };

    ghost view = { λ machine. machine.tables };

    ghost invariant = { λ machine. IsSound machine.tables };
}

impl MetaMachine {
    /// The machine to which no entry was applied, of so many members, of which the first groups have so many.
    #[tactic(auto, using(crate::proofs::Entries::first_is_sound))]
    pub fn begin(alloc: Global, members: u8, size: u8) -> Result<MetaMachine, NoMemory>
        requires { IsSized members size }
        ensures { IfOk result (λ machine. machine ≡ first_state members size) }
    {
        let tables = MetaTables::first(alloc, members, size)?;
        Ok(MetaMachine { alloc, tables })
    }

    /// Applies the entry of this index, and appends the answers that it gives.
    #[tactic(auto, using(crate::proofs::Entries::nothing_is_sound))]
    pub fn apply_bytes(
        &mut self,
        index: u64,
        entry: &[u8],
        out: &mut Items<(Invocation, Answer)>,
    ) -> Result<(), NoMemory>
        requires { index ≤ LAST_NUMBER }
        ensures view { OnOk result (self.new ≡ (step self.old index entry.now).view) }
        ensures answers { OnOk result (out.new ≡ out.old ++ (step self.old index entry.now).answers) }
        ensures fit { OnOk result (AnswersFit (step self.old index entry.now).answers) }
    {
        match apply_bytes(self.alloc, &mut self.tables, index, entry, out) {
            Ok(()) => Ok(()),
            Err(NoMemory) => {
                self.tables = MetaTables::nothing(self.alloc);
                Err(NoMemory)
            }
        }
    }

    /// Appends bytes that restore to this machine, or leaves `out`.
    pub fn write_bytes(&self, out: &mut Vec<u8>) -> Result<(), NoMemory>
        ensures bytes { OnOk result (out.new.items ≡ out.old.items ++ spelled self.now) }
        ensures back { OnOk result (restored (spelled self.now) ≡ Ok self.now) }
        ensures err { OnErr result (out.new.items ≡ out.old.items) }
    {
        write_tables(&self.tables, out)
    }

    /// The machine of the state that the bytes restore, or why they restore none.
    pub fn read_bytes(alloc: Global, bytes: &[u8]) -> Result<MetaMachine, ReadError>
        ensures { Tells result (restored bytes.now) }
    {
        match read_tables(alloc, bytes) {
            Ok(tables) => Ok(MetaMachine { alloc, tables }),
            Err(error) => Err(error),
        }
    }

    /// The group of this number, if it has a row.
    pub fn group(&self, group: GroupId) -> Option<&GroupRow>
        ensures { option_copied result ≡ group_at self.now group.0 }
    {
        self.tables.groups.get(&group.0)
    }

    /// The groups by rising number, lent.
    pub fn groups(&self) -> &BTreeMap<u64, GroupRow>
        ensures rows { result.now.entries ≡ self.now.groups }
        ensures sound { IsSound self.now }
    {
        &self.tables.groups
    }

    /// The moves that stand, by the rising number of their groups, lent.
    pub fn tasks(&self) -> &BTreeMap<u64, MoveRow>
        ensures rows { result.now.entries ≡ self.now.moves }
        ensures sound { IsSound self.now }
    {
        &self.tables.moves
    }

    /// The members by rising number, lent.
    pub fn members(&self) -> &BTreeMap<u8, Standing>
        ensures rows { result.now.entries ≡ self.now.members }
        ensures sound { IsSound self.now }
    {
        &self.tables.members
    }

    /// The numbers of the groups that have ended, rising, lent.
    pub fn destroyed(&self) -> &BTreeMap<u64, ()>
        ensures rows { result.now.entries ≡ self.now.destroyed }
        ensures sound { IsSound self.now }
    {
        &self.tables.destroyed
    }
}
