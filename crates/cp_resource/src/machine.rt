//! The machine of a group that holds objects.
ghost use Rattle.std.specs.Prelude.{◌≡◌, ◌++◌, ◌<◌, ◌≤◌, ◌^◌, Ok, Some, length, slice_get, IfOk, IfSome, OnErr, OnOk};
ghost use Rattle.cp_base.specs.declared.limits.TheConstants.{LAST_NUMBER};
ghost use Rattle.cp_machine.specs.Machines.{AnswersFit, LookFits, TimerFits};
ghost use Rattle.cp_group_state.specs.GroupState.{empty};
ghost use Rattle.cp_state_bytes.specs.States.{restored, spelled};
ghost use Rattle.cp_resource.specs.Restoring.{RestoresTables};
ghost use Rattle.cp_resource.specs.Stepping.{looked, step};
ghost use Rattle.cp_resource.specs.Timing.{timers_of};

use crate::snapshot::{read_tables, write_tables};
use crate::steps::{apply_bytes, look_at};
use crate::timing::{count, timer_at};
use cp_answers::Answer;
use cp_base::{GroupId, Invocation, Items, NoMemory};
use cp_grammar::ReadError;
use cp_group_ranges::first_state_is_sound;
use cp_group_tables::GroupTables;
use cp_machine::Timer;
use std::alloc::Global;
use std::marker::Model;

/// The machine of a group that holds objects, which contracts see as the group's state. It is always sound. After want
/// of memory in `apply` it is only dropped.
#[derive(Drop)]
pub struct GroupMachine {
    alloc: Global,
    tables: GroupTables,
    is_spent: bool,
}

impl Model for GroupMachine {
    ghost use Rattle.cp_group_state.specs.GroupState.{GroupState};
    ghost use Rattle.cp_group_ranges.specs.States.{IsSound};
    ghost use Rattle.cp_resource.specs.Stepping.{standing};

    ghost Value = { GroupState };

    ghost view = { λ machine. standing machine.is_spent machine.tables };

    ghost invariant = { λ machine. IsSound (standing machine.is_spent machine.tables) };
}

impl GroupMachine {
    /// The machine of a group to which no entry was applied.
    pub fn begin(alloc: Global) -> Result<GroupMachine, NoMemory>
        ensures { IfOk result (λ machine. machine ≡ empty) }
    {
        first_state_is_sound();
        Ok(GroupMachine {
            alloc,
            tables: GroupTables::new(alloc)?,
            is_spent: false,
        })
    }

    /// Applies the entry of this index, and appends the answers that it gives.
    pub fn apply_bytes(
        &mut self,
        index: u64,
        entry: &[u8],
        out: &mut Items<(Invocation, Answer)>,
    ) -> Result<(), NoMemory>
        requires { index ≤ LAST_NUMBER }
        ensures view { OnOk result (self.new ≡ (step self.old index entry.now).view) }
        ensures answers { OnOk result (out.new ≡ out.old ++ (step self.old index entry.now).answers) }
        ensures fit { OnOk result (AnswersFit (step self.old index entry.now).answers) }
    {
        if self.is_spent {
            return Err(NoMemory);
        }
        first_state_is_sound();
        self.is_spent = true;
        apply_bytes(self.alloc, &mut self.tables, index, entry, out)?;
        self.is_spent = false;
        Ok(())
    }

    /// How many sessions and calls wait for their time to be over.
    pub fn timer_count(&self) -> usize
        ensures { result ≡ length (timers_of self.now) }
    {
        if self.is_spent {
            return 0;
        }
        count(&self.tables)
    }

    /// The one at this place among them.
    fn timer_among(&self, place: usize) -> Timer
        requires { place < length (timers_of self.now) }
        ensures found { slice_get (timers_of self.now) place ≡ Some result }
        ensures fit { TimerFits result }
    {
        if self.is_spent {
            unreachable!();
        }
        timer_at(&self.tables, place)
    }

    /// The one at this place, from 0; none behind them.
    #[tactic(auto, using(crate::proofs::Timers::none_behind))]
    pub fn timer_at(&self, place: usize) -> Option<Timer>
        ensures found { result ≡ slice_get (timers_of self.now) place }
        ensures fit { IfSome result (λ timer. TimerFits timer) }
    {
        if place < self.timer_count() {
            Some(self.timer_among(place))
        } else {
            None
        }
    }

    /// What a read is answered without an entry. Bytes that spell no such read are answered by none.
    pub fn look_at(&self, op: &[u8]) -> Result<Option<Answer>, NoMemory>
        ensures answer { IfOk result (λ answer. answer ≡ looked self.now op.now) }
        ensures fit { IfOk result (λ answer. LookFits answer) }
    {
        if self.is_spent {
            return Err(NoMemory);
        }
        look_at(self.alloc, &self.tables, op)
    }

    /// Appends bytes that restore to this machine, or leaves `out`.
    pub fn write_bytes(&self, out: &mut Vec<u8>) -> Result<(), NoMemory>
        ensures bytes { OnOk result (out.new.items ≡ out.old.items ++ spelled self.now) }
        ensures back { OnOk result (restored (spelled self.now) ≡ Ok self.now) }
        ensures err { OnErr result (out.new.items ≡ out.old.items) }
    {
        if self.is_spent {
            return Err(NoMemory);
        }
        write_tables(&self.tables, out)
    }

    /// The machine of the state that the bytes restore, or why they restore none.
    pub fn read_bytes(alloc: Global, bytes: &[u8]) -> Result<GroupMachine, ReadError>
        ensures { RestoresTables result (restored bytes.now) }
    {
        match read_tables(alloc, bytes) {
            Ok(tables) => Ok(GroupMachine {
                alloc,
                tables,
                is_spent: false,
            }),
            Err(error) => Err(error),
        }
    }

    /// The number of the group where it was destroyed, else 0.
    pub fn destroyed_group(&self) -> u64
        ensures { result ≡ self.now.destroyed_group.0 }
    {
        if self.is_spent {
            return 0;
        }
        self.tables.destroyed_group().0
    }
}
