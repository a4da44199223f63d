//! The machine of a group that holds objects is lawful.
ghost use Rattle.cp_group_state.specs.GroupState.{GroupState, empty};
ghost use Rattle.cp_state_bytes.specs.States.{restored};
ghost use Rattle.cp_resource.specs.Lawful.{first, stays_quiet, view};
ghost use Rattle.cp_resource.specs.Stepping.{looked, step};
ghost use Rattle.cp_resource.specs.Timing.{timers_of};

use crate::machine::GroupMachine;
use cp_answers::Answer;
use cp_base::{GroupId, Invocation, Items, NoMemory};
use cp_grammar::ReadError;
use cp_machine::{Machine, Timer};
use std::alloc::Global;

impl Machine for GroupMachine {
    ghost View = { GroupState };

    ghost view = { view };

    ghost first = { first };

    ghost step = { step };

    ghost timers = { timers_of };

    ghost restored = { restored };

    ghost looked = { looked };

    fn new(
        alloc: Global,
        _group: GroupId,
        _members: u8,
        _size: u8,
    ) -> Result<GroupMachine, NoMemory> {
        GroupMachine::begin(alloc)
    }

    fn apply(
        &mut self,
        index: u64,
        entry: &[u8],
        out: &mut Items<(Invocation, Answer)>,
    ) -> Result<(), NoMemory> {
        self.apply_bytes(index, entry, out)
    }

    fn timers(&self) -> usize {
        self.timer_count()
    }

    fn timer(&self, place: usize) -> Option<Timer> {
        self.timer_at(place)
    }

    fn write_snapshot(&self, out: &mut Vec<u8>) -> Result<(), NoMemory> {
        self.write_bytes(out)
    }

    fn restore(alloc: Global, bytes: &[u8]) -> Result<GroupMachine, ReadError> {
        GroupMachine::read_bytes(alloc, bytes)
    }

    fn look(&self, op: &[u8]) -> Result<Option<Answer>, NoMemory> {
        self.look_at(op)
    }

    ghost quiet = { stays_quiet };
}
