//! The machine of METADATA is lawful.
ghost use Rattle.cp_meta_state.specs.MetaState.{MetaState};
ghost use Rattle.cp_meta.specs.Bytes.{restored};
ghost use Rattle.cp_meta.specs.Lawful.{first, looked, no_timers, stays_quiet, view};
ghost use Rattle.cp_meta.specs.Stepping.{step};

use crate::machine::MetaMachine;
use cp_answers::Answer;
use cp_base::{GroupId, Invocation, Items, NoMemory};
use cp_grammar::ReadError;
use cp_machine::{Machine, Timer};
use std::alloc::Global;

impl Machine for MetaMachine {
    ghost View = { MetaState };

    ghost view = { view };

    ghost first = { first };

    ghost step = { step };

    ghost timers = { no_timers };

    ghost restored = { restored };

    ghost looked = { looked };

    fn new(alloc: Global, _group: GroupId, members: u8, size: u8) -> Result<MetaMachine, NoMemory> {
        MetaMachine::begin(alloc, members, size)
    }

    fn apply(
        &mut self,
        index: u64,
        entry: &[u8],
        out: &mut Items<(Invocation, Answer)>,
    ) -> Result<(), NoMemory> {
        self.apply_bytes(index, entry, out)
    }

    fn timers(&self) -> usize {
        0
    }

    fn timer(&self, _place: usize) -> Option<Timer> {
        None
    }

    fn write_snapshot(&self, out: &mut Vec<u8>) -> Result<(), NoMemory> {
        self.write_bytes(out)
    }

    fn restore(alloc: Global, bytes: &[u8]) -> Result<MetaMachine, ReadError> {
        MetaMachine::read_bytes(alloc, bytes)
    }

    fn look(&self, _op: &[u8]) -> Result<Option<Answer>, NoMemory> {
        Ok(None)
    }

    ghost quiet = { stays_quiet };
}
