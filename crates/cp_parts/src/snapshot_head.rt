//! What the bytes of a snapshot begin with.
ghost use Rattle.std.specs.Prelude.{◌≡◌, IfOk};
ghost use Rattle.cp_parts.specs.Heads.{head_grammar, head_of};
ghost use Rattle.cp_parts.specs.Laws.{head_lawful};

use crate::Config;
use cp_base::NoMemory;
use cp_grammar::{Spelled, Stop, append_index, take_index};
use std::alloc::Global;

/// What the bytes of a snapshot begin with; behind it stand those of the state machine.
#[derive(Clone, Debug, PartialEq, Eq, Drop)]
pub struct SnapshotHead {
    /// The term of the snapshot's index.
    pub term: u64,
    /// The configuration in force at that index.
    pub config: Config,
}

impl Spelled for SnapshotHead {
    ghost grammar = { head_grammar };

    #[tactic(auto, unfolding(crate::specs::Heads::head_grammar))]
    fn take<'a>(alloc: Global, bytes: &'a [u8]) -> Result<(SnapshotHead, &'a [u8]), Stop> {
        let (term, rest) = take_index(bytes)?;
        match Config::take(alloc, rest) {
            Ok((config, rest)) => Ok((SnapshotHead { term, config }, rest)),
            Err(stop) => Err(stop),
        }
    }

    #[tactic(auto, unfolding(crate::specs::Heads::head_grammar))]
    fn append(&self, out: &mut Vec<u8>) -> Result<(), NoMemory> {
        append_index(self.term, out)?;
        self.config.append(out)?;
        Ok(())
    }

    ghost lawful = { head_lawful };
}

/// The head of a snapshot's bytes, or none where they begin with none.
#[tactic(auto, unfolding(crate::specs::Heads::head_of))]
pub fn head_of_snapshot(alloc: Global, bytes: &[u8]) -> Result<Option<SnapshotHead>, NoMemory>
    ensures { IfOk result (λ head. head ≡ head_of bytes.now) }
{
    match SnapshotHead::take(alloc, bytes) {
        Ok((head, _machine)) => Ok(Some(head)),
        Err(Stop::Left(_)) => Ok(None),
        Err(Stop::NoMemory) => Err(NoMemory),
    }
}
