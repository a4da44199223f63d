//! Why it is not known whether a call took effect.
ghost use Rattle.cp_answers.specs.EndedBys.{ended_by};
ghost use Rattle.cp_answers.specs.Laws.{ended_by_lawful};

use cp_base::{NoMemory, Text};
use cp_grammar::{Spelled, Stop, append_u8, take_u8};
use std::alloc::Global;

/// Why it is not known whether a call took effect.
#[derive(Clone, Copy, Debug, PartialEq, Eq)]
pub enum EndedBy {
    /// Its deadline passed.
    Deadline,
    /// Its request was lost, and may not be sent again.
    Lost,
}

impl Spelled for EndedBy {
    ghost grammar = { ended_by };

    #[tactic(auto, unfolding(crate::specs::EndedBys::ended_by))]
    fn take<'a>(_alloc: Global, bytes: &'a [u8]) -> Result<(EndedBy, &'a [u8]), Stop> {
        let (tag, rest) = take_u8(bytes, 1)?;
        match tag {
            0 => Ok((EndedBy::Deadline, rest)),
            1 => Ok((EndedBy::Lost, rest)),
            _ => Err(Stop::Left(rest.len())),
        }
    }

    #[tactic(auto, unfolding(crate::specs::EndedBys::ended_by))]
    fn append(&self, out: &mut Vec<u8>) -> Result<(), NoMemory> {
        match self {
            EndedBy::Deadline => append_u8(0, out)?,
            EndedBy::Lost => append_u8(1, out)?,
        }
        Ok(())
    }

    ghost lawful = { ended_by_lawful };
}

impl Text for EndedBy {
    ghost use Rattle.cp_answers.specs.EndedBys.{ended_by_text};

    ghost text = { ended_by_text };

    fn append_text(&self, out: &mut Vec<u8>) -> Result<(), NoMemory> {
        match self {
            EndedBy::Deadline => out.extend_from_slice(b"deadline")?,
            EndedBy::Lost => out.extend_from_slice(b"lost")?,
        }
        Ok(())
    }
}
