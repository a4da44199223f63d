//! Which argument was bad.
ghost use Rattle.cp_answers.specs.Arguments.{argument};
ghost use Rattle.cp_answers.specs.Laws.{argument_lawful};

use cp_base::{NoMemory, Text};
use cp_grammar::{Spelled, Stop, append_u8, take_u8};
use std::alloc::Global;

/// Which argument was bad.
#[derive(Clone, Copy, Debug, PartialEq, Eq)]
pub enum Argument {
    /// A number would pass its bound.
    Overflow,
    /// There is no such group, or it may not go.
    Group,
    /// There are too few members.
    Size,
    /// The member is not in the state for this.
    Member,
    /// Another member is leaving.
    Leaving,
}

impl Spelled for Argument {
    ghost grammar = { argument };

    #[tactic(auto, unfolding(crate::specs::Arguments::argument))]
    fn take<'a>(_alloc: Global, bytes: &'a [u8]) -> Result<(Argument, &'a [u8]), Stop> {
        let (tag, rest) = take_u8(bytes, 4)?;
        match tag {
            0 => Ok((Argument::Overflow, rest)),
            1 => Ok((Argument::Group, rest)),
            2 => Ok((Argument::Size, rest)),
            3 => Ok((Argument::Member, rest)),
            4 => Ok((Argument::Leaving, rest)),
            _ => Err(Stop::Left(rest.len())),
        }
    }

    #[tactic(auto, unfolding(crate::specs::Arguments::argument))]
    fn append(&self, out: &mut Vec<u8>) -> Result<(), NoMemory> {
        match self {
            Argument::Overflow => append_u8(0, out)?,
            Argument::Group => append_u8(1, out)?,
            Argument::Size => append_u8(2, out)?,
            Argument::Member => append_u8(3, out)?,
            Argument::Leaving => append_u8(4, out)?,
        }
        Ok(())
    }

    ghost lawful = { argument_lawful };
}

impl Text for Argument {
    ghost use Rattle.cp_answers.specs.Arguments.{argument_text};

    ghost text = { argument_text };

    fn append_text(&self, out: &mut Vec<u8>) -> Result<(), NoMemory> {
        match self {
            Argument::Overflow => out.extend_from_slice(b"overflow")?,
            Argument::Group => out.extend_from_slice(b"group")?,
            Argument::Size => out.extend_from_slice(b"size")?,
            Argument::Member => out.extend_from_slice(b"member")?,
            Argument::Leaving => out.extend_from_slice(b"leaving")?,
        }
        Ok(())
    }
}
