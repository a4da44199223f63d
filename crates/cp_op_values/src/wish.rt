//! How long a call may wait.
ghost use Rattle.cp_op_values.specs.Laws.{wish_lawful};
ghost use Rattle.cp_op_values.specs.Wishes.{wish_grammar};
ghost use Rattle.std.specs.Prelude.{◌≡◌, ◌++◌, OnOk};

use cp_base::{NoMemory, Text, write_decimal};
use cp_grammar::{Spelled, Stop, append_u8, append_u32, take_u8, take_u32};
use std::alloc::Global;

/// How long a call may wait.
#[derive(Clone, Copy, Debug, PartialEq, Eq)]
pub enum Wish {
    /// As long as it takes.
    NoLimit,
    /// So many milliseconds; 0 where it may not wait.
    Within(u32),
}

/// Appends the one spelling of a wish.
#[tactic(auto, unfolding(crate::specs::Wishes::wish_grammar))]
pub fn append_wish(wish: &Wish, out: &mut Vec<u8>) -> Result<(), NoMemory>
    ensures { OnOk result (out.new.items ≡ out.old.items ++ wish_grammar.spelling wish.now) }
{
    match wish {
        Wish::NoLimit => append_u8(0, out)?,
        Wish::Within(limit) => {
            append_u8(1, out)?;
            append_u32(*limit, out)?;
        }
    }
    Ok(())
}

impl Spelled for Wish {
    ghost grammar = { wish_grammar };

    #[tactic(auto, unfolding(crate::specs::Wishes::wish_grammar))]
    fn take<'a>(_alloc: Global, bytes: &'a [u8]) -> Result<(Wish, &'a [u8]), Stop> {
        let (tag, rest) = take_u8(bytes, 1)?;
        match tag {
            0 => Ok((Wish::NoLimit, rest)),
            1 => {
                let (limit, rest) = take_u32(rest, u32::MAX)?;
                Ok((Wish::Within(limit), rest))
            }
            _ => Err(Stop::Left(rest.len())),
        }
    }

    #[tactic(auto, unfolding(crate::specs::Wishes::wish_grammar))]
    fn append(&self, out: &mut Vec<u8>) -> Result<(), NoMemory> {
        append_wish(self, out)
    }

    ghost lawful = { wish_lawful };
}

impl Text for Wish {
    ghost use Rattle.cp_op_values.specs.Wishes.{wish_text};

    ghost text = { wish_text };

    fn append_text(&self, out: &mut Vec<u8>) -> Result<(), NoMemory> {
        match self {
            Wish::NoLimit => out.extend_from_slice(b"none")?,
            Wish::Within(limit) => write_decimal(u64::from(*limit), out)?,
        }
        Ok(())
    }
}
