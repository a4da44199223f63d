//! The kinds of objects.
ghost use Rattle.std.specs.Prelude.{◌≡◌};
ghost use Rattle.cp_op_values.specs.Values.{is_kind, kind_grammar};
ghost use Rattle.cp_op_values.specs.Laws.{kind_lawful};

use cp_base::{NoMemory, Text};
use cp_grammar::{Spelled, Stop, append_u8, take_u8};
use std::alloc::Global;

/// The kind of an object.
#[derive(Clone, Copy, Debug, PartialEq, Eq, PartialOrd, Ord)]
pub enum Kind {
    /// An atomic long.
    Long,
    /// An atomic reference.
    Ref,
    /// A lock.
    Lock,
    /// A semaphore whose permits are held by sessions.
    Sem,
    /// A semaphore without sessions.
    Jsem,
    /// A countdown latch.
    Latch,
    /// A map.
    Map,
}

fn is_kind(tag: u8) -> bool
    ensures { result ≡ is_kind tag }
{
    (1 <= tag && tag <= 6) || tag == 12
}

impl Spelled for Kind {
    ghost grammar = { kind_grammar };

    #[tactic(auto, unfolding(crate::specs::Values::kind_grammar))]
    fn take<'a>(_alloc: Global, bytes: &'a [u8]) -> Result<(Kind, &'a [u8]), Stop> {
        let (tag, rest) = take_u8(bytes, 12)?;
        if !is_kind(tag) {
            return Err(Stop::Left(bytes.len()));
        }
        match tag {
            1 => Ok((Kind::Long, rest)),
            2 => Ok((Kind::Ref, rest)),
            3 => Ok((Kind::Lock, rest)),
            4 => Ok((Kind::Sem, rest)),
            5 => Ok((Kind::Jsem, rest)),
            6 => Ok((Kind::Latch, rest)),
            12 => Ok((Kind::Map, rest)),
            _ => Err(Stop::Left(rest.len())),
        }
    }

    #[tactic(auto, unfolding(crate::specs::Values::kind_grammar))]
    fn append(&self, out: &mut Vec<u8>) -> Result<(), NoMemory> {
        match self {
            Kind::Long => append_u8(1, out)?,
            Kind::Ref => append_u8(2, out)?,
            Kind::Lock => append_u8(3, out)?,
            Kind::Sem => append_u8(4, out)?,
            Kind::Jsem => append_u8(5, out)?,
            Kind::Latch => append_u8(6, out)?,
            Kind::Map => append_u8(12, out)?,
        }
        Ok(())
    }

    ghost lawful = { kind_lawful };
}

impl Text for Kind {
    ghost use Rattle.cp_op_values.specs.Values.{kind_text};

    ghost text = { kind_text };

    fn append_text(&self, out: &mut Vec<u8>) -> Result<(), NoMemory> {
        match self {
            Kind::Long => out.extend_from_slice(b"long")?,
            Kind::Ref => out.extend_from_slice(b"ref")?,
            Kind::Lock => out.extend_from_slice(b"lock")?,
            Kind::Sem => out.extend_from_slice(b"sem")?,
            Kind::Jsem => out.extend_from_slice(b"jsem")?,
            Kind::Latch => out.extend_from_slice(b"latch")?,
            Kind::Map => out.extend_from_slice(b"map")?,
        }
        Ok(())
    }
}
