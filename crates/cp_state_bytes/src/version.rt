//! The versions of a group's bytes.
ghost use Rattle.std.specs.Prelude.{◌≡◌};
ghost use Rattle.cp_state_bytes.specs.RowLaws.{version_lawful};
ghost use Rattle.cp_state_bytes.specs.Versions.{has_kind, is_no_map, most_reference, version_grammar};

use cp_base::NoMemory;
use cp_base::limits::{MOST_REFERENCE, OLDER_MOST_REFERENCE};
use cp_grammar::{Spelled, Stop, append_u8, take_u8};
use cp_op_values::Kind;
use std::alloc::Global;

/// A version of the bytes of a group's state. The newest is written, and all of them are read.
#[derive(Clone, Copy, Debug, PartialEq, Eq)]
pub enum Version {
    /// References have at most 1,024 bytes, and there are no maps.
    First,
    /// References have at most 4,000 bytes.
    Second,
    /// There are maps.
    Third,
}

fn is_no_map(kind: Kind) -> bool
    ensures { result ≡ is_no_map kind }
{
    match kind {
        Kind::Long | Kind::Ref | Kind::Lock | Kind::Sem | Kind::Jsem | Kind::Latch => true,
        Kind::Map => false,
    }
}

impl Version {
    /// The most bytes of a reference.
    pub fn most_reference(self) -> u32
        ensures { result ≡ most_reference self }
    {
        match self {
            Version::First => OLDER_MOST_REFERENCE,
            Version::Second => MOST_REFERENCE,
            Version::Third => MOST_REFERENCE,
        }
    }

    /// Whether objects of this kind could be destroyed.
    pub fn has_kind(self, kind: Kind) -> bool
        ensures { result ≡ has_kind self kind }
    {
        match self {
            Version::First => is_no_map(kind),
            Version::Second => is_no_map(kind),
            Version::Third => true,
        }
    }
}

impl Spelled for Version {
    ghost grammar = { version_grammar };

    #[tactic(auto, unfolding(crate::specs::Versions::version_grammar))]
    fn take<'a>(_alloc: Global, bytes: &'a [u8]) -> Result<(Version, &'a [u8]), Stop> {
        let (number, rest) = take_u8(bytes, 3)?;
        if number < 1 {
            return Err(Stop::Left(bytes.len()));
        }
        match number {
            1 => Ok((Version::First, rest)),
            2 => Ok((Version::Second, rest)),
            3 => Ok((Version::Third, rest)),
            _ => Err(Stop::Left(rest.len())),
        }
    }

    #[tactic(auto, unfolding(crate::specs::Versions::version_grammar))]
    fn append(&self, out: &mut Vec<u8>) -> Result<(), NoMemory> {
        match self {
            Version::First => append_u8(1, out)?,
            Version::Second => append_u8(2, out)?,
            Version::Third => append_u8(3, out)?,
        }
        Ok(())
    }

    ghost lawful = { version_lawful };
}
