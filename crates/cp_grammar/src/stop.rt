//! Why bytes could not be read.
ghost use Rattle.std.specs.Prelude.{◌≡◌};
ghost use Rattle.cp_grammar.specs.declared.stop.Stop.TheVariants.{NoMemory as Stopped};

use cp_base::NoMemory;
use std::alloc::{AllocError, AllocFailed};
use thiserror::Error;

/// Where a reader at the front of bytes stopped.
#[derive(Clone, Copy, Debug, PartialEq, Eq)]
pub enum Stop {
    /// There was no memory.
    NoMemory,
    /// So many bytes are left from the first byte of the field that fails on.
    Left(usize),
}

impl From<AllocError> for Stop {
    ghost from_gives = { λ _ stop. stop ≡ Stopped };

    fn from(_: AllocError) -> Stop {
        Stop::NoMemory
    }
}

impl<T: Drop> From<AllocFailed<T>> for Stop {
    ghost from_gives = { λ _ stop. stop ≡ Stopped };

    fn from(_: AllocFailed<T>) -> Stop {
        Stop::NoMemory
    }
}

impl From<NoMemory> for Stop {
    ghost from_gives = { λ _ stop. stop ≡ Stopped };

    fn from(_: NoMemory) -> Stop {
        Stop::NoMemory
    }
}

/// Why bytes could not be read as one value.
#[derive(Clone, Copy, Debug, PartialEq, Eq, Error)]
pub enum ReadError {
    /// The bytes are not one whole spelling. It holds the place of the first field that fails, or the place after the
    /// spelling where bytes are left over.
    #[error("not in the grammar, at byte {0}")]
    NotInGrammar(usize),
    /// There was no memory.
    #[error("no memory")]
    NoMemory,
}
