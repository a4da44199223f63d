//! The outside: where bytes come from and go to.
ghost use Rattle.std.specs.Prelude.{◌≡◌, ◌<◌, List, ℕ, Option, length, IfOk};
ghost use Rattle.std.specs.Io.{ReadsAtMost, WritesAtMost};
ghost use Rattle.std.specs.Io.KnownBytes.{ReadConsumes, WriteAppends};
ghost use Rattle.cp_base.specs.Faults.{CountsErrors, Rose};
ghost use Rattle.cp_io.specs.Causes.{CountsFaults};

use thiserror::Error;

/// The object failed, and counted it.
#[derive(Clone, Copy, Debug, PartialEq, Eq, Error)]
#[error("failed")]
pub struct Failed;

/// There was no memory. The call left everything as it was.
#[derive(Clone, Copy, Debug, PartialEq, Eq, Error)]
#[error("no memory")]
pub struct NoMemory;

/// Why a call that may want memory did nothing.
#[derive(Clone, Copy, Debug, PartialEq, Eq, Error)]
pub enum Fault {
    /// The object failed, and counted it.
    #[error("failed")]
    Failed,
    /// There was no memory, which is not counted.
    #[error("no memory")]
    NoMemory,
}

/// Where bytes come from.
pub trait Source {
    /// The bytes that are still to come, where the source tells them.
    ghost left: { Self → Option (List ℕ) };

    /// How often it has failed.
    ghost faults: { Self → ℕ };

    /// Reads some bytes into the front of the buffer, and answers how many. None into a buffer that is not empty is the
    /// end. `Failed` comes only where the count of faults rose, and takes nothing.
    fn read(&mut self, buf: &mut [u8]) -> Result<usize, Failed>
        ensures bound { ReadsAtMost result buf.new }
        ensures bytes { ReadConsumes (left self.old) (left self.new) result buf.new }
        ensures cause { CountsErrors (faults self.old) (faults self.new) result };
}

/// Where bytes go.
pub trait Sink {
    /// The bytes that it took, where the sink tells them.
    ghost written: { Self → Option (List ℕ) };

    /// How often it has failed.
    ghost faults: { Self → ℕ };

    /// Takes some first bytes of the piece, and answers how many. None of a piece that is not empty is a fault, which is
    /// counted. An error takes nothing: `Failed` is counted, want of memory is not.
    fn write(&mut self, piece: &[u8]) -> Result<usize, Fault>
        ensures bound { WritesAtMost result piece.now }
        ensures bytes { WriteAppends (written self.old) (written self.new) result piece.now }
        ensures stuck { IfOk result (λ n. n ≡ 0 → 0 < length piece.now → Rose (faults self.old) (faults self.new)) }
        ensures cause { CountsFaults (faults self.old) (faults self.new) result };
}
