//! Reading all that a source gives.
ghost use Rattle.std.specs.Prelude.{◌≡◌, ◌≤◌, ◌<◌, ◌^◌, IfOk, IfErr, MatchResult};
ghost use Rattle.cp_io.specs.Causes.{GaveAll, ReadCause};

use crate::traits::{Failed, Source};
use cp_base::limits::MOST_SOURCE;
use std::alloc::Global;
use thiserror::Error;

const PIECE: usize = 4096;

/// Why a source was not read to its end.
#[derive(Clone, Copy, Debug, PartialEq, Eq, Error)]
pub enum ReadEnd {
    /// The source failed, and counted it.
    #[error("read fault")]
    Failed,
    /// The source gives more than `MOST_SOURCE` bytes.
    #[error("input too long")]
    TooLong,
    /// There was no memory.
    #[error("no memory")]
    NoMemory,
}

/// Reads a source to its end, and gives all its bytes: at most `MOST_SOURCE`.
pub fn read_all<S: Source>(alloc: Global, source: &mut S) -> Result<Vec<u8>, ReadEnd>
    ensures ok { IfOk result (λ bytes. GaveAll MOST_SOURCE (S.left source.old) (S.left source.new) bytes.items) }
    ensures err { IfErr result (ReadCause MOST_SOURCE (S.left source.old) (S.faults source.old) (S.faults source.new)) }
    ensures later { S.faults source.old ≤ S.faults source.new }
{
    let mut out = Vec::new(alloc);
    loop {
        let mut piece = [0u8; PIECE];
        let count = match source.read(&mut piece) {
            Ok(count) => count,
            Err(Failed) => return Err(ReadEnd::Failed),
        };
        if count == 0 {
            return Ok(out);
        }
        if out.len() + count > MOST_SOURCE {
            return Err(ReadEnd::TooLong);
        }
        if out.extend_from_slice(&piece[..count]).is_err() {
            return Err(ReadEnd::NoMemory);
        }
    }
}
