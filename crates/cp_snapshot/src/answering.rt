//! What a member does with a chunk that comes, and when it writes a snapshot of its own.
ghost use Rattle.std.specs.Prelude.{◌≡◌};
ghost use Rattle.cp_snapshot.specs.Decisions.{take_chunk, writes_own};

use crate::chunks::fits;

/// What a member does with a chunk.
#[derive(Clone, Copy, Debug, PartialEq, Eq)]
pub enum Taken {
    /// It refuses it with its own term, which is greater.
    Refused,
    /// It has committed the snapshot's index, and answers that it is done.
    Known,
    /// It follows the sender, and joins the chunk to what it has received.
    Joined,
}

/// What a member of this term, which has committed so far, does with a chunk of a snapshot of a term and an index.
pub fn take_chunk(own_term: u64, commit: u64, term: u64, index: u64) -> Taken
    ensures { result ≡ take_chunk own_term commit term index }
{
    if term < own_term {
        Taken::Refused
    } else if index <= commit {
        Taken::Known
    } else {
        Taken::Joined
    }
}

/// Whether a member writes a snapshot of its own of so many bytes: where it may write, has not written in this step, and
/// they are not too many.
pub fn writes_own(may_write: bool, wrote: bool, length: usize) -> bool
    ensures { result ≡ writes_own may_write wrote length }
{
    may_write && !wrote && fits(length)
}
