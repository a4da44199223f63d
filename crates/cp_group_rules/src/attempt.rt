//! An attempt of a request that waits at a member.

use cp_base::Invocation;

/// An attempt of a request that waits at a member.
#[derive(Clone, Copy, Debug, PartialEq, Eq)]
pub struct Attempt {
    pub call: Invocation,
    /// Its number among the attempts of its thread.
    pub number: u64,
    /// The address that it came from.
    pub from: u8,
    /// The index of its entry; of a read, the number of its round.
    pub index: u64,
}
