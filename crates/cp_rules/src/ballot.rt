//! A member's term, with its vote in it.

/// A member's term, with its vote in it: the number of a member, or 0 for nobody.
#[derive(Clone, Copy, Debug, PartialEq, Eq)]
pub struct Ballot {
    pub term: u64,
    pub vote: u8,
}
