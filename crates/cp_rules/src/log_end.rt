//! Where a log ends.

/// Where a log ends: its last index, and the term of that index.
#[derive(Clone, Copy, Debug, PartialEq, Eq)]
pub struct LogEnd {
    pub term: u64,
    pub index: u64,
}
