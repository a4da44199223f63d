//! The rows of METADATA's lists.
use cp_base::{Items, Name};

/// The most groups that have a row.
pub const MOST_GROUPS: u32 = 64;

/// The most numbers of groups that have ended, or will.
pub const MOST_DESTROYED: u32 = 10_000;

/// How a member stands.
#[derive(Clone, Copy, Debug, PartialEq, Eq)]
pub enum Standing {
    /// It takes part in groups, and gets new ones.
    Active,
    /// Its groups move to others.
    Leaving,
    /// It is in no group but those that are being destroyed.
    Out,
}

/// A group, under its number: whether it is being destroyed, the members that begin it, and its latest known
/// configuration.
#[derive(Clone, Debug, PartialEq, Eq, Drop)]
pub struct GroupRow {
    pub name: Name,
    pub destroying: bool,
    pub first: Items<u8>,
    pub index: u64,
    pub members: Items<u8>,
}

/// A move, under its group: the index of the configuration that it begins from, who is added, or 0, and who is removed.
#[derive(Clone, Copy, Debug, PartialEq, Eq)]
pub struct MoveRow {
    pub plan: u64,
    pub add: u8,
    pub remove: u8,
}
