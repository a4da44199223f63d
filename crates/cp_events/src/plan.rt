//! The header of a schedule.

use cp_base::{Items, Name};

/// Which groups a schedule may have.
#[derive(Clone, Copy, Debug, PartialEq, Eq)]
pub enum Groups {
    /// The group `default` alone.
    Fixed,
    /// Groups are made and destroyed by calls.
    Managed,
}

/// How members answer reads.
#[derive(Clone, Copy, Debug, PartialEq, Eq)]
pub enum ReadsBy {
    /// By an entry of the log, as every other operation.
    Entry,
    /// By a round of messages in which the leader is confirmed.
    Round,
}

/// How many holds of the lock of this name, in any group, a thread may have.
#[derive(Clone, Debug, PartialEq, Eq, Drop)]
pub struct HoldLimit {
    pub lock: Name,
    pub holds: u32,
}

/// The header of a schedule, line by line. A line that was left out is `None`.
#[derive(Clone, Debug, PartialEq, Eq, Drop)]
pub struct Plan {
    /// How many members there are, from 0 to 9.
    pub members: u8,
    /// With how many members a group begins: 1, 3, 5 or 7.
    pub size: u8,
    /// How many clients there are, from 1 to 16.
    pub clients: u8,
    /// After how many entries a member writes a snapshot.
    pub snapshot: Option<u32>,
    pub groups: Option<Groups>,
    /// At most 16, of different locks.
    pub limits: Items<HoldLimit>,
    pub reads: Option<ReadsBy>,
}
