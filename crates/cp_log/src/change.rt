//! Changes of the store's memory that take no memory any more.
use cp_base::{GroupId, Items};
use cp_parts::{Config, LogEntry, SnapshotHead};
use std::collections::VecDeque;

/// A change of the store's memory, prepared so that neither applying it nor giving it up takes memory.
#[derive(Drop)]
pub(crate) enum Change {
    /// A restart number, and the format from now on.
    Start(u64, u8),
    /// Term and vote of a group.
    Ballot(u64, u64, u8),
    /// Term and vote of a group, and entries behind an index, with the configurations that they bring.
    Entries(u64, u64, u8, u64, VecDeque<LogEntry>, VecDeque<Config>),
    /// Term and vote of a group, and a snapshot of an index.
    Snapshot(u64, u64, u8, u64, Items<u8>, SnapshotHead),
    /// A group whose row was put in, and the numbers of the groups before.
    Begun(u64, Vec<GroupId>),
    /// A group that was put among those that ended, and whose row is to go.
    Ended(u64),
}
