//! Why a read was not taken.
use thiserror::Error;

/// Why a read was not taken. What waits, and the latest round, are as they were.
#[derive(Clone, Copy, Debug, PartialEq, Eq, Error)]
pub enum ReadsError {
    /// So many reads wait already.
    #[error("{0} reads wait")]
    Busy(u32),
    /// There was no memory.
    #[error("no memory")]
    NoMemory,
}
