//! Why a member is down.
use thiserror::Error;

/// Why a member is down.
#[derive(Clone, Copy, Debug, PartialEq, Eq, Error)]
pub enum Down {
    /// Its disk failed.
    #[error("disk fault")]
    DiskFault,
    /// The file of its journal would pass 2^30 bytes.
    #[error("journal full")]
    JournalFull,
    /// No whole record and gate stand behind the open gate at this place of its journal.
    #[error("bad frame at {0}")]
    BadFrame(u64),
    /// The record whose length stands at this place of its journal is no part, or none that is legal there.
    #[error("bad record at {0}")]
    BadRecord(u64),
    /// What its snapshot of this group holds of the state machine is not one whole spelling.
    #[error("bad snapshot of group {0}")]
    BadSnapshot(u64),
    /// There was no memory.
    #[error("no memory")]
    NoMemory,
}
