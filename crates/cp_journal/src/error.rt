//! Why a journal did not do a call.
use thiserror::Error;

/// Why a journal did not do a call.
#[derive(Clone, Copy, Debug, PartialEq, Eq, Error)]
pub enum JournalError {
    /// The disk failed. The journal is spent: it is closed and opened again.
    #[error("disk fault")]
    DiskFault,
    /// The file would pass 2^30 bytes. Nothing is changed.
    #[error("journal full")]
    Full,
    /// No whole record and gate stand behind the open gate at this place.
    #[error("bad frame at {0}")]
    BadFrame(u64),
    /// There was no memory. The records are as they were.
    #[error("no memory")]
    NoMemory,
}
