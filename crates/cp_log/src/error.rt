//! Why a store did not do a call.
use thiserror::Error;

/// Why a store did not do a call.
#[derive(Clone, Copy, Debug, PartialEq, Eq, Error)]
pub enum StoreError {
    /// The disk failed. The store is spent: it is closed and opened again.
    #[error("disk fault")]
    DiskFault,
    /// The file of the journal would pass 2^30 bytes. Nothing is changed.
    #[error("journal full")]
    Full,
    /// No whole record and gate stand behind the open gate at this place of the journal.
    #[error("bad frame at {0}")]
    BadFrame(u64),
    /// The record whose length stands at this place of the journal is no part, or none that is legal after those before it.
    #[error("bad record at {0}")]
    BadRecord(u64),
    /// There was no memory. The store is as it was.
    #[error("no memory")]
    NoMemory,
}
