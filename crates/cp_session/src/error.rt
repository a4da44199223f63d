//! Why a session was not opened.
use thiserror::Error;

/// Why a session was not opened. The table is as it was.
#[derive(Clone, Copy, Debug, PartialEq, Eq, Error)]
pub enum SessionError {
    /// The table has as many sessions as it may, this many.
    #[error("the table of sessions is full, at {0} rows")]
    TableFull(u32),
    /// There was no memory.
    #[error("no memory")]
    NoMemory,
}
