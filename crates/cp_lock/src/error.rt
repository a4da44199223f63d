//! Why a lock was not acquired.
use thiserror::Error;

/// Why a lock was not acquired. The table is as it was.
#[derive(Clone, Copy, Debug, PartialEq, Eq, Error)]
pub enum LockError {
    /// The table has as many rows as it may, this many.
    #[error("the table of locks is full, at {0} rows")]
    TableFull(u32),
    /// There was no memory.
    #[error("no memory")]
    NoMemory,
}
