//! Why a field can't be read or written.
use thiserror::Error;

/// Why no field stands at the front of bytes.
#[derive(Clone, Copy, Debug, PartialEq, Eq, Error)]
pub enum FieldError {
    /// The number or the length is there, and passes its bound.
    #[error("out of range: {0}")]
    OutOfRange(u64),
    /// Bytes are missing.
    #[error("cut short")]
    Short,
}

/// There was no memory, and nothing was written.
#[derive(Clone, Copy, Debug, PartialEq, Eq, Error)]
#[error("no memory")]
pub struct NoMemory;
