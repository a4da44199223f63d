//! Why a line or the whole input is not answered.
use cp_base::{NameError, NoMemory};
use cp_io::{Fault, ReadEnd};
use std::alloc::{AllocError, AllocFailed};

/// Why a line or the whole input is not answered.
#[derive(Clone, Copy, Debug, PartialEq, Eq)]
pub enum End {
    /// A line is no case.
    BadLine,
    /// The input cannot be read.
    ReadFault,
    /// The output cannot be written.
    WriteFault,
    NoMemory,
}

impl From<NoMemory> for End {
    fn from(_: NoMemory) -> End {
        End::NoMemory
    }
}

impl From<AllocError> for End {
    fn from(_: AllocError) -> End {
        End::NoMemory
    }
}

impl<T: Drop> From<AllocFailed<T>> for End {
    fn from(_: AllocFailed<T>) -> End {
        End::NoMemory
    }
}

impl From<NameError> for End {
    fn from(error: NameError) -> End {
        match error {
            NameError::BadName(_place) => End::BadLine,
            NameError::NoMemory => End::NoMemory,
        }
    }
}

impl From<ReadEnd> for End {
    fn from(end: ReadEnd) -> End {
        match end {
            ReadEnd::Failed | ReadEnd::TooLong => End::ReadFault,
            ReadEnd::NoMemory => End::NoMemory,
        }
    }
}

impl From<Fault> for End {
    fn from(fault: Fault) -> End {
        match fault {
            Fault::Failed => End::WriteFault,
            Fault::NoMemory => End::NoMemory,
        }
    }
}

/// The exit status of lines that were answered, or not to their end.
pub fn status_of(answered: Result<(), End>) -> u8 {
    match answered {
        Ok(()) => 0,
        Err(End::BadLine | End::ReadFault) => 1,
        Err(End::NoMemory) => 4,
        Err(End::WriteFault) => 5,
    }
}
