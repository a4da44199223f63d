//! Why the cases were not told to their end.
use cp_base::NoMemory;
use cp_io::{Fault, ReadEnd};
use std::alloc::{AllocError, AllocFailed};

/// Why the cases were not told to their end.
#[derive(Clone, Copy)]
pub enum CaseEnd {
    /// A line is no case, or the input is too long or cannot be read.
    BadInput,
    /// The output cannot be written.
    WriteFault,
    NoMemory,
}

impl From<NoMemory> for CaseEnd {
    fn from(_: NoMemory) -> CaseEnd {
        CaseEnd::NoMemory
    }
}

impl From<AllocError> for CaseEnd {
    fn from(_: AllocError) -> CaseEnd {
        CaseEnd::NoMemory
    }
}

impl<T: Drop> From<AllocFailed<T>> for CaseEnd {
    fn from(_: AllocFailed<T>) -> CaseEnd {
        CaseEnd::NoMemory
    }
}

impl From<ReadEnd> for CaseEnd {
    fn from(end: ReadEnd) -> CaseEnd {
        match end {
            ReadEnd::Failed | ReadEnd::TooLong => CaseEnd::BadInput,
            ReadEnd::NoMemory => CaseEnd::NoMemory,
        }
    }
}

impl From<Fault> for CaseEnd {
    fn from(fault: Fault) -> CaseEnd {
        match fault {
            Fault::Failed => CaseEnd::WriteFault,
            Fault::NoMemory => CaseEnd::NoMemory,
        }
    }
}
