//! What calls of the tables come to, as it is shown.
use cp_case_lines::{End, show, show_answer, show_numbered, show_value};
use cp_latch::LatchOutcome;
use cp_ops::Answer;
use cp_semaphore::SemOutcome;
use cp_wait::{RowsError, WaitError};

/// Shows why rows are no table of waiters.
pub fn show_bad_rows(error: RowsError, out: &mut Vec<u8>) -> Result<(), End> {
    match error {
        RowsError::Repeated => show(b"repeated", out),
        RowsError::TooMany => show(b"too-many", out),
        RowsError::NoMemory => Err(End::NoMemory),
    }
}

/// Shows what joining the queue came to.
pub fn show_joined(joined: Result<(), WaitError>, out: &mut Vec<u8>) -> Result<(), End> {
    match joined {
        Ok(()) => show(b"ok", out),
        Err(WaitError::TableFull(most)) => show_numbered(b"full", u64::from(most), out),
        Err(WaitError::NoMemory) => Err(End::NoMemory),
    }
}

fn show_served(answer: &Answer, available: i64, out: &mut Vec<u8>) -> Result<(), End> {
    show_answer(answer, out)?;
    show(b"available", out)?;
    show_value(available, out)
}

/// Shows what an operation on a semaphore came to.
pub fn show_sem_outcome(outcome: &SemOutcome, out: &mut Vec<u8>) -> Result<(), End> {
    match outcome {
        SemOutcome::Done(answer) => show_answer(answer, out),
        SemOutcome::Wants => show(b"wants", out),
        SemOutcome::Served(answer, available) => show_served(answer, *available, out),
    }
}

/// Shows what an operation on a latch came to.
pub fn show_latch_outcome(outcome: &LatchOutcome, out: &mut Vec<u8>) -> Result<(), End> {
    match outcome {
        LatchOutcome::Done(answer) => show_answer(answer, out),
        LatchOutcome::Wants => show(b"wants", out),
        LatchOutcome::Opened => show(b"opened", out),
    }
}
