//! What calls of the tables come to, as it is shown.
use cp_case_lines::{End, show, show_number, show_numbered};
use cp_lock::{LockError, Released, Taken};
use cp_rows::PushError;
use cp_session::SessionError;

/// Shows what pushing a row came to.
pub fn show_pushed(pushed: Result<(), PushError>, out: &mut Vec<u8>) -> Result<(), End> {
    match pushed {
        Ok(()) => show(b"ok", out),
        Err(PushError::OutOfOrder) => show(b"out-of-order", out),
        Err(PushError::NoMemory) => Err(End::NoMemory),
    }
}

/// Shows what asking for a lock came to.
pub fn show_taken(taken: Result<Taken, LockError>, out: &mut Vec<u8>) -> Result<(), End> {
    match taken {
        Ok(Taken::Fence(fence)) => show_numbered(b"fence", fence, out),
        Ok(Taken::Limit(most)) => show_numbered(b"limit", u64::from(most), out),
        Ok(Taken::Busy) => show(b"busy", out),
        Err(LockError::TableFull(most)) => show_numbered(b"full", u64::from(most), out),
        Err(LockError::NoMemory) => Err(End::NoMemory),
    }
}

/// Shows what giving a lock back came to.
pub fn show_released(released: Released, out: &mut Vec<u8>) -> Result<(), End> {
    match released {
        Released::Freed => show(b"freed", out),
        Released::Kept => show(b"kept", out),
        Released::NotOwner => show(b"not-owner", out),
    }
}

/// Shows what opening a session came to.
pub fn show_created(created: Result<u64, SessionError>, out: &mut Vec<u8>) -> Result<(), End> {
    match created {
        Ok(session) => show_number(session, out),
        Err(SessionError::TableFull(most)) => show_numbered(b"full", u64::from(most), out),
        Err(SessionError::NoMemory) => Err(End::NoMemory),
    }
}
