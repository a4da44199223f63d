//! How a call of the program ends.
use std::fmt;

/// A quantity that has a limit.
#[derive(Clone, Copy, Debug, PartialEq, Eq)]
pub enum LimitName {
    /// Events: at most 100,000, each `settle` line counted as the events that it stands for.
    Events,
    /// Bytes of the transcript, with its histories, as if it ended with the last event: at most 256 MiB.
    Transcript,
}

impl fmt::Display for LimitName {
    fn fmt<W: fmt::Write>(&self, f: &mut fmt::Formatter<W>) -> fmt::Result {
        match self {
            LimitName::Events => write!(f, "events"),
            LimitName::Transcript => write!(f, "transcript"),
        }
    }
}

/// How a call of the program ends.
#[derive(Clone, Copy, Debug, PartialEq, Eq)]
pub enum Status {
    /// All was read, and the whole text is written.
    Done,
    /// The words are none of the program's; nothing was read.
    Usage,
    /// The source failed.
    ReadFault,
    /// More than 16 MiB stand in the source.
    TooLong,
    /// This line is bad.
    BadSchedule(u64),
    /// This line is of no form that is built.
    NotBuilt(u64),
    /// At the event of this line a quantity passed its limit.
    Limit(u64, LimitName),
    /// The sink failed; a front of the text is written.
    WriteFault,
    /// There was no memory.
    NoMemory,
}

impl Status {
    /// The exit status.
    pub fn number(self) -> u8 {
        match self {
            Status::Done => 0,
            Status::Usage => 2,
            Status::BadSchedule(_) => 3,
            Status::Limit(_, _) => 4,
            Status::ReadFault => 5,
            Status::WriteFault => 6,
            Status::NoMemory => 7,
            Status::NotBuilt(_) => 9,
            Status::TooLong => 12,
        }
    }
}

/// The text on standard error; none where all was done.
impl fmt::Display for Status {
    fn fmt<W: fmt::Write>(&self, f: &mut fmt::Formatter<W>) -> fmt::Result {
        match self {
            Status::Done => Ok(()),
            Status::Usage => write!(f, "cp: usage"),
            Status::ReadFault => write!(f, "cp: read fault"),
            Status::TooLong => write!(f, "cp: input too long"),
            Status::BadSchedule(line) => write!(f, "cp: line {line}: bad"),
            Status::NotBuilt(line) => write!(f, "cp: line {line}: not built"),
            Status::Limit(line, name) => write!(f, "cp: line {line}: limit {name}"),
            Status::WriteFault => write!(f, "cp: write fault"),
            Status::NoMemory => write!(f, "cp: no memory"),
        }
    }
}
