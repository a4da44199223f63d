//! The limits that more than one crate keeps to. Contracts and definitions cite them by these names.

/// The last number of an entry, a session, a fence, a round, a call, and the last moment of a clock: numbers go to 2^62.
pub const LAST_NUMBER: u64 = 1 << 62;

/// The most bytes of a name.
pub const MOST_NAME: u32 = 64;

/// The highest number of a member.
pub const MOST_MEMBER: u8 = 9;

/// The highest number of a client's thread.
pub const MOST_THREAD: u8 = 8;

/// The most rows of one list of a group's state.
pub const MOST_ROWS: u32 = 10_000;

/// The most that a latch counts from.
pub const MOST_COUNT: u32 = 10_000;

/// The most counted calls of all latches of a group together.
pub const MOST_COUNTED: u32 = 100_000;

/// The most permits of a semaphore.
pub const MOST_PERMITS: u32 = (1 << 31) - 1;

/// The most holds of one lock.
pub const MOST_HOLDS: u32 = (1 << 31) - 1;

/// The most bytes of a map's key.
pub const MOST_KEY: u32 = 64;

/// The most bytes of a map's value.
pub const MOST_VALUE: u32 = 1024;

/// The most bytes of a reference.
pub const MOST_REFERENCE: u32 = 4000;

/// The most bytes of a reference in the first version of journals, messages and snapshots.
pub const OLDER_MOST_REFERENCE: u32 = 1024;

/// The most sessions, or invocations, that one entry says have expired.
pub const MOST_EXPIRED: u32 = 100;

/// The most bytes of an entry.
pub const MOST_ENTRY: u32 = 8192;

/// The most bytes of an entry in the first version of journals and messages.
pub const OLDER_MOST_ENTRY: u32 = 4096;

/// The most entries of a message.
pub const MOST_ENTRIES: u32 = 100;

/// The most bytes of one piece of a snapshot.
pub const MOST_CHUNK: u32 = 32_768;

/// The most bytes of a snapshot.
pub const MOST_SNAPSHOT: u32 = (1 << 26) - 64;

/// The most bytes of a journal.
pub const FILE_LIMIT: u64 = 1 << 30;

/// The most bytes of the body of one record of a journal.
pub const BODY_LIMIT: u64 = 1 << 26;

/// The most bytes of a source.
pub const MOST_SOURCE: usize = 16 << 20;

/// The most events of a schedule.
pub const MOST_EVENTS: u64 = 100_000;

/// The most bytes of a transcript.
pub const MOST_TEXT: u128 = 256 << 20;
