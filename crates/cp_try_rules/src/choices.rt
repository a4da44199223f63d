//! What a client is to do: at a call, at an answer, at a refusal, and when its clock moves.

use cp_base::{GroupId, Name};

/// Where a call goes.
#[derive(Debug, Drop)]
pub enum Place {
    /// To a group of which the number stands fast.
    At(GroupId),
    /// To the group of a name, `default` where it names none.
    In(Option<Name>),
}

/// What an answer has its call do.
#[derive(Clone, Copy, Debug, PartialEq, Eq)]
pub enum Then {
    /// It goes on in this group.
    Finds(GroupId),
    /// It goes on with this session.
    Opens(u64),
    /// It counts down in this round.
    CountsDown(u64),
    /// It ends.
    Returns,
}

/// What a refusal has its request do.
#[derive(Clone, Copy, Debug, PartialEq, Eq)]
pub enum Turn {
    /// This member leads: it is tried.
    Follows(u8),
    /// The next member is tried, after a pause.
    Moves,
    /// The same member is tried, after a pause.
    Waits,
    /// Nobody knows whether it took effect.
    Loses,
    /// It ends the call.
    Ends,
}

/// What the clock has an open request do.
#[derive(Clone, Copy, Debug, PartialEq, Eq)]
pub enum Rule {
    /// Nothing.
    Rests,
    /// It is tried.
    Tries,
    /// The next member is tried.
    Moves,
    /// The member to which its attempt went, in this start, is asked for its restart number.
    Knocks(u8, u64),
}
