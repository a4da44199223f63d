//! What an event shows.

use crate::event::Event;
use cp_answers::{Answer, Refusal};
use cp_base::{ClientNo, GroupId, Items, ThreadNo};

/// Why an event could not take place.
#[derive(Clone, Copy, Debug, PartialEq, Eq)]
pub enum Ignored {
    /// Only so many messages were sent.
    NoMessage(u64),
    /// The member is down.
    MemberDown,
    /// The member is up.
    MemberUp,
    /// The thread's request of this number is still open.
    ThreadBusy(u64),
    /// The schedule has no such member.
    NoSuchMember,
    /// The schedule has no such client.
    NoSuchClient,
    /// The clock, which stands at this number, would pass its end.
    ClockEnd(u64),
}

/// How a call ends.
#[derive(Clone, Debug, PartialEq, Eq, Drop)]
pub enum Ending {
    /// By an answer, that of the state machine or one that the client makes.
    Answered(Answer),
    /// A member refused it.
    Refused(Refusal),
}

/// The end of a call, with the number of its last request.
#[derive(Clone, Debug, PartialEq, Eq, Drop)]
pub struct Return {
    pub thread: ThreadNo,
    pub number: u64,
    pub ending: Ending,
}

/// A session that a client opened in a group.
#[derive(Clone, Copy, Debug, PartialEq, Eq)]
pub struct Opened {
    pub group: GroupId,
    pub session: u64,
}

/// An event with its number, and what it did.
#[derive(Clone, Debug, PartialEq, Eq, Drop)]
pub struct Effects {
    pub number: u64,
    pub event: Event,
    pub ignored: Option<Ignored>,
    pub opened: Items<(ClientNo, Opened)>,
    pub returns: Items<(ClientNo, Return)>,
}
