//! The events of a schedule.

use crate::user_op::UserOp;
use cp_base::{ClientNo, MemberNo, ThreadNo};

/// What happens at one moment, at one member or at one client.
#[derive(Clone, Debug, PartialEq, Eq, Drop)]
pub enum Event {
    /// All members are started: the event 0, which no line of a schedule spells.
    Open,
    /// The clock of a member moves by so many milliseconds.
    Tick(MemberNo, u32),
    /// The clock of a client moves by so many milliseconds.
    ClientTick(ClientNo, u32),
    /// A thread of a client begins a call.
    Call(ClientNo, ThreadNo, UserOp),
    /// The message of this number, counted from 1, arrives.
    Deliver(u64),
    /// A member crashes.
    Crash(MemberNo),
    /// The disk of a member lets so many calls pass, and fails the next one, at which the member crashes. The last
    /// number chooses what is left of the disk.
    CrashAfter(MemberNo, u64, u64),
    /// A member starts again.
    Start(MemberNo),
}
