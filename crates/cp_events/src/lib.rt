//! What a schedule has its members and clients do, and what an event shows: the types, without their texts.
#![tactic(auto)]

mod effects;
mod event;
mod object;
mod plan;
mod schedule;
mod user_op;

pub use effects::{Effects, Ending, Ignored, Opened, Return};
pub use event::Event;
pub use object::Object;
pub use plan::{Groups, HoldLimit, Plan, ReadsBy};
pub use schedule::{Line, Schedule};
pub use user_op::{GroupCall, LatchCall, LockCall, LongCall, RefCall, SemCall, UserOp};
