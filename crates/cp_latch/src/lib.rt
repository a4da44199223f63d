//! The countdown latches of a group.
#![tactic(auto)]

mod counted;
mod latch;
mod latches;
mod rounds;

pub use counted::Counted;
pub use cp_group_state::LatchOutcome;
pub use latch::Latch;
pub use latches::Latches;
