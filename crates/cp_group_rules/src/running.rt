//! Since when a time runs at a member.

use cp_machine::Timed;

/// Since when the time of a session or of a call that waits runs at a member.
#[derive(Clone, Copy, Debug, PartialEq, Eq)]
pub struct Running {
    pub what: Timed,
    /// The member's clock then.
    pub since: u64,
}
