//! Changes of a group's members: what refuses one, and the configuration that one makes.
#![tactic(auto)]

ghost use Rattle.cp_change.specs.Laws.{ChangesLeaveMembers};

mod making;
mod refusing;

pub use cp_rules::Change;
pub use making::{changed, changed_config};
pub use refusing::may_change;

/// A change that is not refused leaves members by rising number, and one at least.
pub fn changes_leave_members()
    ensures { ChangesLeaveMembers }
{}
