//! A change of the members of a group.

use cp_base::MemberNo;

/// Adds a member, or removes one. The configuration in force is expected to have this index.
#[derive(Clone, Copy, Debug, PartialEq, Eq)]
pub struct Change {
    pub add: bool,
    pub member: MemberNo,
    pub expected: u64,
}
