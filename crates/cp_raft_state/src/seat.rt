//! Whose step it is.

use cp_base::GroupId;

/// A member of a group, by its number.
#[derive(Clone, Copy, Debug, PartialEq, Eq)]
pub struct Seat {
    pub group: GroupId,
    pub me: u8,
}
