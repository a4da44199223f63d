//! Where a call stands.

/// What the header of a schedule says of the calls that may stand in it.
#[derive(Clone, Copy, Debug, PartialEq, Eq)]
pub struct Context {
    /// Whether groups are made and destroyed by calls. Else `default` is the only one.
    pub managed: bool,
    /// Whether there are members.
    pub members: bool,
}
