//! Objects as a schedule names them.

use cp_base::Name;

/// An object as a call names it: `NAME`, or `NAME@GROUP`.
#[derive(Clone, Debug, PartialEq, Eq, Drop)]
pub struct Object {
    pub name: Name,
    /// The group as it stands in the call. Left out, it is `default`.
    pub group: Option<Name>,
}
