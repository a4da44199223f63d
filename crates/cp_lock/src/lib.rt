//! Reentrant locks with fences.
#![tactic(auto)]

mod close;
mod error;
mod locks;
mod meet;
mod rows;
mod session_set;

pub use cp_group_state::{Holder, LockRow, Released, Taken};
pub use error::LockError;
pub use locks::Locks;
