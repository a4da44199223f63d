//! Calls that wait, in order of arrival.
#![tactic(auto)]

mod calls;
mod index;
mod indexes;
mod rows;
mod shelf;
mod waits;

pub use cp_group_state::Waiter;
pub use waits::{RowsError, WaitError, Waits};
