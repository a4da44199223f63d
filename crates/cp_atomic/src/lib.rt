//! The values of a group: atomic longs and atomic references, each kind with its table.
#![tactic(auto)]

mod longs;
mod refs;
mod table;

pub use longs::Longs;
pub use refs::Refs;
