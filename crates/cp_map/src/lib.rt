//! The maps of a group: the table of their pairs.
#![tactic(auto)]

mod key;
mod maps;

pub use key::Key;
pub use maps::Maps;
