//! The machine of a group that holds objects: it applies the entries of the group's log to the group's tables.
#![tactic(auto)]

mod holdings;
mod lawful;
mod lookups;
mod machine;
mod objects;
mod restoring;
mod snapshot;
mod steps;
mod timing;

pub use lookups::{look, looks_are_outcomes};
pub use machine::GroupMachine;
pub use restoring::tables_of;
