//! The store: terms, votes, logs and snapshots of groups, kept in a journal of parts.
#![tactic(auto)]

mod change;
mod durable;
mod error;
mod first;
mod legal;
mod prepare;
mod readers;
mod recovery;
mod row;
mod rows;
mod store;
mod writing;

pub use error::StoreError;
pub use store::{Store, empty_files_are_sound};
