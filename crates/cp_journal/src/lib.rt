//! A journal of records that a crash at any moment leaves with the records from before, or with the one being written.
#![tactic(auto)]

mod append;
mod error;
mod journal;
mod opening;
mod own;
mod reading;
mod steps;

pub use error::JournalError;
pub use journal::Journal;
pub use own::own_files_spell_records;
