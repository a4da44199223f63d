//! The parts that a member writes to its journal, and what entries and snapshots say of a group's configuration: their
//! types and bytes.
#![tactic(auto)]

mod config;
mod down;
mod log_entry;
mod part;
mod snapshot_head;

pub use config::{Config, config_of_entry};
pub use down::Down;
pub use log_entry::LogEntry;
pub use part::{Part, STATE_BYTES, no_part_begins_another, state_bytes};
pub use snapshot_head::{SnapshotHead, head_of_snapshot};
