//! The text of what an execution shows: of each event what it did, and the histories of the groups.
#![tactic(auto)]

mod effects;
mod history;
mod transcript;

pub use cp_events::Effects;
pub use effects::write_effects;
pub use history::write_committed;
pub use transcript::TranscriptWriter;
