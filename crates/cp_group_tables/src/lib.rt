//! The tables of a group: its sessions, its objects, the calls that wait, and what is remembered of calls. Entries
//! change them as the definitions of `cp_group_state` say.
#![tactic(auto)]

mod calls;
mod closing;
mod destroying;
mod ending;
mod entries;
mod latch_rules;
mod lending;
mod lock_rules;
mod named;
mod recall;
mod rules;
mod sem_rules;
mod serving;
mod session_rules;
mod tables;
mod timed;
mod waiters;
mod waiting;

pub use ending::Ending;
pub use lending::ObjectTables;
pub use lock_rules::owner_answer;
pub use tables::GroupTables;
