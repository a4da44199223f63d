//! One member of one Raft group: each step does what its definition in `cp_rules` says, over the member's store.
#![tactic(auto)]

mod coming;
mod deciding;
mod electing;
mod event;
mod messages;
mod out;
mod raft;
mod settling;
mod snapshots;
mod stored;
mod ticking;

pub use coming::what_has_a_spelling_is_in_range;
pub use cp_parts::Down;
pub use cp_raft_state::Look;
pub use cp_rules::{Change, Outcome};
pub use event::RaftEvent;
pub use out::RaftOut;
pub use raft::Raft;
