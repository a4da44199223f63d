//! Apart from `cp_raft` for the time of its check alone: the rules on what others ask a member: pre-votes, votes,
//! appends, chunks of snapshots and confirmations. Each does what its definition in `cp_rules` says.
#![tactic(auto)]

mod appending;
mod chunks;
mod confirming;
mod voting;

pub use appending::on_append;
pub use chunks::{completes, on_snapshot};
pub use confirming::on_confirm;
pub use voting::{on_prevote, on_vote};
