//! Apart from `cp_raft` for the time of its check alone: the rules of one that leads: it takes leadership, creates
//! entries, commits, takes replies, requests, changes and reads. Each rule does what its definition in `cp_rules`
//! says.
#![tactic(auto)]

mod asking;
mod changing;
mod committing;
mod copying;
mod creating;
mod looking;
mod replying;
mod requesting;
mod sending;

pub use asking::{Ask, ask_others};
pub use changing::on_change;
pub use committing::commits;
pub use creating::{creates, takes_leadership};
pub use looking::{on_confirmed, on_read};
pub use replying::{adopts, on_append_reply, on_snapshot_reply};
pub use requesting::{on_propose, proposes};
pub use sending::{append_to, appends, chunk_from};
