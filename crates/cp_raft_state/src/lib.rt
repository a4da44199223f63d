//! What one member of a group keeps in memory alone, with one function for each change that a rule makes of it; and the
//! messages that it sends.
#![tactic(auto)]

mod appended;
mod changing;
mod did;
mod group;
mod look;
mod posting;
mod reading;
mod receiving;
mod seat;
mod snapshotted;
mod volatile;
mod waiting;
mod words;

pub use appended::Appended;
pub use did::{Did, done, refused};
pub use group::Group;
pub use look::Look;
pub use posting::{
    append_body, append_reply, chunk_body, confirm_body, confirmed, post, pre_vote_body,
    pre_vote_reply, snapshot_reply, vote_body, vote_reply,
};
pub use receiving::Joined;
pub use seat::Seat;
pub use snapshotted::Snapshotted;
pub use volatile::Volatile;
pub use words::{ballot_of, ballot_part, log_end, members};
