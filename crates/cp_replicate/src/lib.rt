//! Replication: what a follower does with an append, what a leader takes from the reply, how far it commits, what it
//! sends and when, and which reads it answers, as decisions on plain numbers and on a log by index. Each is that of the
//! rule in `cp_rules`, and laws say that the rule does what is decided.
#![tactic(auto)]

ghost use Rattle.cp_replicate.specs.Laws.{AppendsGoAsDecided, AppendRepliesGoAsDecided, CommitsGoAsDecided, SendsAsDecided, ExpiresAsDecided, ReadsGoAsDecided, BatchesFit};

mod batching;
mod by_index;
mod committing;
mod confirming;
mod following;
mod replying;
mod requesting;
mod sending;

pub use batching::batch;
pub use by_index::Log;
pub use committing::{commit_found, may_commit, steps_down};
pub use confirming::{confirm, is_ready};
pub use following::{
    Followed, behind, first_difference, follow, follower_commit, has_term, refused_index,
};
pub use replying::{AppendReplied, append_replied, is_answered, matched};
pub use requesting::{may_expire, may_propose};
pub use sending::{Sending, is_beat_due, known_term, needs_snapshot, to_send};

/// A follower does with an append what is decided.
pub fn appends_go_as_decided()
    ensures { AppendsGoAsDecided }
{}

/// A leader takes from the reply to an append what is decided.
pub fn append_replies_go_as_decided()
    ensures { AppendRepliesGoAsDecided }
{}

/// Where a leader commits, it steps down as is decided.
pub fn commits_go_as_decided()
    ensures { CommitsGoAsDecided }
{}

/// A leader sends to a member what is decided.
pub fn sends_as_decided()
    ensures { SendsAsDecided }
{}

/// A leader appends an expiry where that is decided.
pub fn expires_as_decided()
    ensures { ExpiresAsDecided }
{}

/// A leader answers the reads that are decided.
pub fn reads_go_as_decided()
    ensures { ReadsGoAsDecided }
{}

/// A batch is a front of the entries that are to be sent, within the limits of an append.
pub fn batches_fit()
    ensures { BatchesFit }
{}
