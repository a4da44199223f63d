//! Messages: what members and clients send to each other, as bytes and as text.
#![tactic(auto)]

mod append;
mod body;
mod confirm;
mod entries;
mod message;
mod request;
mod snapshot;
mod task;
mod text;
mod vote;

pub use append::{Append, AppendReply};
pub use body::Body;
pub use confirm::{Confirm, Confirmed};
pub use cp_grammar::ReadError;
pub use entries::{LogEntry, take_copy, take_entries};
pub use message::{Message, no_message_begins_another};
pub use request::{Reply, Request};
pub use snapshot::{Chunk, SnapshotReply};
pub use task::{Task, TaskReply};
pub use text::{append_members_text, append_numbers_text, append_yes_text};
pub use vote::{VoteReply, VoteRequest};
