//! The messages of a client of members, as they are sent and as they come.
#![tactic(auto)]

mod mail;

pub use mail::{ClientEvent, event_of, message_of};
