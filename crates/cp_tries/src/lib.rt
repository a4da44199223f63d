//! The tries of a client's requests: what it knows of members, which of them is asked next, and when.
#![tactic(auto)]

mod again;
mod choices;
mod tries;

pub use again::may_again;
pub use choices::{is_older, rule_of, turn_of, waits_for};
pub use tries::{Tries, begin_request, say_hello, try_request};
