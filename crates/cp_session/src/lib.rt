//! Sessions of clients.
#![tactic(auto)]

ghost use Rattle.cp_session.specs.Rule.{CreationsFollowTheRule};

mod beat;
mod close;
mod error;
mod expire;
mod index;
mod open;
mod restore;
mod sessions;

pub use cp_group_state::SessionRow;
pub use error::SessionError;
pub use sessions::Sessions;

/// A call that asks for a session becomes what `created` says, in rows and in answer.
pub fn creations_follow_the_rule()
    ensures { CreationsFollowTheRule }
{}
