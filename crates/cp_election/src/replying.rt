//! The replies to pre-votes and votes.
ghost use Rattle.std.specs.Prelude.{◌≡◌, ◌==◌, suc};
ghost use Rattle.cp_election.specs.Decisions.{pre_vote_replied, vote_replied};

use crate::members::is_member;
use crate::role::{is_candidate, is_pre_candidate};
use cp_rules::Role;

/// What a reply to a pre-vote or a vote does.
#[derive(Clone, Copy, Debug, PartialEq, Eq)]
pub enum VoteReplied {
    /// Its term is adopted.
    Adopted,
    /// The member that sent it is counted.
    Counted,
    /// Nothing.
    Ignored,
}

/// Whether a term is the one after another.
fn is_next(term: u64, own: u64) -> bool
    ensures { result ≡ (term == suc own) }
{
    0 < term && term - 1 == own
}

/// What the reply to a pre-vote does, from a member, at one of this role and term in a configuration. A yes names the
/// term that was asked for, a no that of its sender.
pub fn pre_vote_replied(
    role: Role,
    own_term: u64,
    members: &[u8],
    from: u8,
    term: u64,
    granted: bool,
) -> VoteReplied
    ensures { result ≡ pre_vote_replied role own_term members.now from term granted }
{
    if !granted {
        if own_term < term {
            VoteReplied::Adopted
        } else {
            VoteReplied::Ignored
        }
    } else if is_pre_candidate(role) && is_next(term, own_term) && is_member(from, members) {
        VoteReplied::Counted
    } else {
        VoteReplied::Ignored
    }
}

/// What the reply to a vote does, from a member, at one of this role and term in a configuration.
pub fn vote_replied(
    role: Role,
    own_term: u64,
    members: &[u8],
    from: u8,
    term: u64,
    granted: bool,
) -> VoteReplied
    ensures { result ≡ vote_replied role own_term members.now from term granted }
{
    if own_term < term {
        VoteReplied::Adopted
    } else if granted && is_candidate(role) && term == own_term && is_member(from, members) {
        VoteReplied::Counted
    } else {
        VoteReplied::Ignored
    }
}
