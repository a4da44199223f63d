//! Pre-votes and votes that a member is asked for.
ghost use Rattle.std.specs.Prelude.{◌≡◌};
ghost use Rattle.cp_rules.specs.PreVotes.{is_up_to_date, hears_no_leader};
ghost use Rattle.cp_rules.specs.Votes.{grants_vote};
ghost use Rattle.cp_election.specs.Decisions.{pre_vote, vote};

use crate::ballot::adopted;
use crate::role::is_leader;
use crate::waiting::LEAST_TIMEOUT;
use cp_rules::{Ballot, LogEnd, Role};

/// The answer to a pre-vote.
#[derive(Clone, Copy, Debug, PartialEq, Eq)]
pub struct Would {
    /// The term that was asked for, where it is granted; else the member's own.
    pub term: u64,
    pub granted: bool,
}

/// What a vote leaves: the member's ballot, whose term goes with the answer, and whether it is granted.
#[derive(Clone, Copy, Debug, PartialEq, Eq)]
pub struct VoteAnswer {
    pub ballot: Ballot,
    pub granted: bool,
}

/// Whether a log that ends so is at least as up to date as one that ends like the second.
pub fn is_up_to_date(end: LogEnd, than: LogEnd) -> bool
    ensures { result ≡ is_up_to_date end than }
{
    if end.term == than.term {
        than.index <= end.index
    } else {
        than.term < end.term
    }
}

/// Whether a member hears of no leader. The silence is in milliseconds, and leader 0 is none.
pub fn hears_no_leader(role: Role, leader: u8, silence: u64) -> bool
    ensures { result ≡ hears_no_leader role leader silence }
{
    !is_leader(role) && (leader == 0 || LEAST_TIMEOUT <= silence)
}

/// The answer to a pre-vote for a term, of a candidate with this log, at a member with its own term and log.
pub fn pre_vote(
    own_term: u64,
    own: LogEnd,
    hears_no_leader: bool,
    term: u64,
    candidate: LogEnd,
) -> Would
    ensures { result ≡ pre_vote own_term own hears_no_leader term candidate }
{
    if own_term < term && is_up_to_date(candidate, own) && hears_no_leader {
        Would {
            term,
            granted: true,
        }
    } else {
        Would {
            term: own_term,
            granted: false,
        }
    }
}

/// Whether a vote is granted, with the ballot after a greater term is adopted.
pub fn grants_vote(ballot: Ballot, candidate: u8, term: u64, up_to_date: bool) -> bool
    ensures { result ≡ grants_vote ballot candidate term up_to_date }
{
    ballot.term == term && (ballot.vote == 0 || ballot.vote == candidate) && up_to_date
}

/// What a vote for a term leaves, asked by a candidate with this log, at a member with its own ballot and log.
pub fn vote(ballot: Ballot, own: LogEnd, from: u8, term: u64, candidate: LogEnd) -> VoteAnswer
    ensures { result ≡ vote ballot own from term candidate }
{
    let now = adopted(term, ballot);
    if grants_vote(now, from, term, is_up_to_date(candidate, own)) {
        VoteAnswer {
            ballot: Ballot { term, vote: from },
            granted: true,
        }
    } else {
        VoteAnswer {
            ballot: now,
            granted: false,
        }
    }
}
