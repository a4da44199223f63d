//! Elections: terms, pre-votes and votes, and when a member stands, as decisions on plain numbers. Each is that of the
//! rule in `cp_rules`, and laws say that the rule does what is decided.
#![tactic(auto)]

ghost use Rattle.cp_election.specs.Laws.{TicksStandAsDecided, PreVotesGoAsDecided, PreVoteRepliesGoAsDecided, VotesGoAsDecided, VoteRepliesGoAsDecided, BallotsAreWritten};

mod ballot;
mod counting;
mod leading;
mod members;
mod replying;
mod role;
mod voting;
mod waiting;

pub use ballot::{adopted, is_greater, to_write};
pub use counting::{count_vote, has_quorum};
pub use leading::{new_peer, new_peers, no_votes};
pub use members::is_member;
pub use replying::{VoteReplied, pre_vote_replied, vote_replied};
pub use role::{is_candidate, is_leader, is_pre_candidate};
pub use voting::{VoteAnswer, Would, grants_vote, hears_no_leader, is_up_to_date, pre_vote, vote};
pub use waiting::{Stand, may_stand, silence, standing, timeout};

/// What a member writes of its term and its vote.
pub fn ballots_are_written()
    ensures { BallotsAreWritten }
{}

/// A tick at a member that does not lead does what its standing says.
pub fn ticks_stand_as_decided()
    ensures { TicksStandAsDecided }
{}

/// Who is asked for a pre-vote answers it, and does nothing else.
pub fn pre_votes_go_as_decided()
    ensures { PreVotesGoAsDecided }
{}

/// The reply to a pre-vote is adopted, counted or ignored.
pub fn pre_vote_replies_go_as_decided()
    ensures { PreVoteRepliesGoAsDecided }
{}

/// Who is asked for a vote writes the ballot that is decided, and answers with its term.
pub fn votes_go_as_decided()
    ensures { VotesGoAsDecided }
{}

/// The reply to a vote is adopted, counted or ignored.
pub fn vote_replies_go_as_decided()
    ensures { VoteRepliesGoAsDecided }
{}
