//! Agreement of one group of members on a log, over every execution that meets the facts of `cp_agreement_facts`: members fixed or changing
//! one at a time, with snapshots, crashes and restarts. No code: the functions below state laws.
#![tactic(auto)]

ghost use Rattle.std.specs.Prelude.{◌≡◌, true};
ghost use Rattle.cp_agreement_facts.specs.Clusters.{cluster_after};
ghost use Rattle.cp_agreement_facts.specs.Facts.{MeetsFacts};
ghost use Rattle.cp_safety.specs.Examples.{three, alone, elects_and_commits, votes_twice, stands_late, MeetsAllButVotes, MeetsWithAnyLog};
ghost use Rattle.cp_safety.specs.Laws.{OneOffice, EqualPrefixes, LaterOffices, CommittedPrefixes, WholeLogs, NeighboursMeet, HeldAtEnd, HeldByFirstMembers, TrackedExecutions, ChunkedExecutions, ChunksJoin};

/// No two members lead in one term.
pub fn one_office()
    ensures { OneOffice }
{}

/// Two logs that have the same term at an index are equal up to it.
pub fn equal_prefixes()
    ensures { EqualPrefixes }
{}

/// What a member has committed stands in the log of each leader of a later term.
pub fn later_offices()
    ensures { LaterOffices }
{}

/// Committed lists are prefixes of one list.
pub fn committed_prefixes()
    ensures { CommittedPrefixes }
{}

/// An execution of members with snapshots stands at each moment for one on whole logs that meets the facts.
pub fn whole_logs()
    ensures { WholeLogs }
{}

/// A quorum of a configuration and a quorum of it or of an adjacent one have a common member.
pub fn neighbours_meet()
    ensures { NeighboursMeet }
{}

/// Each committed index is held at the end by a quorum of the configuration in force for it, or of an adjacent one.
pub fn held_at_end()
    ensures { HeldAtEnd }
{}

/// While members are fixed, each committed index is held at the end by a quorum of the first members.
pub fn held_by_first_members()
    ensures { HeldByFirstMembers }
{}

/// Members that count votes and matched indexes as the rules of one member say meet the facts.
pub fn tracked_executions()
    ensures { TrackedExecutions }
{}

/// Members that send snapshots in chunks meet the facts.
pub fn chunked_executions()
    ensures { ChunkedExecutions }
{}

/// What a member joins from chunks of one term and index is a snapshot that the sender had.
pub fn chunks_join()
    ensures { ChunksJoin }
{}

/// The facts can be met: an execution in full, with an election and a commit.
pub fn elects_and_commits()
    ensures meets { MeetsFacts three elects_and_commits }
    ensures commits { ((cluster_after three elects_and_commits).member 1).commit ≡ 1 }
{}

/// An execution in full that breaks only "votes are durable and up to date" has two leaders in one term.
pub fn votes_twice()
    ensures meets { MeetsAllButVotes three votes_twice }
    ensures one { ((cluster_after three votes_twice).member 1).is_leader ≡ true }
    ensures two { ((cluster_after three votes_twice).member 2).is_leader ≡ true }
    ensures same { ((cluster_after three votes_twice).member 1).term ≡ ((cluster_after three votes_twice).member 2).term }
{}

/// Were candidates to win with any log, not with the one that their requests for votes spelled, an execution in full has two leaders in
/// one term.
pub fn stands_late()
    ensures meets { MeetsWithAnyLog alone stands_late }
    ensures one { ((cluster_after alone stands_late).member 1).is_leader ≡ true }
    ensures two { ((cluster_after alone stands_late).member 2).is_leader ≡ true }
    ensures same { ((cluster_after alone stands_late).member 1).term ≡ ((cluster_after alone stands_late).member 2).term }
{}
