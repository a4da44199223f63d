//! Agreement of one group of members on a log, over every execution, on whole logs. No code: the functions below state laws.
#![tactic(auto)]

ghost use Rattle.cp_agreement.specs.Laws.{OneLeader, EqualPrefixes, LaterLeaders, CommittedPrefixes, OneHistory, HeldAtEnd, QuorumsMeet, CrashesMeet};

/// No two members lead in one term.
pub fn one_leader()
    ensures { OneLeader }
{}

/// Two logs that have the same term at an index are equal up to it.
pub fn equal_prefixes()
    ensures { EqualPrefixes }
{}

/// What a member has committed stands in the log of each leader of a later term.
pub fn later_leaders()
    ensures { LaterLeaders }
{}

/// Of two committed lists one is a prefix of the other.
pub fn committed_prefixes()
    ensures { CommittedPrefixes }
{}

/// There is one list of which each committed list is a prefix.
pub fn one_history()
    ensures { OneHistory }
{}

/// Each committed entry is held at the end by a quorum of the configuration in force for it, or of an adjacent one.
pub fn held_at_end()
    ensures { HeldAtEnd }
{}

/// Quorums of adjacent configurations have a common member.
pub fn quorums_meet()
    ensures { QuorumsMeet }
{}

/// A crash between two steps meets the facts, and so does what a crash leaves of a step that meets them.
pub fn crashes_meet()
    ensures { CrashesMeet }
{}
