//! The legal local step of one member of a group, as definitions: what a member keeps, what comes to it, and what it
//! then writes, sends and leaves. One file of `specs/` for each rule. No code: the functions below state steps that
//! were worked out by hand, and laws on bytes.
#![tactic(auto)]

ghost use Rattle.std.specs.Prelude.{◌≡◌, ◌++◌, true, false, [], ◌∷◌, drop, Some, None};
ghost use Rattle.cp_answers.specs.declared.refusal.Refusal.TheVariants.{WrongMembers, ChangePending, NoOwnTermCommit, AlreadyThere, NotThere, LastMember};
ghost use Rattle.cp_rules.specs.declared.outcome.Outcome.TheVariants.{Refused};
ghost use Rattle.cp_rules.specs.Spelling.{ChangesAreSpelled, SnapshotsReadBack};
ghost use Rattle.cp_rules.specs.Parts.{PartsChangeTheirGroup};
ghost use Rattle.cp_rules.specs.Volatile.{started};
ghost use Rattle.cp_rules.specs.Local.{does, reply, Got, Append, AppendReply, ChangeMembers, Confirmed};
ghost use Rattle.cp_rules.specs.Snapshots.{CompletesWhereInstalled};
ghost use Rattle.cp_rules.specs.Steps.{step};
ghost use Rattle.cp_rules.specs.Worked.{elected, election, committed, proposal, another_elected, other_election, beaten, beat, empty, entry, call, mail};
ghost use Rattle.cp_rules.specs.Worked.{second, follows_one, ChunksStayApart, three, add, remove, refusal, removed, removal, just_elected, outcome_of, added, addition, restarted};
ghost use Rattle.cp_rules.specs.Worked.{has_read, round, has_lost, look};

mod ballot;
mod change;
mod log_end;
mod outcome;
mod peer;
mod role;

pub use ballot::Ballot;
pub use change::Change;
pub use log_end::LogEnd;
pub use outcome::Outcome;
pub use peer::Peer;
pub use role::Role;

/// The first of three members times out, is elected and commits its empty entry, and then an entry that it is asked for.
/// The others learn of a commit by the next Append.
pub fn elects_and_commits()
    ensures election { elected.sent ≡ election }
    ensures empty_entry { (elected.seats 1).state.commit ≡ 1 }
    ensures messages { committed.sent ≡ election ++ proposal }
    ensures leader { (committed.seats 1).state.commit ≡ 2 }
    ensures follower { (committed.seats 2).state.commit ≡ 1 }
{}

/// A leader crashes with an entry that no other has; another is elected, and the entry gives way to that one's.
pub fn another_leader()
    ensures messages { another_elected.sent ≡ election ++ other_election }
    ensures commit { (another_elected.seats 2).state.commit ≡ 2 }
    ensures log { (another_elected.seats 1).stored.log ≡ empty 1 ∷ empty 2 ∷ [] }
{}

/// At its beat a leader sends to each member what that one lacks.
pub fn beats_with_what_is_lacking()
    ensures messages { beaten.sent ≡ election ++ beat }
    ensures commit { (beaten.seats 2).state.commit ≡ 2 }
{}

/// An Append in which nothing is new writes no part; one that begins past the end of the log is refused with that end.
pub fn follower_appends()
    ensures known { step 2 second (started 0 0) (Got 1 (Append 1 0 0 1 (empty 1 ∷ []))) ≡ does None
        (record follows_one { commit = 1 }) (reply 1 (AppendReply 1 true 1)) }
    ensures past { step 2 second (started 0 0) (Got 1 (Append 1 3 1 1 [])) ≡ does None follows_one (reply 1 (AppendReply 1 false 1)) }
{}

/// Chunks of two snapshots are not joined.
pub fn chunks_stay_apart()
    ensures { ChunksStayApart }
{}

/// Each refusal of a change, in term 2, where the configuration has index 4.
pub fn changes_refused()
    ensures already { refusal three (add 3 4) 4 2 ≡ Some AlreadyThere }
    ensures not_there { refusal three (remove 5 4) 4 2 ≡ Some NotThere }
    ensures pending { refusal three (remove 3 4) 3 2 ≡ Some (ChangePending 4) }
    ensures own_term { refusal three (remove 3 4) 4 1 ≡ Some (NoOwnTermCommit 2) }
    ensures last { refusal (1 ∷ []) (remove 1 4) 4 2 ≡ Some LastMember }
    ensures none { refusal three (remove 3 4) 4 2 ≡ None }
{}

/// A leader changes members only after an entry of its own term is committed; one that it removes is not told; and the
/// new configuration counts from its entry on.
pub fn removes_a_member()
    ensures early { outcome_of 1 just_elected (ChangeMembers (remove 3 0) 0 None) ≡ Refused (NoOwnTermCommit 1) }
    ensures messages { removed.sent ≡ election ++ removal }
    ensures commit { (removed.seats 1).state.commit ≡ 2 }
    ensures again { outcome_of 1 removed (ChangeMembers (remove 3 0) 0 None) ≡ Refused (WrongMembers 2) }
{}

/// A leader whose snapshot covers what an added member lacks sends it the snapshot, and then what follows.
pub fn adds_a_member()
    ensures messages { added.sent ≡ addition }
    ensures leader { (added.seats 1).state.commit ≡ 6 }
    ensures member { (added.seats 2).stored.base ≡ 5 }
{}

/// A member that starts again goes on from its snapshot.
pub fn restarts_from_a_snapshot()
    ensures base { (restarted.seats 1).stored.base ≡ 2 }
    ensures term { (restarted.seats 1).stored.base_term ≡ 1 }
    ensures log { (restarted.seats 1).stored.log ≡ empty 2 ∷ [] }
    ensures commit { (restarted.seats 1).state.commit ≡ 3 }
{}

/// A read is answered once a quorum has confirmed its round, without an entry.
pub fn reads_by_a_round()
    ensures messages { has_read.sent ≡ election ++ round }
    ensures answered { (has_read.seats 1).last.answered ≡ look ∷ [] }
    ensures log { (has_read.seats 1).stored.log ≡ empty 1 ∷ [] }
{}

/// A read is lost where its leader learns of a greater term before its round is confirmed.
pub fn reads_are_lost()
    ensures refused { drop 22 has_lost.sent ≡ mail 3 1 (Confirmed 2 false 0) ∷ [] }
    ensures lost { (has_lost.seats 1).last.lost ≡ look ∷ [] }
    ensures answered { (has_lost.seats 1).last.answered ≡ [] }
{}

/// Exactly a chunk that completes a snapshot installs it, and installs what it completes.
pub fn completes_where_installed()
    ensures { CompletesWhereInstalled }
{}

/// A members entry has the members that it was made with, and no others.
pub fn changes_are_spelled()
    ensures { ChangesAreSpelled }
{}

/// The part of a step changes what the member has stored of its group, as the step says, and no other group.
pub fn parts_change_their_group()
    ensures { PartsChangeTheirGroup }
{}

/// What a snapshot begins with is read from its bytes.
pub fn snapshots_read_back()
    ensures { SnapshotsReadBack }
{}
