//! Laws of the local step of one member for those that stand on it: what a step writes, how it moves the commit and the base,
//! where entries come from, that members agree between any two moments of one execution, what snapshots hold, and what a
//! member has of a group that has ended. No code: the functions below state laws.
#![tactic(auto)]

ghost use Rattle.std.specs.Prelude.{ℕ, ◌≡◌, List, [], ◌∷◌};
ghost use Rattle.cp_rules.specs.declared.role.Role.TheVariants.{Follower};
ghost use Rattle.cp_rules.specs.Worked.{empty};
ghost use Rattle.cp_rules_facts.specs.Executions.{IsExecution};
ghost use Rattle.cp_rules_laws.specs.Writes.{StepsWrite};
ghost use Rattle.cp_rules_laws.specs.Moves.{CommitsRise};
ghost use Rattle.cp_rules_laws.specs.Origins.{EntriesComeFrom, EntriesWereMade, WasMade};
ghost use Rattle.cp_rules_laws.specs.Moments.{Led, MembersAgree};
ghost use Rattle.cp_rules_laws.specs.Histories.{ThereIsOneHistory};
ghost use Rattle.cp_rules_laws.specs.Snapshots.{SnapshotsWereTaken, SnapshotsRead};
ghost use Rattle.cp_rules_laws.specs.Ended.{EndedGroupsStay};
ghost use Rattle.cp_rules_laws.specs.Worked.{IsNoStep, alone, cut_off, crashed, forgets, falls, makes_as_follower, answers_nothing};

/// A step keeps the log, or follows an Append that came, or makes one entry as leader, or takes a snapshot of its own, or
/// installs another's.
pub fn steps_write()
    ensures { StepsWrite }
{}

/// Commits and bases rise. What was committed stays, above the base, and what is committed is there.
pub fn commits_rise()
    ensures { CommitsRise }
{}

/// Each entry of a log stood there before, or came in an Append, or is made in the step. What an Append brings to another stands
/// in the log.
pub fn entries_come_from()
    ensures { EntriesComeFrom }
{}

/// Each entry of each log, and each that was ever sent, was made in some act by a member that led, at its index and with its
/// term.
pub fn entries_were_made()
    ensures { EntriesWereMade }
{}

/// Any two members agree at any two moments of one execution. No two lead in one term, also where a crash cuts the step off or
/// the leader steps down in it.
pub fn members_agree()
    ensures { MembersAgree }
{}

/// All that was ever committed in an execution is one history, and no more is in it.
pub fn there_is_one_history()
    ensures { ThereIsOneHistory }
{}

/// Each snapshot that a member has is one that some member took, byte by byte.
pub fn snapshots_were_taken()
    ensures { SnapshotsWereTaken }
{}

/// Where each snapshot that a member takes is read as the view at its index, as a machine's state after so many entries, so is each
/// that any member has.
pub fn snapshots_read<V>()
    ensures { (reads : List ℕ → V) (view : ℕ → V) → SnapshotsRead reads view }
{}

/// A group that has ended never stands again, and over the whole journal its last state is the one right before its end.
pub fn ended_groups_stay()
    ensures { EndedGroupsStay }
{}

/// One that is alone takes leadership, and a crash cuts the step off: the entry stands, and it led, though it is no Leader at any
/// moment.
pub fn leads_and_crashes()
    ensures happens { IsExecution alone cut_off }
    ensures role { crashed.state.role ≡ Follower }
    ensures log { crashed.stored.log ≡ empty 1 ∷ [] }
    ensures led { Led alone cut_off 1 crashed }
    ensures made { WasMade alone cut_off 1 (empty 1) }
{}

/// No step lets go what is committed, takes a commit back, makes an entry for one that doesn't lead, or makes one that is asked
/// and answers no index.
pub fn no_step_leaves()
    ensures forgets { IsNoStep forgets }
    ensures falls { IsNoStep falls }
    ensures follower { IsNoStep makes_as_follower }
    ensures silent { IsNoStep answers_nothing }
{}
