//! One group at one member, as definitions: Raft over any machine, calls that wait for their entries, times of sessions and
//! waits, snapshots, and reads without entries. The functions below state steps that were worked out by hand, and laws over
//! every machine. No code.
#![tactic(auto)]

ghost use Rattle.std.specs.Prelude.{◌≡◌, ◌++◌, [], ◌∷◌, pos, true, false, None};
ghost use Rattle.cp_answers.specs.declared.answer.Answer.TheVariants as answer;
ghost use Rattle.cp_answers.specs.declared.refusal.Refusal.TheVariants as refusal;
ghost use Rattle.cp_rules.specs.Local.{Confirmed};
ghost use Rattle.cp_group_rules.specs.Groups.{begun};
ghost use Rattle.cp_group_rules.specs.Machines.{Machine};
ghost use Rattle.cp_group_rules.specs.Views.{base_view};
ghost use Rattle.cp_group_rules.specs.Laws.{TicksMayBeQuiet, ViewsGoOn, CommitsMoveViews, SnapshotsRestore, MachinesReadBack};
ghost use Rattle.cp_group_rules.specs.Replies.{RepliesHaveAnswers};
ghost use Rattle.cp_group_rules.specs.Worked.{counter, attempt, replied};
ghost use Rattle.cp_group_rules.specs.Cases.{elected, election, added, addition, asks_a_follower, asks_for_a_change, refuse};
ghost use Rattle.cp_group_rules.specs.Cases.{steps_down, lost, commits_first, commits_both};
ghost use Rattle.cp_group_rules.specs.TimeCases.{expires, expires_again, expires_other, appends, expiry_entry, leads_anew};
ghost use Rattle.cp_group_rules.specs.TimeCases.{session_since, waits_till, waits_again, waits_on, wait_since};
ghost use Rattle.cp_group_rules.specs.SnapshotCases.{snapped, gets_snapshot, follows, reads_alone, begins_to_read, rounds_asked};
ghost use Rattle.cp_group_rules.specs.SnapshotCases.{reader, hears, read_lost, reads_by_an_entry};

mod attempt;
mod running;

pub use attempt::Attempt;
pub use running::Running;

/// The first of three members is elected and commits its empty entry; then a call is answered by its entry.
pub fn answers_a_call()
    ensures election { elected.sent ≡ election }
    ensures messages { added.sent ≡ election ++ addition }
    ensures pending { (added.seats 1).group.pending ≡ [] }
    ensures commit { (added.seats 1).group.raft.commit ≡ 2 }
{}

/// What may not become an entry is refused where it came from.
pub fn refuses_requests()
    ensures leader { asks_a_follower.sends ≡ refuse (refusal.NotLeader 3) }
    ensures change { asks_for_a_change.sends ≡ refuse (refusal.WrongMembers 0) }
    ensures pending { asks_for_a_change.group.pending ≡ [] }
{}

/// A leader that steps down refuses what is not committed, and keeps what is.
pub fn loses_attempts()
    ensures lost { steps_down.replies ≡ lost }
    ensures pending { steps_down.group.pending ≡ attempt 1 2 ∷ [] }
    ensures office { steps_down.stepped_down ≡ true }
{}

/// An answer goes to the newest attempt of its call, which waits on where its own entry stands above.
pub fn answers_the_newest()
    ensures first { commits_first.replies ≡ replied 2 (answer.Value (pos 1)) ∷ [] }
    ensures waits { commits_first.group.pending ≡ attempt 2 3 ∷ [] }
    ensures both { commits_both.replies ≡ replied 2 (answer.Value (pos 1)) ∷ replied 2 (answer.Value (pos 2)) ∷ [] }
    ensures none { commits_both.group.pending ≡ [] }
{}

/// A session without a beat ends by an entry once its time is over, not before, and not twice. A new leader gives it its whole
/// time again.
pub fn expires_sessions()
    ensures before { (expires 301999).part ≡ None }
    ensures entry { (expires 302000).part ≡ appends 2 expiry_entry }
    ensures running { (expires 302000).group.running ≡ [] }
    ensures twice { expires_again.part ≡ None }
    ensures version { expires_other.part ≡ appends 3 expiry_entry }
    ensures leader { leads_anew.group.running ≡ session_since 302000 ∷ [] }
{}

/// A call that waits is answered once its time is over, and not before. Neither that it comes again nor a new leader gives it
/// more time.
pub fn times_out_waits()
    ensures before { (waits_till 2499).part ≡ None }
    ensures reply { (waits_till 2500).replies ≡ replied 1 answer.TimedOut ∷ [] }
    ensures pending { (waits_till 2500).group.pending ≡ [] }
    ensures running { (waits_till 2500).group.running ≡ [] }
    ensures again { waits_again.group.running ≡ wait_since 2000 ∷ [] }
    ensures leader { waits_on.group.running ≡ wait_since 2000 ∷ [] }
    ensures both { waits_again.group.pending ≡ attempt 1 2 ∷ attempt 2 3 ∷ [] }
{}

/// A member writes a snapshot where so many entries stand behind its base, and begins with it after a start.
pub fn writes_a_snapshot()
    ensures base { snapped.base ≡ 2 }
    ensures log { snapped.log ≡ [] }
    ensures view { base_view counter snapped ≡ 1 }
    ensures commit { (begun counter snapped 0).raft.commit ≡ 2 }
{}

/// A snapshot of another begins each time anew; one that restores no machine changes nothing.
pub fn installs_a_snapshot()
    ensures commit { (gets_snapshot true).group.raft.commit ≡ 5 }
    ensures running { (gets_snapshot true).group.running ≡ wait_since 2000 ∷ [] }
    ensures part { (gets_snapshot false).part ≡ None }
    ensures same { (gets_snapshot false).group ≡ follows }
    ensures silent { (gets_snapshot false).sends ≡ [] }
{}

/// A read is answered without an entry, once a quorum has confirmed its round, and is lost where another term comes.
pub fn reads_without_entries()
    ensures alone { reads_alone.replies ≡ replied 1 (answer.Value (pos 0)) ∷ [] }
    ensures part { reads_alone.part ≡ None }
    ensures round { begins_to_read.sends ≡ rounds_asked }
    ensures waits { begins_to_read.group.reading ≡ reader ∷ [] }
    ensures confirmed { (hears (Confirmed 1 true 1)).replies ≡ replied 1 (answer.Value (pos 0)) ∷ [] }
    ensures over { (hears (Confirmed 1 true 1)).group.reading ≡ [] }
    ensures lost { (hears (Confirmed 2 false 0)).replies ≡ read_lost }
    ensures entry { reads_by_an_entry.replies ≡ replied 1 (answer.Value (pos 1)) ∷ [] }
{}

/// A tick that may not write writes no part, and commits nothing.
pub fn ticks_may_be_quiet<V>()
    ensures { (m : Machine V) → TicksMayBeQuiet m }
{}

/// Entries one after another are applied in two parts; and a step moves the view by what it newly commits.
pub fn views_go_on<V>()
    ensures parts { (m : Machine V) → ViewsGoOn m }
    ensures commits { (m : Machine V) → CommitsMoveViews m }
{}

/// The machine's bytes of a snapshot are read from it, and restore the machine that wrote them.
pub fn snapshots_restore<V>()
    ensures bytes { MachinesReadBack }
    ensures machine { (m : Machine V) → SnapshotsRestore m }
{}

/// Each reply of a group has the answer that its machine gives to the call at an entry that is newly committed; or, of a
/// read, what a look at the machine gives.
pub fn replies_have_answers<V>()
    ensures { (m : Machine V) → RepliesHaveAnswers m }
{}
