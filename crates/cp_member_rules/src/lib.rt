//! A member of several groups, as definitions: its groups over what it has stored, its tests of what comes, its ticks, and the
//! work of METADATA. The functions below state events that were worked out by hand, and laws over every machine. No code.
#![tactic(auto)]

ghost use Rattle.std.specs.Prelude.{◌≡◌, [], ◌∷◌, true, false, Some, None, is_some};
ghost use Rattle.cp_answers.specs.declared.refusal.Refusal.TheVariants as refusal;
ghost use Rattle.cp_message.specs.declared.task.TaskReply.TheVariants as task_reply;
ghost use Rattle.cp_log_rules.specs.Persistent.{new_group};
ghost use Rattle.cp_group_rules.specs.Worked.{three, empty_at, add_entry};
ghost use Rattle.cp_member_rules.specs.Letters.{letter, Hello, Welcome, StartGroup, Did};
ghost use Rattle.cp_member_rules.specs.Members.{group_at, last_attempt, nothing_done, bad_snapshot};
ghost use Rattle.cp_member_rules.specs.Shows.{commits, snapshots};
ghost use Rattle.cp_member_rules.specs.Steps.{Gets, member_step};
ghost use Rattle.cp_member_rules.specs.Tasks.{tasks};
ghost use Rattle.cp_member_rules.specs.Worked.{machines, setup, one, stored, new_member, leads_both, does, comes, asks, appends};
ghost use Rattle.cp_member_rules.specs.Cases.{first_tick, second_tick, attempted, refused, destroyed, answered, nonsense};
ghost use Rattle.cp_member_rules.specs.Cases.{snapped, restarted};
ghost use Rattle.cp_member_rules.specs.TaskCases.{busy, confirmed, first_tasks, later_tasks, end_task, destroyed_entry, left_entry};
ghost use Rattle.cp_member_rules.specs.TaskCases.{hears_destroyed, hears_again, hears_moved, hears_ended, beats, has_proposed, has_ended};
ghost use Rattle.cp_member_rules.specs.TaskCases.{begins, begin_part, ends, end_part, last_letters, destroys, destroy_entry};
ghost use Rattle.cp_member_rules.specs.TaskCases.{destroys_again, members_at, adds, removes, says_moved, moved};

/// Of two groups that would take leadership in one tick the first writes; the second does so in the next.
pub fn one_group_writes()
    ensures first { first_tick.parts ≡ appends 0 0 (empty_at 1) ∷ [] }
    ensures second { second_tick.parts ≡ appends 1 0 (empty_at 1) ∷ [] }
{}

/// A client greets a member and learns of its start; nobody else does.
pub fn welcomes_clients()
    ensures client { (does attempted (comes 17 Hello)).sent ≡ letter 1 17 (Welcome 1) ∷ [] }
    ensures member { (does attempted (comes 2 Hello)).sent ≡ [] }
    ensures other { (does attempted (Gets (letter 17 2 Hello))).sent ≡ [] }
{}

/// The tests of a request, in their order.
pub fn tests_requests()
    ensures operation { nonsense.sent ≡ [] }
    ensures unseen { last_attempt nonsense.state 17 1 ≡ 2 }
    ensures restart { (does attempted (asks 3 9 1)).sent ≡ letter 1 17 (Welcome 1) ∷ [] }
    ensures older { (does attempted (asks 3 0 1)).sent ≡ letter 1 17 (Welcome 1) ∷ [] }
    ensures attempt { (does attempted (asks 2 1 1)).sent ≡ [] }
    ensures ended { (does attempted (asks 3 1 4)).sent ≡ destroyed 3 4 }
    ensures group { (does attempted (asks 3 1 6)).sent ≡ refused 3 6 refusal.NoGroup }
    ensures seen { last_attempt (does attempted (asks 3 1 6)).state 17 1 ≡ 3 }
    ensures leader { (does attempted (asks 3 1 1)).sent ≡ refused 3 1 (refusal.NotLeader 0) }
    ensures entry { (does leads_both (asks 1 1 1)).parts ≡ appends 1 1 add_entry ∷ [] }
    ensures answer { (does leads_both (asks 1 1 1)).sent ≡ answered 1 1 }
{}

/// A start counts, and begins each group; a snapshot that restores no machine keeps the member from starting.
pub fn starts_again()
    ensures restart { restarted.stored.restart ≡ 2 }
    ensures group { is_some (group_at restarted 1) ≡ true }
    ensures bad { bad_snapshot machines (stored ((0, new_group one) ∷ (1, snapped) ∷ [])) ≡ Some 1 }
    ensures good { bad_snapshot machines (stored ((0, new_group one) ∷ (1, new_group one) ∷ [])) ≡ None }
{}

/// What METADATA's leader tells members, in its order; who has confirmed is not told again.
pub fn tells_tasks()
    ensures first { tasks setup 1 nothing_done busy ≡ first_tasks }
    ensures later { tasks setup 1 confirmed busy ≡ later_tasks }
{}

/// METADATA's leader proposes what members have done, once in its leadership, and tells its tasks where it applied something.
pub fn hears_members()
    ensures destroyed { hears_destroyed.parts ≡ appends 0 1 destroyed_entry ∷ [] }
    ensures tasks { hears_destroyed.sent ≡ end_task }
    ensures once { hears_again.parts ≡ [] }
    ensures no_move { hears_moved.parts ≡ [] }
    ensures ended { hears_ended.state.leadership.ended ≡ (2, 2) ∷ [] }
{}

/// At its beats METADATA's leader tells its tasks, and lets a member leave whose groups have moved.
pub fn beats_for_metadata()
    ensures tasks { (beats nothing_done).sent ≡ end_task }
    ensures left { (beats nothing_done).parts ≡ appends 0 1 left_entry ∷ [] }
    ensures index { (beats nothing_done).state.leadership.left ≡ (1, 2) ∷ [] }
    ensures waits { (beats has_proposed).parts ≡ [] }
    ensures confirmed { (beats has_ended).sent ≡ [] }
{}

/// A group begins once, and one that ends answers all who wait.
pub fn begins_and_ends()
    ensures begin { begins.parts ≡ begin_part }
    ensures started { begins.sent ≡ letter 1 3 (Did 5 task_reply.Started) ∷ [] }
    ensures ended { (does (new_member three) (comes 3 (StartGroup 4 three))).parts ≡ [] }
    ensures fixed { (member_step machines (record setup { managed = false }) 1 (new_member three) (comes 3 (StartGroup 5 three))).parts ≡ [] }
    ensures end { ends.parts ≡ end_part }
    ensures letters { ends.sent ≡ last_letters }
    ensures gone { group_at ends.state 1 ≡ None }
{}

/// The leader of a group that is told to destroy it proposes that once; who has applied it says so.
pub fn destroys_a_group()
    ensures part { destroys.parts ≡ appends 1 1 destroy_entry ∷ [] }
    ensures letters { destroys.sent ≡ letter 1 3 (Did 1 task_reply.Destroyed) ∷ [] }
    ensures shows { commits leads_both destroys.state ≡ (1, 2) ∷ [] }
    ensures snapshots { snapshots leads_both destroys.state ≡ [] }
    ensures again { destroys_again.parts ≡ [] }
    ensures silent { destroys_again.sent ≡ [] }
{}

/// The leader of a group that is told a move adds a member, then removes one; who has the move committed says so.
pub fn moves_a_group()
    ensures adds { adds.parts ≡ appends 1 1 (members_at (1 ∷ 2 ∷ [])) ∷ [] }
    ensures removes { removes.parts ≡ appends 1 2 (members_at (2 ∷ [])) ∷ [] }
    ensures moved { says_moved.sent ≡ moved }
    ensures silent { says_moved.parts ≡ [] }
{}
