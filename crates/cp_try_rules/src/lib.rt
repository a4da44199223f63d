//! What a client of members keeps, and what it does at each event, in two layers: calls become requests, to groups that are
//! known by name, and requests become tries at one member after another. Rows and definitions; the functions below state
//! cases that were worked out by hand, and laws over every list of events. No code.
#![tactic(auto)]

ghost use Rattle.std.specs.Prelude.{◌≡◌};
ghost use Rattle.cp_try_rules.specs.Laws.{AttemptsAreCounted, AttemptsHaveBegun, AttemptsSayTheSame, RequestsRise};
ghost use Rattle.cp_try_rules.specs.Laws.{DelaysHaveCauses, LossesHaveCauses, OnlyAfterRefusals};
ghost use Rattle.cp_try_rules.specs.Worked.{seen, seen_from};
ghost use Rattle.cp_try_rules.specs.Cases.{unlock_events, unlock_seen, lost_events, lost_seen, again_events, again_seen};
ghost use Rattle.cp_try_rules.specs.Cases.{down_events, down_seen, reply_events, reply_seen, alone, alone_seen};
ghost use Rattle.cp_try_rules.specs.TickCases.{late_events, late_seen, whole_events, whole_seen, hello_events, hello_seen};
ghost use Rattle.cp_try_rules.specs.TickCases.{aged_events, aged_seen, pause_events, pause_seen, pause_again_events, pause_again_seen};
ghost use Rattle.cp_try_rules.specs.TickCases.{spent, spent_events, spent_seen};
ghost use Rattle.cp_try_rules.specs.RefusalCases.{leader_events, leader_seen, waits_events, waits_seen, ends_events, ends_seen};
ghost use Rattle.cp_try_rules.specs.RefusalCases.{unknown_events, unknown_seen, other_events, other_seen, twice_events, twice_seen};
ghost use Rattle.cp_try_rules.specs.RefusalCases.{paused_lost_events, paused_lost_seen, paused_again_events, paused_again_seen};
ghost use Rattle.cp_try_rules.specs.RefusalCases.{elsewhere_events, elsewhere_seen};
ghost use Rattle.cp_try_rules.specs.GroupCases.{apart_events, apart_seen, anew_events, anew_seen, anew_session_events, anew_session_seen};
ghost use Rattle.cp_try_rules.specs.GroupCases.{destroyed_events, destroyed_seen, target_events, target_seen, close_events, close_seen};
ghost use Rattle.cp_try_rules.specs.GroupCases.{refused_beat_events, refused_beat_seen, one_beat_events, one_beat_seen};
ghost use Rattle.cp_try_rules.specs.GroupCases.{latest_beat_events, latest_beat_seen, two_sessions, two_hello_events, two_hello_seen};
ghost use Rattle.cp_try_rules.specs.GroupCases.{last_beat_events, last_beat_seen};

mod choices;
mod event;
mod rows;

pub use choices::{Place, Rule, Then, Turn};
pub use event::{Asked, Event, Says, Sent};
pub use rows::{Pending, Purpose, Thread, Tried, Try};

/// The reply to an unlock is lost; the unlock is sent again, to a member that doesn't lead, and to the leader.
pub fn sends_an_unlock_again()
    ensures { seen unlock_events ≡ unlock_seen }
{}

/// A request whose member starts again: what may not be sent again ends without an answer, what may be goes to the new
/// start, and a number that is no greater changes nothing.
pub fn follows_restarts()
    ensures lost { seen lost_events ≡ lost_seen }
    ensures again { seen again_events ≡ again_seen }
{}

/// A countdown that is sent again is for the same round.
pub fn counts_down_in_one_round()
    ensures { seen down_events ≡ down_seen }
{}

/// A reply counts for the open request of its thread, group and number, whichever attempt it answers.
pub fn takes_replies_to_the_open_request()
    ensures { seen reply_events ≡ reply_seen }
{}

/// Without members nothing is tried.
pub fn tries_nothing_alone()
    ensures { alone ≡ alone_seen }
{}

/// A call ends 60,000 ms after it began and what it wishes.
pub fn ends_at_the_deadline()
    ensures wish { seen late_events ≡ late_seen }
    ensures whole_call { seen whole_events ≡ whole_seen }
{}

/// A try that nobody answers gets old after 5,000 ms, also while its thread pauses.
pub fn tries_again_in_time()
    ensures hello { seen hello_events ≡ hello_seen }
    ensures attempt { seen aged_events ≡ aged_seen }
    ensures pause { seen pause_events ≡ pause_seen }
    ensures pause_again { seen pause_again_events ≡ pause_again_seen }
{}

/// Attempts have numbers up to 2^62, and beats too.
pub fn stops_at_the_last_number()
    ensures attempts { seen_from spent spent_events ≡ spent_seen }
    ensures beats { seen_from (two_sessions 4611686018427387903) last_beat_events ≡ last_beat_seen }
{}

/// A refusal of the last attempt tells where the request goes next, and whether it pauses before.
pub fn follows_refusals()
    ensures leader { seen leader_events ≡ leader_seen }
    ensures waits { seen waits_events ≡ waits_seen }
    ensures twice { seen twice_events ≡ twice_seen }
    ensures other { seen other_events ≡ other_seen }
{}

/// Six refusals end the call; `lost` ends the one that may not be sent again.
pub fn ends_by_refusals()
    ensures refused { seen ends_events ≡ ends_seen }
    ensures lost { seen unknown_events ≡ unknown_seen }
{}

/// A restart number that rose concerns a thread whose last try went to an older start, also one that pauses, and no other.
pub fn follows_restarts_in_pauses()
    ensures lost { seen paused_lost_events ≡ paused_lost_seen }
    ensures again { seen paused_again_events ≡ paused_again_seen }
    ensures elsewhere { seen elsewhere_events ≡ elsewhere_seen }
{}

/// Each group has its number, its target and its session.
pub fn keeps_groups_apart()
    ensures { seen apart_events ≡ apart_seen }
{}

/// A call stays with the group that it found, whatever the name stands for by then.
pub fn stays_with_its_group()
    ensures countdown { seen anew_events ≡ anew_seen }
    ensures session { seen anew_session_events ≡ anew_session_seen }
{}

/// A group that is destroyed is forgotten by its name; its session stays until the group says that it is gone.
pub fn forgets_destroyed_groups()
    ensures { seen destroyed_events ≡ destroyed_seen }
{}

/// The first answer that names a group gives its target.
pub fn keeps_its_first_target()
    ensures { seen target_events ≡ target_seen }
{}

/// To close the session of a group, the group has to be known; where there is no session, nothing is asked.
pub fn closes_sessions_of_groups()
    ensures { seen close_events ≡ close_seen }
{}

/// A beat is never repeated, and one tick makes one for each session. Where no start of the target is known, it stays due.
pub fn beats_once()
    ensures refused { seen refused_beat_events ≡ refused_beat_seen }
    ensures one { seen one_beat_events ≡ one_beat_seen }
    ensures latest { seen latest_beat_events ≡ latest_beat_seen }
    ensures two_groups { seen_from (two_sessions 0) two_hello_events ≡ two_hello_seen }
{}

/// The attempts of a thread are numbered 1, 2, 3 and so on, whatever comes to its client.
pub fn attempts_are_counted()
    ensures { AttemptsAreCounted }
{}

/// The numbers of a thread's requests rise.
pub fn requests_rise()
    ensures { RequestsRise }
{}

/// Each attempt is of a request that began, and two attempts of one call say the same.
pub fn attempts_say_what_began()
    ensures begun { AttemptsHaveBegun }
    ensures same { AttemptsSayTheSame }
{}

/// A request that may not be sent again goes into a further attempt only where each earlier one was refused before.
pub fn only_after_refusals()
    ensures { OnlyAfterRefusals }
{}

/// Where a call returns `indeterminate lost`, an event tells that its request may be lost.
pub fn losses_have_causes()
    ensures { LossesHaveCauses }
{}

/// Where a call returns `indeterminate deadline`, the clock has moved since the call by 60,000 ms and what it wishes.
pub fn delays_have_causes()
    ensures { DelaysHaveCauses }
{}
