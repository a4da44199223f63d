//! What a schedule without members does, as definitions, and the promises that hold of each execution. No code: the
//! functions below state laws.
#![tactic(auto)]

ghost use Rattle.cp_world_rules.specs.Laws.{ClientsStayWithin, HeadlineHolds, NothingWaits};
ghost use Rattle.cp_world_rules.specs.Wrong.{AreRefused};

/// The promises hold of each schedule's execution.
pub fn headline_holds()
    ensures { HeadlineHolds }
{}

/// No execution with one of these faults keeps the promises: so each of them says something.
pub fn wrong_executions_are_refused()
    ensures { AreRefused }
{}

/// After each event no answer waits to be handed on, and no request is open that only prepares a call.
pub fn nothing_waits()
    ensures { NothingWaits }
{}

/// The numbers of requests, and the counts of holds, are at most the number of entries and events; clocks are at most
/// 2^62. So it is at the begin of an event, and whenever an answer was handed on.
pub fn clients_stay_within_bounds()
    ensures { ClientsStayWithin }
{}
