//! What the local step of one member writes is what a store takes, and what it sends has a spelling. No code: the
//! functions below state laws.
#![tactic(auto)]

ghost use Rattle.cp_rules_ranges.specs.Laws.{StaysInRange, StepsGoOn, PartsAreTaken, MessagesAreSpelled, SpelledAreInRange};

/// A step leaves a sound member in range, and so does a crash; a group begins in range.
pub fn stays_in_range()
    ensures { StaysInRange }
{}

/// What each step requires of the member, the step before it leaves, and so does a crash; a group begins with it.
pub fn steps_go_on()
    ensures { StepsGoOn }
{}

/// The part of a step is legal after what is stored, has a spelling, and fits a record of the journal.
pub fn parts_are_taken()
    ensures { PartsAreTaken }
{}

/// Each message that a step sends has a spelling.
pub fn messages_are_spelled()
    ensures { MessagesAreSpelled }
{}

/// A message that has a spelling is in range.
pub fn what_comes_is_in_range()
    ensures { SpelledAreInRange }
{}
