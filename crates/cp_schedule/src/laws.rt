//! What holds of every text and every schedule.
ghost use Rattle.cp_schedule.specs.Laws.{LinesAreNumbered, MembersAreNotBuilt, ScheduleHasNoFault, TextSpellsOneSchedule};

/// A text that spells a schedule without members has no fault.
pub fn a_schedule_has_no_fault()
    ensures { ScheduleHasNoFault }
{}

/// A text that spells a schedule with members is told as not built, at its second line.
pub fn members_are_not_built()
    ensures { MembersAreNotBuilt }
{}

/// A text spells at most one schedule.
pub fn a_text_spells_one_schedule()
    ensures { TextSpellsOneSchedule }
{}

/// A line behind the header begins at the line that [`line_of_event`](crate::line_of_event) tells.
pub fn lines_are_numbered()
    ensures { LinesAreNumbered }
{}
