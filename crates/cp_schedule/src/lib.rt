//! Schedules: which texts spell one, and the first line of a text that spells none. `docs/schedules.md` states every
//! line.
#![tactic(auto)]

mod event;
mod fronts;
mod header;
mod laws;
mod reading;
mod writing;

pub use cp_events::{Event, Line, Schedule};
pub use laws::{
    a_schedule_has_no_fault, a_text_spells_one_schedule, lines_are_numbered, members_are_not_built,
};
pub use reading::{ScheduleError, line_of_event, read};
pub use writing::append_event_line;
