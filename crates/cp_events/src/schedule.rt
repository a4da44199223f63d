//! Schedules as they are written.

use crate::event::Event;
use crate::plan::Plan;
use cp_base::Items;

/// A line behind the header.
#[derive(Clone, Debug, PartialEq, Eq, Drop)]
pub enum Line {
    /// So many times the first message arrives that no event has named yet.
    Settle(u32),
    /// An event.
    One(Event),
}

/// A schedule: its header, and its lines.
#[derive(Clone, Debug, PartialEq, Eq, Drop)]
pub struct Schedule {
    pub plan: Plan,
    pub lines: Items<Line>,
}
