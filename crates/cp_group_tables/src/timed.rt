//! What waits for its time to be over.
ghost use Rattle.std.specs.Prelude.{◌≡◌, length, slice_get};
ghost use Rattle.std.specs.List.{filter};
ghost use Rattle.std.specs.Option.{option_copied, option_map};
ghost use Rattle.cp_wait.specs.Arrivals.{waits_limited};

use crate::tables::GroupTables;
use cp_group_state::{SessionRow, Waiter};
use std::collections::BTreeMap;

/// The number and the version of the session at a place.
fn session_at(rows: &BTreeMap<u64, SessionRow>, place: usize) -> Option<(u64, u64)>
    ensures { result ≡ option_map (λ e. (e.0, e.1.version)) (slice_get rows.now.entries place) }
{
    let mut left = place;
    for (number, row) in rows {
        if left == 0 {
            return Some((*number, row.version));
        }
        left -= 1;
    }
    None
}

impl GroupTables {
    /// How many sessions are open.
    pub fn session_count(&self) -> usize
        ensures { result ≡ length self.now.sessions }
    {
        self.sessions.rows().len()
    }

    /// The number and the version of the session at this place, by rising number.
    pub fn session_at(&self, place: usize) -> Option<(u64, u64)>
        ensures { result ≡ option_map (λ e. (e.0, e.1.version)) (slice_get self.now.sessions place) }
    {
        session_at(self.sessions.rows(), place)
    }

    /// How many calls wait for some time only.
    pub fn limited_count(&self) -> usize
        ensures { result ≡ length (filter waits_limited self.now.waiters) }
    {
        self.waits.limited_len()
    }

    /// The waiter at this place among those that wait for some time only, in order of arrival.
    pub fn limited_at(&self, place: usize) -> Option<&Waiter>
        ensures { option_copied result ≡ slice_get (filter waits_limited self.now.waiters) place }
    {
        self.waits.limited(place)
    }
}
