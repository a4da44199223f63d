//! The table of sessions of a group.
ghost use Rattle.std.specs.Prelude.{◌≡◌, [], ◌∷◌, not, is_some, Some, IfErr, IfOk, OnErr, OnOk};
ghost use Rattle.std.specs.List.{filter};
ghost use Rattle.std.specs.Option.{option_map};
ghost use Rattle.std.specs.Ordering.{nat_cmp};
ghost use Rattle.cp_group_state.specs.Rows.{find};
ghost use Rattle.cp_group_state.specs.Sessions.{is_among, is_open_for, unchanged_since};
ghost use Rattle.cp_group_state.specs.Invariants.{IsRising, OneSession};
ghost use Rattle.cp_session.specs.Creation.{IsSessionError, created};
ghost use Rattle.cp_session.specs.Beats.{version_after, with_beat};
ghost use Rattle.cp_session.specs.Tables.{MakesTable, IsTable};

use crate::beat::{beat_row, beaten_row};
use crate::close::{close_each, close_one};
use crate::error::SessionError;
use crate::expire::unchanged;
use crate::open::{Met, meet, open_at};
use crate::restore::maps_of;
use cp_base::limits::MOST_ROWS;
use cp_base::{ClientId, Items, NoMemory};
use cp_group_state::SessionRow;
use std::alloc::Global;
use std::collections::BTreeMap;
use std::marker::Model;

/// The open sessions of a group, which contracts see as the list of numbers and rows by rising number. A client has at
/// most one.
#[derive(Debug, Drop)]
pub struct Sessions {
    alloc: Global,
    rows: BTreeMap<u64, SessionRow>,
    numbers: BTreeMap<ClientId, u64>,
}

impl Model for Sessions {
    ghost use Rattle.std.specs.Prelude.{ℕ, List};
    ghost use Rattle.cp_group_state.specs.declared.rows.SessionRow.{SessionRow};
    ghost use Rattle.cp_session.specs.Index.{IsIndexed};

    ghost Value = { List (ℕ × SessionRow) };

    ghost view = { λ sessions. sessions.rows.entries };

    ghost invariant = { λ sessions. IsIndexed sessions.rows.entries sessions.numbers.entries };
}

impl Sessions {
    /// The table without rows.
    #[tactic(auto, using(crate::proofs::Indexed::none_indexed))]
    pub fn new(alloc: Global) -> Result<Sessions, NoMemory>
        ensures { IfOk result (λ sessions. sessions ≡ []) }
    {
        Ok(Sessions {
            alloc,
            rows: BTreeMap::new(alloc),
            numbers: BTreeMap::new(alloc),
        })
    }

    /// The table of these rows: none exactly where their numbers don't rise, or a client has two of them.
    pub fn from_rows(
        alloc: Global,
        rows: Items<(u64, SessionRow)>,
    ) -> Result<Option<Sessions>, NoMemory>
        ensures { IfOk result (MakesTable rows) }
    {
        match maps_of(alloc, rows)? {
            Some((rows, numbers)) => Ok(Some(Sessions {
                alloc,
                rows,
                numbers,
            })),
            None => Ok(None),
        }
    }

    /// The number of the client's open session; where it has none, one is opened, under the index as its number. A row
    /// of another client that has this number gives way to it.
    pub fn create(&mut self, index: u64, client: &ClientId) -> Result<u64, SessionError>
        ensures rows { OnOk result (self.new ≡ (created self.old index client.now).rows) }
        ensures number { IfOk result (λ number. (created self.old index client.now).number ≡ Some number) }
        ensures error { IfErr result (λ error. IsSessionError error (created self.old index client.now).number) }
        ensures same { OnErr result (self.new ≡ self.old) }
    {
        match meet(&self.rows, &self.numbers, index, client) {
            Met::Has(number) => Ok(number),
            Met::Full => Err(SessionError::TableFull(MOST_ROWS)),
            Met::Room => match open_at(&mut self.rows, &mut self.numbers, index, client) {
                Ok(()) => Ok(index),
                Err(NoMemory) => Err(SessionError::NoMemory),
            },
        }
    }

    /// The session gets a beat, and gives its version then: none exactly where it isn't open.
    pub fn heartbeat(&mut self, session: u64) -> Option<u64>
        ensures rows { self.new ≡ with_beat self.old session (find nat_cmp self.old session) }
        ensures version { result ≡ option_map version_after (find nat_cmp self.old session) }
    {
        let next = beaten_row(self.rows.get(&session)?);
        beat_row(&mut self.rows, session, next);
        Some(next.version)
    }

    /// The session is closed, and gives whether it was open.
    #[tactic(auto, using(crate::proofs::Closed::closed_one))]
    pub fn close(&mut self, session: u64) -> bool
        ensures was { result ≡ is_some (find nat_cmp self.old session) }
        ensures rows { self.new ≡ filter (λ e. not (is_among (session ∷ []) e.0)) self.old }
    {
        close_one(&mut self.rows, &mut self.numbers, session)
    }

    /// These sessions are closed, where they are open.
    #[tactic(auto, using(crate::proofs::Closed::closed_all))]
    pub fn close_all(&mut self, sessions: &[u64])
        ensures { self.new ≡ filter (λ e. not (is_among sessions.now e.0)) self.old }
    {
        close_each(&mut self.rows, &mut self.numbers, sessions);
    }

    /// The sessions that are named with the version that they have, in the order in which they are named.
    pub fn unchanged(&self, pairs: &[(u64, u64)]) -> Result<Vec<u64>, NoMemory>
        ensures { IfOk result (λ sessions. sessions.items ≡ unchanged_since self.now pairs.now) }
    {
        let sessions = unchanged(self.alloc, &self.rows, pairs)?;
        Ok(sessions)
    }

    /// The sessions that are named with the version that they have are closed, and answered in the order in which they
    /// are named.
    pub fn expire(&mut self, pairs: &[(u64, u64)]) -> Result<Vec<u64>, NoMemory>
        ensures closed { IfOk result (λ closed. closed.items ≡ unchanged_since self.old pairs.now) }
        ensures rows { OnOk result (self.new ≡ filter (λ e. not (is_among (unchanged_since self.old pairs.now) e.0)) self.old) }
        ensures same { OnErr result (self.new ≡ self.old) }
    {
        let closed = self.unchanged(pairs)?;
        self.close_all(&closed);
        Ok(closed)
    }

    /// Whether the session is open, and this client's.
    pub fn is_open(&self, session: u64, client: &ClientId) -> bool
        ensures { result ≡ is_open_for self.now session client.now }
    {
        match self.rows.get(&session) {
            Some(row) => row.client == *client,
            None => false,
        }
    }

    /// How many beats the session had: none exactly where it isn't open.
    pub fn version(&self, session: u64) -> Option<u64>
        ensures { result ≡ option_map (λ row. row.version) (find nat_cmp self.now session) }
    {
        match self.rows.get(&session) {
            Some(row) => Some(row.version),
            None => None,
        }
    }

    /// The rows by number, lent.
    #[tactic(auto, using(crate::proofs::Tabled::one_session))]
    pub fn rows(&self) -> &BTreeMap<u64, SessionRow>
        ensures rows { result.now.entries ≡ self.now }
        ensures rising { IsRising nat_cmp self.now }
        ensures one { OneSession self.now }
    {
        // What the map says of its order stands at `len`.
        let _len = self.rows.len();
        &self.rows
    }
}
