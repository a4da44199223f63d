//! The table of the last calls of each thread of a session.
ghost use Rattle.std.specs.Prelude.{◌≡◌, ℕ, List, [], ◌==◌, not, IfOk, OnErr, OnOk};
ghost use Rattle.std.specs.List.{filter};
ghost use Rattle.std.specs.Option.{option_copied};
ghost use Rattle.cp_group_state.specs.Rows.{find, holder_cmp};
ghost use Rattle.cp_group_state.specs.Sessions.{is_among};
ghost use Rattle.cp_group_state.specs.Memory.{has_memory, note, remember};
ghost use Rattle.cp_group_state.specs.Invariants.{IsRising};
ghost use Rattle.cp_remembered.specs.Memories.{MakesMemory, ended_by, has_number};

use crate::forget::forget_each;
use cp_base::{Items, NoMemory, ThreadNo};
use cp_group_state::{MemoryRow, Waiter};
use cp_ops::{Answer, Kind};
use std::alloc::Global;
use std::collections::BTreeMap;
use std::marker::Model;

/// For each thread of a session the last call that it made there, with its answer, or none while the call waits.
/// Contracts see the rows under session and thread, by rising session, and of one session by rising thread.
#[derive(Debug, Drop)]
pub struct Memory {
    rows: BTreeMap<(u64, u8), MemoryRow>,
}

impl Model for Memory {
    ghost use Rattle.std.specs.Prelude.{ℕ, List};
    ghost use Rattle.cp_group_state.specs.declared.rows.MemoryRow.{MemoryRow};

    ghost Value = { List ((ℕ × ℕ) × MemoryRow) };

    ghost view = { λ memory. memory.rows.entries };
}

/// Whether the waiters on an object of this kind have a row.
fn has_row(kind: Kind) -> bool
    ensures { result ≡ has_memory kind }
{
    match kind {
        Kind::Lock | Kind::Sem => true,
        Kind::Long | Kind::Ref | Kind::Jsem | Kind::Latch | Kind::Map => false,
    }
}

/// Whether the last call of the thread has this number.
fn is_last(
    rows: &BTreeMap<(u64, u8), MemoryRow>,
    session: u64,
    thread: ThreadNo,
    number: u64,
) -> bool
    ensures { result ≡ has_number number (find holder_cmp rows.now.entries (session, thread.0)) }
{
    match rows.get(&(session, thread.0)) {
        Some(row) => row.number == number,
        None => false,
    }
}

impl Memory {
    /// The table without rows.
    pub fn new(alloc: Global) -> Result<Memory, NoMemory>
        ensures { IfOk result (λ memory. memory ≡ []) }
    {
        Ok(Memory {
            rows: BTreeMap::new(alloc),
        })
    }

    /// The table of these rows: none exactly where their keys don't rise.
    pub fn from_rows(
        alloc: Global,
        rows: Items<((u64, u8), MemoryRow)>,
    ) -> Result<Option<Memory>, NoMemory>
        ensures { IfOk result (MakesMemory rows) }
    {
        match cp_rows::rising_rows(alloc, rows)? {
            Some(rows) => Ok(Some(Memory { rows })),
            None => Ok(None),
        }
    }

    /// The last call of a thread in a session.
    pub fn find(&self, session: u64, thread: ThreadNo) -> Option<&MemoryRow>
        ensures { option_copied result ≡ find holder_cmp self.now (session, thread.0) }
    {
        self.rows.get(&(session, thread.0))
    }

    /// The call with this number is the thread's last in the session, and has this answer, or waits. Where memory runs
    /// out, the table stays.
    pub fn remember(
        &mut self,
        session: u64,
        thread: ThreadNo,
        number: u64,
        answer: Option<Answer>,
    ) -> Result<(), NoMemory>
        ensures ok { OnOk result (self.new ≡ remember self.old session thread number answer) }
        ensures err { OnErr result (self.new ≡ self.old) }
    {
        cp_rows::put_row(
            &mut self.rows,
            (session, thread.0),
            MemoryRow { number, answer },
        )
    }

    /// The wait ended with this answer: the row of its call, if that is there, has it.
    pub fn note(&mut self, waiter: &Waiter, answer: Answer)
        ensures { self.new ≡ note self.old (ended_by waiter.now answer) }
    {
        let session = waiter.session;
        let thread = waiter.call.thread;
        let number = waiter.call.number;
        if has_row(waiter.kind) && is_last(&self.rows, session, thread, number) {
            let row = MemoryRow {
                number,
                answer: Some(answer),
            };
            cp_rows::write_row(&mut self.rows, &(session, thread.0), row);
        }
    }

    /// These sessions are closed: what was remembered of their threads goes.
    #[tactic(auto, using(crate::proofs::Forgotten::forgotten_all))]
    pub fn forget(&mut self, sessions: &[u64])
        ensures { self.new ≡ filter (λ e. not (is_among sessions.now e.0.0)) self.old }
    {
        forget_each(&mut self.rows, sessions);
    }

    /// The rows under session and thread, lent.
    pub fn rows(&self) -> &BTreeMap<(u64, u8), MemoryRow>
        ensures rows { result.now.entries ≡ self.now }
        ensures rising { IsRising holder_cmp self.now }
    {
        // What the map says of its order stands at `len`.
        let _len = self.rows.len();
        &self.rows
    }
}
