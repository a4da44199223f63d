//! One table of each kind.
use crate::rows::Rows;
use crate::{gone, locks, memories, rows, sessions};
use cp_base::NoMemory;
use cp_case_lines::{End, Tables, Words, show};
use cp_lock::Locks;
use cp_remembered::{Gone, Memory};
use cp_session::Sessions;
use std::alloc::Global;
use std::collections::BTreeMap;

/// One table of each kind.
#[derive(Drop)]
pub struct RowTables {
    rows: Rows,
    locks: Locks,
    sessions: Sessions,
    memory: Memory,
    gone: Gone,
}

impl RowTables {
    /// Tables without rows.
    pub fn new(alloc: Global) -> Result<RowTables, NoMemory> {
        Ok(RowTables {
            rows: BTreeMap::new(alloc),
            locks: Locks::new(alloc)?,
            sessions: Sessions::new(alloc)?,
            memory: Memory::new(alloc)?,
            gone: Gone::new(alloc)?,
        })
    }
}

/// Empties all tables.
fn renew(tables: &mut RowTables, alloc: Global, out: &mut Vec<u8>) -> Result<(), End> {
    *tables = RowTables::new(alloc)?;
    show(b"ok", out)
}

impl Tables for RowTables {
    fn answer(&mut self, words: &mut Words, out: &mut Vec<u8>) -> Result<(), End> {
        match words.word()? {
            "new" => renew(self, words.alloc(), out),
            "row" => rows::answer(&mut self.rows, words, out),
            "lock" => locks::answer(&mut self.locks, words, out),
            "session" => sessions::answer(&mut self.sessions, words, out),
            "memory" => memories::answer(&mut self.memory, words, out),
            "gone" => gone::answer(&mut self.gone, words, out),
            _ => Err(End::BadLine),
        }
    }
}
