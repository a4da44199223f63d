//! One table of each kind.
use crate::{latches, semaphores, values, waits};
use cp_atomic::{Longs, Refs};
use cp_base::NoMemory;
use cp_case_lines::{End, Tables, Words, show};
use cp_latch::Latches;
use cp_map::Maps;
use cp_semaphore::Semaphores;
use cp_wait::Waits;
use std::alloc::Global;

/// One table of each kind.
#[derive(Drop)]
pub struct ObjectTables {
    waits: Waits,
    semaphores: Semaphores,
    latches: Latches,
    longs: Longs,
    refs: Refs,
    maps: Maps,
}

impl ObjectTables {
    /// Tables without rows.
    pub fn new(alloc: Global) -> Result<ObjectTables, NoMemory> {
        Ok(ObjectTables {
            waits: Waits::new(alloc)?,
            semaphores: Semaphores::new(alloc)?,
            latches: Latches::new(alloc)?,
            longs: Longs::new(alloc)?,
            refs: Refs::new(alloc)?,
            maps: Maps::new(alloc)?,
        })
    }
}

/// Empties all tables.
fn renew(tables: &mut ObjectTables, alloc: Global, out: &mut Vec<u8>) -> Result<(), End> {
    *tables = ObjectTables::new(alloc)?;
    show(b"ok", out)
}

impl Tables for ObjectTables {
    fn answer(&mut self, words: &mut Words, out: &mut Vec<u8>) -> Result<(), End> {
        match words.word()? {
            "new" => renew(self, words.alloc(), out),
            "wait" => waits::answer(&mut self.waits, words, out),
            "sem" => semaphores::answer(&mut self.semaphores, &mut self.waits, words, out),
            "latch" => latches::answer(&mut self.latches, words, out),
            "long" => values::answer_long(&mut self.longs, words, out),
            "ref" => values::answer_ref(&mut self.refs, words, out),
            "map" => values::answer_map(&mut self.maps, words, out),
            _ => Err(End::BadLine),
        }
    }
}
