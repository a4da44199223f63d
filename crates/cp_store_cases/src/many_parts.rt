//! Many appends of one entry each to a store over a disk in memory, for bench/parts.
ghost use Rattle.std.specs.Prelude.{false, ◌≡◌, ◌≤◌, OnOk, length};
ghost use Rattle.cp_log.specs.Stores.{is_spent};

use cp_disk::{Disk, MemoryDisk};
use cp_grammar::read;
use cp_log::{Store, StoreError};
use cp_parts::Part;
use std::alloc::Global;

/// Writes the part that the bytes spell.
fn write<D: Disk>(alloc: Global, store: &mut Store<D>, body: &[u8]) -> Result<(), StoreError>
    requires whole { is_spent store.old ≡ false }
    requires short { length body.now ≤ 1000 }
    ensures { OnOk result (is_spent store.new ≡ false) }
{
    let Ok(part) = read::<Part>(alloc, body) else {
        return Err(StoreError::NoMemory);
    };
    match store.is_legal(alloc, &part) {
        Ok(true) => {}
        _ => return Err(StoreError::NoMemory),
    }
    store.write_step(alloc, &part)
}

/// How many of so many appends of an entry of 100 bytes answered Ok, up to the first that did not.
fn written<D: Disk>(alloc: Global, store: &mut Store<D>, count: u64) -> u64
    requires { is_spent store.old ≡ false }
{
    // An append of one entry, at an index that is filled in: its term, and a value of 100 bytes.
    let mut body = [0u8; 142];
    body[0] = 3;
    body[8] = 1;
    body[16] = 1;
    body[29] = 1;
    body[37] = 1;
    body[41] = 100;
    for done in 0..count {
        body[18..26].copy_from_slice(&done.to_be_bytes());
        if write(alloc, store, &body).is_err() {
            return done;
        }
    }
    count
}

/// Whether so many appends of one entry to a new store all answer Ok, and, where `opens`, its journal is opened again.
pub fn write_many(alloc: Global, count: u64, opens: bool) -> bool {
    let Ok(disk) = MemoryDisk::new(alloc, &[], &[]) else {
        return false;
    };
    let Ok(mut store) = Store::open(alloc, disk, false, 3) else {
        return false;
    };
    written(alloc, &mut store, count) == count
        && (!opens || Store::open(alloc, store.close(), false, 3).is_ok())
}
