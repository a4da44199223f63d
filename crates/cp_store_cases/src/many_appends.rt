//! Many appends to a journal over a disk in memory, for bench/appends.
ghost use Rattle.std.specs.Prelude.{false, ◌≡◌};
ghost use Rattle.cp_journal.specs.Journals.{is_spent};

use cp_disk::{Disk, MemoryDisk};
use cp_journal::Journal;
use std::alloc::Global;

/// How many of so many appends of 100 bytes answered Ok, up to the first that did not.
fn appended<D: Disk>(alloc: Global, journal: &mut Journal<D>, count: u64) -> u64
    requires { is_spent journal.old ≡ false }
{
    let body = [7u8; 100];
    for done in 0..count {
        if journal.append(alloc, &body).is_err() {
            return done;
        }
    }
    count
}

/// Whether so many appends of 100 bytes to a new journal all answer Ok.
pub fn append_many(alloc: Global, count: u64) -> bool {
    let Ok(disk) = MemoryDisk::new(alloc, &[], &[]) else {
        return false;
    };
    let Ok((mut journal, _bodies)) = Journal::open(alloc, disk) else {
        return false;
    };
    appended(alloc, &mut journal, count) == count
}
