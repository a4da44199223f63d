//! Steps with a disk.
ghost use Rattle.std.specs.Prelude.{◌≡◌, ◌≤◌, ◌<◌, ◌^◌};
ghost use Rattle.cp_store_cases.specs.Orders.{orders_of};

use crate::end::CaseEnd;
use crate::verb::Verb;
use crate::words::{
    bytes_at, number_at, numbers_from, tell, tell_bytes, tell_number, tell_whether,
};
use cp_base::NoMemory;
use cp_disk::{CrashDisk, Disk, Failed, Fault, MemoryDisk};
use std::alloc::Global;

/// The most orders that a case gives to its disk.
pub(crate) const MOST_ORDERS: u64 = 1 << 32;

/// A disk in memory, and how many orders it was given at most.
#[derive(Drop)]
pub struct CaseDisk {
    pub(crate) disk: MemoryDisk,
    pub(crate) orders: u64,
    ghost counted: { orders_of disk ≤ orders },
}

/// What a step with a disk found.
#[derive(Drop)]
enum Found {
    Done,
    Number(u64),
    Bytes(Vec<u8>),
    PastTheEnd,
}

fn tell_found(found: Result<Found, Fault>, out: &mut Vec<u8>) -> Result<(), NoMemory> {
    match found {
        Ok(Found::Done) => tell(b"ok", out),
        Ok(Found::Number(number)) => tell_number(number, out),
        Ok(Found::Bytes(bytes)) => tell_bytes(&bytes, out),
        Ok(Found::PastTheEnd) => tell(b"past the end", out),
        Err(Fault::Failed) => tell(b"disk fault", out),
        Err(Fault::NoMemory) => tell(b"no memory", out),
    }
}

fn len_of(disk: &mut MemoryDisk) -> Result<Found, Fault>
    ensures { orders_of disk.new ≡ orders_of disk.old }
{
    match disk.len() {
        Ok(len) => Ok(Found::Number(len)),
        Err(Failed) => Err(Fault::Failed),
    }
}

fn all_of(alloc: Global, disk: &mut MemoryDisk) -> Result<Found, Fault>
    ensures { orders_of disk.new ≡ orders_of disk.old }
{
    let Ok(len) = disk.len() else {
        return Err(Fault::Failed);
    };
    let Ok(mut bytes) = vec![in alloc; 0u8; len as usize] else {
        return Err(Fault::NoMemory);
    };
    match disk.read(0, &mut bytes) {
        Ok(()) => Ok(Found::Bytes(bytes)),
        Err(fault) => Err(fault),
    }
}

fn write(disk: &mut MemoryDisk, at: u64, bytes: &[u8]) -> Result<Found, Fault>
    ensures { orders_of disk.new ≡ orders_of disk.old }
{
    let Ok(len) = disk.len() else {
        return Err(Fault::Failed);
    };
    if len < at {
        return Ok(Found::PastTheEnd);
    }
    match disk.write_at(at, bytes) {
        Ok(()) => Ok(Found::Done),
        Err(fault) => Err(fault),
    }
}

fn cut(disk: &mut MemoryDisk, length: u64) -> Result<Found, Fault>
    ensures { orders_of disk.new ≡ orders_of disk.old }
{
    let Ok(len) = disk.len() else {
        return Err(Fault::Failed);
    };
    if len < length {
        return Ok(Found::PastTheEnd);
    }
    match disk.cut(length) {
        Ok(()) => Ok(Found::Done),
        Err(fault) => Err(fault),
    }
}

fn sync(disk: &mut MemoryDisk) -> Result<Found, Fault>
    ensures { orders_of disk.new ≡ orders_of disk.old }
{
    match disk.sync() {
        Ok(()) => Ok(Found::Done),
        Err(Failed) => Err(Fault::Failed),
    }
}

/// A new disk.
pub fn new_disk(alloc: Global, words: &[String]) -> Result<CaseDisk, CaseEnd> {
    let bytes = bytes_at(alloc, words, 2)?;
    let fails = numbers_from(alloc, words, 3)?;
    match MemoryDisk::new(alloc, &bytes, &fails) {
        Ok(disk) => Ok(CaseDisk { disk, orders: 0 }),
        Err(_) => Err(CaseEnd::NoMemory),
    }
}

/// Does a call of a disk.
fn called(
    alloc: Global,
    disk: &mut MemoryDisk,
    verb: Verb,
    words: &[String],
) -> Result<Result<Found, Fault>, CaseEnd>
    ensures { orders_of disk.new ≡ orders_of disk.old }
{
    match verb {
        Verb::Len => Ok(len_of(disk)),
        Verb::Bytes => Ok(all_of(alloc, disk)),
        Verb::Write => {
            let at = number_at(words, 2)?;
            let bytes = bytes_at(alloc, words, 3)?;
            Ok(write(disk, at, &bytes))
        }
        Verb::Cut => {
            let length = number_at(words, 2)?;
            Ok(cut(disk, length))
        }
        Verb::Sync => Ok(sync(disk)),
        _ => Err(CaseEnd::BadInput),
    }
}

impl CaseDisk {
    fn crash(&mut self, choice: u64) {
        if self.orders < MOST_ORDERS {
            self.disk.crash(choice);
            self.orders += 1;
        }
    }

    fn stop_after(&mut self, calls: u64) {
        if self.orders < MOST_ORDERS {
            self.disk.stop_after(calls);
            self.orders += 1;
        }
    }

    /// Does a step, and tells what came out.
    pub fn step(
        &mut self,
        alloc: Global,
        verb: Verb,
        words: &[String],
        out: &mut Vec<u8>,
    ) -> Result<(), CaseEnd> {
        match verb {
            Verb::Crash => {
                let choice = number_at(words, 2)?;
                self.crash(choice);
                Ok(tell(b"ok", out)?)
            }
            Verb::Stop => {
                let calls = number_at(words, 2)?;
                self.stop_after(calls);
                Ok(tell(b"ok", out)?)
            }
            Verb::Struck => Ok(tell_whether(self.disk.struck(), out)?),
            other => {
                let found = called(alloc, &mut self.disk, other, words)?;
                Ok(tell_found(found, out)?)
            }
        }
    }
}
