//! A disk in memory.
ghost use Rattle.std.specs.Prelude.{false, ◌≡◌, [], IfOk, reverse, length, None};
ghost use Rattle.cp_disk.specs.Record.{seen_by, leaves, left_by, now_counts, only_now};
ghost use Rattle.cp_disk.specs.Laws.{crash_leaves};
ghost use Rattle.cp_disk.specs.Images.{Only};
ghost use Rattle.cp_disk.specs.Medium.{history};

use crate::disk::{CrashDisk, Disk, Failed, Fault, NoMemory};
use crate::faults::Faults;
use crate::medium::Medium;
use std::alloc::{AllocError, Global};

/// A disk in memory, which remembers what was done to it. Its calls fail as it was told, and by a stop.
#[derive(Debug, Drop)]
pub struct MemoryDisk {
    medium: Medium,
    faults: Faults,
}

impl MemoryDisk {
    ghost use Rattle.cp_disk.specs.Memory.{NewDisk};

    /// A disk with these bytes, which count as synced. The calls with these numbers fail, counted from 1 over all calls
    /// that can fail.
    pub fn new(alloc: Global, bytes: &[u8], fails: &[u64]) -> Result<MemoryDisk, NoMemory>
        ensures { IfOk result (NewDisk bytes.now) }
    {
        let fails = match fails.to_vec(alloc) {
            Ok(fails) => fails,
            Err(AllocError) => return Err(NoMemory),
        };
        let medium = Medium::new(alloc, bytes)?;
        Ok(MemoryDisk {
            medium,
            faults: Faults::new(fails),
        })
    }
}

impl Disk for MemoryDisk {
    ghost Told = { Unit {0} };

    ghost seen = { λ disk. seen_by (history disk.medium) };

    ghost may_leave = { λ disk. leaves (history disk.medium) };

    ghost moment = { λ disk. length (history disk.medium) };

    ghost left_since = { λ disk. left_by (history disk.medium) };

    ghost faults = { λ disk. disk.faults.faults };

    ghost starved = { λ disk. disk.faults.starved };

    ghost orders = { λ disk. disk.faults.orders };

    ghost counts_now = { λ told disk since image le now. now_counts (history disk.medium) since image now };

    ghost only_now = { λ told disk image left. only_now (history disk.medium) image left };

    ghost reads = { λ told disk. crash_leaves None (history disk.medium) };

    fn len(&mut self) -> Result<u64, Failed> {
        match self.faults.admit() {
            Ok(()) => Ok(self.medium.bytes().len() as u64),
            Err(Failed) => Err(Failed),
        }
    }

    fn read(&mut self, at: u64, buf: &mut [u8]) -> Result<(), Fault> {
        if self.faults.admit().is_err() {
            return Err(Fault::Failed);
        }
        let at = at as usize;
        let end = at + buf.len();
        buf.copy_from_slice(&self.medium.bytes()[at..end]);
        Ok(())
    }

    fn write_at(&mut self, at: u64, bytes: &[u8]) -> Result<(), Fault> {
        if self.faults.admit_change().is_err() {
            return Err(Fault::Failed);
        }
        match self.medium.write(at, bytes) {
            Ok(()) => Ok(()),
            Err(NoMemory) => {
                self.faults.count_starved();
                Err(Fault::NoMemory)
            }
        }
    }

    fn cut(&mut self, length: u64) -> Result<(), Fault> {
        if self.faults.admit_change().is_err() {
            return Err(Fault::Failed);
        }
        match self.medium.cut(length) {
            Ok(()) => Ok(()),
            Err(NoMemory) => {
                self.faults.count_starved();
                Err(Fault::NoMemory)
            }
        }
    }

    fn sync(&mut self) -> Result<(), Failed> {
        match self.faults.admit_change() {
            Ok(()) => {}
            Err(Failed) => return Err(Failed),
        }
        if self.medium.is_pending() {
            self.medium.sync();
        }
        Ok(())
    }
}

impl CrashDisk for MemoryDisk {
    ghost is_struck = { λ disk. disk.faults.is_struck };

    ghost stop = { λ disk. disk.faults.stop };

    fn crash(&mut self, choice: u64) {
        self.faults.disarm();
        if self.medium.is_pending() {
            self.medium.crash(choice);
        }
    }

    fn stop_after(&mut self, calls: u64) {
        self.faults.arm(calls);
    }

    fn struck(&self) -> bool {
        self.faults.is_struck
    }
}
