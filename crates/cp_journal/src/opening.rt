//! Opening a file: reading its records, and cutting what stands behind them.
ghost use Rattle.std.specs.Prelude.{◌≡◌, ◌≤◌, ◌<◌, ◌+◌, List, ℕ, length, IfOk, IfErr, OnOk};
ghost use Rattle.cp_disk.specs.Tallies.{Tallies};
ghost use Rattle.cp_journal.specs.Causes.{CountsRun};
ghost use Rattle.cp_journal.specs.Frames.{IsAtRest, IsClosed};
ghost use Rattle.cp_journal.specs.Moments.{LeavesOnly};
ghost use Rattle.cp_journal.specs.Opened.{GivesRecords, OpeningCause};
ghost use Rattle.cp_journal.specs.Records.{records_of};
ghost use Rattle.cp_journal.specs.Runs.{IsSynced, KeepsRecords, Opens};

use crate::JournalError;
use crate::reading::read_records;
use crate::steps::{cut_synced, read_len, write_synced};
use cp_disk::{Disk, Failed, Fault};
use std::alloc::Global;

/// Makes a file of at most one byte the one closed gate.
fn start<D: Disk>(alloc: Global, disk: &mut D) -> Result<(Vec<Vec<u8>>, u64), JournalError>
    requires short { D.Told → length (D.seen disk.old) ≤ 1 }
    requires durable { IsSynced D.Disk disk.old }
    ensures opened { GivesRecords D.Disk disk.old disk.new result }
    ensures some { IfOk result (λ opened. 1 ≤ opened.1) }
    ensures any_moment { KeepsRecords D.Disk disk.old disk.new }
    ensures cause { IfErr result (OpeningCause D.Disk disk.old disk.new) }
    ensures tallies { Tallies D.Disk disk.old disk.new }
{
    match write_synced(disk, 0, &[0]) {
        Ok(()) => Ok((Vec::new(alloc), 1)),
        Err(Fault::Failed) => Err(JournalError::DiskFault),
        Err(Fault::NoMemory) => Err(JournalError::NoMemory),
    }
}

/// Cuts what stands behind the closed gate.
fn cut_end<D: Disk>(disk: &mut D, gate: u64, len: u64) -> Result<(), Fault>
    requires within { gate < len }
    requires told { D.Told → len ≡ length (D.seen disk.old) }
    requires durable { IsSynced D.Disk disk.old }
    ensures rest { (bodies : List (List ℕ)) → D.Told → IsClosed bodies gate (D.seen disk.old) → OnOk result (
        IsAtRest gate (D.seen disk.new) (D.may_leave disk.new) × (records_of (D.seen disk.new) ≡ records_of (D.seen disk.old))) }
    ensures any_moment { (bodies : List (List ℕ)) → D.Told → IsClosed bodies gate (D.seen disk.old) →
        LeavesOnly D.moment D.left_since disk.old disk.new (λ image. records_of image ≡ records_of (D.seen disk.old)) }
    ensures cause { CountsRun D.Disk disk.old disk.new result }
{
    if gate + 1 < len {
        match cut_synced(disk, gate + 1) {
            Ok(()) => Ok(()),
            Err(fault) => Err(fault),
        }
    } else {
        Ok(())
    }
}

/// Opens a file of at least two bytes.
#[tactic(auto, using(crate::proofs::Causes::still))]
fn open_long<D: Disk>(
    alloc: Global,
    disk: &mut D,
    len: u64,
) -> Result<(Vec<Vec<u8>>, u64), JournalError>
    requires long { 2 ≤ len }
    requires told { D.Told → len ≡ length (D.seen disk.old) }
    requires durable { IsSynced D.Disk disk.old }
    ensures opened { GivesRecords D.Disk disk.old disk.new result }
    ensures some { IfOk result (λ opened. 1 ≤ opened.1) }
    ensures any_moment { KeepsRecords D.Disk disk.old disk.new }
    ensures cause { IfErr result (OpeningCause D.Disk disk.old disk.new) }
    ensures tallies { Tallies D.Disk disk.old disk.new }
{
    let (bodies, gate) = match read_records(alloc, disk, len) {
        Ok(read) => read,
        Err(error) => return Err(error),
    };
    match cut_end(disk, gate, len) {
        Ok(()) => Ok((bodies, gate + 1)),
        Err(Fault::Failed) => Err(JournalError::DiskFault),
        Err(Fault::NoMemory) => Err(JournalError::NoMemory),
    }
}

/// Opens a file whose bytes are all on the disk.
#[tactic(auto, using(crate::proofs::Causes::carried))]
fn open_synced<D: Disk>(alloc: Global, disk: &mut D) -> Result<(Vec<Vec<u8>>, u64), JournalError>
    requires durable { IsSynced D.Disk disk.old }
    ensures opened { GivesRecords D.Disk disk.old disk.new result }
    ensures some { IfOk result (λ opened. 1 ≤ opened.1) }
    ensures any_moment { KeepsRecords D.Disk disk.old disk.new }
    ensures cause { IfErr result (OpeningCause D.Disk disk.old disk.new) }
    ensures tallies { Tallies D.Disk disk.old disk.new }
{
    match read_len(disk) {
        Ok(len) => {
            if len <= 1 {
                start(alloc, disk)
            } else {
                open_long(alloc, disk, len)
            }
        }
        Err(Failed) => Err(JournalError::DiskFault),
    }
}

/// Syncs, and opens the file.
#[tactic(auto, using(crate::proofs::Causes::carried))]
pub(crate) fn recover<D: Disk>(
    alloc: Global,
    disk: &mut D,
) -> Result<(Vec<Vec<u8>>, u64), JournalError>
    ensures opened { GivesRecords D.Disk disk.old disk.new result }
    ensures some { IfOk result (λ opened. 1 ≤ opened.1) }
    ensures any_moment { D.Told → Opens D.Disk disk.old disk.new }
    ensures cause { IfErr result (OpeningCause D.Disk disk.old disk.new) }
    ensures tallies { Tallies D.Disk disk.old disk.new }
{
    match disk.sync() {
        Ok(()) => open_synced(alloc, disk),
        Err(Failed) => Err(JournalError::DiskFault),
    }
}
