//! The journal.
//!
//! A file is a gate of one byte, and behind each open gate a record and a gate: the body's length in four bytes, big-endian, the body,
//! and the next gate. A gate is closed where it is 0. The records before the first closed gate count; what stands behind it doesn't.
//! An append writes the record with a closed gate of its own behind the closed gate, and syncs; then it opens that gate, and syncs.
//! Two syncs: with one, a crash could leave the gate open and the record torn. So a crash leaves the gate closed, and the records from
//! before, or open, and one more. Opening syncs first, reads the records, cuts what stands behind the closed gate, and syncs.
ghost use Rattle.std.specs.Prelude.{true, false, Some, ◌≡◌, ◌≢◌, ◌≤◌, ◌<◌, ◌+◌, ◌-◌, ◌^◌, ◌↔◌, List, ℕ, length, IfOk, IfErr, MatchResult, OnOk, IsErrOf};
ghost use Rattle.cp_base.specs.Faults.{Rose};
ghost use Rattle.cp_base.specs.declared.limits.TheConstants.{LAST_NUMBER};
ghost use Rattle.cp_disk.specs.Images.{Elapses, NoMore, Only};
ghost use Rattle.cp_disk.specs.Tallies.{Tallies};
ghost use Rattle.cp_journal.specs.Errors.{CountsDisk, OpenCause};
ghost use Rattle.cp_journal.specs.declared.error.JournalError.TheVariants as error;
ghost use Rattle.cp_journal.specs.Frames.{IsAtRest};
ghost use Rattle.cp_journal.specs.Found.{lists};
ghost use Rattle.cp_journal.specs.Opening.{IsOpened};
ghost use Rattle.cp_journal.specs.Records.{IsBody, and_record, record_bytes, records_of};
ghost use Rattle.cp_journal.specs.Runs.{Appends, IsOwn, Opens};

use crate::JournalError;
use crate::append::{SMALL, append_record, long_record, small_record};
use crate::opening::recover;
use cp_base::NoMemory;
use cp_base::limits::FILE_LIMIT;
use cp_disk::{CrashDisk, Disk, Fault};
use std::alloc::Global;

/// A journal over a disk: a file of records, each whole on the disk before the call that appends it answers Ok.
#[derive(Drop)]
pub struct Journal<D: Disk> {
    disk: D,
    end: u64,
    spent: bool,
    ghost some: { 1 ≤ end },
    ghost at_rest: { spent ≡ false → D.Told → IsAtRest (end - 1) (D.seen disk) (D.may_leave disk) },
}

impl<D: Disk> Journal<D> {
    ghost use Rattle.cp_journal.specs.Journals.{disk_of, is_spent, end_of};

    /// Opens a file, or gives the disk back. It gives the bodies of the records before the first closed gate, and cuts
    /// what stands behind that gate.
    pub fn open(alloc: Global, disk: D) -> Result<(Journal<D>, Vec<Vec<u8>>), (D, JournalError)>
        ensures opened { IfOk result (λ opened. is_spent opened.0 ≡ false) }
        ensures records { D.Told → IfOk result (λ opened. IsOpened (lists opened.1.items) (end_of opened.0) (D.seen disk)
            (D.seen (disk_of opened.0)) (D.may_leave (disk_of opened.0))) }

        // A crash at any moment of the call leaves what it could leave before, or the same records.
        ensures any_moment { D.Told → MatchResult result (λ opened. Opens D.Disk disk (disk_of opened.0))
            (λ refused. Opens D.Disk disk refused.0) }
        ensures cause { IfErr result (λ refused. OpenCause (D.faults disk) (D.faults refused.0) D.Told (records_of (D.seen disk))
            refused.1) }

        // A disk that was empty, and that journals alone wrote, has no bad frame.
        ensures own { D.Told → IsOwn D.Disk disk → IfErr result (λ refused. (place : ℕ) → refused.1 ≢ error.BadFrame place) }
        ensures counts { MatchResult result
            (λ opened. Tallies D.Disk disk (disk_of opened.0))
            (λ refused. Tallies D.Disk disk refused.0) }
    {
        let mut disk = disk;
        match recover(alloc, &mut disk) {
            Ok((bodies, end)) => {
                let journal = Journal {
                    disk,
                    end,
                    spent: false,
                };
                Ok((journal, bodies))
            }
            Err(error) => Err((disk, error)),
        }
    }

    /// Appends a record and counts its bytes.
    fn put(&mut self, bytes: &[u8]) -> Result<(), JournalError>
        requires whole { self.old.spent ≡ false }
        requires room { self.old.end + length bytes.now ≤ FILE_LIMIT }
        requires body { (body : List ℕ) × IsBody body × (bytes.now ≡ record_bytes body) }
        ensures appended { (body : List ℕ) → IsBody body → bytes.now ≡ record_bytes body → D.Told →
            OnOk result (records_of (D.seen self.new.disk) ≡ and_record (records_of (D.seen self.old.disk)) body) }
        ensures refused { D.Told → IsErrOf result error.NoMemory → records_of (D.seen self.new.disk) ≡ records_of (D.seen self.old.disk) }
        ensures any_moment { (body : List ℕ) → IsBody body → bytes.now ≡ record_bytes body → D.Told →
            Appends D.Disk body self.old.disk self.new.disk }
        ensures ok { OnOk result ((self.new.spent ≡ false) × (self.new.end ≡ self.old.end + length bytes.now)) }
        ensures starved { IsErrOf result error.NoMemory → (self.new.spent ≡ false) ×
            ((self.new.end ≡ self.old.end) × Rose (D.starved self.old.disk) (D.starved self.new.disk)) }
        ensures fault { IsErrOf result error.DiskFault → self.new.spent ≡ true }
        ensures not_full { IsErrOf result error.Full → ⊥ }
        ensures not_bad { (place : ℕ) → IsErrOf result (error.BadFrame place) → ⊥ }
        ensures cause { CountsDisk D.Disk self.old.disk self.new.disk result }
    {
        self.spent = true;
        match append_record(&mut self.disk, self.end - 1, bytes) {
            Ok(()) => {
                self.end += bytes.len() as u64;
                self.spent = false;
                Ok(())
            }
            Err(Fault::Failed) => Err(JournalError::DiskFault),
            Err(Fault::NoMemory) => {
                self.spent = false;
                Err(JournalError::NoMemory)
            }
        }
    }

    /// Appends a record of 1 to 2^26 bytes. Once it answered Ok, every crash leaves the record. After a disk fault the
    /// journal is spent; after want of memory the records are as they were.
    pub fn append(&mut self, alloc: Global, body: &[u8]) -> Result<(), JournalError>
        requires body { IsBody body.now }
        requires whole { is_spent self.old ≡ false }
        ensures appended { D.Told → OnOk result (records_of (D.seen (disk_of self.new)) ≡ and_record
            (records_of (D.seen (disk_of self.old))) body.now) }
        ensures durable { D.Told → is_spent self.new ≡ false → Only (D.seen (disk_of self.new)) (D.may_leave (disk_of self.new)) }

        // A crash at any moment of the call leaves the records from before it, with the new one or without.
        ensures any_moment { D.Told → Appends D.Disk body.now (disk_of self.old) (disk_of self.new) }

        ensures ok { OnOk result ((is_spent self.new ≡ false) × (end_of self.new ≡ end_of self.old + (length body.now + 5))) }
        ensures starved { IsErrOf result error.NoMemory → (is_spent self.new ≡ false) × (end_of self.new ≡ end_of self.old) }
        ensures fault { IsErrOf result error.DiskFault → is_spent self.new ≡ true }
        ensures kept { D.Told → IsErrOf result error.NoMemory →
            records_of (D.seen (disk_of self.new)) ≡ records_of (D.seen (disk_of self.old)) }

        // A small record takes memory of the disk alone.
        ensures frugal { length body.now ≤ SMALL → IsErrOf result error.NoMemory →
            Rose (D.starved (disk_of self.old)) (D.starved (disk_of self.new)) }
        ensures full { IsErrOf result error.Full ↔ (FILE_LIMIT < end_of self.old + (length body.now + 5)) }
        ensures full_kept { IsErrOf result error.Full → (disk_of self.new ≡ disk_of self.old) ×
            ((is_spent self.new ≡ false) × (end_of self.new ≡ end_of self.old)) }
        ensures not_bad { (place : ℕ) → IsErrOf result (error.BadFrame place) → ⊥ }
        ensures cause { CountsDisk D.Disk (disk_of self.old) (disk_of self.new) result }
    {
        let size = body.len() as u64 + 5;
        if self.end > FILE_LIMIT - size {
            return Err(JournalError::Full);
        }
        if body.len() <= SMALL {
            let bytes = small_record(body);
            self.put(&bytes[..body.len() + 5])
        } else {
            match long_record(alloc, body) {
                Ok(bytes) => self.put(&bytes),
                Err(NoMemory) => Err(JournalError::NoMemory),
            }
        }
    }

    /// The file's bytes up to and with the last gate.
    pub fn journal_bytes(&self) -> u64
        ensures { result ≡ end_of self.now }
    {
        self.end
    }

    /// Ends the journal and gives its disk.
    pub fn close(self) -> D
        ensures { result ≡ disk_of self }
    {
        let Journal {
            disk,
            end: _,
            spent: _,
        } = self;
        disk
    }
}

impl<D: CrashDisk> Journal<D> {
    ghost use Rattle.cp_journal.specs.Journals.{disk_of, is_spent, end_of};

    /// Hands the number to the disk.
    pub fn stop_after(&mut self, calls: u64)
        requires { D.Disk.orders (disk_of self.old) < LAST_NUMBER }
        ensures seen { D.Disk.Told → D.Disk.seen (disk_of self.new) ≡ D.Disk.seen (disk_of self.old) }
        ensures crash { D.Disk.Told → NoMore (D.Disk.may_leave (disk_of self.old)) (D.Disk.may_leave (disk_of self.new))
            × NoMore (D.Disk.may_leave (disk_of self.new)) (D.Disk.may_leave (disk_of self.old)) }
        ensures time { D.Disk.Told → Elapses (D.Disk.moment (disk_of self.old)) (D.Disk.moment (disk_of self.new))
            (D.Disk.left_since (disk_of self.old)) (D.Disk.left_since (disk_of self.new))
            (D.Disk.may_leave (disk_of self.new)) }
        ensures orders { D.Disk.orders (disk_of self.new) ≡ D.Disk.orders (disk_of self.old) + 1 }
        ensures counts { (D.Disk.faults (disk_of self.new) ≡ D.Disk.faults (disk_of self.old)) ×
            (D.Disk.starved (disk_of self.new) ≡ D.Disk.starved (disk_of self.old)) }
        ensures armed { D.is_struck (disk_of self.new) ≡ false }
        ensures stop { D.stop (disk_of self.new) ≡ Some calls }
        ensures others { (is_spent self.new ≡ is_spent self.old) × (end_of self.new ≡ end_of self.old) }
    {
        self.disk.stop_after(calls);
    }
}
