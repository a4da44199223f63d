//! Runs of a few calls of a disk, with what a crash leaves during them.
ghost use Rattle.std.specs.Prelude.{◌≡◌, ◌≤◌, ◌+◌, List, ℕ, length, take, drop, IfOk, OnOk, IsErrOf};
ghost use Rattle.cp_disk.specs.Images.{written, Only, Torn, Shortened};
ghost use Rattle.cp_disk.specs.declared.disk.Fault.TheVariants as fault;
ghost use Rattle.cp_disk.specs.Causes.{CountsFailures};
ghost use Rattle.cp_journal.specs.Causes.{CountsRun};
ghost use Rattle.cp_journal.specs.Moments.{LeavesOnly};
ghost use Rattle.cp_journal.specs.Runs.{IsStill, IsSynced};

use cp_disk::{Disk, Failed, Fault};

/// Reads at a place, from a disk whose bytes are all on it.
pub(crate) fn read_at<D: Disk>(disk: &mut D, at: u64, buf: &mut [u8]) -> Result<(), Fault>
    requires within { D.Told → at + length buf.old ≤ length (D.seen disk.old) }
    requires durable { IsSynced D.Disk disk.old }
    ensures bytes { D.Told → OnOk result (buf.new ≡ take (length buf.old) (drop at (D.seen disk.old))) }
    ensures stays { IsStill D.Disk disk.old disk.new }
    ensures cause { CountsRun D.Disk disk.old disk.new result }
{
    disk.read(at, buf)
}

/// Writes at a place of a disk whose bytes are all on it, and syncs.
pub(crate) fn write_synced<D: Disk>(disk: &mut D, at: u64, bytes: &[u8]) -> Result<(), Fault>
    requires within { D.Told → at ≤ length (D.seen disk.old) }
    requires durable { IsSynced D.Disk disk.old }
    ensures written { D.Told → OnOk result (D.seen disk.new ≡ written (D.seen disk.old) at bytes.now) }
    ensures durable { D.Told → OnOk result (Only (D.seen disk.new) (D.may_leave disk.new)) }
    ensures refused { D.Told → IsErrOf result fault.NoMemory → (D.seen disk.new ≡ D.seen disk.old) ×
        Only (D.seen disk.old) (D.may_leave disk.new) }
    ensures any_moment { D.Told → LeavesOnly D.moment D.left_since disk.old disk.new (Torn at (length bytes.now) (D.seen disk.old)) }
    ensures cause { CountsRun D.Disk disk.old disk.new result }
{
    disk.write_at(at, bytes)?;
    match disk.sync() {
        Ok(()) => Ok(()),
        Err(Failed) => Err(Fault::Failed),
    }
}

/// Cuts a disk whose bytes are all on it, and syncs.
pub(crate) fn cut_synced<D: Disk>(disk: &mut D, end: u64) -> Result<(), Fault>
    requires within { D.Told → end ≤ length (D.seen disk.old) }
    requires durable { IsSynced D.Disk disk.old }
    ensures cut { D.Told → OnOk result (D.seen disk.new ≡ take end (D.seen disk.old)) }
    ensures durable { D.Told → OnOk result (Only (D.seen disk.new) (D.may_leave disk.new)) }
    ensures any_moment { D.Told → LeavesOnly D.moment D.left_since disk.old disk.new (Shortened end (D.seen disk.old)) }
    ensures cause { CountsRun D.Disk disk.old disk.new result }
{
    disk.cut(end)?;
    match disk.sync() {
        Ok(()) => Ok(()),
        Err(Failed) => Err(Fault::Failed),
    }
}

/// The length of a disk whose bytes are all on it.
pub(crate) fn read_len<D: Disk>(disk: &mut D) -> Result<u64, Failed>
    requires durable { IsSynced D.Disk disk.old }
    ensures len { D.Told → IfOk result (λ len. len ≡ length (D.seen disk.old)) }
    ensures stays { IsStill D.Disk disk.old disk.new }
    ensures cause { CountsFailures (D.faults disk.old) (D.faults disk.new) (D.starved disk.old) (D.starved disk.new) result }
    ensures orders { D.orders disk.new ≡ D.orders disk.old }
{
    disk.len()
}
