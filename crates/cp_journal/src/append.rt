//! One append: the record behind the closed gate, and then the gate.
ghost use Rattle.std.specs.Prelude.{◌≡◌, ◌≤◌, ◌<◌, ◌+◌, ◌^◌, List, ℕ, length, take, IfOk, OnOk, IsErrOf};
ghost use Rattle.cp_disk.specs.declared.disk.Fault.TheVariants as fault;
ghost use Rattle.cp_base.specs.declared.limits.TheConstants.{BODY_LIMIT};
ghost use Rattle.cp_disk.specs.Images.{written};
ghost use Rattle.cp_journal.specs.Causes.{CountsRun};
ghost use Rattle.cp_journal.specs.Frames.{IsAtRest};
ghost use Rattle.cp_journal.specs.Moments.{LeavesOnly};
ghost use Rattle.cp_journal.specs.Records.{IsBody, IsBeforeOrAfter, and_record, record_bytes, records_of};

use crate::steps::write_synced;
use cp_base::NoMemory;
use cp_disk::{Disk, Fault};
use std::alloc::Global;

/// The most bytes of a body whose record is laid out without memory.
pub(crate) const SMALL: usize = 64;

fn put(bytes: &mut [u8], at: usize, piece: &[u8])
    requires { at + length piece.now ≤ length bytes.old }
    ensures { bytes.new ≡ written bytes.old at piece.now }
{
    let end = at + piece.len();
    bytes[at..end].copy_from_slice(piece);
}

/// A body's length, the body and a closed gate, with zeros behind them.
pub(crate) fn small_record(body: &[u8]) -> [u8; 69]
    requires { length body.now ≤ SMALL }
    ensures { take (length body.now + 5) result ≡ record_bytes body.now }
{
    let mut bytes = [0u8; 69];
    put(&mut bytes, 0, &(body.len() as u32).to_be_bytes());
    put(&mut bytes, 4, body);
    bytes
}

/// A body's length, the body and a closed gate.
pub(crate) fn long_record(alloc: Global, body: &[u8]) -> Result<Vec<u8>, NoMemory>
    requires { length body.now ≤ BODY_LIMIT }
    ensures { IfOk result (λ bytes. bytes.items ≡ record_bytes body.now) }
{
    let mut bytes = Vec::with_capacity(alloc, body.len() + 5)?;
    bytes.extend_from_slice(&(body.len() as u32).to_be_bytes())?;
    bytes.extend_from_slice(body)?;
    bytes.push(0)?;
    Ok(bytes)
}

/// Appends a record behind the closed gate, and opens the gate.
pub(crate) fn append_record<D: Disk>(disk: &mut D, gate: u64, bytes: &[u8]) -> Result<(), Fault>
    requires fits { gate + 1 < 2 ^ 64 }
    requires rest { D.Told → IsAtRest gate (D.seen disk.old) (D.may_leave disk.old) }
    ensures appended { (body : List ℕ) → IsBody body → bytes.now ≡ record_bytes body → D.Told → OnOk result (
        IsAtRest (gate + 5 + length body) (D.seen disk.new) (D.may_leave disk.new)
        × (records_of (D.seen disk.new) ≡ and_record (records_of (D.seen disk.old)) body)) }
    ensures refused { (body : List ℕ) → IsBody body → bytes.now ≡ record_bytes body → D.Told → IsErrOf result fault.NoMemory →
        IsAtRest gate (D.seen disk.new) (D.may_leave disk.new) × (records_of (D.seen disk.new) ≡ records_of (D.seen disk.old)) }
    ensures any_moment { (body : List ℕ) → IsBody body → bytes.now ≡ record_bytes body → D.Told →
        LeavesOnly D.moment D.left_since disk.old disk.new (IsBeforeOrAfter (records_of (D.seen disk.old)) body) }
    ensures cause { CountsRun D.Disk disk.old disk.new result }
{
    write_synced(disk, gate + 1, bytes)?;
    match write_synced(disk, gate, &[1]) {
        Ok(()) => Ok(()),
        Err(fault) => Err(fault),
    }
}
