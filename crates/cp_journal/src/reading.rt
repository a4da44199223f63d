//! Reading the records of a file.
ghost use Rattle.std.specs.Prelude.{true, false, nat_lt, ◌==◌, ◌&&◌, ◌^◌, IfSome, ◌≡◌, ◌≤◌, ◌<◌, ◌+◌, List, ℕ, length, take, drop, slice_index, ◌++◌, [], ◌∷◌, IfOk, IfErr, OnOk, Ok, Err, Option, Some, None, if◌then◌else◌};
ghost use Rattle.std.specs.Int.{w32, from_be_bytes};
ghost use Rattle.cp_disk.specs.Tallies.{Tallies};
ghost use Rattle.cp_journal.specs.Causes.{CountsRun};
ghost use Rattle.cp_journal.specs.Errors.{ReadCause};
ghost use Rattle.cp_journal.specs.Found.{FitsIn, IsFound, lists};
ghost use Rattle.cp_journal.specs.Frames.{IsClosed};
ghost use Rattle.cp_journal.specs.Opened.{OpeningCause};
ghost use Rattle.cp_journal.specs.Records.{is_whole, size_at};
ghost use Rattle.cp_journal.specs.Runs.{IsStill, IsSynced};

use crate::JournalError;
use crate::steps::read_at;
use cp_base::limits::BODY_LIMIT;
use cp_disk::{Disk, Fault};
use std::alloc::Global;

/// What stands at a gate: nothing where it is closed, no whole record and gate, or a body.
#[derive(Debug, Drop)]
pub(crate) enum Found {
    Closed,
    Bad,
    Body(Vec<u8>),
}

/// Whether a gate is closed.
fn is_closed<D: Disk>(disk: &mut D, gate: u64) -> Result<bool, Fault>
    requires within { D.Told → gate < length (D.seen disk.old) }
    requires durable { IsSynced D.Disk disk.old }
    ensures closed { D.Told → IfOk result (λ closed. closed ≡ (slice_index (D.seen disk.old) gate == 0)) }
    ensures stays { IsStill D.Disk disk.old disk.new }
    ensures cause { CountsRun D.Disk disk.old disk.new result }
{
    let mut bytes = [0u8; 1];
    read_at(disk, gate, &mut bytes)?;
    Ok(bytes[0] == 0)
}

/// The length that stands behind a gate.
fn read_size<D: Disk>(disk: &mut D, gate: u64) -> Result<u64, Fault>
    requires within { D.Told → gate + 5 ≤ length (D.seen disk.old) }
    requires durable { IsSynced D.Disk disk.old }
    requires fits { gate + 5 < 2 ^ 64 }
    ensures size { D.Told → IfOk result (λ size. size ≡ size_at gate (D.seen disk.old)) }
    ensures small { IfOk result (λ size. size < 2 ^ 32) }
    ensures stays { IsStill D.Disk disk.old disk.new }
    ensures cause { CountsRun D.Disk disk.old disk.new result }
{
    let mut bytes = [0u8; 4];
    read_at(disk, gate + 1, &mut bytes)?;
    Ok(u64::from(u32::from_be_bytes(bytes)))
}

/// Whether a record of this length and a gate stand behind a gate.
fn is_framed(gate: u64, size: u64, len: u64) -> bool
    requires { (gate + 5 < len) × (size < 2 ^ 32) }
    ensures { result ≡ (nat_lt 0 size && nat_lt size (BODY_LIMIT + 1) && nat_lt (gate + 5 + size) len) }
{
    0 < size && size <= BODY_LIMIT && size < len - gate - 5
}

/// The length of the whole record behind an open gate, where one stands there with a gate.
fn whole_size<D: Disk>(disk: &mut D, gate: u64, len: u64) -> Result<Option<u64>, Fault>
    requires within { gate < len }
    requires told { D.Told → len ≡ length (D.seen disk.old) }
    requires durable { IsSynced D.Disk disk.old }
    ensures size { D.Told → IfOk result (λ size. size ≡ (if is_whole gate (D.seen disk.old) then Some
        (size_at gate (D.seen disk.old)) else None)) }
    ensures fits { IfOk result (λ size. IfSome size (λ n. gate + 5 + n < len)) }
    ensures stays { IsStill D.Disk disk.old disk.new }
    ensures cause { CountsRun D.Disk disk.old disk.new result }
{
    if len - gate <= 5 {
        return Ok(None);
    }
    let size = read_size(disk, gate)?;
    if is_framed(gate, size, len) {
        Ok(Some(size))
    } else {
        Ok(None)
    }
}

/// So many bytes from a place on.
fn read_body<D: Disk>(
    alloc: Global,
    disk: &mut D,
    at: u64,
    size: usize,
) -> Result<Vec<u8>, JournalError>
    requires within { D.Told → at + size ≤ length (D.seen disk.old) }
    requires durable { IsSynced D.Disk disk.old }
    ensures body { D.Told → IfOk result (λ body. body.items ≡ take size (drop at (D.seen disk.old))) }
    ensures len { IfOk result (λ body. length body.items ≡ size) }
    ensures stays { IsStill D.Disk disk.old disk.new }
    ensures cause { IfErr result (ReadCause (D.faults disk.old) (D.faults disk.new)) }
    ensures tallies { Tallies D.Disk disk.old disk.new }
{
    let mut bytes = match vec![in alloc; 0u8; size] {
        Ok(bytes) => bytes,
        Err(_) => return Err(JournalError::NoMemory),
    };
    match read_at(disk, at, &mut bytes) {
        Ok(()) => Ok(bytes),
        Err(Fault::Failed) => Err(JournalError::DiskFault),
        Err(Fault::NoMemory) => Err(JournalError::NoMemory),
    }
}

/// What stands at an open gate.
fn read_open<D: Disk>(
    alloc: Global,
    disk: &mut D,
    gate: u64,
    len: u64,
) -> Result<Found, JournalError>
    requires within { gate < len }
    requires told { D.Told → len ≡ length (D.seen disk.old) }
    requires durable { IsSynced D.Disk disk.old }
    requires open { D.Told → 0 < slice_index (D.seen disk.old) gate }
    ensures found { D.Told → IfOk result (IsFound gate (D.seen disk.old)) }
    ensures fits { IfOk result (FitsIn gate len) }
    ensures stays { IsStill D.Disk disk.old disk.new }
    ensures cause { IfErr result (ReadCause (D.faults disk.old) (D.faults disk.new)) }
    ensures tallies { Tallies D.Disk disk.old disk.new }
{
    match whole_size(disk, gate, len) {
        Ok(Some(size)) => match read_body(alloc, disk, gate + 5, size as usize) {
            Ok(body) => Ok(Found::Body(body)),
            Err(error) => Err(error),
        },
        Ok(None) => Ok(Found::Bad),
        Err(Fault::Failed) => Err(JournalError::DiskFault),
        Err(Fault::NoMemory) => Err(JournalError::NoMemory),
    }
}

/// What stands at a gate.
fn read_frame<D: Disk>(
    alloc: Global,
    disk: &mut D,
    gate: u64,
    len: u64,
) -> Result<Found, JournalError>
    requires within { gate < len }
    requires told { D.Told → len ≡ length (D.seen disk.old) }
    requires durable { IsSynced D.Disk disk.old }
    ensures found { D.Told → IfOk result (IsFound gate (D.seen disk.old)) }
    ensures fits { IfOk result (FitsIn gate len) }
    ensures stays { IsStill D.Disk disk.old disk.new }
    ensures cause { IfErr result (ReadCause (D.faults disk.old) (D.faults disk.new)) }
    ensures tallies { Tallies D.Disk disk.old disk.new }
{
    match is_closed(disk, gate) {
        Ok(true) => Ok(Found::Closed),
        Ok(false) => read_open(alloc, disk, gate, len),
        Err(Fault::Failed) => Err(JournalError::DiskFault),
        Err(Fault::NoMemory) => Err(JournalError::NoMemory),
    }
}

/// Puts a body behind others.
fn push_body(bodies: &mut Vec<Vec<u8>>, body: Vec<u8>) -> Result<(), JournalError>
    ensures ok { OnOk result (bodies.new.items ≡ bodies.old.items ++ body ∷ []) }
    ensures err { IfErr result (ReadCause 0 0) }
{
    match bodies.push(body) {
        Ok(()) => Ok(()),
        Err(_) => Err(JournalError::NoMemory),
    }
}

/// The bodies before the first closed gate, and the place of that gate.
#[tactic(auto, using(crate::proofs::Causes::opened))]
pub(crate) fn read_records<D: Disk>(
    alloc: Global,
    disk: &mut D,
    len: u64,
) -> Result<(Vec<Vec<u8>>, u64), JournalError>
    requires long { 2 ≤ len }
    requires told { D.Told → len ≡ length (D.seen disk.old) }
    requires durable { IsSynced D.Disk disk.old }
    ensures records { D.Told → IfOk result (λ read. IsClosed (lists read.0.items) read.1 (D.seen disk.old)) }
    ensures within { IfOk result (λ read. read.1 < len) }
    ensures stays { IsStill D.Disk disk.old disk.new }
    ensures cause { IfErr result (OpeningCause D.Disk disk.old disk.new) }
    ensures tallies { Tallies D.Disk disk.old disk.new }
{
    let mut bodies = Vec::new(alloc);
    let mut gate = 0;
    loop {
        match read_frame(alloc, disk, gate, len) {
            Ok(Found::Closed) => return Ok((bodies, gate)),
            Ok(Found::Bad) => return Err(JournalError::BadFrame(gate)),
            Ok(Found::Body(body)) => {
                gate += 5 + body.len() as u64;
                match push_body(&mut bodies, body) {
                    Ok(()) => {}
                    Err(error) => return Err(error),
                }
            }
            Err(error) => return Err(error),
        }
    }
}
