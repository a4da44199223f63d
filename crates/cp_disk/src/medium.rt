//! The bytes of a disk in memory, and the record of what was done to it.
ghost use Rattle.std.specs.Prelude.{◌≡◌, ◌≤◌, ◌<◌, ◌+◌, ◌-◌, ◌++◌, ℕ, nat_lt, Option, None, Some, [], ◌∷◌, drop, length, reverse, vec_len, vec_capacity, IfOk, OnOk, OnErr};
ghost use Rattle.cp_disk.specs.Record.{after, bits_of, pending, replayed, seen_by};
ghost use Rattle.cp_disk.specs.Room.{reach};
ghost use Rattle.cp_disk.specs.declared.record.Call.TheVariants.{Write, Cut, Sync, Crash};

use crate::NoMemory;
use crate::patch::{change, put_piece};
use crate::record::{Call, Piece};
use std::alloc::{AllocError, Global};

/// What was done to a disk, what it holds, and what it held at the last sync or crash.
#[derive(Debug, Drop)]
pub struct Medium {
    alloc: Global,
    calls: Vec<Call>,
    settled: usize,
    synced: Vec<u8>,
    bytes: Vec<u8>,
    ghost within: { settled ≤ length calls.items },
    ghost counted: { pending (reverse calls.items) ≡ length (drop settled calls.items) },
    ghost reads: { bytes.items ≡ seen_by (reverse calls.items) },
    ghost replays: { (choice : Option ℕ) → after choice (reverse calls.items) ≡ replayed choice 0 (drop settled calls.items) synced.items },
    ghost roomy: { settled < length calls.items → length calls.items < vec_capacity calls },
    ghost long: { length synced.items ≤ reach calls.items },
    ghost synced_room: { reach calls.items ≤ vec_capacity synced },
    ghost bytes_room: { reach calls.items ≤ vec_capacity bytes },
}

/// The two bits for a change, which for a sync do it.
fn bits_for(choice: Option<u64>, number: usize) -> u64
    ensures { result ≡ bits_of choice number }
{
    match choice {
        Some(choice) => {
            if number < 32 {
                (choice >> (2 * number)) % 4
            } else {
                0
            }
        }
        None => 1,
    }
}

/// Does the changes in turn, as a sync does them, or a crash by its choice.
fn replay(bytes: &mut Vec<u8>, calls: &[Call], choice: Option<u64>)
    requires { reach calls.now ≤ vec_capacity bytes.old }
    ensures items { bytes.new.items ≡ replayed choice 0 calls.now bytes.old.items }
    ensures capacity { vec_capacity bytes.old ≤ vec_capacity bytes.new }
{
    let mut number = 0;
    let mut rest = calls;
    while let [call, after @ ..] = rest {
        change(bytes, call, bits_for(choice, number));
        number += 1;
        rest = after;
    }
}

/// Adds a call, and keeps room for one more; else it changes nothing.
fn remember(calls: &mut Vec<Call>, call: Call) -> Result<(), NoMemory>
    ensures ok { OnOk result (calls.new.items ≡ calls.old.items ++ call ∷ []) }
    ensures room { OnOk result (vec_len calls.new < vec_capacity calls.new) }
    ensures err { OnErr result (calls.new.items ≡ calls.old.items) }
    ensures capacity { vec_capacity calls.old ≤ vec_capacity calls.new }
{
    if calls.reserve(2).is_err() {
        return Err(NoMemory);
    }
    match calls.push(call) {
        Ok(()) => Ok(()),
        Err(_) => Err(NoMemory),
    }
}

/// Puts a call at the end, where there is room.
fn put_call(calls: &mut Vec<Call>, call: Call)
    requires { vec_len calls.old < vec_capacity calls.old }
    ensures { calls.new.items ≡ calls.old.items ++ call ∷ [] }
{
    match calls.push(call) {
        Ok(()) => {}
        Err(_full) => unreachable!(),
    }
}

/// Makes room for so many bytes in all.
fn make_room(bytes: &mut Vec<u8>, length: usize) -> Result<(), NoMemory>
    ensures items { bytes.new.items ≡ bytes.old.items }
    ensures room { OnOk result (length ≤ vec_capacity bytes.new) }
    ensures capacity { vec_capacity bytes.old ≤ vec_capacity bytes.new }
{
    if bytes.len() < length {
        let more = length - bytes.len();
        if bytes.reserve(more).is_err() {
            return Err(NoMemory);
        }
    }
    Ok(())
}

/// Makes bytes equal to others, for which they have room.
fn copy_over(bytes: &mut Vec<u8>, other: &[u8])
    requires { length other.now ≤ vec_capacity bytes.old }
    ensures items { bytes.new.items ≡ other.now }
    ensures capacity { vec_capacity bytes.old ≤ vec_capacity bytes.new }
{
    bytes.clear();
    match bytes.extend_from_slice(other) {
        Ok(()) => {}
        Err(_full) => unreachable!(),
    }
}

fn copy_of(alloc: Global, bytes: &[u8]) -> Result<Vec<u8>, NoMemory>
    ensures { IfOk result (λ copy. copy.items ≡ bytes.now) }
{
    match bytes.to_vec(alloc) {
        Ok(copy) => Ok(copy),
        Err(AllocError) => Err(NoMemory),
    }
}

/// Adds a write, and keeps room for one call more; else it changes nothing.
fn remember_write(
    alloc: Global,
    calls: &mut Vec<Call>,
    at: u64,
    bytes: &[u8],
) -> Result<(), NoMemory>
    ensures ok { OnOk result (calls.new.items ≡ calls.old.items ++ Write at bytes.now ∷ []) }
    ensures room { OnOk result (vec_len calls.new < vec_capacity calls.new) }
    ensures err { OnErr result (calls.new.items ≡ calls.old.items) }
    ensures capacity { vec_capacity calls.old ≤ vec_capacity calls.new }
{
    let piece = Piece::from_vec(copy_of(alloc, bytes)?);
    remember(calls, Call::Write(at, piece))
}

/// Does the changes from a place of the record on.
fn settle(bytes: &mut Vec<u8>, calls: &[Call], settled: usize, choice: Option<u64>)
    requires within { settled ≤ length calls.now }
    requires room { reach calls.now ≤ vec_capacity bytes.old }
    ensures items { bytes.new.items ≡ replayed choice 0 (drop settled calls.now) bytes.old.items }
    ensures capacity { vec_capacity bytes.old ≤ vec_capacity bytes.new }
{
    let (_, pending) = calls.split_at(settled);
    replay(bytes, pending, choice);
}

/// The record of a disk that begins with these bytes: they were written and synced.
fn first_calls(alloc: Global, bytes: &[u8]) -> Result<Vec<Call>, NoMemory>
    ensures { IfOk result (λ calls. calls.items ≡ Write 0 bytes.now ∷ Sync ∷ []) }
{
    let piece = Piece::from_vec(copy_of(alloc, bytes)?);
    let mut calls = Vec::new(alloc);
    remember(&mut calls, Call::Write(0, piece))?;
    remember(&mut calls, Call::Sync)?;
    Ok(calls)
}

impl Medium {
    ghost use Rattle.cp_disk.specs.Medium.{history};

    /// Bytes that count as synced.
    pub fn new(alloc: Global, bytes: &[u8]) -> Result<Medium, NoMemory>
        ensures { IfOk result (λ medium. history medium ≡ Sync ∷ Write 0 bytes.now ∷ []) }
    {
        let calls = first_calls(alloc, bytes)?;
        let synced = copy_of(alloc, bytes)?;
        let copy = copy_of(alloc, bytes)?;
        Ok(Medium {
            alloc,
            calls,
            settled: 2,
            synced,
            bytes: copy,
        })
    }

    /// What a read gives.
    pub fn bytes(&self) -> &[u8]
        ensures { result.now ≡ seen_by (history self.now) }
    {
        &self.bytes
    }

    /// Writes at a place, or leaves all as it was.
    pub fn write(&mut self, at: u64, bytes: &[u8]) -> Result<(), NoMemory>
        requires { at ≤ length (seen_by (history self.old)) }
        ensures ok { OnOk result (history self.new ≡ Write at bytes.now ∷ history self.old) }
        ensures err { OnErr result (history self.new ≡ history self.old) }
    {
        let end = at as usize + bytes.len();
        make_room(&mut self.synced, end)?;
        make_room(&mut self.bytes, end)?;
        remember_write(self.alloc, &mut self.calls, at, bytes)?;
        put_piece(&mut self.bytes, at as usize, bytes);
        Ok(())
    }

    /// Cuts to a length, or leaves all as it was.
    pub fn cut(&mut self, length: u64) -> Result<(), NoMemory>
        ensures ok { OnOk result (history self.new ≡ Cut length ∷ history self.old) }
        ensures err { OnErr result (history self.new ≡ history self.old) }
    {
        remember(&mut self.calls, Call::Cut(length))?;
        self.bytes.truncate(length as usize);
        Ok(())
    }

    /// Whether a change is pending.
    pub fn is_pending(&self) -> bool
        ensures { result ≡ nat_lt 0 (pending (history self.now)) }
    {
        self.settled < self.calls.len()
    }

    /// Does the pending changes.
    pub fn sync(&mut self)
        requires { 0 < pending (history self.old) }
        ensures { history self.new ≡ Sync ∷ history self.old }
    {
        settle(&mut self.synced, &self.calls, self.settled, None);
        put_call(&mut self.calls, Call::Sync);
        self.settled = self.calls.len();
    }

    /// Does the pending changes as the choice says.
    pub fn crash(&mut self, choice: u64)
        requires { 0 < pending (history self.old) }
        ensures { history self.new ≡ Crash choice ∷ history self.old }
    {
        settle(&mut self.synced, &self.calls, self.settled, Some(choice));
        copy_over(&mut self.bytes, &self.synced);
        put_call(&mut self.calls, Call::Crash(choice));
        self.settled = self.calls.len();
    }
}
