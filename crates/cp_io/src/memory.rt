//! A source and a sink over memory, of which given calls fail.
ghost use Rattle.std.specs.Prelude.{◌≡◌, ◌<◌, ◌≤◌, Some, [], drop, IfOk, vec_len};

use crate::traits::{Failed, Fault, NoMemory, Sink, Source};
use std::alloc::Global;

/// A source over bytes in memory.
#[derive(Debug, Drop)]
pub struct MemorySource {
    bytes: Vec<u8>,
    at: usize,
    fails: Vec<u64>,
    calls: u64,
    failures: u64,
    ghost within: { at ≤ vec_len bytes },
}

impl MemorySource {
    /// A source of these bytes. The calls that `fails` names, counted from 1, do nothing but fail.
    pub fn new(alloc: Global, bytes: &[u8], fails: &[u64]) -> Result<MemorySource, NoMemory>
        ensures left { IfOk result (λ source. drop source.at source.bytes.items ≡ bytes.now) }
        ensures faults { IfOk result (λ source. source.failures ≡ 0) }
    {
        Ok(MemorySource {
            bytes: Vec::from_slice(alloc, bytes).map_err(|_| NoMemory)?,
            at: 0,
            fails: Vec::from_slice(alloc, fails).map_err(|_| NoMemory)?,
            calls: 0,
            failures: 0,
        })
    }
}

impl Source for MemorySource {
    ghost left = { λ s. Some (drop s.at s.bytes.items) };

    ghost faults = { λ s. s.failures };

    fn read(&mut self, buf: &mut [u8]) -> Result<usize, Failed> {
        self.calls = self.calls.saturating_add(1);
        if self.fails.contains(&self.calls) {
            self.failures = self.failures.saturating_add(1);
            return Err(Failed);
        }
        let count = buf.len().min(self.bytes.len() - self.at);
        buf[..count].copy_from_slice(&self.bytes[self.at..self.at + count]);
        self.at += count;
        Ok(count)
    }
}

/// A sink into memory, which takes at most so many bytes at a time.
#[derive(Debug, Drop)]
pub struct MemorySink {
    bytes: Vec<u8>,
    most: usize,
    fails: Vec<u64>,
    calls: u64,
    failures: u64,
    ghost some: { 0 < most },
}

impl MemorySink {
    /// A sink that takes at most `most` bytes at a time. The calls that `fails` names, counted from 1, do nothing but
    /// fail.
    pub fn new(alloc: Global, most: usize, fails: &[u64]) -> Result<MemorySink, NoMemory>
        requires { 0 < most }
        ensures written { IfOk result (λ sink. sink.bytes.items ≡ []) }
        ensures faults { IfOk result (λ sink. sink.failures ≡ 0) }
    {
        Ok(MemorySink {
            bytes: Vec::new(alloc),
            most,
            fails: Vec::from_slice(alloc, fails).map_err(|_| NoMemory)?,
            calls: 0,
            failures: 0,
        })
    }

    /// The bytes that it took.
    pub fn bytes(&self) -> &[u8]
        ensures { result.now ≡ self.now.bytes.items }
    {
        &self.bytes
    }
}

impl Sink for MemorySink {
    ghost written = { λ k. Some k.bytes.items };

    ghost faults = { λ k. k.failures };

    fn write(&mut self, piece: &[u8]) -> Result<usize, Fault> {
        let call = self.calls.saturating_add(1);
        if self.fails.contains(&call) {
            self.calls = call;
            self.failures = self.failures.saturating_add(1);
            return Err(Fault::Failed);
        }
        let count = piece.len().min(self.most);
        match self.bytes.extend_from_slice(&piece[..count]) {
            Ok(()) => {
                self.calls = call;
                Ok(count)
            }
            Err(_) => Err(Fault::NoMemory),
        }
    }
}
