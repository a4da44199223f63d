//! Steps with sources and sinks.
ghost use Rattle.std.specs.Prelude.{◌≤◌};

use crate::end::CaseEnd;
use crate::verb::Verb;
use crate::words::{bytes_at, number_at, numbers_from, tell, tell_bytes, tell_number};
use cp_base::NoMemory;
use cp_io::{
    Failed, Fault, MemorySink, MemorySource, ReadEnd, Reading, Sink, Source, Writing, read_all,
    write_all,
};
use std::alloc::Global;

/// A source that gives one byte at a time.
#[derive(Drop)]
struct Drip {
    bytes: Vec<u8>,
    at: usize,
}

impl Source for Drip {
    ghost use Rattle.std.specs.Prelude.{None};

    ghost left = { λ _. None };

    ghost faults = { λ _. 0 };

    fn read(&mut self, buf: &mut [u8]) -> Result<usize, Failed> {
        if buf.is_empty() || self.at >= self.bytes.len() {
            return Ok(0);
        }
        buf[0] = self.bytes[self.at];
        self.at += 1;
        Ok(1)
    }
}

/// The source and the sink of a case.
#[derive(Drop)]
pub struct Streams {
    source: Option<MemorySource>,
    sink: Option<MemorySink>,
}

fn tell_fault(fault: Fault, out: &mut Vec<u8>) -> Result<(), NoMemory> {
    match fault {
        Fault::Failed => tell(b"failed", out),
        Fault::NoMemory => tell(b"no memory", out),
    }
}

fn tell_end(end: ReadEnd, out: &mut Vec<u8>) -> Result<(), NoMemory> {
    match end {
        ReadEnd::Failed => tell(b"failed", out),
        ReadEnd::TooLong => tell(b"too long", out),
        ReadEnd::NoMemory => tell(b"no memory", out),
    }
}

/// Reads a source to its end.
fn tell_all<S: Source>(alloc: Global, source: &mut S, out: &mut Vec<u8>) -> Result<(), NoMemory> {
    match read_all(alloc, source) {
        Ok(bytes) => tell_bytes(&bytes, out),
        Err(end) => tell_end(end, out),
    }
}

/// Reads once into a buffer of so many bytes.
fn tell_read(
    alloc: Global,
    source: &mut MemorySource,
    count: u64,
    out: &mut Vec<u8>,
) -> Result<(), CaseEnd> {
    let mut buffer = vec![in alloc; 0u8; count.min(4096) as usize]?;
    match source.read(&mut buffer) {
        Ok(0) => tell(b"end", out)?,
        Ok(count) => tell_bytes(&buffer[..count], out)?,
        Err(Failed) => tell(b"failed", out)?,
    }
    Ok(())
}

/// Writes all to a sink.
fn tell_written<K: Sink>(sink: &mut K, bytes: &[u8], out: &mut Vec<u8>) -> Result<(), NoMemory> {
    match write_all(sink, bytes) {
        Ok(()) => tell(b"ok", out),
        Err(fault) => tell_fault(fault, out),
    }
}

/// Writes once to a sink.
fn tell_write<K: Sink>(sink: &mut K, bytes: &[u8], out: &mut Vec<u8>) -> Result<(), NoMemory> {
    match sink.write(bytes) {
        Ok(count) => tell_number(count as u64, out),
        Err(fault) => tell_fault(fault, out),
    }
}

/// A new source.
fn new_source(alloc: Global, words: &[String]) -> Result<MemorySource, CaseEnd> {
    let bytes = bytes_at(alloc, words, 2)?;
    let fails = numbers_from(alloc, words, 3)?;
    match MemorySource::new(alloc, &bytes, &fails) {
        Ok(source) => Ok(source),
        Err(_) => Err(CaseEnd::NoMemory),
    }
}

/// A new sink, which takes at least one byte at a time.
fn new_sink(alloc: Global, words: &[String]) -> Result<MemorySink, CaseEnd> {
    let most = number_at(words, 2)?;
    let fails = numbers_from(alloc, words, 3)?;
    if most == 0 {
        return Err(CaseEnd::BadInput);
    }
    match MemorySink::new(alloc, most as usize, &fails) {
        Ok(sink) => Ok(sink),
        Err(_) => Err(CaseEnd::NoMemory),
    }
}

fn use_source(
    alloc: Global,
    source: &mut MemorySource,
    verb: Verb,
    words: &[String],
    out: &mut Vec<u8>,
) -> Result<(), CaseEnd> {
    match verb {
        Verb::Read => tell_read(alloc, source, number_at(words, 2)?, out),
        Verb::All => Ok(tell_all(alloc, source, out)?),
        _ => Err(CaseEnd::BadInput),
    }
}

fn use_sink(
    alloc: Global,
    sink: &mut MemorySink,
    verb: Verb,
    words: &[String],
    out: &mut Vec<u8>,
) -> Result<(), CaseEnd> {
    match verb {
        Verb::Write => Ok(tell_write(sink, &bytes_at(alloc, words, 2)?, out)?),
        Verb::All => Ok(tell_written(sink, &bytes_at(alloc, words, 2)?, out)?),
        Verb::Bytes => Ok(tell_bytes(sink.bytes(), out)?),
        _ => Err(CaseEnd::BadInput),
    }
}

/// Reads a source to its end that gives one byte at a time.
pub fn read_drip(alloc: Global, words: &[String], out: &mut Vec<u8>) -> Result<(), CaseEnd> {
    let bytes = bytes_at(alloc, words, 2)?;
    Ok(tell_all(alloc, &mut Drip { bytes, at: 0 }, out)?)
}

/// Reads std's reader to its end.
pub fn read_reader(alloc: Global, words: &[String], out: &mut Vec<u8>) -> Result<(), CaseEnd> {
    let bytes = bytes_at(alloc, words, 2)?;
    let mut reader: &[u8] = &bytes;
    Ok(tell_all(alloc, &mut Reading::new(&mut reader), out)?)
}

/// Writes to std's writer into memory, the first bytes whole and the others once.
pub fn write_writer(alloc: Global, words: &[String], out: &mut Vec<u8>) -> Result<(), CaseEnd> {
    let mut sink = Writing::new(Vec::new(alloc));
    tell_written(&mut sink, &bytes_at(alloc, words, 2)?, out)?;
    tell(b" ", out)?;
    Ok(tell_write(&mut sink, &bytes_at(alloc, words, 3)?, out)?)
}

impl Streams {
    /// No source and no sink.
    pub fn new() -> Streams {
        Streams {
            source: None,
            sink: None,
        }
    }

    /// A step with the source.
    pub fn source_step(
        &mut self,
        alloc: Global,
        verb: Verb,
        words: &[String],
        out: &mut Vec<u8>,
    ) -> Result<(), CaseEnd> {
        if let Verb::New = verb {
            self.source = Some(new_source(alloc, words)?);
            return Ok(tell(b"ok", out)?);
        }
        match &mut self.source {
            Some(source) => use_source(alloc, source, verb, words, out),
            None => Err(CaseEnd::BadInput),
        }
    }

    /// A step with the sink.
    pub fn sink_step(
        &mut self,
        alloc: Global,
        verb: Verb,
        words: &[String],
        out: &mut Vec<u8>,
    ) -> Result<(), CaseEnd> {
        if let Verb::New = verb {
            self.sink = Some(new_sink(alloc, words)?);
            return Ok(tell(b"ok", out)?);
        }
        match &mut self.sink {
            Some(sink) => use_sink(alloc, sink, verb, words, out),
            None => Err(CaseEnd::BadInput),
        }
    }
}
