//! What a follower joins of the chunks of a snapshot.
ghost use Rattle.std.specs.Prelude.{◌≡◌, ◌+◌, ◌≤◌, ◌++◌, [], length, drop, vec_len, Some, None, Ok, option_map, IfOk, OnOk, OnErr};
ghost use Rattle.cp_base.specs.declared.limits.TheConstants.{MOST_SNAPSHOT};
ghost use Rattle.cp_rules.specs.Snapshots.{received_of};
ghost use Rattle.cp_snapshot.specs.declared.assembler.Progress.TheVariants as progress;
ghost use Rattle.cp_snapshot.specs.Decisions.{joined_to, progress_at, told, received_with, received_after, whole_in};

use crate::joining::{Join, how_joined};
use cp_base::NoMemory;
use cp_base::limits::MOST_SNAPSHOT;
use cp_message::Chunk;
use std::alloc::Global;

/// How far a chunk brings its snapshot.
#[derive(Clone, Copy, Debug, PartialEq, Eq)]
pub enum Progress {
    /// So many bytes of this snapshot are received, and more are to come.
    More(u32),
    /// All bytes are there.
    Whole,
    /// The snapshot would be too long.
    TooLong,
}

/// Which snapshot is received.
#[derive(Clone, Copy, Debug, PartialEq, Eq)]
struct Source {
    /// The term of the leader that sends it.
    term: u64,
    index: u64,
}

/// The first bytes of a snapshot that a follower receives in chunks. Where a chunk makes a snapshot whole, the whole bytes
/// can be read until the next chunk is taken; what was received before it is kept, since bytes that spell no snapshot
/// change nothing.
#[derive(Debug, Drop)]
pub struct Assembler {
    source: Option<Source>,
    /// What is received, and behind it the last chunk of a whole snapshot.
    bytes: Vec<u8>,
    /// How many bytes are received.
    kept: usize,
    /// Where the bytes begin that can be read.
    from: usize,
    ghost within: { kept ≤ vec_len bytes },
    ghost begins: { from ≤ kept },
    ghost bounded: { kept ≤ MOST_SNAPSHOT },
}

impl Assembler {
    ghost use Rattle.cp_snapshot.specs.Assemblers.{received, received_in, held, IsTidy};

    /// Nothing is received yet.
    pub fn new(alloc: Global) -> Assembler
        ensures received { received result ≡ None }
        ensures held { held result ≡ [] }
    {
        Assembler {
            source: None,
            bytes: Vec::new(alloc),
            kept: 0,
            from: 0,
        }
    }

    /// The bytes of the snapshot that the last chunk made whole; else those received so far.
    pub fn bytes(&self) -> &[u8]
        ensures { result.now ≡ held self.now }
    {
        &self.bytes[self.from..]
    }

    /// Gives up all that was received.
    pub fn clear(&mut self)
        ensures { received self.new ≡ None }
    {
        self.source = None;
    }

    /// Gives up what stands behind the bytes received.
    fn tidy(&mut self)
        ensures received { received self.new ≡ received self.old }
        ensures tidy { IsTidy self.new }
    {
        self.from = 0;
        self.bytes.truncate(self.kept);
    }

    /// How many bytes are received of the snapshot of a term and index, if they are of it.
    fn received_of(&self, term: u64, index: u64) -> Option<u32>
        ensures { result ≡ option_map (λ bytes. length bytes) (received_of term index (received self.now)) }
    {
        match self.source {
            Some(source) => {
                if source.term == term && source.index == index {
                    Some(self.kept as u32)
                } else {
                    None
                }
            }
            None => None,
        }
    }

    /// Puts bytes behind those received, to be read from a place on.
    fn show(&mut self, from: usize, bytes: &[u8]) -> Result<(), NoMemory>
        requires tidy { IsTidy self.old }
        requires from { from ≤ self.old.kept }
        ensures received { received self.new ≡ received self.old }
        ensures held { OnOk result (held self.new ≡ drop from (self.old.bytes.items ++ bytes.now)) }
    {
        match self.bytes.extend_from_slice(bytes) {
            Ok(()) => {
                self.from = from;
                Ok(())
            }
            Err(_) => Err(NoMemory),
        }
    }

    /// Takes bytes for all that is received.
    fn restart(&mut self, term: u64, index: u64, bytes: Vec<u8>)
        requires { vec_len bytes ≤ MOST_SNAPSHOT }
        ensures { received self.new ≡ Some (record { term = term; index = index; bytes = bytes.items }) }
    {
        self.from = 0;
        self.kept = 0;
        self.bytes = bytes;
        self.kept = self.bytes.len();
        self.source = Some(Source { term, index });
    }

    /// Takes bytes behind those received.
    fn extend(&mut self, term: u64, index: u64, bytes: &[u8]) -> Result<(), NoMemory>
        requires tidy { IsTidy self.old }
        requires room { self.old.kept + length bytes.now ≤ MOST_SNAPSHOT }
        ensures kept { OnOk result (self.new.kept ≡ self.old.kept + length bytes.now) }
        ensures ok { OnOk result (received self.new ≡ Some
            (record { term = term; index = index; bytes = self.old.bytes.items ++ bytes.now })) }
        ensures err { OnErr result (received self.new ≡ received self.old) }
    {
        match self.bytes.extend_from_slice(bytes) {
            Ok(()) => {
                self.kept = self.bytes.len();
                self.source = Some(Source { term, index });
                Ok(())
            }
            Err(_) => Err(NoMemory),
        }
    }

    /// Takes a chunk that begins anew.
    fn begin(&mut self, chunk: &Chunk) -> Result<Progress, NoMemory>
        requires { IsTidy self.old }
        ensures progress { IfOk result (λ p. p ≡ told (joined_to chunk.now.last chunk.now.bytes)) }
        ensures received { OnOk result (received self.new
            ≡ received_with chunk.now.term chunk.now.index (received self.old) (joined_to chunk.now.last chunk.now.bytes)) }
        ensures whole { result ≡ Ok progress.Whole → held self.new ≡ chunk.now.bytes }
        ensures err { OnErr result (received self.new ≡ received self.old) }
    {
        let length = chunk.bytes.len();
        if length > MOST_SNAPSHOT as usize {
            return Ok(Progress::TooLong);
        }
        if chunk.last {
            let from = self.kept;
            self.show(from, chunk.bytes.as_slice())?;
            return Ok(Progress::Whole);
        }
        let copy = match chunk.bytes.clone() {
            Ok(copy) => copy,
            Err(_) => return Err(NoMemory),
        };
        self.restart(chunk.term, chunk.index, copy.into_vec());
        Ok(Progress::More(length as u32))
    }

    /// Takes a chunk that goes on where the bytes received end.
    fn go_on(&mut self, chunk: &Chunk) -> Result<Progress, NoMemory>
        requires { IsTidy self.old }
        ensures progress { IfOk result (λ p. p ≡ told (joined_to chunk.now.last (self.old.bytes.items ++ chunk.now.bytes))) }
        ensures received { OnOk result (received self.new
            ≡ received_with chunk.now.term chunk.now.index (received self.old)
            (joined_to chunk.now.last (self.old.bytes.items ++ chunk.now.bytes))) }
        ensures whole { result ≡ Ok progress.Whole → held self.new ≡ self.old.bytes.items ++ chunk.now.bytes }
        ensures err { OnErr result (received self.new ≡ received self.old) }
    {
        if MOST_SNAPSHOT as usize - self.kept < chunk.bytes.len() {
            return Ok(Progress::TooLong);
        }
        if chunk.last {
            self.show(0, chunk.bytes.as_slice())?;
            return Ok(Progress::Whole);
        }
        self.extend(chunk.term, chunk.index, chunk.bytes.as_slice())?;
        Ok(Progress::More(self.kept as u32))
    }

    /// Takes a chunk: one at offset 0 begins anew, one of the same term and index where the bytes received end goes on,
    /// and of any other nothing is kept. Where it makes its snapshot too long, and where memory is lacking, what was
    /// received stays; so it does where it makes its snapshot whole, and `bytes` then are the whole.
    pub fn take(&mut self, chunk: &Chunk) -> Result<Progress, NoMemory>
        ensures progress { IfOk result (λ p. p ≡ told (progress_at chunk.now (received self.old))) }
        ensures received { OnOk result (received self.new ≡ received_after chunk.now (received self.old)) }
        ensures whole { result ≡ Ok progress.Whole → whole_in (progress_at chunk.now (received self.old)) ≡ Some (held self.new) }
        ensures err { OnErr result (received self.new ≡ received self.old) }
    {
        self.tidy();
        let received = self.received_of(chunk.term, chunk.index);
        match how_joined(received, chunk.offset) {
            Join::Apart => Ok(Progress::More(received.unwrap_or(0))),
            Join::Anew => self.begin(chunk),
            Join::On => self.go_on(chunk),
        }
    }

    /// The whole bytes of the snapshot that a chunk would make whole, if it would.
    pub fn whole_with(&self, alloc: Global, chunk: &Chunk) -> Result<Option<Vec<u8>>, NoMemory>
        ensures { IfOk result (λ whole. option_map (λ bytes. bytes.items) whole ≡ whole_in (progress_at chunk.now (received self.now))) }
    {
        let received = self.received_of(chunk.term, chunk.index);
        match how_joined(received, chunk.offset) {
            Join::Apart => Ok(None),
            Join::Anew => joined(alloc, &[], chunk),
            Join::On => joined(alloc, &self.bytes[..self.kept], chunk),
        }
    }
}

/// The bytes before a chunk with those of the chunk, where it is the last and they are not too long.
fn joined(alloc: Global, before: &[u8], chunk: &Chunk) -> Result<Option<Vec<u8>>, NoMemory>
    requires { length before.now ≤ MOST_SNAPSHOT }
    ensures { IfOk result (λ whole. option_map (λ bytes. bytes.items) whole
        ≡ whole_in (joined_to chunk.now.last (before.now ++ chunk.now.bytes))) }
{
    if !chunk.last || MOST_SNAPSHOT as usize - before.len() < chunk.bytes.len() {
        return Ok(None);
    }
    let mut whole = Vec::new(alloc);
    whole.extend_from_slice(before)?;
    whole.extend_from_slice(chunk.bytes.as_slice())?;
    Ok(Some(whole))
}
