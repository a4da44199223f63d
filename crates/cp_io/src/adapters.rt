//! The source and the sink over std's reader and writer.
use crate::traits::{Failed, Fault, Sink, Source};
use std::io::{Read, Write};

/// A source over a reader.
#[derive(Drop)]
pub struct Reading<R> {
    inner: R,
    failures: u64,
}

impl<R> Reading<R> {
    pub fn new(inner: R) -> Reading<R> {
        Reading { inner, failures: 0 }
    }
}

impl<R: Read> Source for Reading<R> {
    ghost left = { λ s. R.remaining s.inner };

    ghost faults = { λ s. s.failures };

    fn read(&mut self, buf: &mut [u8]) -> Result<usize, Failed> {
        match self.inner.read(buf) {
            Ok(count) => Ok(count),
            Err(_) => {
                self.failures = self.failures.saturating_add(1);
                Err(Failed)
            }
        }
    }
}

/// A sink over a writer.
#[derive(Drop)]
pub struct Writing<W> {
    inner: W,
    failures: u64,
}

impl<W> Writing<W> {
    pub fn new(inner: W) -> Writing<W> {
        Writing { inner, failures: 0 }
    }
}

impl<W: Write> Sink for Writing<W> {
    ghost written = { λ k. W.contents k.inner };

    ghost faults = { λ k. k.failures };

    fn write(&mut self, piece: &[u8]) -> Result<usize, Fault> {
        match self.inner.write(piece) {
            Ok(count) => {
                if count == 0 && !piece.is_empty() {
                    self.failures = self.failures.saturating_add(1);
                }
                Ok(count)
            }
            Err(_) => {
                self.failures = self.failures.saturating_add(1);
                Err(Fault::Failed)
            }
        }
    }
}
