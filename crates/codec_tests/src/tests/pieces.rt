//! Sources that cut their bytes, and sinks that take them one by one. Each fails at one call, and
//! counts its calls.

use std::io;
use std::io::{ErrorKind, Read, Write};

/// Gives so many of its bytes a read at most, and fails at one read.
#[derive(Drop)]
pub(crate) struct Pieces<'s> {
    pub(crate) rest: &'s [u8],
    pub(crate) most: usize,
    pub(crate) reads: usize,
    pub(crate) fails_at: usize,
    pub(crate) kind: ErrorKind,
}

/// These bytes, so many a read at most.
pub(crate) fn cut(bytes: &[u8], most: usize) -> Pieces<'_> {
    failing(bytes, most, 0, ErrorKind::Other)
}

/// So are these, but one read is a fault.
pub(crate) fn failing(bytes: &[u8], most: usize, fails_at: usize, kind: ErrorKind) -> Pieces<'_> {
    Pieces {
        rest: bytes,
        most,
        reads: 0,
        fails_at,
        kind,
    }
}

impl Read for Pieces<'_> {
    fn read(&mut self, buf: &mut [u8]) -> io::Result<usize> {
        self.reads = self.reads.saturating_add(1);
        if self.reads == self.fails_at {
            return Err(io::Error::from(self.kind));
        }
        let n = buf.len().min(self.most).min(self.rest.len());
        let (front, rest) = self.rest.split_at(n);
        buf[..n].copy_from_slice(front);
        self.rest = rest;
        Ok(n)
    }
}

/// Takes a byte a write, and fails at one write.
#[derive(Drop)]
pub(crate) struct OneByOne {
    pub(crate) bytes: Vec<u8>,
    pub(crate) writes: usize,
    pub(crate) fails_at: usize,
}

impl Write for OneByOne {
    fn write(&mut self, bytes: &[u8]) -> io::Result<usize> {
        self.writes = self.writes.saturating_add(1);
        if self.writes == self.fails_at {
            return Err(io::Error::from(ErrorKind::BrokenPipe));
        }
        match bytes.first() {
            None => Ok(0),
            Some(byte) => match self.bytes.push(*byte) {
                Ok(()) => Ok(1),
                Err(_) => Err(io::Error::from(ErrorKind::OutOfMemory)),
            },
        }
    }

    fn flush(&mut self) -> io::Result<()> {
        Ok(())
    }
}
