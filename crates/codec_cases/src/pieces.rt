//! Sources that cut their bytes.

use std::io;
use std::io::Read;

/// Gives so many of its bytes a read at most.
#[derive(Drop)]
pub(crate) struct Pieces<'s> {
    pub(crate) rest: &'s [u8],
    most: usize,
}

/// These bytes, so many a read at most.
pub(crate) fn cut(bytes: &[u8], most: usize) -> Pieces<'_> {
    Pieces { rest: bytes, most }
}

impl Read for Pieces<'_> {
    fn read(&mut self, buf: &mut [u8]) -> io::Result<usize> {
        let n = buf.len().min(self.most).min(self.rest.len());
        let (front, rest) = self.rest.split_at(n);
        buf[..n].copy_from_slice(front);
        self.rest = rest;
        Ok(n)
    }
}
