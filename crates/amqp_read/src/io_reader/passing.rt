//! Bytes that are passed over.

ghost use Rattle.std.specs.Prelude.{◌≡◌, ◌<◌, ◌≤◌, ◌+◌, ◌^◌};
ghost use Rattle.std.specs.Prelude.{true, false, []};
ghost use Rattle.std.specs.Prelude.{IfOk, IfErr, OnErr, IsTrue};
ghost use Rattle.amqp_base.specs.declared.error.Error.TheVariants.{Io, OutOfMemory};
ghost use Rattle.amqp_read.specs.Reading.{Stays};
ghost use Rattle.amqp_read.specs.Steps.{IsShort, Fails, NotTaken};
ghost use Rattle.amqp_read.specs.Steps.{NotAtHand, Passes};

use super::IoReader;
use amqp_base::{Error, Source};
use std::io::ErrorKind;

/// The most bytes that are passed over at once.
const BLOCK: usize = 256;

impl<S: Source> IoReader<S> {
    /// Consumes some of the next bytes, `n` at most, and says how many.
    pub(super) fn pass(&mut self, n: usize) -> Result<usize, Error>
        requires some { 0 < n }
        requires counted { self.old.reading.taken + n < 2 ^ 64 }
        ensures few { IfOk result (λ k. k ≤ n) }
        ensures ok { IfOk result (λ k. Passes k self.old.reading self.new.reading) }
        ensures short { IfOk result (λ k. k ≡ 0 → IsShort 1 self.old.reading) }
        ensures err { OnErr result (Stays self.old.reading self.new.reading) }
        ensures received { OnErr result
            (self.new.reading.received ≡ self.old.reading.received) }
        ensures why { IfErr result (λ e.
            Fails true true self.old.reading self.new.reading e) }
    {
        let received = self.buffer.len();
        if received > 0 {
            let k = n.min(received);
            self.consume(k);
            return Ok(k);
        }
        self.pass_of_source(n)
    }

    /// Consumes the next `n` bytes, where all of them were received and can be counted; else
    /// nothing changes.
    #[inline(never)]
    pub(super) fn pass_received(&mut self, n: usize) -> bool
        ensures passed { IsTrue result → Passes n self.old.reading self.new.reading }
        ensures else_kept { result ≡ false → self.new ≡ self.old }
        ensures else_few { result ≡ false → NotAtHand true n self.old.reading }
    {
        let is_received = self.has_received(n);
        if is_received {
            self.consume(n);
        }
        is_received
    }

    /// Consumes some of the next bytes, straight from the source.
    fn pass_of_source(&mut self, n: usize) -> Result<usize, Error>
        requires received { self.old.reading.received ≡ [] }
        requires some { 0 < n }
        requires counted { self.old.reading.taken + n < 2 ^ 64 }
        ensures few { IfOk result (λ k. k ≤ n) }
        ensures ok { IfOk result (λ k. Passes k self.old.reading self.new.reading) }
        ensures short { IfOk result (λ k. k ≡ 0 → IsShort 1 self.old.reading) }
        ensures err { OnErr result (Stays self.old.reading self.new.reading) }
        ensures received { OnErr result
            (self.new.reading.received ≡ self.old.reading.received) }
        ensures why { IfErr result (λ e.
            Fails true true self.old.reading self.new.reading e) }
    {
        let mut block = [0; BLOCK];
        let few = n.min(BLOCK);
        match self.source.read_some(&mut block[..few]) {
            Ok(k) => {
                self.taken += k;
                Ok(k)
            }
            Err(kind) => Err(Error::from(kind)),
        }
    }

    /// Why `n` bytes that can't be counted aren't passed over. Whether they are there is known of
    /// received ones alone, and for more there is no room.
    #[cold]
    pub(super) fn uncounted(&self, n: usize) -> Error
        requires { 2 ^ 64 ≤ self.now.reading.taken + n }
        ensures { NotTaken true true n self.now.reading self.now.reading result }
    {
        if self.buffer.len() >= n {
            Error::Io(ErrorKind::Other)
        } else {
            Error::OutOfMemory
        }
    }
}
