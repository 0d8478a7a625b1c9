//! A few bytes, which take no memory.

ghost use Rattle.std.specs.Prelude.{◌≡◌, ◌<◌, ◌≤◌, ◌+◌};
ghost use Rattle.std.specs.Prelude.{[], length, drop, IsTrue, IfOk};
ghost use Rattle.std.specs.Io.KnownBytes.{IsAtEnd};
ghost use Rattle.amqp_read.specs.Asking.{AskedOnce};
ghost use Rattle.amqp_read.specs.Streaming.{reads};

use crate::behind::read_behind;
use amqp_base::Source;
use std::io::ErrorKind;
use std::marker::Model;

/// So many bytes are kept in place.
pub(crate) const FEW: usize = 64;

/// At most 64 bytes, in place. None of them is moved here; into the buffer's vector they go once.
#[derive(Drop)]
pub(crate) struct Few {
    bytes: [u8; FEW],
    start: usize,
    end: usize,
}

impl Model for Few {
    ghost use Rattle.std.specs.Prelude.{◌≤◌, ◌-◌, take, drop};
    ghost use Rattle.amqp_read.specs.Streaming.{InPlace};

    ghost Value = { InPlace };

    ghost view = { λ f. record {
      bytes = take (f.end - f.start) (drop f.start f.bytes);
      room = 64 - f.end;
    } };

    ghost invariant = { λ f. (f.start ≤ f.end) × (f.end ≤ 64) };
}

impl Few {
    /// None.
    #[inline(always)]
    pub(crate) fn new() -> Few
        ensures { result.bytes ≡ [] }
    {
        Few {
            bytes: [0; FEW],
            start: 0,
            end: 0,
        }
    }

    /// How many there are.
    #[inline(always)]
    pub(crate) fn len(&self) -> usize
        ensures len { result ≡ length self.now.bytes }
        ensures few { result ≤ 64 }
    {
        self.end - self.start
    }

    /// All of them.
    #[inline(always)]
    pub(crate) fn as_slice(&self) -> &[u8]
        ensures { result.now ≡ self.now.bytes }
    {
        &self.bytes[self.start..self.end]
    }

    /// These bytes alone.
    #[inline(always)]
    pub(crate) fn put(&mut self, received: &[u8])
        requires { length received.now ≤ 64 }
        ensures { self.new.bytes ≡ received.now }
    {
        self.start = 0;
        self.end = received.len();
        self.bytes[..received.len()].copy_from_slice(received);
    }

    /// Whether `n` bytes find room behind them.
    #[inline(always)]
    pub(crate) fn has_room(&self, n: usize) -> bool
        ensures room { IsTrue result → n ≤ self.now.room }
        ensures few { IsTrue result → length self.now.bytes + n ≤ 64 }
    {
        n <= FEW - self.end
    }

    /// Asks a source once for some of `n` bytes, and keeps what it gives behind them: how many.
    #[inline(always)]
    pub(crate) fn receive<S: Source>(
        &mut self,
        source: &mut S,
        n: usize,
    ) -> Result<usize, ErrorKind>
        requires { n ≤ self.old.room }
        ensures asked { AskedOnce n
            (reads self.old.bytes (S.remaining source.old) 0 (S.faults source.old)
            (S.last_fault source.old) (S.is_honest source.old) (S.origin source.old))
            (reads self.new.bytes (S.remaining source.new) 0 (S.faults source.new)
            (S.last_fault source.new) (S.is_honest source.new) (S.origin source.new)) result }
        ensures end { IfOk result (λ got.
            got ≡ 0 → 0 < n → IsTrue (S.is_honest source.old) →
            IsAtEnd (S.remaining source.old)) }
    {
        let have = self.end;
        match read_behind(source, &mut self.bytes[..have + n], have) {
            Ok(got) => {
                self.end = have + got;
                Ok(got)
            }
            Err(kind) => Err(kind),
        }
    }

    /// The first `n` are gone.
    #[inline(always)]
    pub(crate) fn consume(&mut self, n: usize)
        requires { n ≤ length self.old.bytes }
        ensures { self.new.bytes ≡ drop n self.old.bytes }
    {
        self.start += n;
        if self.start == self.end {
            self.start = 0;
            self.end = 0;
        }
    }
}
