//! A block of bytes that is filled, and single bytes.

ghost use Rattle.std.specs.Prelude.{◌≡◌, ◌⊎◌, ◌<◌, ◌≤◌, ◌+◌, ◌^◌};
ghost use Rattle.std.specs.Prelude.{true, false, [], ◌∷◌, length};
ghost use Rattle.std.specs.Prelude.{IfOk, IfErr, IfSome, OnOk, OnErr, IsTrue, MatchOption};
ghost use Rattle.std.specs.Prelude.{Some, None};
ghost use Rattle.amqp_read.specs.Reading.{Stays, Takes};
ghost use Rattle.amqp_base.specs.Faults.{refusal_of};
ghost use Rattle.amqp_read.specs.Steps.{Ended, Looked, Fails, NotTaken};
ghost use Rattle.amqp_read.specs.Steps.{PassesCount};
ghost use Rattle.amqp_read.specs.Streaming.{InVector, NoneInVector};

use super::IoReader;
use crate::Read;
use amqp_base::{Error, Source};
use std::io::ErrorKind;

/// The most bytes that are read straight from the source where none was received.
const SMALL: usize = 16;

impl<S: Source> IoReader<S> {
    /// Fills `block` with bytes that stand in the buffer's vector, and consumes them.
    #[inline(always)]
    fn take_into(&mut self, block: &mut [u8])
        requires there { InVector (length block.old) self.old }
        requires counted { self.old.reading.taken + length block.old < 2 ^ 64 }
        ensures len { length block.new ≡ length block.old }
        ensures taken { Takes self.old.reading self.new.reading block.new }
    {
        let n = block.len();
        block.copy_from_slice(self.buffer.front_in_vector(n));
        self.consume_in_vector(n);
    }

    /// Fills `block` with bytes that stand in the buffer's vector, and consumes them, where all of
    /// them do and can be counted; else nothing changes.
    #[inline(always)]
    pub(super) fn take_in_vector(&mut self, block: &mut [u8]) -> bool
        ensures len { length block.new ≡ length block.old }
        ensures taken { IsTrue result → Takes self.old.reading self.new.reading block.new }
        ensures else_kept { result ≡ false → self.new ≡ self.old }
        ensures else_as_it_was { result ≡ false → block.new ≡ block.old }
    {
        let is_there = self.has_in_vector(block.len());
        if is_there {
            self.take_into(block);
        }
        is_there
    }

    /// Asks the source once for all of `block`: whether it gave it. What it gave else is kept, and
    /// `block` stays.
    #[inline(always)]
    #[tactic(auto, unfolding(amqp_base::specs::Faults::refusal_of))]
    fn read_small(&mut self, block: &mut [u8]) -> Result<bool, ErrorKind>
        requires received { self.old.reading.received ≡ [] }
        requires some { 0 < length block.old }
        requires few { length block.old ≤ 16 }
        requires counted { self.old.reading.taken + length block.old < 2 ^ 64 }
        ensures len { length block.new ≡ length block.old }
        ensures taken { IfOk result (λ all. IsTrue all →
            Takes self.old.reading self.new.reading block.new) }
        ensures else_kept { IfOk result (λ all. all ≡ false →
            Looked (length block.old) self.old.reading self.new.reading
            × (block.new ≡ block.old)) }
        ensures err { OnErr result (Stays self.old.reading self.new.reading
            × (block.new ≡ block.old)) }
        ensures why { IfErr result (λ kind.
            Fails true true self.old.reading self.new.reading (refusal_of kind)) }
    {
        let n = block.len();
        let mut small = [0; SMALL];
        match self.source.read_some(&mut small[..n]) {
            Ok(got) => {
                if got == n {
                    block.copy_from_slice(&small[..n]);
                    self.taken += n;
                    Ok(true)
                } else {
                    self.buffer.keep_short(&small[..got]);
                    Ok(false)
                }
            }
            Err(kind) => Err(kind),
        }
    }

    /// Asks the source once for a small `block` where nothing was received: whether it gave it.
    #[inline(always)]
    fn read_at_once(&mut self, block: &mut [u8]) -> Result<bool, ErrorKind>
        ensures len { length block.new ≡ length block.old }
        ensures taken { IfOk result (λ all. IsTrue all →
            Takes self.old.reading self.new.reading block.new) }
        ensures else_kept { IfOk result (λ all. all ≡ false →
            Looked (length block.old) self.old.reading self.new.reading
            × (block.new ≡ block.old)) }
        ensures err { OnErr result (Stays self.old.reading self.new.reading
            × (block.new ≡ block.old)) }
        ensures why { IfErr result (λ kind.
            Fails true true self.old.reading self.new.reading (refusal_of kind)) }
    {
        let n = block.len();
        if self.can_ask_at_once(n, SMALL) {
            return self.read_small(block);
        }
        Ok(false)
    }

    /// Fills `block` by the buffer.
    #[inline(never)]
    fn read_buffered(&mut self, block: &mut [u8]) -> Result<(), Error>
        ensures len { length block.new ≡ length block.old }
        ensures ok { OnOk result (Takes self.old.reading self.new.reading block.new) }
        ensures err { OnErr result (Stays self.old.reading self.new.reading
            × (block.new ≡ block.old)) }
        ensures why { IfErr result (λ e. NotTaken true true (length block.old)
            self.old.reading self.new.reading e) }
    {
        let n = block.len();
        match self.receive_all(n) {
            Ok(()) => {
                self.take_into(block);
                Ok(())
            }
            Err(e) => Err(e),
        }
    }

    /// Fills `block`, where its bytes don't stand in the buffer's vector, or can't be counted. Its
    /// length is known where this is inlined, so that no copy is a call.
    #[inline(always)]
    pub(super) fn read_not_in_vector(&mut self, block: &mut [u8]) -> Result<(), Error>
        ensures len { length block.new ≡ length block.old }
        ensures ok { OnOk result (Takes self.old.reading self.new.reading block.new) }
        ensures err { OnErr result (Stays self.old.reading self.new.reading
            × (block.new ≡ block.old)) }
        ensures why { IfErr result (λ e. NotTaken true true (length block.old)
            self.old.reading self.new.reading e) }
    {
        match self.read_at_once(block) {
            Ok(true) => Ok(()),
            Ok(false) => self.read_buffered(block),
            Err(kind) => Err(Error::from(kind)),
        }
    }

    /// The same, out of line.
    #[inline(never)]
    pub(super) fn read_apart(&mut self, block: &mut [u8]) -> Result<(), Error>
        ensures len { length block.new ≡ length block.old }
        ensures ok { OnOk result (Takes self.old.reading self.new.reading block.new) }
        ensures err { OnErr result (Stays self.old.reading self.new.reading
            × (block.new ≡ block.old)) }
        ensures why { IfErr result (λ e. NotTaken true true (length block.old)
            self.old.reading self.new.reading e) }
    {
        self.read_not_in_vector(block)
    }

    /// The next byte, straight from the source. Where there is none, `fault` has the source's, or
    /// nothing at the end.
    #[inline(always)]
    fn next_of_source(&mut self, fault: &mut Option<ErrorKind>) -> Option<u8>
        requires received { self.old.reading.received ≡ [] }
        requires counted { self.old.reading.taken + 1 < 2 ^ 64 }
        ensures ok { IfSome result (λ b. Takes self.old.reading self.new.reading (b ∷ [])) }
        ensures stays { result ≡ None → Stays self.old.reading self.new.reading }
        ensures why { result ≡ None → MatchOption fault.new (Ended self.old.reading) (λ kind.
            Fails true true self.old.reading self.new.reading (refusal_of kind)) }
    {
        let mut one = [0; 1];
        match self.source.read_some(&mut one) {
            Ok(0) => {
                *fault = None;
                None
            }
            Ok(_) => {
                self.taken += 1;
                Some(one[0])
            }
            Err(kind) => {
                *fault = Some(kind);
                None
            }
        }
    }

    /// The next byte, where none that can be counted stands in the buffer's vector. Where there is
    /// none, `fault` says why, or has nothing at the end: an answer of two parts needs no memory.
    pub(super) fn next_not_in_vector(&mut self, fault: &mut Option<ErrorKind>) -> Option<u8>
        requires { NoneInVector self.old ⊎ (2 ^ 64 ≤ self.old.reading.taken + 1) }
        ensures ok { IfSome result (λ b. Takes self.old.reading self.new.reading (b ∷ [])) }
        ensures stays { result ≡ None → Stays self.old.reading self.new.reading }
        ensures why { result ≡ None → MatchOption fault.new (Ended self.old.reading) (λ kind.
            Fails true true self.old.reading self.new.reading (refusal_of kind)
            ⊎ PassesCount true 1 self.old.reading (refusal_of kind)) }
    {
        if self.bytes_consumed() == usize::MAX {
            *fault = self.why_uncounted();
            return None;
        }
        match self.pop_in_place() {
            Some(b) => Some(b),
            None => self.next_of_source(fault),
        }
    }

    /// Consumes a byte that stands in place in the buffer.
    #[inline(always)]
    fn pop_in_place(&mut self) -> Option<u8>
        requires counted { self.old.reading.taken + 1 < 2 ^ 64 }
        ensures { MatchOption result
            ((self.new ≡ self.old) × (self.old.buffer.in_place ≡ 0))
            (λ b. Takes self.old.reading self.new.reading (b ∷ [])) }
    {
        if !self.buffer.is_in_place() {
            return None;
        }
        let b = self.buffer.unread()[0];
        self.consume(1);
        Some(b)
    }

    /// Why there is no next byte where one more can't be counted; nothing at the end.
    #[cold]
    #[inline(never)]
    #[tactic(auto, unfolding(amqp_base::specs::Faults::refusal_of))]
    fn why_uncounted(&mut self) -> Option<ErrorKind>
        requires uncounted { 2 ^ 64 ≤ self.old.reading.taken + 1 }
        ensures stays { Stays self.old.reading self.new.reading }
        ensures why { MatchOption result (Ended self.old.reading) (λ kind.
            Fails true true self.old.reading self.new.reading (refusal_of kind)
            ⊎ PassesCount true 1 self.old.reading (refusal_of kind)) }
    {
        match self.fill(1) {
            Ok(true) => Some(self.uncounted_byte()),
            Ok(false) => None,
            Err(kind) => Some(kind),
        }
    }

    /// Why a received byte that can't be counted isn't consumed.
    #[cold]
    #[tactic(auto, unfolding(amqp_base::specs::Faults::refusal_of))]
    fn uncounted_byte(&self) -> ErrorKind
        requires received { 0 < length self.now.reading.received }
        requires uncounted { 2 ^ 64 ≤ self.now.reading.taken + 1 }
        ensures { PassesCount true 1 self.now.reading (refusal_of result) }
    {
        let _received = self.buffer.len();
        ErrorKind::Other
    }
}
