//! Payloads and texts, in memory of their own.

ghost use Rattle.std.specs.Prelude.{◌≡◌, ◌⊎◌, ◌<◌, ◌+◌, ◌^◌};
ghost use Rattle.std.specs.Prelude.{true, [], length, take};
ghost use Rattle.std.specs.Prelude.{IfOk, IfErr, IfSome, OnOk, OnErr};
ghost use Rattle.std.specs.Prelude.{Some, None, string_bytes};
ghost use Rattle.amqp_read.specs.Texts.{NotText, NoText};
ghost use Rattle.amqp_base.specs.declared.error.Error.TheVariants.{OutOfMemory};
ghost use Rattle.amqp_read.specs.Reading.{Stays, Takes};
ghost use Rattle.amqp_read.specs.Steps.{Looked, Fails, NotTaken};
ghost use Rattle.amqp_read.specs.Streaming.{InVector, IsApart};
ghost use Rattle.amqp_read.specs.Streaming.{with_received};

use super::IoReader;
use crate::behind::read_block;
use crate::buffer::PIECE;
use crate::texts::{is_text, text_of};
use amqp_base::{Error, Source};
use std::alloc::Global;
use std::io::ErrorKind;

impl<S: Source> IoReader<S> {
    /// A copy of the next `n` bytes, which stand in the buffer's vector.
    fn front_copied(&self, alloc: Global, n: usize) -> Result<Vec<u8>, Error>
        requires { InVector n self.now }
        ensures ok { IfOk result (λ v. v.items ≡ take n self.now.reading.received) }
        ensures err { IfErr result (λ e. e ≡ OutOfMemory) }
    {
        match Vec::from_slice(alloc, self.buffer.front_in_vector(n)) {
            Ok(bytes) => Ok(bytes),
            Err(_) => Err(Error::OutOfMemory),
        }
    }

    /// The next `n` bytes, which stand in the buffer's vector, with its memory, where they are many
    /// and all that it holds.
    fn hand_over(&mut self, alloc: Global, n: usize) -> Option<Vec<u8>>
        requires counted { self.old.reading.taken + n < 2 ^ 64 }
        ensures len { IfSome result (λ v. length v.items ≡ n) }
        ensures apart { IfSome result (λ v.
            IsApart v.items self.old.reading self.new.reading) }
        ensures else_kept { result ≡ None → self.new ≡ self.old }
    {
        self.buffer.hand_over(alloc, n)
    }

    /// A copy of the next `n` bytes, which stand in the buffer's vector. They are consumed.
    fn take_front(&mut self, alloc: Global, n: usize) -> Result<Vec<u8>, Error>
        requires there { InVector n self.old }
        requires counted { self.old.reading.taken + n < 2 ^ 64 }
        ensures len { IfOk result (λ v. length v.items ≡ n) }
        ensures ok { IfOk result (λ v. Takes self.old.reading self.new.reading v.items) }
        ensures kept { OnErr result (self.new.reading ≡ self.old.reading) }
        ensures err { IfErr result (λ e. e ≡ OutOfMemory) }
    {
        let bytes = self.front_copied(alloc, n)?;
        self.consume_in_vector(n);
        Ok(bytes)
    }

    /// A copy of the next `n` bytes, which stand in the buffer's vector, as a text. They are
    /// consumed.
    #[inline(always)]
    fn take_front_text(&mut self, alloc: Global, n: usize) -> Result<String, Error>
        requires there { InVector n self.old }
        requires counted { self.old.reading.taken + n < 2 ^ 64 }
        ensures len { IfOk result (λ t. length (string_bytes t) ≡ n) }
        ensures ok { IfOk result (λ t.
            Takes self.old.reading self.new.reading (string_bytes t)) }
        ensures kept { OnErr result (self.new.reading ≡ self.old.reading) }
        ensures why { IfErr result (λ e.
            NoText n self.old.reading e ⊎ (e ≡ OutOfMemory)) }
    {
        match text_of(alloc, self.buffer.front_in_vector(n)) {
            Ok(text) => {
                self.consume_in_vector(n);
                Ok(text)
            }
            Err(e) => Err(e),
        }
    }

    /// Asks the source once for `n` bytes, where nothing was received and they aren't many: the
    /// bytes, apart from the buffer, where it gave them all. What it gave else is kept.
    #[inline(always)]
    pub(super) fn receive_at_once(
        &mut self,
        alloc: Global,
        n: usize,
    ) -> Result<Option<Vec<u8>>, Error>
        ensures len { IfOk result (λ o. IfSome o (λ v. length v.items ≡ n)) }
        ensures apart { IfOk result (λ o. IfSome o (λ v.
            IsApart v.items self.old.reading self.new.reading)) }
        ensures else_kept { IfOk result (λ o. o ≡ None →
            Looked n self.old.reading self.new.reading) }
        ensures err { OnErr result (Stays self.old.reading self.new.reading) }
        ensures why { IfErr result (λ e.
            Fails true true self.old.reading self.new.reading e) }
    {
        if !self.can_ask_at_once(n, PIECE) {
            return Ok(None);
        }
        let mut received = match Vec::from_elem(alloc, 0, n) {
            Ok(bytes) => bytes,
            Err(_) => return Err(Error::OutOfMemory),
        };
        let mut fault = ErrorKind::Other;
        match read_block(&mut self.source, &mut received, &mut fault) {
            Some(got) => {
                if got == n {
                    return Ok(Some(received));
                }
                received.truncate(got);
                self.buffer.take_over(received);
                Ok(None)
            }
            None => Err(Error::from(fault)),
        }
    }

    /// Bytes that were received apart from the buffer are consumed.
    pub(super) fn consume_apart(&mut self, bytes: &[u8])
        requires received { self.old.reading.received ≡ [] }
        requires counted { self.old.reading.taken + length bytes.now < 2 ^ 64 }
        ensures { Takes (with_received bytes.now self.old.reading) self.new.reading bytes.now }
    {
        self.taken += bytes.len();
    }

    /// Bytes that were received apart from the buffer are consumed as a text. What isn't UTF-8 goes
    /// into the buffer.
    #[inline(always)]
    pub(super) fn take_text(&mut self, bytes: Vec<u8>) -> Result<String, Error>
        requires received { self.old.reading.received ≡ [] }
        requires counted { self.old.reading.taken + length bytes.items < 2 ^ 64 }
        ensures text { IfOk result (λ t. string_bytes t ≡ bytes.items) }
        ensures ok { OnOk result (Takes (with_received bytes.items self.old.reading)
            self.new.reading bytes.items) }
        ensures err { OnErr result (Stays (with_received bytes.items self.old.reading)
            self.new.reading) }
        ensures why { IfErr result (λ e. NotText bytes.items e) }
    {
        if !is_text(&bytes) {
            self.buffer.take_over(bytes);
            return Err(Error::InvalidUtf8Encoding);
        }
        self.consume_apart(&bytes);
        Ok(unsafe { String::from_utf8_unchecked(bytes) })
    }

    /// The next `n` bytes, which stand in the buffer's vector. They are consumed.
    pub(super) fn take_received_bytes(&mut self, alloc: Global, n: usize) -> Result<Vec<u8>, Error>
        requires there { InVector n self.old }
        requires counted { self.old.reading.taken + n < 2 ^ 64 }
        ensures len { IfOk result (λ v. length v.items ≡ n) }
        ensures ok { IfOk result (λ v. Takes self.old.reading self.new.reading v.items) }
        ensures kept { OnErr result (self.new.reading ≡ self.old.reading) }
        ensures err { IfErr result (λ e. e ≡ OutOfMemory) }
    {
        match self.hand_over(alloc, n) {
            Some(bytes) => {
                self.consume_apart(&bytes);
                Ok(bytes)
            }
            None => self.take_front(alloc, n),
        }
    }

    /// The next `n` bytes, which stand in the buffer's vector, as a text. They are consumed.
    #[inline(always)]
    pub(super) fn take_received_text(&mut self, alloc: Global, n: usize) -> Result<String, Error>
        requires there { InVector n self.old }
        requires counted { self.old.reading.taken + n < 2 ^ 64 }
        ensures len { IfOk result (λ t. length (string_bytes t) ≡ n) }
        ensures ok { IfOk result (λ t.
            Takes self.old.reading self.new.reading (string_bytes t)) }
        ensures err { OnErr result (Stays self.old.reading self.new.reading) }
        ensures why { IfErr result (λ e.
            NoText n self.old.reading e ⊎ (e ≡ OutOfMemory)) }
    {
        if n < PIECE {
            return match self.take_front_text(alloc, n) {
                Ok(text) => Ok(text),
                Err(e) => Err(e),
            };
        }
        match self.take_long_text(alloc, n) {
            Ok(text) => Ok(text),
            Err(e) => Err(e),
        }
    }

    /// The same of many bytes: where they are all that the buffer holds, its memory becomes the
    /// text's.
    #[inline(never)]
    fn take_long_text(&mut self, alloc: Global, n: usize) -> Result<String, Error>
        requires there { InVector n self.old }
        requires counted { self.old.reading.taken + n < 2 ^ 64 }
        ensures len { IfOk result (λ t. length (string_bytes t) ≡ n) }
        ensures ok { IfOk result (λ t.
            Takes self.old.reading self.new.reading (string_bytes t)) }
        ensures err { OnErr result (Stays self.old.reading self.new.reading) }
        ensures why { IfErr result (λ e.
            NoText n self.old.reading e ⊎ (e ≡ OutOfMemory)) }
    {
        match self.hand_over(alloc, n) {
            Some(bytes) => self.take_text(bytes),
            None => self.take_front_text(alloc, n),
        }
    }

    /// The next `n` bytes, by the buffer.
    pub(super) fn read_bytes_buffered(&mut self, alloc: Global, n: usize) -> Result<Vec<u8>, Error>
        ensures len { IfOk result (λ v. length v.items ≡ n) }
        ensures ok { IfOk result (λ v. Takes self.old.reading self.new.reading v.items) }
        ensures err { OnErr result (Stays self.old.reading self.new.reading) }
        ensures why { IfErr result (λ e.
            NotTaken true true n self.old.reading self.new.reading e) }
    {
        match self.receive_all(n) {
            Ok(()) => self.take_received_bytes(alloc, n),
            Err(e) => Err(e),
        }
    }

    /// The next `n` bytes as a text, by the buffer.
    pub(super) fn read_text_buffered(&mut self, alloc: Global, n: usize) -> Result<String, Error>
        ensures len { IfOk result (λ t. length (string_bytes t) ≡ n) }
        ensures ok { IfOk result (λ t.
            Takes self.old.reading self.new.reading (string_bytes t)) }
        ensures err { OnErr result (Stays self.old.reading self.new.reading) }
        ensures why { IfErr result (λ e. NoText n self.old.reading e
            ⊎ NotTaken true true n self.old.reading self.new.reading e) }
    {
        match self.receive_all(n) {
            Ok(()) => self.take_received_text(alloc, n),
            Err(e) => Err(e),
        }
    }
}
