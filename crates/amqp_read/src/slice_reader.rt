//! A reader over bytes in memory.

ghost use Rattle.std.specs.Prelude.{◌≡◌, ◌⊎◌, ◌<◌, ◌+◌, ◌^◌};
ghost use Rattle.std.specs.Prelude.{true, false, [], length, IfOk, IfErr, OnOk};
ghost use Rattle.std.specs.Prelude.{OnErr, IsTrue, IsUtf8, MatchOption, Some, None};
ghost use Rattle.std.specs.declared.io.ErrorKind.TheVariants.{UnexpectedEof};
ghost use Rattle.amqp_base.specs.declared.error.Error.TheVariants.{Io};
ghost use Rattle.std.specs.Borrow.{sem};
ghost use Rattle.std.specs.Io.BufRead.{Rests};
ghost use mir.Syntax.{named};
ghost use Rattle.amqp_read.specs.contracts.slice_reader.SliceReader.{the_row};
ghost use Rattle.amqp_read.specs.Reading.{Reading, Takes};
ghost use Rattle.amqp_read.specs.Texts.{NoText};
ghost use Rattle.amqp_read.specs.Steps.{ShortOf, MayCome, IsShort, Looked, NotTaken, Passes};
ghost use Rattle.amqp_read.specs.Steps.{PassesSome, Failed};

use crate::Read;
use crate::read::sealed::Sealed;
use crate::texts::{is_text, text_of};
use amqp_base::Error;
use std::alloc::Global;
use std::io::ErrorKind;
use std::marker::Model;

/// Reads bytes in memory. All of them count as to come, none as received. No call takes memory but
/// those that answer bytes or a text of their own.
#[derive(Drop)]
pub struct SliceReader<'s> {
    whole: &'s [u8],
    taken: usize,
}

impl<'s> Model for SliceReader<'s> {
    ghost use Rattle.std.specs.Prelude.{◌≤◌, drop, length, true, [], Some};
    ghost use Rattle.std.specs.Prelude.{None};
    ghost use Rattle.amqp_read.specs.Reading.{Reading};

    ghost Value = { Reading };

    ghost view = { λ r. record {
      to_come = Some (drop r.taken r.whole.now);
      taken = r.taken;
      received = [];
      faults =
          0;
      last_fault = None;
      honest = true;
      origin = [];
    } };

    ghost invariant = { λ r. r.taken ≤ length r.whole.now };
}

impl<'s> SliceReader<'s> {
    /// Reads from the first byte of `slice` on.
    pub fn new(slice: &'s [u8]) -> SliceReader<'s>
        ensures { result ≡ record {
          to_come = Some slice.now;
          taken = 0;
          received = [];
          faults = 0;
          last_fault = None;
          honest = true;
          origin = [];
        } }
    {
        SliceReader {
            whole: slice,
            taken: 0,
        }
    }

    /// Consumes the next `n` bytes and lends them for as long as the slice lives;
    /// `Io(UnexpectedEof)` where fewer are to come, which changes nothing.
    #[inline(always)]
    pub fn get_byte_slice(&mut self, n: usize) -> Result<&'s [u8], Error>
        ensures ok { IfOk result (λ s. (length s.now ≡ n) × Takes self.old self.new s.now) }
        ensures err { IfErr result (λ e.
            (e ≡ Io UnexpectedEof) × ShortOf n self.old.to_come × (self.new ≡ self.old)) }
    {
        if n > self.left() {
            return Err(Error::Io(ErrorKind::UnexpectedEof));
        }
        let front = &self.whole[self.taken..self.taken + n];
        self.taken += n;
        Ok(front)
    }

    /// As `get_byte_slice`, as a text; `InvalidUtf8Encoding` where the bytes aren't UTF-8, which
    /// changes nothing either.
    #[doc(hidden)]
    #[inline(always)]
    pub fn get_text_slice(&mut self, n: usize) -> Result<&'s str, Error>
        ensures ok { IfOk result (λ t. (length t.now ≡ n) × Takes self.old self.new t.now) }
        ensures utf8 { IfOk result (λ t. IsUtf8 t.now) }
        ensures err { OnErr result (self.new ≡ self.old) }
        ensures why { IfErr result (λ e.
            NoText n self.old e ⊎ NotTaken false false n self.old self.new e) }
    {
        if n > self.left() {
            return Err(Error::Io(ErrorKind::UnexpectedEof));
        }
        let front = &self.whole[self.taken..self.taken + n];
        if !is_text(front) {
            return Err(Error::InvalidUtf8Encoding);
        }
        self.taken += n;
        Ok(unsafe { std::str::from_utf8_unchecked(front) })
    }

    /// How many bytes are to come.
    #[inline(always)]
    fn left(&self) -> usize
        ensures { MatchOption self.now.to_come ⊥ (λ bytes. result ≡ length bytes) }
    {
        self.whole.len() - self.taken
    }

    /// The bytes to come.
    #[inline(always)]
    fn rest(&self) -> &[u8]
        ensures { self.now.to_come ≡ Some result.now }
    {
        &self.whole[self.taken..]
    }

    /// The next `n` bytes, where there are so many. They stay.
    #[inline(always)]
    fn shown(&mut self, n: usize) -> Option<&[u8]>
        ensures bytes { MatchOption result (ShortOf n self.old.to_come) (λ b.
            (length b.now ≡ n) × MayCome self.old b.now) }
        ensures* lent { sem 𝓛 (Rests (the_row (record { mir = named 1; lft = [] })) self.entry
            (λ last. Looked n self.old last)) }
    {
        front(self, n)
    }
}

impl<'s> Sealed for SliceReader<'s> {}

impl<'s> Read for SliceReader<'s> {
    ghost reading = { λ r. r };

    ghost buffers = { false };

    #[inline(always)]
    fn peek(&mut self) -> Result<Option<u8>, Error> {
        Ok(self.whole.get(self.taken).copied())
    }

    #[inline(always)]
    fn bytes_consumed(&self) -> usize {
        self.taken
    }

    #[inline(always)]
    fn at_hand(&self) -> usize {
        self.left()
    }

    #[inline(always)]
    fn next(&mut self) -> Result<Option<u8>, Error> {
        match self.whole.get(self.taken) {
            Some(b) => {
                self.taken += 1;
                Ok(Some(*b))
            }
            None => Ok(None),
        }
    }

    #[inline(always)]
    fn read_exact(&mut self, buf: &mut [u8]) -> Result<(), Error> {
        match self.get_byte_slice(buf.len()) {
            Ok(bytes) => {
                buf.copy_from_slice(bytes);
                Ok(())
            }
            Err(e) => Err(e),
        }
    }

    // The proof is by hand, over `shown`'s: none is made of a loan whose result may own memory.
    #[inline(always)]
    fn peek_bytes(&mut self, n: usize) -> Result<Option<&[u8]>, Error>
        ensures ok { IfOk result (λ o. MatchOption o (IsShort n self.old) (λ b.
            (length b.now ≡ n) × MayCome self.old b.now)) }
        ensures why { IfErr result (λ e. Failed e × IsTrue false) }
        ensures* lent { sem 𝓛 (Rests (the_row (record { mir = named 1; lft = [] })) self.entry
            (λ last. Looked n self.old last)) }
    {
        Ok(self.shown(n))
    }

    #[inline(always)]
    fn read_bytes(&mut self, alloc: Global, n: usize) -> Result<Vec<u8>, Error> {
        if n > self.left() {
            return Err(Error::Io(ErrorKind::UnexpectedEof));
        }
        match Vec::from_slice(alloc, &self.whole[self.taken..self.taken + n]) {
            Ok(bytes) => {
                self.taken += n;
                Ok(bytes)
            }
            Err(_) => Err(Error::OutOfMemory),
        }
    }

    #[inline(always)]
    fn forward_read_str(&mut self, alloc: Global, n: usize) -> Result<String, Error> {
        if n > self.left() {
            return Err(Error::Io(ErrorKind::UnexpectedEof));
        }
        match text_of(alloc, &self.whole[self.taken..self.taken + n]) {
            Ok(text) => {
                self.taken += n;
                return Ok(text);
            }
            Err(e) => return Err(e),
        }
    }

    #[inline(always)]
    fn peek_at(&mut self, i: usize) -> Result<Option<u8>, Error> {
        Ok(self.rest().get(i).copied())
    }

    fn peek_copied(&mut self, alloc: Global, from: usize, n: usize) -> Result<Vec<u8>, Error> {
        let rest = self.rest();
        if from > rest.len() || n > rest.len() - from {
            return Err(Error::Io(ErrorKind::UnexpectedEof));
        }
        match Vec::from_slice(alloc, &rest[from..from + n]) {
            Ok(bytes) => Ok(bytes),
            Err(_) => Err(Error::OutOfMemory),
        }
    }

    #[inline(always)]
    fn bytes_at_hand(&self) -> &[u8] {
        self.rest()
    }

    #[inline(always)]
    fn pass_at_hand(&mut self, n: usize) -> bool {
        self.get_byte_slice(n).is_ok()
    }

    #[inline(always)]
    fn receive_ahead(&mut self, n: usize) -> Result<(), Error> {
        let _ = n;
        Ok(())
    }

    // A refusal changes nothing.
    #[inline(always)]
    fn skip(&mut self, n: usize) -> Result<(), Error>
        ensures ok { OnOk result (Passes n self.old self.new) }
        ensures err { OnErr result (PassesSome n self.old self.new) }
        ensures why { IfErr result (λ e. NotTaken false false n self.old self.new e) }
        ensures unchanged { OnErr result (self.new ≡ self.old) }
    {
        match self.get_byte_slice(n) {
            Ok(_) => Ok(()),
            Err(e) => Err(e),
        }
    }
}

/// The next `n` bytes, where there are so many.
#[inline(always)]
fn front<'a>(reader: &'a SliceReader<'_>, n: usize) -> Option<&'a [u8]>
    ensures { MatchOption result (ShortOf n reader.now.to_come) (λ b.
        (length b.now ≡ n) × MayCome reader.now b.now) }
{
    reader.rest().get(..n)
}
