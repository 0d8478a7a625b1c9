//! The writers of a value that is measured first and then written once.

ghost use Rattle.std.specs.Prelude.{◌≡◌, ◌+◌, ◌≤◌, ◌++◌, ◌∷◌, []};
ghost use Rattle.std.specs.Prelude.{Some, None, drop};
ghost use Rattle.std.specs.Prelude.{true, length, IfOk, IfSome, IsOk, OnOk, vec_len, vec_capacity};
ghost use Rattle.amqp_write.specs.Passes.{listed};
ghost use Rattle.amqp_write.specs.State.{size_in};

use crate::sizes::Sizes;
use amqp_base::{FaultCount, Pass, Sink, Size};
use std::alloc::{AllocError, Global};
use std::io;
use std::io::{ErrorKind, Write};

/// Counts what is written, as far as can be counted, and collects the sizes of the compounds in the
/// order in which they open.
#[doc(hidden)]
#[derive(Drop)]
pub struct Measure {
    /// The bytes so far, at most `usize::MAX`.
    pub length: usize,
    /// The sizes so far, one for each compound that opened.
    pub sizes: Sizes,
}

impl Measure {
    /// The size of the compound that opened so many compounds behind the first.
    pub fn size(&self, at: usize) -> Option<Size>
        ensures { IfSome result (λ z. drop at (listed self.now.sizes) ≡
            size_in z ∷ drop (at + 1) (listed self.now.sizes)) }
    {
        self.sizes.get(at)
    }
}

impl FaultCount for Measure {
    ghost faults = { λ _. 0 };

    ghost last_fault = { λ _. None };

    ghost grows = { λ _. true };

    ghost measure = { λ m.
        Some (record { length = m.length; sizes = listed m.sizes }) };
}

impl Write for Measure {
    fn write(&mut self, bytes: &[u8]) -> io::Result<usize> {
        self.length = self.length.saturating_add(bytes.len());
        Ok(bytes.len())
    }

    fn flush(&mut self) -> io::Result<()> {
        Ok(())
    }
}

impl Sink for Measure {
    #[inline(always)]
    fn write_some(&mut self, bytes: &[u8]) -> Result<usize, ErrorKind> {
        self.length = self.length.saturating_add(bytes.len());
        Ok(bytes.len())
    }

    #[inline(always)]
    fn pass(&self) -> Pass {
        Pass::Measures
    }

    #[inline(always)]
    fn open_measured(&mut self) -> Option<usize> {
        self.sizes.open()
    }

    #[inline(always)]
    fn close_measured(&mut self, at: usize, size: Size) -> bool {
        self.sizes.set(at, size)
    }

    #[inline(always)]
    fn so_far(&self) -> Option<usize> {
        Some(self.length)
    }

    #[inline(always)]
    fn counts(&mut self, more: usize) -> bool {
        self.length = self.length.saturating_add(more);
        true
    }
}

/// A text that is written into room for all of it.
#[derive(Drop)]
pub struct Reserved {
    /// The text so far.
    pub bytes: Vec<u8>,
}

impl Reserved {
    /// No bytes yet, and room for so many, which the heap is asked for once.
    pub fn with_room(alloc: Global, length: usize) -> Result<Reserved, AllocError>
        ensures empty { IfOk result (λ r. r.bytes.items ≡ []) }
        ensures room { IfOk result (λ r. length ≤ vec_capacity r.bytes) }
    {
        match Vec::with_capacity(alloc, length) {
            Ok(bytes) => Ok(Reserved { bytes }),
            Err(e) => Err(e),
        }
    }

    /// Appends bytes. While the text fits into the room it is never refused.
    #[inline(always)]
    pub fn put(&mut self, more: &[u8]) -> Result<(), AllocError>
        ensures appended { OnOk result (self.new.bytes.items ≡ self.old.bytes.items ++ more.now) }
        ensures fits { vec_len self.old.bytes + length more.now ≤ vec_capacity self.old.bytes →
            IsOk result }
        ensures room { vec_capacity self.old.bytes ≤ vec_capacity self.new.bytes }
    {
        // so no call remains that moves the bytes, and the vector stays in registers
        if more.len() > self.bytes.capacity() - self.bytes.len() {
            return Err(AllocError);
        }
        match self.bytes.extend_from_slice(more) {
            Ok(()) => Ok(()),
            Err(e) => Err(e),
        }
    }
}

/// Writes in one go: the text so far, the sizes of all compounds, and how many of them opened.
#[derive(Drop)]
pub struct Plan {
    /// The text so far.
    pub out: Reserved,
    /// The sizes of all compounds, in the order in which they open.
    pub sizes: Sizes,
    /// How many of them opened.
    pub next: usize,
}

impl FaultCount for Plan {
    ghost faults = { λ _. 0 };

    ghost last_fault = { λ _. None };

    ghost grows = { λ _. true };

    ghost plan = { λ p. Some (record {
      bytes = p.out.bytes.items;
      sizes = drop p.next (listed p.sizes);
    }) };
}

impl Write for Plan {
    fn write(&mut self, bytes: &[u8]) -> io::Result<usize> {
        match self.out.put(bytes) {
            Ok(()) => Ok(bytes.len()),
            Err(_) => Err(io::Error::from(ErrorKind::OutOfMemory)),
        }
    }

    fn flush(&mut self) -> io::Result<()> {
        Ok(())
    }
}

impl Sink for Plan {
    #[inline(always)]
    fn write_some(&mut self, bytes: &[u8]) -> Result<usize, ErrorKind> {
        match self.out.put(bytes) {
            Ok(()) => Ok(bytes.len()),
            Err(_) => Err(ErrorKind::OutOfMemory),
        }
    }

    #[inline(always)]
    fn pass(&self) -> Pass {
        Pass::Writes
    }

    #[inline(always)]
    fn next_size(&mut self) -> Option<Size> {
        let size = self.sizes.get(self.next)?;
        self.next += 1;
        Some(size)
    }

    #[inline(always)]
    fn so_far(&self) -> Option<usize> {
        Some(self.out.bytes.len())
    }
}

/// How a compound was opened.
#[derive(Clone, Copy)]
pub enum Opened {
    /// Its parts are in a buffer of their own.
    Buffered,
    /// Its size is the one at `at` of those that are measured; `before` bytes were counted before
    /// it.
    Measured { at: usize, before: usize },
    /// Its size is known, and its body begins behind `from` bytes.
    Written { size: Size, from: usize },
}
