//! Sources and sinks of bytes, and how often they failed.

ghost use Rattle.std.specs.Prelude.{◌≡◌, ◌<◌, ◌≤◌, ℕ, Bool, true, false, List};
ghost use Rattle.std.specs.Prelude.{[], ◌∷◌, length, Option, None, Some, ◌+◌, IfOk};
ghost use Rattle.std.specs.Prelude.{IfSome, IsTrue};
ghost use Rattle.std.specs.Borrow.{GName};
ghost use Rattle.std.specs.Io.KnownBytes.{WriteAppends, ReadConsumes, IsAtEnd};
ghost use Rattle.std.specs.declared.io.ErrorKind.{ErrorKind};
ghost use Rattle.amqp_base.specs.Faults.{Counts, Remembers};
ghost use Rattle.amqp_base.specs.Passes.{Planned, Measured, Plans, Measures, MakesRoom, SetsSize};
ghost use Rattle.amqp_base.specs.Passes.{TakesNext, IsCounted, IsWritten, CountsMore};

use crate::Count;
use std::io;
use std::io::{Read, Write};

/// How many faults a value has answered, and the kind of the last, for contracts alone. Reading and
/// writing refuse with a device's own kind of fault only where this count rose, and then with that
/// kind.
pub trait FaultCount {
    ghost faults: { Self → ℕ };

    /// The kind of the last of them.
    ghost last_fault: { Self → Option ErrorKind };

    /// Whether want of memory may go uncounted. No call changes it.
    ghost grows: { Self → Bool };

    /// What a writer that knows all sizes has written, and which are still to come. Only writers of
    /// the codec's own have one.
    ghost plan: { Self → Option Planned } = { λ _. None };

    /// What a writer that only counts has counted. Only writers of the codec's own do so.
    ghost measure: { Self → Option Measured } = { λ _. None };
}

/// What a writer does with the parts of a compound.
#[doc(hidden)]
#[derive(Clone, Copy)]
pub enum Pass {
    /// It takes the whole.
    Buffers,
    /// It counts them, before their header.
    Measures,
    /// It takes them behind their header.
    Writes,
}

/// The length of a compound's body, and the count of its parts.
#[doc(hidden)]
#[derive(Clone, Copy)]
pub struct Size {
    /// The length of the body.
    pub length: usize,
    /// The count of the parts.
    pub count: usize,
}

/// A reader, by the one call that the codec makes.
pub trait Source: Read + FaultCount + Drop {
    /// Whether 0 bytes for a buffer that isn't empty come only at the end.
    ghost is_honest: { Self → Bool };

    /// The references through which it is lent, outermost first.
    ghost origin: { Self → List GName };

    /// Reads some bytes into the front of `buf` and answers how many, at most its length. 0 for a
    /// buffer that isn't empty comes only at the end of a source whose bytes are known, or that is
    /// honest. An `Err` is the kind of the device's fault, the last one then: it raises the count
    /// of faults by 1 (want of memory of a source that grows may not) and takes none of the known
    /// bytes, while `buf` may hold anything.
    fn read_some(&mut self, buf: &mut [u8]) -> Result<usize, io::ErrorKind>
        ensures len { length buf.new ≡ length buf.old }
        ensures bound { IfOk result (λ n. n ≤ length buf.new) }
        ensures bytes { ReadConsumes (Self.remaining self.old) (Self.remaining self.new)
            result buf.new }
        ensures counts { Counts (Self.grows self.old) (Self.faults self.old)
            (Self.faults self.new) result }
        ensures kind { Remembers (Self.faults self.old) (Self.faults self.new)
            (Self.last_fault self.old) (Self.last_fault self.new) result }
        ensures end { IsTrue (is_honest self.old) → IfOk result (λ n.
            n ≡ 0 → 0 < length buf.old → IsAtEnd (Self.remaining self.old)) }
        ensures honest { is_honest self.new ≡ is_honest self.old }
        ensures origin { origin self.new ≡ origin self.old }
        ensures grows { Self.grows self.new ≡ Self.grows self.old };
}

/// A writer, by the one call that the codec makes.
pub trait Sink: Write + FaultCount + Drop {
    /// Writes some bytes of the front of `bytes`, at least one where there is one, and answers how
    /// many. An `Err` is the kind of the device's fault, the last one then: it raises the count of
    /// faults by 1 (want of memory of a sink that grows may not) and leaves the known contents as
    /// they were.
    fn write_some(&mut self, bytes: &[u8]) -> Result<usize, io::ErrorKind>
        ensures bound { IfOk result (λ n. n ≤ length bytes.now) }
        ensures some { IfOk result (λ n. 0 < length bytes.now → 0 < n) }
        ensures bytes { WriteAppends (Self.contents self.old) (Self.contents self.new)
            result bytes.now }
        ensures counts { Counts (Self.grows self.old) (Self.faults self.old)
            (Self.faults self.new) result }
        ensures kind { Remembers (Self.faults self.old) (Self.faults self.new)
            (Self.last_fault self.old) (Self.last_fault self.new) result }
        ensures grows { Self.grows self.new ≡ Self.grows self.old }
        ensures plan { Plans (Self.plan self.old) (Self.plan self.new) result bytes.now }
        ensures measure { Measures (Self.measure self.old) (Self.measure self.new) result };

    /// What becomes of the parts of a compound.
    #[doc(hidden)]
    fn pass(&self) -> Pass {
        Pass::Buffers
    }

    /// Makes a place for the size of a compound that opens while it is counted: the place.
    #[doc(hidden)]
    fn open_measured(&mut self) -> Option<usize>
        ensures room { IfSome result (λ at.
            MakesRoom (Self.measure self.old) at (Self.measure self.new)) }
        ensures alone { IfSome result (λ _. Self.plan self.old ≡ None) }
        ensures plan { Self.plan self.new ≡ Self.plan self.old }
        ensures faults { Self.faults self.new ≡ Self.faults self.old }
        ensures last { Self.last_fault self.new ≡ Self.last_fault self.old }
        ensures grows { Self.grows self.new ≡ Self.grows self.old }
    {
        None
    }

    /// Puts the size of a compound that ends at the place that it was given. Whether it did.
    #[doc(hidden)]
    fn close_measured(&mut self, at: usize, size: Size) -> bool
        ensures set { IsTrue result → SetsSize (Self.measure self.old) at size.length size.count
            (Self.measure self.new) }
        ensures plan { Self.plan self.new ≡ Self.plan self.old }
        ensures faults { Self.faults self.new ≡ Self.faults self.old }
        ensures last { Self.last_fault self.new ≡ Self.last_fault self.old }
        ensures grows { Self.grows self.new ≡ Self.grows self.old }
    {
        let _ = at;
        let _ = size;
        false
    }

    /// Takes the size of the compound that opens next.
    #[doc(hidden)]
    fn next_size(&mut self) -> Option<Size>
        ensures next { IfSome result (λ z.
            TakesNext (Self.plan self.old) z.length z.count (Self.plan self.new)) }
        ensures alone { IfSome result (λ _. Self.measure self.old ≡ None) }
        ensures measure { Self.measure self.new ≡ Self.measure self.old }
        ensures faults { Self.faults self.new ≡ Self.faults self.old }
        ensures last { Self.last_fault self.new ≡ Self.last_fault self.old }
        ensures grows { Self.grows self.new ≡ Self.grows self.old }
    {
        None
    }

    /// How many bytes were counted or written.
    #[doc(hidden)]
    fn so_far(&self) -> Option<usize>
        ensures counted { IfSome result (λ n. IsCounted (Self.measure self.now) n) }
        ensures written { IfSome result (λ n. IsWritten (Self.plan self.now) n) }
    {
        None
    }

    /// Counts so many bytes more, where it only counts. Whether it did.
    #[doc(hidden)]
    fn counts(&mut self, more: usize) -> bool
        ensures counted { IsTrue result →
            CountsMore (Self.measure self.old) more (Self.measure self.new) }
        ensures alone { IsTrue result → Self.plan self.old ≡ None }
        ensures untold { IsTrue result → Self.contents self.old ≡ None }
        ensures same { result ≡ false → self.new ≡ self.old }
        ensures plan { Self.plan self.new ≡ Self.plan self.old }
        ensures faults { Self.faults self.new ≡ Self.faults self.old }
        ensures last { Self.last_fault self.new ≡ Self.last_fault self.old }
        ensures grows { Self.grows self.new ≡ Self.grows self.old }
    {
        let _ = more;
        false
    }
}

/// A vector has no faults but want of memory.
impl FaultCount for Vec<u8> {
    ghost faults = { λ _. 0 };

    ghost last_fault = { λ _. None };

    ghost grows = { λ _. true };
}

impl Sink for Vec<u8> {
    #[inline(always)]
    fn write_some(&mut self, bytes: &[u8]) -> Result<usize, io::ErrorKind> {
        match self.extend_from_slice(bytes) {
            Ok(()) => Ok(bytes.len()),
            Err(_) => Err(io::ErrorKind::OutOfMemory),
        }
    }
}

/// A slice has no faults.
impl FaultCount for &[u8] {
    ghost faults = { λ _. 0 };

    ghost last_fault = { λ _. None };

    ghost grows = { λ _. false };
}

impl Source for &[u8] {
    ghost is_honest = { λ _. true };

    ghost origin = { λ _. [] };

    #[inline(always)]
    fn read_some(&mut self, buf: &mut [u8]) -> Result<usize, io::ErrorKind> {
        // one byte, or as many as the compiler knows, are asked for so often that a copy's call
        // would show
        if buf.len() == 1 {
            return match self.split_first() {
                Some((first, rest)) => {
                    buf[0] = *first;
                    *self = rest;
                    Ok(1)
                }
                None => Ok(0),
            };
        }
        let wanted = buf.len();
        if wanted <= self.len() {
            let (front, rest) = self.split_at(wanted);
            buf.copy_from_slice(front);
            *self = rest;
            return Ok(wanted);
        }
        let n = self.len();
        let (front, rest) = self.split_at(n);
        let (head, _) = buf.split_at_mut(n);
        head.copy_from_slice(front);
        *self = rest;
        Ok(n)
    }
}

/// What is lent has the faults of its owner.
impl<T: FaultCount> FaultCount for &mut T {
    ghost faults = { λ t. T.faults t.now };

    ghost last_fault = { λ t. T.last_fault t.now };

    ghost grows = { λ t. T.grows t.now };
}

impl<S: Source> Source for &mut S {
    ghost is_honest = { λ s. S.is_honest s.now };

    ghost origin = { λ s. s.ghost_name ∷ S.origin s.now };

    #[inline(always)]
    fn read_some(&mut self, buf: &mut [u8]) -> Result<usize, io::ErrorKind> {
        (**self).read_some(buf)
    }
}

impl<W: Sink> Sink for &mut W {
    fn write_some(&mut self, bytes: &[u8]) -> Result<usize, io::ErrorKind> {
        (**self).write_some(bytes)
    }
}

/// Any reader or writer, with its faults counted, by a counter that takes no bytes, and the kind of
/// the last of them kept. It isn't claimed honest. A write that takes no byte of some is the fault
/// `WriteZero`. No call retries an `Interrupted` fault.
#[derive(Drop)]
pub struct Counted<T> {
    inner: T,
    faults: Count,
    last: Option<io::ErrorKind>,
}

impl<T> Counted<T> {
    /// Counts the faults of `inner` from here on.
    pub fn new(inner: T) -> Counted<T>
        ensures inner { result.inner ≡ inner }
        ensures faults { result.faults.n ≡ 0 }
    {
        Counted {
            inner,
            faults: Count::new(),
            last: None,
        }
    }

    /// The reader or writer.
    pub fn into_inner(self) -> T
        ensures { result ≡ self.inner }
    {
        let Counted {
            inner,
            faults: _,
            last: _,
        } = self;
        inner
    }

    /// Counts a fault, and hands on its kind.
    #[cold]
    #[inline(never)]
    fn failed(&mut self, kind: io::ErrorKind) -> io::ErrorKind
        ensures kind { result ≡ kind }
        ensures faults { self.new.faults.n ≡ self.old.faults.n + 1 }
        ensures last { self.new.last ≡ Some kind }
        ensures inner { self.new.inner ≡ self.old.inner }
    {
        self.faults.tick();
        self.last = Some(kind);
        kind
    }
}

impl<T> FaultCount for Counted<T> {
    ghost faults = { λ c. c.faults.n };

    ghost last_fault = { λ c. c.last };

    ghost grows = { λ _. false };
}

impl<T: Read> Read for Counted<T> {
    ghost remaining = { λ c. T.remaining c.inner };

    fn read(&mut self, buf: &mut [u8]) -> io::Result<usize> {
        self.inner.read(buf)
    }
}

impl<T: Read + Drop> Source for Counted<T> {
    ghost is_honest = { λ _. false };

    ghost origin = { λ _. [] };

    #[inline(always)]
    fn read_some(&mut self, buf: &mut [u8]) -> Result<usize, io::ErrorKind> {
        match self.inner.read(buf) {
            Ok(n) => Ok(n),
            Err(e) => { Err(self.failed(e.kind())) }
        }
    }
}

impl<T: Write> Write for Counted<T> {
    ghost contents = { λ c. T.contents c.inner };

    fn write(&mut self, bytes: &[u8]) -> io::Result<usize> {
        self.inner.write(bytes)
    }

    fn flush(&mut self) -> io::Result<()> {
        self.inner.flush()
    }
}

impl<T: Write + Drop> Sink for Counted<T> {
    fn write_some(&mut self, bytes: &[u8]) -> Result<usize, io::ErrorKind> {
        match self.inner.write(bytes) {
            Ok(n) => {
                if n == 0 && !bytes.is_empty() {
                    return Err(self.failed(io::ErrorKind::WriteZero));
                }
                Ok(n)
            }
            Err(e) => { Err(self.failed(e.kind())) }
        }
    }
}
