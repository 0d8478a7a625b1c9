//! A reader over a source, which gives its bytes piece by piece.

ghost use Rattle.std.specs.Prelude.{◌≡◌, ◌⊎◌, ◌<◌, ◌≤◌, ◌+◌, ◌^◌};
ghost use Rattle.std.specs.Prelude.{true, false, [], ◌∷◌, length, take};
ghost use Rattle.std.specs.Prelude.{IfErr, OnOk, IsTrue, MatchOption};
ghost use Rattle.std.specs.Prelude.{Some, None, Ok, Err, slice_get};
ghost use Rattle.amqp_base.specs.Faults.{refusal_of};
ghost use Rattle.std.specs.declared.io.ErrorKind.TheVariants.{UnexpectedEof};
ghost use Rattle.amqp_base.specs.declared.error.Error.TheVariants.{Io, OutOfMemory};
ghost use Rattle.amqp_read.specs.Reading.{Takes};
ghost use Rattle.amqp_read.specs.Steps.{Looked, NotAtHand, NotSeen};
ghost use Rattle.amqp_read.specs.Streaming.{InVector, IsLean, NoneInVector, SawMore};
ghost use Rattle.amqp_read.specs.Streaming.{reads};

mod blocks;
mod filling;
mod passing;
mod payloads;

use crate::Read;
use crate::buffer::Buffer;
use crate::read::sealed::Sealed;
use amqp_base::{Error, Source};
use std::alloc::Global;
use std::io::ErrorKind;
use std::marker::Model;

/// Reads from a source, which is never asked for more bytes than a call needs.
#[derive(Drop)]
pub struct IoReader<S: Source> {
    source: S,
    buffer: Buffer,
    taken: usize,
}

impl<S: Source> Model for IoReader<S> {
    ghost use Rattle.std.specs.Prelude.{◌+◌, ◌≤◌};
    ghost use Rattle.amqp_read.specs.Streaming.{Streaming, reads};

    ghost Value = { Streaming };

    ghost view = { λ r. record {
      reading = reads r.buffer.unread (S.remaining r.source) r.taken (S.faults r.source)
          (S.last_fault r.source) (S.is_honest r.source) (S.origin r.source);
      buffer = r.buffer;
    } };

    ghost invariant = { λ r. r.buffer.moved + r.buffer.start ≤ r.taken };
}

impl<S: Source> IoReader<S> {
    /// Reads what `source` gives from here on. Its buffer takes no memory yet.
    pub fn new(alloc: Global, source: S) -> IoReader<S>
        ensures reading { result.reading ≡ reads [] (S.remaining source) 0 (S.faults source)
            (S.last_fault source) (S.is_honest source) (S.origin source) }
        ensures counts { (result.buffer.moved ≡ 0) × (result.buffer.most ≡ 0) }
    {
        IoReader {
            source,
            buffer: Buffer::new(alloc),
            taken: 0,
        }
    }

    /// The source. Bytes that were received and not consumed are dropped.
    pub fn into_inner(self) -> S
        ensures { reads self.reading.received (S.remaining result) self.reading.taken
            (S.faults result) (S.last_fault result) (S.is_honest result) (S.origin result)
            ≡ self.reading }
    {
        let IoReader {
            source,
            buffer: _,
            taken: _,
        } = self;
        source
    }

    /// Consumes a received byte; `None` where none is unread, or where the count of bytes consumed
    /// ends.
    #[inline(always)]
    pub fn pop_first(&mut self) -> Option<u8>
        ensures { MatchOption result
            ((self.new ≡ self.old)
            × ((self.old.reading.received ≡ []) ⊎ (2 ^ 64 ≤ self.old.reading.taken + 1)))
            (λ b. Takes self.old.reading self.new.reading (b ∷ [])
            × (slice_get self.old.reading.received 0 ≡ Some b)) }
    {
        if self.received() == 0 || self.taken == usize::MAX {
            return None;
        }
        let b = self.buffer.unread()[0];
        self.consume(1);
        Some(b)
    }

    /// How many bytes are received and unread.
    #[inline(always)]
    fn received(&self) -> usize
        ensures len { result ≡ length self.now.reading.received }
        ensures seen { result ≤ self.now.buffer.most }
    {
        self.buffer.len()
    }

    /// Receives bytes until `n` are received and unread; `Io(UnexpectedEof)` where fewer are to
    /// come. None is consumed.
    pub fn fill_buffer(&mut self, n: usize) -> Result<(), Error>
        ensures ok { OnOk result (n ≤ length self.new.reading.received) }
        ensures looked { Looked n self.old.reading self.new.reading }
        ensures why { IfErr result (λ e.
            NotSeen true true n self.old.reading self.new.reading e) }
        ensures most { SawMore self.old self.new }
    {
        match self.fill(n) {
            Ok(true) => Ok(()),
            Ok(false) => Err(Error::Io(ErrorKind::UnexpectedEof)),
            Err(kind) => Err(Error::from(kind)),
        }
    }

    /// `n` of the bytes that were received are consumed.
    #[inline(always)]
    fn consume(&mut self, n: usize)
        requires received { n ≤ length self.old.reading.received }
        requires counted { self.old.reading.taken + n < 2 ^ 64 }
        ensures { Takes self.old.reading self.new.reading (take n self.old.reading.received) }
    {
        self.buffer.consume(n);
        self.taken += n;
    }

    /// Consumes a byte that stands in the buffer's vector, where it can be counted.
    #[inline(always)]
    fn pop_in_vector(&mut self) -> Option<u8>
        ensures { MatchOption result ((self.new ≡ self.old)
            × (NoneInVector self.old ⊎ (2 ^ 64 ≤ self.old.reading.taken + 1)))
            (λ b. Takes self.old.reading self.new.reading (b ∷ [])) }
    {
        if self.buffer.len_in_vector() == 0 || self.taken == usize::MAX {
            return None;
        }
        let b = self.buffer.front_in_vector(1)[0];
        self.consume_in_vector(1);
        Some(b)
    }

    /// `n` of the bytes that stand in the buffer's vector are consumed.
    #[inline(always)]
    fn consume_in_vector(&mut self, n: usize)
        requires there { InVector n self.old }
        requires counted { self.old.reading.taken + n < 2 ^ 64 }
        ensures { Takes self.old.reading self.new.reading (take n self.old.reading.received) }
    {
        self.buffer.consume_in_vector(n);
        self.taken += n;
    }

    /// Whether `n` bytes stand in the buffer's vector that can be counted.
    #[inline(always)]
    fn has_in_vector(&self, n: usize) -> bool
        ensures there { IsTrue result → InVector n self.now }
        ensures counted { IsTrue result → self.now.reading.taken + n < 2 ^ 64 }
    {
        self.buffer.len_in_vector() >= n && usize::MAX - self.taken >= n
    }

    /// The received bytes go into the buffer's vector: whether there is memory for it.
    fn settle(&mut self) -> bool
        ensures same { self.new.reading ≡ self.old.reading }
        ensures there { IsTrue result → self.new.buffer.in_place ≡ 0 }
    {
        !self.buffer.is_in_place() || self.buffer.make_room(0, 0)
    }

    /// Whether nothing was received, and `n` bytes, `most` at most, can be counted.
    #[inline(always)]
    fn can_ask_at_once(&self, n: usize, most: usize) -> bool
        ensures received { IsTrue result → self.now.reading.received ≡ [] }
        ensures few { IsTrue result → (0 < n) × (n ≤ most) }
        ensures counted { IsTrue result → self.now.reading.taken + n < 2 ^ 64 }
    {
        self.received() == 0 && 0 < n && n <= most && n <= usize::MAX - self.taken
    }

    /// Whether `n` bytes are received that can be counted.
    #[inline(always)]
    fn has_received(&self, n: usize) -> bool
        ensures received { IsTrue result → n ≤ length self.now.reading.received }
        ensures counted { IsTrue result → self.now.reading.taken + n < 2 ^ 64 }
        ensures else_few { result ≡ false → NotAtHand true n self.now.reading }
    {
        self.received() >= n && usize::MAX - self.bytes_consumed() >= n
    }
}

/// What is answered where there is no next byte: nothing at the end, else the fault.
#[inline(always)]
fn no_byte(fault: Option<ErrorKind>) -> Result<Option<u8>, Error>
    ensures { MatchOption fault (result ≡ Ok None) (λ kind. result ≡ Err (refusal_of kind)) }
{
    match fault {
        None => Ok(None),
        Some(kind) => Err(Error::from(kind)),
    }
}

impl<S: Source> Sealed for IoReader<S> {}

impl<S: Source> Read for IoReader<S> {
    ghost reading = { λ r. r.reading };

    ghost buffers = { true };

    #[inline(always)]
    fn peek(&mut self) -> Result<Option<u8>, Error> {
        match self.buffer.in_vector().first() {
            Some(b) => Ok(Some(*b)),
            None => {
                let mut fault = None;
                match self.look(&mut fault) {
                    Some(b) => Ok(Some(b)),
                    None => no_byte(fault),
                }
            }
        }
    }

    /// However many calls there were, the bytes moved inside the buffer plus its start index are
    /// at most those consumed, and it holds at most twice the most bytes unread at once so far.
    #[inline(always)]
    fn bytes_consumed(&self) -> usize
        ensures taken { result ≡ self.now.reading.taken }
        ensures lean { IsLean result self.now.buffer }
    {
        let _unread = self.buffer.len();
        self.taken
    }

    #[inline(always)]
    fn at_hand(&self) -> usize {
        self.buffer.len()
    }

    #[inline(always)]
    fn next(&mut self) -> Result<Option<u8>, Error> {
        match self.pop_in_vector() {
            Some(b) => Ok(Some(b)),
            None => {
                let mut fault = None;
                match self.next_not_in_vector(&mut fault) {
                    Some(b) => Ok(Some(b)),
                    None => no_byte(fault),
                }
            }
        }
    }

    #[inline(always)]
    fn read_exact(&mut self, buf: &mut [u8]) -> Result<(), Error> {
        if self.take_in_vector(buf) {
            return Ok(());
        }
        self.read_not_in_vector(buf)
    }

    // The source is asked out of line: else the calls that read texts and lists would be too large
    // to be inlined.
    #[inline(always)]
    fn read_size(&mut self) -> Result<[u8; 4], Error> {
        let mut bytes = [0; 4];
        if self.take_in_vector(&mut bytes) {
            return Ok(bytes);
        }
        match self.read_apart(&mut bytes) {
            Ok(()) => Ok(bytes),
            Err(e) => Err(e),
        }
    }

    fn peek_bytes(&mut self, n: usize) -> Result<Option<&[u8]>, Error> {
        match self.fill(n) {
            Ok(_) => Ok(self.buffer.front(n)),
            Err(refusal) => Err(Error::from(refusal)),
        }
    }

    fn read_bytes(&mut self, alloc: Global, n: usize) -> Result<Vec<u8>, Error> {
        if self.has_in_vector(n) {
            return match self.take_received_bytes(alloc, n) {
                Ok(bytes) => Ok(bytes),
                Err(e) => Err(e),
            };
        }
        match self.receive_at_once(alloc, n) {
            Ok(Some(bytes)) => {
                self.consume_apart(&bytes);
                Ok(bytes)
            }
            Ok(None) => match self.read_bytes_buffered(alloc, n) {
                Ok(bytes) => Ok(bytes),
                Err(e) => Err(e),
            },
            Err(e) => Err(e),
        }
    }

    #[inline(always)]
    fn forward_read_str(&mut self, alloc: Global, n: usize) -> Result<String, Error> {
        if self.has_in_vector(n) {
            return match self.take_received_text(alloc, n) {
                Ok(text) => Ok(text),
                Err(e) => Err(e),
            };
        }
        match self.receive_at_once(alloc, n) {
            Ok(Some(bytes)) => match self.take_text(bytes) {
                Ok(text) => Ok(text),
                Err(e) => Err(e),
            },
            Ok(None) => match self.read_text_buffered(alloc, n) {
                Ok(text) => Ok(text),
                Err(e) => Err(e),
            },
            Err(e) => Err(e),
        }
    }

    // No buffer holds `usize::MAX` bytes.
    fn peek_at(&mut self, i: usize) -> Result<Option<u8>, Error> {
        match self.fill(i.saturating_add(1)) {
            Ok(true) => match self.buffer.unread().get(i) {
                Some(b) => Ok(Some(*b)),
                None => Err(Error::OutOfMemory),
            },
            Ok(false) => Ok(None),
            Err(kind) => Err(Error::from(kind)),
        }
    }

    fn peek_copied(&mut self, alloc: Global, from: usize, n: usize) -> Result<Vec<u8>, Error> {
        match self.fill(from.saturating_add(n)) {
            Ok(true) => {
                let unread = self.buffer.unread();
                if from > unread.len() || n > unread.len() - from {
                    return Err(Error::OutOfMemory);
                }
                match Vec::from_slice(alloc, &unread[from..from + n]) {
                    Ok(bytes) => Ok(bytes),
                    Err(_) => Err(Error::OutOfMemory),
                }
            }
            Ok(false) => Err(Error::Io(ErrorKind::UnexpectedEof)),
            Err(kind) => Err(Error::from(kind)),
        }
    }

    #[inline(always)]
    fn bytes_at_hand(&self) -> &[u8] {
        self.buffer.unread()
    }

    #[inline(always)]
    fn pass_at_hand(&mut self, n: usize) -> bool {
        if self.has_in_vector(n) {
            self.consume_in_vector(n);
            return true;
        }
        self.pass_received(n)
    }

    #[inline(always)]
    fn receive_ahead(&mut self, n: usize) -> Result<(), Error> {
        if n <= self.received() {
            return Ok(());
        }
        let asked = self.more(n);
        match asked {
            Ok(_) => Ok(()),
            Err(kind) => Err(Error::from(kind)),
        }
    }

    fn skip(&mut self, n: usize) -> Result<(), Error> {
        if n > usize::MAX - self.taken {
            return Err(self.uncounted(n));
        }
        let mut left = n;
        'bytes: while left > 0 {
            match self.pass(left) {
                Ok(0) => return Err(Error::Io(ErrorKind::UnexpectedEof)),
                Ok(k) => left -= k,
                Err(e) => return Err(e),
            }
        }
        Ok(())
    }
}
