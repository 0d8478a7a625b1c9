//! What every reader does.

ghost use Rattle.std.specs.Prelude.{◌≡◌, ◌⊎◌, ◌+◌, ◌^◌, ◌<◌};
ghost use Rattle.std.specs.Prelude.{Bool, true, false, IsTrue, [], ◌∷◌};
ghost use Rattle.std.specs.Prelude.{length, OnOk, OnErr, IfOk, IfErr};
ghost use Rattle.std.specs.Prelude.{MatchOption, string_bytes};
ghost use Rattle.amqp_read.specs.Reading.{Reading, Stays, Takes};
ghost use Rattle.amqp_read.specs.Steps.{Shows, MayCome, Ended, IsShort, Fails, NotTaken};
ghost use Rattle.amqp_read.specs.Steps.{PassesCount, Holds, Looked, AtHand, ShowsBehind, NotSeen};
ghost use Rattle.amqp_read.specs.Steps.{Passes, PassesSome, Failed, NotAtHand};
ghost use Rattle.amqp_read.specs.Raw.{TakesValue, TakesStrict, NoValue, HasValue};
ghost use Rattle.amqp_read.specs.Raw.{ValuePassesCount, MeasuresValue, Measures, NoScalar};
ghost use Rattle.amqp_read.specs.Raw.{SeesNumber, Sees};
ghost use Rattle.amqp_read.specs.Texts.{NoText};
ghost use Rattle.amqp_base.specs.declared.error.Error.TheVariants.{OutOfMemory};

use crate::raw::{Data, data_of};
use amqp_base::{Error, codes};
use std::alloc::Global;
use std::io::ErrorKind;

pub(crate) mod sealed {
    /// Only this crate's readers are readers.
    pub trait Sealed {}
}

/// Bytes to come, a position, and bytes that were received ahead. A refused call changes nothing
/// that a caller sees: the position stays, and no received byte is lost; `skip` alone may have
/// passed some bytes. Lengths and positions are in bytes.
///
/// What a call answers by the bytes to come, it says itself. Beside that a reader over a slice
/// refuses nothing, but for `OutOfMemory` where a call answers bytes or a text of its own. A reader
/// over a source also answers the source's own fault, `OutOfMemory` where its buffer finds no
/// memory, and `Io(Other)` where the bytes consumed would pass `usize::MAX`.
pub trait Read: sealed::Sealed + Drop {
    ghost reading: { Self → Reading };

    /// Whether bytes are received from a source, which may fail, into a buffer, which may find no
    /// memory.
    ghost buffers: { Bool };

    /// The next byte, which stays; `None` at the end.
    fn peek(&mut self) -> Result<Option<u8>, Error>
        ensures ok { IfOk result (λ o. MatchOption o (Ended (reading self.old)) (λ b.
            Shows (reading self.new) (b ∷ []))) }
        ensures looked { Looked 1 (reading self.old) (reading self.new) }
        ensures why { IfErr result (λ e.
            Fails buffers buffers (reading self.old) (reading self.new) e) };

    /// How many bytes were consumed; peeked bytes don't count.
    fn bytes_consumed(&self) -> usize
        ensures { result ≡ (reading self.now).taken };

    /// How many of the bytes to come are at hand, so that no source is asked for them: those that
    /// were received, and over a slice all.
    fn at_hand(&self) -> usize
        ensures { AtHand buffers result (reading self.now) };

    /// Consumes the next byte; `None` at the end.
    fn next(&mut self) -> Result<Option<u8>, Error>
        ensures ok { IfOk result (λ o.
            MatchOption o (Stays (reading self.old) (reading self.new) × Ended (reading self.old))
            (λ b. Takes (reading self.old) (reading self.new) (b ∷ []))) }
        ensures err { OnErr result (Stays (reading self.old) (reading self.new)) }
        ensures why { IfErr result (λ e.
            NotTaken buffers buffers 1 (reading self.old) (reading self.new) e) }
        ensures not_the_end { IfErr result (λ e. Fails buffers buffers (reading self.old)
            (reading self.new) e ⊎ PassesCount buffers 1 (reading self.old) e) };

    /// Fills `buf` with the next bytes; `Io(UnexpectedEof)` where fewer are to come. A refusal
    /// leaves `buf` as it was.
    fn read_exact(&mut self, buf: &mut [u8]) -> Result<(), Error>
        ensures len { length buf.new ≡ length buf.old }
        ensures ok { OnOk result (Takes (reading self.old) (reading self.new) buf.new) }
        ensures err { OnErr result (Stays (reading self.old) (reading self.new) ×
            (buf.new ≡ buf.old)) }
        ensures why { IfErr result (λ e.
            NotTaken buffers buffers (length buf.old) (reading self.old) (reading self.new) e) };

    /// Consumes the next four bytes, which say how large an item is, as `read_exact` does.
    #[doc(hidden)]
    #[inline(always)]
    fn read_size(&mut self) -> Result<[u8; 4], Error>
        ensures ok { IfOk result (λ b.
            (length b ≡ 4) × Takes (reading self.old) (reading self.new) b) }
        ensures err { OnErr result (Stays (reading self.old) (reading self.new)) }
        ensures why { IfErr result (λ e.
            NotTaken buffers buffers 4 (reading self.old) (reading self.new) e) }
    {
        let mut bytes = [0; 4];
        match self.read_exact(&mut bytes) {
            Ok(()) => Ok(bytes),
            Err(e) => Err(e),
        }
    }

    /// The next `n` bytes, which stay; `None` where fewer are to come.
    // No clause on how the reader ends reaches a caller's proof, since the error may own memory:
    // see `SliceReader`'s.
    fn peek_bytes(&mut self, n: usize) -> Result<Option<&[u8]>, Error>
        ensures ok { IfOk result (λ o. MatchOption o (IsShort n (reading self.old)) (λ b.
            (length b.now ≡ n) × MayCome (reading self.old) b.now)) }
        ensures why { IfErr result (λ e. Failed e × IsTrue buffers) };

    /// Consumes the next `n` bytes; `Io(UnexpectedEof)` where fewer are to come, `OutOfMemory`
    /// where the vector finds no memory. Memory for it is asked for only after the bytes are there.
    fn read_bytes(&mut self, alloc: Global, n: usize) -> Result<Vec<u8>, Error>
        ensures ok { IfOk result (λ v.
            (length v.items ≡ n) × Takes (reading self.old) (reading self.new) v.items) }
        ensures err { OnErr result (Stays (reading self.old) (reading self.new)) }
        ensures why { IfErr result (λ e.
            NotTaken true buffers n (reading self.old) (reading self.new) e) }
        ensures bytes_first { IfErr result (λ e.
            (e ≡ OutOfMemory) → (IsTrue buffers ⊎ Holds n (reading self.old).to_come)) };

    /// As `read_bytes`; `n` is a length that was announced.
    fn forward_read_bytes_with_hint(&mut self, alloc: Global, n: usize) -> Result<Vec<u8>, Error>
        ensures ok { IfOk result (λ v.
            (length v.items ≡ n) × Takes (reading self.old) (reading self.new) v.items) }
        ensures err { OnErr result (Stays (reading self.old) (reading self.new)) }
        ensures why { IfErr result (λ e.
            NotTaken true buffers n (reading self.old) (reading self.new) e) }
        ensures bytes_first { IfErr result (λ e.
            (e ≡ OutOfMemory) → (IsTrue buffers ⊎ Holds n (reading self.old).to_come)) }
    {
        self.read_bytes(alloc, n)
    }

    /// Consumes the next `n` bytes as a text; `Io(UnexpectedEof)` where fewer are to come,
    /// `InvalidUtf8Encoding` where they aren't UTF-8, `OutOfMemory` where the text finds no memory.
    /// Memory for it is asked for only after the bytes are there.
    fn forward_read_str(&mut self, alloc: Global, n: usize) -> Result<String, Error>
        ensures ok { IfOk result (λ t. (length (string_bytes t) ≡ n)
            × Takes (reading self.old) (reading self.new) (string_bytes t)) }
        ensures err { OnErr result (Stays (reading self.old) (reading self.new)) }
        ensures why { IfErr result (λ e. NoText n (reading self.old) e
            ⊎ NotTaken true buffers n (reading self.old) (reading self.new) e) }
        ensures bytes_first { IfErr result (λ e.
            (e ≡ OutOfMemory) → (IsTrue buffers ⊎ Holds n (reading self.old).to_come)) };

    /// Consumes the next value and gives its bytes, measured by its code and its size alone: what
    /// stands in it isn't looked at, and may be no form of any item. Behind 0x00 these are a
    /// descriptor and a value, neither of them described (part 1, section 1.2).
    ///
    /// `InvalidFormatCode`: a constructor, of the descriptor or of the value, is no code, or is
    /// 0x00. `Io(UnexpectedEof)`: fewer bytes are to come. `OutOfMemory`: the vector finds no
    /// memory, which is asked for only after the bytes are there.
    fn forward_read_byte_buf(&mut self, alloc: Global) -> Result<Vec<u8>, Error>
        ensures ok { IfOk result (λ v.
            TakesValue (reading self.old) (reading self.new) v.items) }
        ensures strict { IfOk result (λ v. TakesStrict (reading self.old) v.items) }
        ensures err { OnErr result (Stays (reading self.old) (reading self.new)) }
        ensures why { IfErr result (λ e. NoValue (reading self.old) e
            ⊎ (Fails true buffers (reading self.old) (reading self.new) e
            ⊎ ValuePassesCount buffers (reading self.old) e)) }
        ensures bytes_first { IfErr result (λ e.
            (e ≡ OutOfMemory) → (IsTrue buffers ⊎ HasValue (reading self.old).to_come)) }
    {
        match self.peek_value() {
            Ok(length) => self.read_bytes(alloc, length),
            Err(e) => Err(e),
        }
    }

    /// The byte behind the next `i`. All of them stay; `None` where no more than `i` are to come.
    #[doc(hidden)]
    fn peek_at(&mut self, i: usize) -> Result<Option<u8>, Error>
        ensures ok { IfOk result (λ o. MatchOption o (IsShort (i + 1) (reading self.old)) (λ b.
            ShowsBehind i (reading self.new) (b ∷ []))) }
        ensures looked { Looked (i + 1) (reading self.old) (reading self.new) }
        ensures why { IfErr result (λ e.
            Fails buffers buffers (reading self.old) (reading self.new) e) };

    /// A copy of the `n` bytes behind the next `from`. All of them stay; `Io(UnexpectedEof)` where
    /// fewer are to come, `OutOfMemory` where the vector finds no memory. Memory for it is asked
    /// for only after the bytes are there.
    #[doc(hidden)]
    fn peek_copied(&mut self, alloc: Global, from: usize, n: usize) -> Result<Vec<u8>, Error>
        ensures ok { IfOk result (λ v.
            (length v.items ≡ n) × ShowsBehind from (reading self.new) v.items) }
        ensures looked { Looked (from + n) (reading self.old) (reading self.new) }
        ensures why { IfErr result (λ e.
            NotSeen true buffers (from + n) (reading self.old) (reading self.new) e) }
        ensures bytes_first { IfErr result (λ e. (e ≡ OutOfMemory) →
            (IsTrue buffers ⊎ Holds (from + n) (reading self.old).to_come)) };

    /// The bytes at hand, of a source those that were received. All of them stay.
    #[doc(hidden)]
    fn bytes_at_hand(&self) -> &[u8]
        ensures shown { Shows (reading self.now) result.now }
        ensures received { IsTrue buffers → result.now ≡ (reading self.now).received }
        ensures all { AtHand buffers (length result.now) (reading self.now) };

    /// Consumes the next `n` bytes, where all of them are at hand and can be counted; else nothing
    /// changes. No source is asked.
    #[doc(hidden)]
    fn pass_at_hand(&mut self, n: usize) -> bool
        ensures passed { IsTrue result → Passes n (reading self.old) (reading self.new) }
        ensures else_kept { result ≡ false → reading self.new ≡ reading self.old }
        ensures else_few { result ≡ false → NotAtHand buffers n (reading self.old) };

    /// Receives some of the next `n` bytes where fewer are at hand, so that later calls need not
    /// ask for each of them alone. All of them stay. Over a slice there is nothing to do.
    #[doc(hidden)]
    fn receive_ahead(&mut self, n: usize) -> Result<(), Error>
        ensures looked { Looked n (reading self.old) (reading self.new) }
        ensures nothing { buffers ≡ false → reading self.new ≡ reading self.old }
        ensures why { IfErr result (λ e.
            Fails buffers buffers (reading self.old) (reading self.new) e) };

    /// Consumes the next `n` bytes, and keeps none of them; `Io(UnexpectedEof)` where fewer are to
    /// come. A refusal may have consumed some of them.
    #[doc(hidden)]
    fn skip(&mut self, n: usize) -> Result<(), Error>
        ensures ok { OnOk result (Passes n (reading self.old) (reading self.new)) }
        ensures err { OnErr result (PassesSome n (reading self.old) (reading self.new)) }
        ensures why { IfErr result (λ e.
            NotTaken buffers buffers n (reading self.old) (reading self.new) e) };

    /// How many bytes the next value has. All of them stay.
    #[doc(hidden)]
    fn peek_value(&mut self) -> Result<usize, Error>
        ensures ok { IfOk result (λ n.
            MeasuresValue n (reading self.old) (reading self.new)) }
        ensures looked { IfOk result (λ n. Looked n (reading self.old) (reading self.new)) }
        ensures err { OnErr result (Stays (reading self.old) (reading self.new)) }
        ensures why { IfErr result (λ e. NoValue (reading self.old) e
            ⊎ Fails buffers buffers (reading self.old) (reading self.new) e) }
    {
        match self.peek_byte(0) {
            Ok(codes::DESCRIBED_TYPE) => {}
            Ok(_) => return self.peek_scalar(0),
            Err(e) => return Err(e),
        }
        let descriptor = match self.peek_scalar(1) {
            Ok(length) => length,
            Err(e) => return Err(e),
        };
        match self.peek_scalar(1 + descriptor) {
            Ok(value) => Ok(1 + descriptor + value),
            Err(e) => Err(e),
        }
    }

    /// How many bytes the value behind the next `from` has, whose constructor is one code. All of
    /// them stay.
    #[doc(hidden)]
    fn peek_scalar(&mut self, from: usize) -> Result<usize, Error>
        requires { from < 2 ^ 48 }
        ensures ok { IfOk result (λ n.
            Measures from n (reading self.old) (reading self.new)) }
        ensures looked { IfOk result (λ n. Looked (from + n) (reading self.old)
            (reading self.new)) }
        ensures err { OnErr result (Stays (reading self.old) (reading self.new)) }
        ensures why { IfErr result (λ e. NoScalar from (reading self.old) e
            ⊎ Fails buffers buffers (reading self.old) (reading self.new) e) }
    {
        let code = match self.peek_byte(from) {
            Ok(code) => code,
            Err(e) => return Err(e),
        };
        match data_of(code) {
            Ok(Data::Fixed(width)) => Ok(1 + width),
            Ok(Data::Size8) => match self.peek_byte(from + 1) {
                Ok(size) => Ok(2 + size as usize),
                Err(e) => Err(e),
            },
            Ok(Data::Size32) => match self.peek_size(from + 1) {
                Ok(size) => Ok(5 + size as usize),
                Err(e) => Err(e),
            },
            Err(e) => Err(e),
        }
    }

    /// The number in the four bytes behind the next `from`. All of them stay.
    #[doc(hidden)]
    fn peek_size(&mut self, from: usize) -> Result<u32, Error>
        requires { from < 2 ^ 49 }
        ensures ok { IfOk result (λ n.
            SeesNumber from 4 n (reading self.old) (reading self.new)) }
        ensures looked { Looked (from + 4) (reading self.old) (reading self.new) }
        ensures why { IfErr result (λ e.
            NotSeen buffers buffers (from + 4) (reading self.old) (reading self.new) e) }
    {
        let a = self.peek_byte(from)?;
        let b = self.peek_byte(from + 1)?;
        let c = self.peek_byte(from + 2)?;
        let d = self.peek_byte(from + 3)?;
        Ok(u32::from_be_bytes([a, b, c, d]))
    }

    /// The byte behind the next `i`, which stays; `Io(UnexpectedEof)` where there is none.
    #[doc(hidden)]
    fn peek_byte(&mut self, i: usize) -> Result<u8, Error>
        ensures ok { IfOk result (λ b.
            Sees i (b ∷ []) (reading self.old) (reading self.new)) }
        ensures looked { Looked (i + 1) (reading self.old) (reading self.new) }
        ensures why { IfErr result (λ e.
            NotSeen buffers buffers (i + 1) (reading self.old) (reading self.new) e) }
    {
        match self.peek_at(i) {
            Ok(Some(b)) => Ok(b),
            Ok(None) => Err(Error::Io(ErrorKind::UnexpectedEof)),
            Err(e) => Err(e),
        }
    }
}

/// Consumes the next `N` bytes; `Io(UnexpectedEof)` where fewer are to come. A refusal consumes
/// nothing.
#[inline(always)]
pub fn read_const_bytes<R: Read, const N: usize>(reader: &mut R) -> Result<[u8; N], Error>
    ensures ok { IfOk result (λ b.
        (length b ≡ N) × Takes (R.reading reader.old) (R.reading reader.new) b) }
    ensures err { OnErr result (Stays (R.reading reader.old) (R.reading reader.new)) }
    ensures why { IfErr result (λ e.
        NotTaken R.buffers R.buffers N (R.reading reader.old) (R.reading reader.new) e) }
{
    let mut bytes = [0; N];
    match reader.read_exact(&mut bytes) {
        Ok(()) => Ok(bytes),
        Err(e) => Err(e),
    }
}
