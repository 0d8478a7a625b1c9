//! Receiving until so many bytes are unread.

ghost use Rattle.std.specs.Prelude.{◌≡◌, ◌<◌, ◌≤◌, ◌+◌, ◌^◌};
ghost use Rattle.std.specs.Prelude.{true, false, [], ◌∷◌, length};
ghost use Rattle.std.specs.Prelude.{IfOk, IfErr, IfSome, OnOk, IsTrue, MatchOption, None};
ghost use Rattle.std.specs.declared.io.ErrorKind.TheVariants.{UnexpectedEof};
ghost use Rattle.amqp_base.specs.declared.error.Error.TheVariants.{Io};
ghost use Rattle.amqp_base.specs.Faults.{refusal_of};
ghost use Rattle.amqp_read.specs.Steps.{Ended, IsShort, Looked, Fails, NotTaken, Shows};
ghost use Rattle.amqp_read.specs.Streaming.{InVector, SawMore};

use super::IoReader;
use amqp_base::{Error, Source};
use std::io::ErrorKind;

impl<S: Source> IoReader<S> {
    /// Asks the source once for what `n` unread bytes lack: whether it gave some.
    pub(super) fn more(&mut self, n: usize) -> Result<bool, ErrorKind>
        requires { length self.old.reading.received < n }
        ensures looked { Looked n self.old.reading self.new.reading }
        ensures some { IfOk result (λ some. IsTrue some →
            length self.old.reading.received < length self.new.reading.received) }
        ensures short { IfOk result (λ some. some ≡ false → IsShort n self.old.reading) }
        ensures why { IfErr result (λ kind.
            Fails true true self.old.reading self.new.reading (refusal_of kind)) }
        ensures most { SawMore self.old self.new }
    {
        let lacking = n - self.buffer.len();
        match self.buffer.receive(&mut self.source, lacking) {
            Ok(got) => Ok(got != 0),
            Err(kind) => Err(kind),
        }
    }

    /// Whether `n` bytes are received and unread, once the source was asked for what they lack.
    pub(super) fn fill(&mut self, n: usize) -> Result<bool, ErrorKind>
        ensures looked { Looked n self.old.reading self.new.reading }
        ensures full { IfOk result (λ f. IsTrue f → n ≤ length self.new.reading.received) }
        ensures short { IfOk result (λ f. f ≡ false → IsShort n self.old.reading) }
        ensures why { IfErr result (λ kind.
            Fails true true self.old.reading self.new.reading (refusal_of kind)) }
        ensures most { SawMore self.old self.new }
    {
        'bytes: while self.received() < n {
            match self.more(n) {
                Ok(true) => {}
                Ok(false) => return Ok(false),
                Err(kind) => return Err(kind),
            }
        }
        Ok(true)
    }

    /// The next byte, which stays, where none stands in the buffer's vector. Where there is none,
    /// `fault` says why, or has nothing at the end.
    pub(super) fn look(&mut self, fault: &mut Option<ErrorKind>) -> Option<u8>
        ensures ok { IfSome result (λ b. Shows self.new.reading (b ∷ [])) }
        ensures looked { Looked 1 self.old.reading self.new.reading }
        ensures why { result ≡ None → MatchOption fault.new (Ended self.old.reading) (λ kind.
            Fails true true self.old.reading self.new.reading (refusal_of kind)) }
    {
        match self.buffer.unread().first() {
            Some(b) => Some(*b),
            None => self.look_at_source(fault),
        }
    }

    /// The next byte, where none was received. It stays.
    #[inline(always)]
    fn look_at_source(&mut self, fault: &mut Option<ErrorKind>) -> Option<u8>
        requires received { self.old.reading.received ≡ [] }
        ensures ok { IfSome result (λ b. Shows self.new.reading (b ∷ [])) }
        ensures looked { Looked 1 self.old.reading self.new.reading }
        ensures why { result ≡ None → MatchOption fault.new (Ended self.old.reading) (λ kind.
            Fails true true self.old.reading self.new.reading (refusal_of kind)) }
    {
        let mut byte = [0; 1];
        match self.source.read_some(&mut byte) {
            Ok(0) => {
                *fault = None;
                None
            }
            Ok(_) => {
                self.buffer.keep(&byte);
                Some(byte[0])
            }
            Err(kind) => {
                *fault = Some(kind);
                None
            }
        }
    }

    /// Receives bytes until `n` stand in the buffer's vector that can be counted.
    pub(super) fn receive_all(&mut self, n: usize) -> Result<(), Error>
        ensures looked { Looked n self.old.reading self.new.reading }
        ensures ok { OnOk result (InVector n self.new × (self.new.reading.taken + n < 2 ^ 64)) }
        ensures why { IfErr result (λ e.
            NotTaken true true n self.old.reading self.new.reading e) }
    {
        match self.fill(n) {
            Ok(true) if n > usize::MAX - self.taken => Err(Error::Io(ErrorKind::Other)),
            Ok(true) if self.settle() => Ok(()),
            Ok(true) => Err(Error::OutOfMemory),
            Ok(false) => Err(Error::Io(ErrorKind::UnexpectedEof)),
            Err(kind) => Err(Error::from(kind)),
        }
    }
}
