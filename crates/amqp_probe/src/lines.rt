//! The lines of a stream of bytes.

ghost use Rattle.std.specs.Prelude.{◌≡◌, ◌+◌, ◌^◌, ◌<◌, ◌≤◌, vec_len};

use crate::answer::{LIMIT, find};
use amqp_base::{Error, Source};
use std::alloc::{AllocError, Global};
use std::io;

/// How many bytes are asked for at once, and above how many bytes of answers these are written.
pub const BLOCK: usize = 8_192;

/// Cuts lines out of the blocks in which a source gives its bytes.
#[derive(Drop)]
pub struct Lines {
    block: Vec<u8>,
    start: usize,
    end: usize,
    /// How many bytes the source gave.
    read: usize,
    ghost in_order: { start ≤ end },
    ghost in_block: { end ≤ vec_len block },
    ghost room: { 0 < vec_len block },
    ghost counted: { end ≤ read + start },
    ghost countable: { read < 2 ^ 64 },
}

impl Lines {
    ghost use Rattle.std.specs.Prelude.{◌↔◌, ◌==◌, [], length, position, IsSome, false};
    ghost use Rattle.std.specs.Prelude.{if◌then◌else◌, IsTrue, IfOk, OnOk, IfErr, OnSome};
    ghost use Rattle.std.specs.Prelude.{IfSome};
    ghost use Rattle.std.specs.Io.KnownBytes.{Keeps, IsAtEnd};
    ghost use Rattle.std.specs.declared.io.ErrorKind.TheVariants.{Other};
    ghost use Rattle.amqp_base.specs.declared.error.Error.TheVariants.{Io};
    ghost use Rattle.amqp_probe.specs.Lines.{unread, taken, to_come, IsNextIfAny, Weighs, TooMany};
    ghost use Rattle.amqp_probe.specs.Pieces.{Moved, Fails};

    /// Before the first line of a source.
    pub fn new(alloc: Global) -> Result<Lines, AllocError>
        ensures nothing { IfOk result (λ lines. unread lines ≡ []) }
        ensures taken { IfOk result (λ lines. taken lines ≡ 0) }
    {
        Ok(Lines {
            block: vec![in alloc; 0; BLOCK]?,
            start: 0,
            end: 0,
            read: 0,
        })
    }

    /// The next line, without its line feed; None at the end. Of a line above the limit one byte
    /// more than the limit is given. An error is the source's fault, `OutOfMemory`, or `Io` of kind
    /// `Other` where the bytes read can't be counted.
    pub fn next_line<S: Source>(
        &mut self,
        alloc: Global,
        source: &mut S,
    ) -> Result<Option<Vec<u8>>, Error>
        ensures next { IfOk result (λ line. IfSome (to_come self.old (S.remaining source.old))
            (λ input. IsNextIfAny input line (to_come self.new (S.remaining source.new)))) }
        ensures progress { IfOk result (λ line. OnSome line (taken self.old < taken self.new)) }
        ensures weighs { OnOk result (Weighs (to_come self.old (S.remaining source.old))
            (taken self.old) (to_come self.new (S.remaining source.new)) (taken self.new)) }
        ensures faults { OnOk result (S.faults source.new ≡ S.faults source.old) }
        ensures err { IfErr result (λ e. Fails e (S.faults source.old < S.faults source.new)
            (TooMany (to_come self.old (S.remaining source.old)) (taken self.old))) }
    {
        let mut line = Vec::new(alloc);
        'pieces: while self.fill(source)? {
            let ended = self.take_into(&mut line)?;
            if ended || line.len() > LIMIT {
                return Ok(Some(line));
            }
        }
        Ok(if line.is_empty() { None } else { Some(line) })
    }

    /// Whether a whole line was read and not yet taken, with its line feed.
    pub fn has_line(&self) -> bool
        ensures { IsTrue result ↔ IsSome (position (λ b. b == 10) (unread self.now)) }
    {
        find(b'\n', &self.block[self.start..self.end]).is_some()
    }

    /// Reads a block where nothing is left of the last one; false at the end.
    fn fill<S: Source>(&mut self, source: &mut S) -> Result<bool, Error>
        ensures bytes { OnOk result (Keeps (to_come self.old (S.remaining source.old))
            (to_come self.new (S.remaining source.new))) }
        ensures more { IfOk result (λ more. IsTrue more ↔ (self.new.start < self.new.end)) }
        ensures end { IfOk result (λ more.
            more ≡ false → IsAtEnd (to_come self.new (S.remaining source.new))) }
        ensures taken { OnOk result (taken self.new ≡ taken self.old) }
        ensures faults { OnOk result (S.faults source.new ≡ S.faults source.old) }
        ensures err { IfErr result (λ e. Fails e (S.faults source.old < S.faults source.new)
            (TooMany (to_come self.old (S.remaining source.old)) (taken self.old))) }
    {
        if self.start < self.end {
            return Ok(true);
        }
        let n = source.read_some(&mut self.block)?;
        let Some(read) = self.read.checked_add(n) else {
            return Err(Error::Io(io::ErrorKind::Other));
        };
        self.read = read;
        self.start = 0;
        self.end = n;
        Ok(n > 0)
    }

    /// Moves bytes to the back of a line, up to a line feed, which goes away, or until the line is
    /// too long. True where a line feed was met.
    fn take_into(&mut self, line: &mut Vec<u8>) -> Result<bool, AllocError>
        requires some { self.old.start < self.old.end }
        requires short { vec_len line.old ≤ 65536 }
        ensures moved { IfOk result (λ ended.
            Moved (unread self.old) (unread self.new) line.old.items line.new.items ended) }
        ensures counted { IfOk result (λ ended. taken self.new + length line.old.items ≡ taken
            self.old + length line.new.items + (if ended then 1 else 0)) }
        ensures progress { OnOk result (taken self.old < taken self.new) }
    {
        let room = LIMIT + 1 - line.len();
        let stop = self.end.min(self.start + room);
        let window = &self.block[self.start..stop];
        match find(b'\n', window) {
            Some(n) => {
                line.extend_from_slice(&window[..n])?;
                self.start += n + 1;
                Ok(true)
            }
            None => {
                line.extend_from_slice(window)?;
                self.start = stop;
                Ok(false)
            }
        }
    }
}
