//! Compounds end, and their serializer answers again.

ghost use Rattle.std.specs.Prelude.{◌≡◌, Bool, List, true, IfErr, OnOk, OnErr, Err, Some};
ghost use Rattle.amqp_base.specs.Item.{Item};
ghost use Rattle.amqp_base.specs.Shapes.{whole};
ghost use Rattle.amqp_ser.specs.State.{State, Planned, Measured};
ghost use Rattle.amqp_ser.specs.Law.{Wrote, Refused, Kept};
ghost use Rattle.amqp_write.specs.Appending.{as_error};
ghost use Rattle.amqp_ser.specs.Compound.{open_parts, Holds, Complete, back, outer_in};
ghost use Rattle.amqp_ser.specs.Compound.{EndsMeasured, EndsWritten};

use crate::Serializer;
use crate::answer::answer;
use crate::compound::{Outer, Parts};
use amqp_base::{Error, Pass, Shape, Sink, Size};
use amqp_write::{Mark, Opened, Refusal, no_memory, refused};
use std::io::ErrorKind;

impl<W: Sink> Serializer<W> {
    /// Writes the whole that has these parts, on a serializer that their compound holds. It answers
    /// again where that succeeds.
    ///
    /// `Io(Other)`: the parts have more than 4,294,967,291 bytes. `InvalidValue`: a part was
    /// refused, or the array that the whole is to stand in has elements under another constructor.
    #[inline(always)]
    pub(crate) fn close(&mut self, parts: Parts) -> Result<(), Error>
        ensures ok { (pairs : Bool) →
            OnOk result ((s : State) (shape : Shape) (xs : List Item) →
            Holds s shape xs (open_parts pairs self.old.state parts) → Complete pairs xs →
            Wrote s (whole shape xs) self.new.state) }
        ensures err { (pairs : Bool) →
            IfErr result (λ e. (s : State) (shape : Shape) (xs : List Item) →
            Holds s shape xs (open_parts pairs self.old.state parts) → Complete pairs xs →
            Refused s (whole shape xs) e self.new.state) }
        ensures kept { Kept self.old.state self.new.state }
        ensures stays_ended { OnErr result (self.old.state.ended ≡ true →
            self.new.state.ended ≡ true) }
        ensures ended { parts.buffer.state.ended ≡ true → result ≡ Err Error.InvalidValue }
    {
        let Parts {
            shape,
            buffer,
            count,
            opened,
            outer,
        } = parts;
        if buffer.has_ended() {
            return Err(refused(Refusal::InvalidValue));
        }
        match self.writer.pass() {
            Pass::Buffers => match opened {
                Opened::Buffered => {
                    let body = buffer.into_inner();
                    answer!(
                        self.place.finish(&mut self.writer, shape, count, &body),
                        refused
                    )
                }
                _ => Err(no_memory()),
            },
            Pass::Measures => match opened {
                Opened::Measured { at, before } => {
                    answer!(
                        self.close_measured(shape, count, outer, at, before),
                        refused
                    )
                }
                _ => Err(no_memory()),
            },
            Pass::Writes => match opened {
                Opened::Written { size, from } => {
                    answer!(self.close_written(count, outer, size, from))
                }
                _ => Err(no_memory()),
            },
        }
    }

    /// Ends a compound that was measured: its size stands where it opened, and its header counts.
    #[inline(always)]
    fn close_measured(
        &mut self,
        shape: Shape,
        count: usize,
        outer: Outer,
        at: usize,
        before: usize,
    ) -> Result<(), Refusal>
        ensures law { (m : Measured) → self.old.state.measure ≡ Some m →
            EndsMeasured shape at before count m
            (back (outer_in outer) self.old.state) (as_error result) self.new.state }
        ensures kept { Kept self.old.state self.new.state }
        ensures stays_ended { OnErr result (self.old.state.ended ≡ true →
            self.new.state.ended ≡ true) }
    {
        self.restore(outer);
        if !self.place.direct {
            return Err(Refusal::Io(ErrorKind::OutOfMemory));
        }
        let end = match self.writer.so_far() {
            Some(end) => end,
            None => return Err(Refusal::Io(ErrorKind::OutOfMemory)),
        };
        if end >= usize::MAX {
            return Err(Refusal::Io(ErrorKind::OutOfMemory));
        }
        if end < before {
            return Err(Refusal::Io(ErrorKind::OutOfMemory));
        }
        let size = Size {
            length: end - before,
            count,
        };
        if !self.writer.close_measured(at, size) {
            return Err(Refusal::Io(ErrorKind::OutOfMemory));
        }
        self.place.ended = false;
        self.place.head(&mut self.writer, shape, size)
    }

    /// Ends a compound that was written behind its header, which it has to agree with.
    #[inline(always)]
    fn close_written(
        &mut self,
        count: usize,
        outer: Outer,
        size: Size,
        from: usize,
    ) -> Result<(), Error>
        ensures law { (p : Planned) → self.old.state.plan ≡ Some p →
            EndsWritten count size from p
            (back (outer_in outer) self.old.state) result self.new.state }
        ensures kept { Kept self.old.state self.new.state }
        ensures stays_ended { OnErr result (self.old.state.ended ≡ true →
            self.new.state.ended ≡ true) }
    {
        self.restore(outer);
        let end = match self.writer.so_far() {
            Some(end) => end,
            None => return Err(no_memory()),
        };
        if from.checked_add(size.length) == Some(end) && count == size.count {
            self.place.ended = false;
            return Ok(());
        }
        Err(refused(Refusal::InvalidValue))
    }

    /// The serializer is as it was before the compound opened.
    #[inline(always)]
    pub(crate) fn restore(&mut self, outer: Outer)
        ensures { self.new.state ≡ back (outer_in outer) self.old.state }
    {
        match outer {
            Outer::Outside(setting) => {
                self.place.setting = setting;
                self.place.mark = Mark::Unmarked;
                self.place.found = None;
            }
            Outer::Had {
                setting,
                mark,
                found,
                descriptor,
            } => {
                self.place.setting = setting;
                self.place.mark = mark;
                self.place.found = found;
                self.place.descriptor = descriptor;
            }
        }
    }
}
