//! Values that are written many at a time.

ghost use Rattle.std.specs.Prelude.{◌≡◌, ◌≢◌, ◌≤◌, IfOk, OnOk, length, map, take};
ghost use Rattle.std.specs.Prelude.{false};
ghost use Rattle.amqp_write.specs.Appending.{as_error};
ghost use Rattle.amqp_write.specs.declared.pass.Opened.TheVariants.{Buffered as IsBuffered};
ghost use Rattle.amqp_ser.specs.Compound.{open_state, WritesEach};
ghost use Rattle.amqp_ser.specs.AtOnce.{SameParts};
ghost use Rattle.amqp_write.specs.ManyTexts.{Stand, WritesTexts, how_many};

use crate::{SeqSerializer, Serializer};
use amqp_base::{Error, Setting, Sink, Typed};
use amqp_write::{Many, Refusal, no_memory, refused};

impl<'a, W: Sink> SeqSerializer<'a, W> {
    /// Writes the values as they stand there, on the serializer that the compound holds, counts
    /// them behind the last, and says how many, from the front: all, or those before one that has
    /// no text.
    #[inline(always)]
    pub(crate) fn each_at_once<P: Many<T>, T: Typed>(
        &mut self,
        values: &[T],
    ) -> Result<usize, Error>
        requires answers { self.old.parts.buffer.state.ended ≡ false }
        requires direct { self.old.parts.opened ≢ IsBuffered }
        requires stand { Stand P.mark self.old.parts.shape self.old.ser.now.state.mark }
        ensures same_reference { self.new.ser.ghost_name ≡ self.old.ser.ghost_name }
        ensures parts { OnOk result (SameParts self.old.parts self.new.parts) }
        ensures few { IfOk result (λ n.
            n ≤ length (map (λ v. T.meaning.item v Setting.Plain) values.now)) }
        ensures law { WritesEach
            (take (how_many result) (map (λ v. T.meaning.item v Setting.Plain) values.now))
            (open_state self.old) result self.new.ser.now.state (open_state self.new) }
    {
        self.ser.set_ended(false);
        let written = match self.ser.append_many::<P, T>(values) {
            Ok(written) => written,
            Err(e) => {
                self.parts.buffer.set_ended(true);
                return Err(refused(e));
            }
        };
        self.ser.set_ended(true);
        match self.parts.count.checked_add(written) {
            Some(count) => {
                self.parts.count = count;
                Ok(written)
            }
            None => {
                self.parts.buffer.set_ended(true);
                Err(no_memory())
            }
        }
    }
}

impl<W: Sink> Serializer<W> {
    /// Writes the values, and says how many, from the front: all, or those before one that has no
    /// text. Where they are only counted, no text of theirs is made.
    #[inline(always)]
    fn append_many<P: Many<T>, T: Typed>(&mut self, values: &[T]) -> Result<usize, Refusal>
        ensures few { IfOk result (λ n. n ≤ length values.now) }
        ensures law { WritesTexts P.mark
            (map (λ v. T.meaning.item v Setting.Plain) (take (how_many result) values.now))
            self.old.state (as_error result) self.new.state }
    {
        P::append(&mut self.place, &mut self.writer, values)
    }
}
