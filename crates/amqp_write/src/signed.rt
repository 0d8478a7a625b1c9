//! Numbers with a sign where they stand.

ghost use Rattle.std.specs.Prelude.{◌≡◌, false};
ghost use Rattle.amqp_base.specs.Item.{scalar, byte, short, int, long};
ghost use Rattle.amqp_write.specs.State.{stand, mark_of, unmarked};
ghost use Rattle.amqp_write.specs.Law.{marked};
ghost use Rattle.amqp_write.specs.Appending.{PaysItem, as_error};

use crate::numbers::Outside;
use crate::place::{Mark, Place};
use crate::refusal::Refusal;
use amqp_base::{EncodingCodes, Error, Sink, codes};

impl Place {
    /// A byte (section 1.6.7): 51 and a byte; in an array the byte. Under another constructor than
    /// the first element's it is `InvalidValue`.
    #[inline(always)]
    pub fn byte<W: Sink>(&mut self, writer: &mut W, v: i8) -> Result<(), Refusal>
        requires { self.old.ended ≡ false }
        ensures law { PaysItem (stand W.Write W.FaultCount writer.old self.old) (scalar (byte v))
            Error.InvalidValue (as_error result) (stand W.Write W.FaultCount writer.new self.new) }
    {
        self.one_byte(writer, EncodingCodes::Byte, v.cast_unsigned())
    }

    /// A short (section 1.6.8): 61 and two bytes, the high one first; in an array the two bytes.
    /// Under another constructor than the first element's it is `InvalidValue`.
    #[inline(always)]
    pub fn short<W: Sink>(&mut self, writer: &mut W, v: i16) -> Result<(), Refusal>
        requires { self.old.ended ≡ false }
        ensures law { PaysItem (stand W.Write W.FaultCount writer.old self.old) (scalar (short v))
            Error.InvalidValue (as_error result) (stand W.Write W.FaultCount writer.new self.new) }
    {
        self.two_bytes(writer, EncodingCodes::Short, v.to_be_bytes())
    }

    /// An int (section 1.6.9): outside arrays 54 and a byte from -128 to 127, else 71 and four
    /// bytes; in an array four bytes. Under another constructor than the first element's it is
    /// `InvalidValue`.
    #[inline(always)]
    pub fn int<W: Sink>(&mut self, writer: &mut W, v: i32) -> Result<(), Refusal>
        requires { self.old.ended ≡ false }
        ensures law { PaysItem (stand W.Write W.FaultCount writer.old self.old) (scalar (int v))
            Error.InvalidValue (as_error result) (stand W.Write W.FaultCount writer.new self.new) }
    {
        let mark = self.mark;
        match mark {
            Mark::Unmarked => self.plain_int(writer, v),
            _ => self.four_bytes(writer, EncodingCodes::Int, v.to_be_bytes()),
        }
    }

    /// The text of an int outside arrays.
    #[inline(always)]
    fn plain_int<W: Sink>(&mut self, writer: &mut W, v: i32) -> Result<(), Refusal>
        requires answers { self.old.ended ≡ false }
        requires marked { mark_of self.old ≡ unmarked }
        ensures law { PaysItem (stand W.Write W.FaultCount writer.old self.old) (scalar (int v))
            Error.InvalidValue (as_error result) (stand W.Write W.FaultCount writer.new self.new) }
    {
        if self.counts::<W, Outside, i32>(writer, v) {
            return Ok(());
        }
        match i8::try_from(v) {
            Ok(small) => self.append(writer, &[codes::SMALL_INT, small.cast_unsigned()]),
            Err(_) => self.plain_four_bytes(writer, EncodingCodes::Int, v.to_be_bytes()),
        }
    }

    /// A long (section 1.6.10): outside arrays 55 and a byte from -128 to 127, else 81 and eight
    /// bytes; in an array eight bytes. Under another constructor than the first element's it is
    /// `InvalidValue`.
    #[inline(always)]
    pub fn long<W: Sink>(&mut self, writer: &mut W, v: i64) -> Result<(), Refusal>
        requires { self.old.ended ≡ false }
        ensures law { PaysItem (stand W.Write W.FaultCount writer.old self.old) (scalar (long v))
            Error.InvalidValue (as_error result) (stand W.Write W.FaultCount writer.new self.new) }
    {
        let mark = self.mark;
        match mark {
            Mark::Unmarked => match i8::try_from(v) {
                Ok(small) => self.append(writer, &[codes::SMALL_LONG, small.cast_unsigned()]),
                Err(_) => self.eight_bytes(writer, EncodingCodes::Long, v.to_be_bytes()),
            },
            _ => self.eight_bytes(writer, EncodingCodes::Long, v.to_be_bytes()),
        }
    }
}
