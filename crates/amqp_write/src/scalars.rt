//! Null, booleans, characters, timestamps and uuids where they stand.

ghost use Rattle.std.specs.Prelude.{◌≡◌, false};
ghost use Rattle.amqp_base.specs.Item.{scalar, null, boolean, char, timestamp, uuid};
ghost use Rattle.amqp_write.specs.State.{stand};
ghost use Rattle.amqp_write.specs.Appending.{PaysItem, as_error};

use crate::place::{Mark, Place};
use crate::refusal::Refusal;
use amqp_base::{EncodingCodes, Error, Sink, codes};
use amqp_types::Uuid;

impl Place {
    /// Null (section 1.6.1): 40. As an element of an array it is `InvalidValue`.
    #[inline(always)]
    pub fn null<W: Sink>(&mut self, writer: &mut W) -> Result<(), Refusal>
        requires { self.old.ended ≡ false }
        ensures law { PaysItem (stand W.Write W.FaultCount writer.old self.old) (scalar null)
            Error.InvalidValue (as_error result) (stand W.Write W.FaultCount writer.new self.new) }
    {
        let mark = self.mark;
        match mark {
            Mark::Unmarked => self.append(writer, &[codes::NULL]),
            _ => {
                self.ended = true;
                Err(Refusal::InvalidValue)
            }
        }
    }

    /// A boolean (section 1.6.2): outside arrays 41 for true and 42 for false, in an array one
    /// byte. Under another constructor than the first element's it is `InvalidValue`.
    #[inline(always)]
    pub fn boolean<W: Sink>(&mut self, writer: &mut W, v: bool) -> Result<(), Refusal>
        requires { self.old.ended ≡ false }
        ensures law { PaysItem (stand W.Write W.FaultCount writer.old self.old) (scalar (boolean v))
            Error.InvalidValue (as_error result) (stand W.Write W.FaultCount writer.new self.new) }
    {
        let mark = self.mark;
        match mark {
            Mark::Unmarked if v => self.append(writer, &[codes::BOOLEAN_TRUE]),
            Mark::Unmarked => self.append(writer, &[codes::BOOLEAN_FALSE]),
            _ => self.one_byte(writer, EncodingCodes::Boolean, u8::from(v)),
        }
    }

    /// A char (section 1.6.16): 73 and its code point in four bytes; in an array the four bytes.
    /// Under another constructor than the first element's it is `InvalidValue`.
    #[inline(always)]
    pub fn char<W: Sink>(&mut self, writer: &mut W, v: char) -> Result<(), Refusal>
        requires { self.old.ended ≡ false }
        ensures law { PaysItem (stand W.Write W.FaultCount writer.old self.old) (scalar (char v))
            Error.InvalidValue (as_error result) (stand W.Write W.FaultCount writer.new self.new) }
    {
        self.four_bytes(writer, EncodingCodes::Char, u32::from(v).to_be_bytes())
    }

    /// A timestamp (section 1.6.17): 83 and eight bytes; in an array the eight bytes. Under another
    /// constructor than the first element's it is `InvalidValue`.
    #[inline(always)]
    pub fn timestamp<W: Sink>(&mut self, writer: &mut W, v: i64) -> Result<(), Refusal>
        requires { self.old.ended ≡ false }
        ensures law { PaysItem (stand W.Write W.FaultCount writer.old self.old)
            (scalar (timestamp v)) Error.InvalidValue (as_error result)
            (stand W.Write W.FaultCount writer.new self.new) }
    {
        self.eight_bytes(writer, EncodingCodes::Timestamp, v.to_be_bytes())
    }

    /// A uuid (section 1.6.18): 98 and its sixteen bytes; in an array the sixteen bytes. Under
    /// another constructor than the first element's it is `InvalidValue`.
    #[inline(always)]
    pub fn uuid<W: Sink>(&mut self, writer: &mut W, v: &Uuid) -> Result<(), Refusal>
        requires { self.old.ended ≡ false }
        ensures law { PaysItem (stand W.Write W.FaultCount writer.old self.old)
            (scalar (uuid v.now)) Error.InvalidValue (as_error result)
            (stand W.Write W.FaultCount writer.new self.new) }
    {
        self.sixteen_bytes(writer, EncodingCodes::Uuid, *v.as_inner())
    }
}
