//! Decimals where they stand.

ghost use Rattle.std.specs.Prelude.{◌≡◌, false};
ghost use Rattle.amqp_base.specs.Item.{scalar, decimal32, decimal64, decimal128};
ghost use Rattle.amqp_write.specs.State.{stand};
ghost use Rattle.amqp_write.specs.Appending.{PaysItem, as_error};

use crate::place::Place;
use crate::refusal::Refusal;
use amqp_base::{EncodingCodes, Error, Sink};
use amqp_types::{Dec32, Dec64, Dec128};

impl Place {
    /// A decimal32 (section 1.6.13): 74 and its four bytes; in an array the four bytes. Under
    /// another constructor than the first element's it is `InvalidValue`.
    #[inline(always)]
    pub fn decimal32<W: Sink>(&mut self, writer: &mut W, v: &Dec32) -> Result<(), Refusal>
        requires { self.old.ended ≡ false }
        ensures law { PaysItem (stand W.Write W.FaultCount writer.old self.old)
            (scalar (decimal32 v.now)) Error.InvalidValue (as_error result)
            (stand W.Write W.FaultCount writer.new self.new) }
    {
        self.four_bytes(writer, EncodingCodes::Decimal32, *v.as_inner())
    }

    /// A decimal64 (section 1.6.14): 84 and its eight bytes; in an array the eight bytes. Under
    /// another constructor than the first element's it is `InvalidValue`.
    #[inline(always)]
    pub fn decimal64<W: Sink>(&mut self, writer: &mut W, v: &Dec64) -> Result<(), Refusal>
        requires { self.old.ended ≡ false }
        ensures law { PaysItem (stand W.Write W.FaultCount writer.old self.old)
            (scalar (decimal64 v.now)) Error.InvalidValue (as_error result)
            (stand W.Write W.FaultCount writer.new self.new) }
    {
        self.eight_bytes(writer, EncodingCodes::Decimal64, *v.as_inner())
    }

    /// A decimal128 (section 1.6.15): 94 and its sixteen bytes; in an array the sixteen bytes.
    /// Under another constructor than the first element's it is `InvalidValue`.
    #[inline(always)]
    pub fn decimal128<W: Sink>(&mut self, writer: &mut W, v: &Dec128) -> Result<(), Refusal>
        requires { self.old.ended ≡ false }
        ensures law { PaysItem (stand W.Write W.FaultCount writer.old self.old)
            (scalar (decimal128 v.now)) Error.InvalidValue (as_error result)
            (stand W.Write W.FaultCount writer.new self.new) }
    {
        self.sixteen_bytes(writer, EncodingCodes::Decimal128, *v.as_inner())
    }
}
