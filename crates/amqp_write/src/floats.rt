//! Floating point numbers where they stand.

ghost use Rattle.std.specs.Prelude.{◌≡◌, false};
ghost use Rattle.amqp_base.specs.Item.{scalar, float, double};
ghost use Rattle.amqp_write.specs.State.{stand};
ghost use Rattle.amqp_write.specs.Appending.{PaysItem, as_error};

use crate::place::Place;
use crate::refusal::Refusal;
use amqp_base::{EncodingCodes, Error, Sink};
use amqp_types::{Double, Float};

impl Place {
    /// A float (section 1.6.11): 72 and its bits in four bytes; in an array the four bytes. Under
    /// another constructor than the first element's it is `InvalidValue`.
    #[inline(always)]
    pub fn float<W: Sink>(&mut self, writer: &mut W, v: Float) -> Result<(), Refusal>
        requires { self.old.ended ≡ false }
        ensures law { PaysItem (stand W.Write W.FaultCount writer.old self.old) (scalar (float v))
            Error.InvalidValue (as_error result) (stand W.Write W.FaultCount writer.new self.new) }
    {
        self.four_bytes(writer, EncodingCodes::Float, v.to_bits().to_be_bytes())
    }

    /// A double (section 1.6.12): 82 and its bits in eight bytes; in an array the eight bytes.
    /// Under another constructor than the first element's it is `InvalidValue`.
    #[inline(always)]
    pub fn double<W: Sink>(&mut self, writer: &mut W, v: Double) -> Result<(), Refusal>
        requires { self.old.ended ≡ false }
        ensures law { PaysItem (stand W.Write W.FaultCount writer.old self.old) (scalar (double v))
            Error.InvalidValue (as_error result) (stand W.Write W.FaultCount writer.new self.new) }
    {
        self.eight_bytes(writer, EncodingCodes::Double, v.to_bits().to_be_bytes())
    }
}
