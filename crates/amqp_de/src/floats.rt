//! Floating point numbers.

ghost use Rattle.amqp_base.specs.Codes.{Kind};
ghost use Rattle.amqp_base.specs.Item.{float, double};
ghost use Rattle.amqp_de.specs.Scalars.{ReadsScalar};

use crate::Deserializer;
use crate::answer::answer;
use amqp_base::Error;
use amqp_data::{AsDouble, AsFloat};
use amqp_read::Read;
use amqp_types::{Double, Float};

impl<R: Read> Deserializer<R> {
    /// A float (part 1, section 1.6.11): the bits of an IEEE 754 binary32, in 4 bytes. Every bit
    /// pattern is taken, and kept.
    ///
    /// `Io(UnexpectedEof)` where bytes are missing, `InvalidFormatCode` where another item stands.
    /// A refusal ends the deserializer.
    #[inline(always)]
    pub fn deserialize_f32(&mut self) -> Result<Float, Error>
        ensures { ReadsScalar Kind.float float R.buffers R.buffers self.old result self.new }
    {
        answer!(self.leaf(AsFloat))
    }

    /// A double (part 1, section 1.6.12): the bits of an IEEE 754 binary64, in 8 bytes. Every bit
    /// pattern is taken, and kept.
    ///
    /// `Io(UnexpectedEof)` where bytes are missing, `InvalidFormatCode` where another item stands.
    /// A refusal ends the deserializer.
    #[inline(always)]
    pub fn deserialize_f64(&mut self) -> Result<Double, Error>
        ensures { ReadsScalar Kind.double double R.buffers R.buffers self.old result self.new }
    {
        answer!(self.leaf(AsDouble))
    }
}
