//! Numbers with a sign.

ghost use Rattle.amqp_base.specs.Codes.{Kind};
ghost use Rattle.amqp_base.specs.Item.{byte, short, int, long};
ghost use Rattle.amqp_de.specs.Scalars.{ReadsScalar};

use crate::Deserializer;
use crate::answer::answer;
use amqp_base::Error;
use amqp_data::{AsByte, AsInt, AsLong, AsShort};
use amqp_read::Read;

impl<R: Read> Deserializer<R> {
    /// A byte (part 1, section 1.6.7): two's complement in 1 byte.
    ///
    /// `Io(UnexpectedEof)` where bytes are missing, `InvalidFormatCode` where another item stands.
    /// A refusal ends the deserializer.
    #[inline(always)]
    pub fn deserialize_i8(&mut self) -> Result<i8, Error>
        ensures { ReadsScalar Kind.byte byte R.buffers R.buffers self.old result self.new }
    {
        answer!(self.leaf(AsByte))
    }

    /// A short (part 1, section 1.6.8): two's complement in 2 bytes.
    ///
    /// `Io(UnexpectedEof)` where bytes are missing, `InvalidFormatCode` where another item stands.
    /// A refusal ends the deserializer.
    #[inline(always)]
    pub fn deserialize_i16(&mut self) -> Result<i16, Error>
        ensures { ReadsScalar Kind.short short R.buffers R.buffers self.old result self.new }
    {
        answer!(self.leaf(AsShort))
    }

    /// An int, in either of its two encodings (part 1, section 1.6.9): two's complement in 1 or 4
    /// bytes.
    ///
    /// `Io(UnexpectedEof)` where bytes are missing, `InvalidFormatCode` where another item stands.
    /// A refusal ends the deserializer.
    #[inline(always)]
    pub fn deserialize_i32(&mut self) -> Result<i32, Error>
        ensures { ReadsScalar Kind.int int R.buffers R.buffers self.old result self.new }
    {
        answer!(self.leaf(AsInt))
    }

    /// A long, in either of its two encodings (part 1, section 1.6.10): two's complement in 1 or 8
    /// bytes.
    ///
    /// `Io(UnexpectedEof)` where bytes are missing, `InvalidFormatCode` where another item stands.
    /// A refusal ends the deserializer.
    #[inline(always)]
    pub fn deserialize_i64(&mut self) -> Result<i64, Error>
        ensures { ReadsScalar Kind.long long R.buffers R.buffers self.old result self.new }
    {
        answer!(self.leaf(AsLong))
    }
}
