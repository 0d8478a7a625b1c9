//! Null, booleans, characters, timestamps and uuids.

ghost use Rattle.amqp_base.specs.Codes.{Kind};
ghost use Rattle.amqp_base.specs.Item.{null, boolean, char, timestamp, uuid};
ghost use Rattle.amqp_de.specs.Scalars.{ReadsScalar};

use crate::Deserializer;
use crate::answer::answer;
use amqp_base::Error;
use amqp_data::{AsBoolean, AsChar, AsNull, AsTimestamp, AsUuid};
use amqp_read::Read;
use amqp_types::{Timestamp, Uuid};

impl<R: Read> Deserializer<R> {
    /// Null (part 1, section 1.6.1): a code without data.
    ///
    /// `Io(UnexpectedEof)` where there is no byte, `InvalidFormatCode` where another item stands. A
    /// refusal ends the deserializer.
    #[inline(always)]
    pub fn deserialize_unit(&mut self) -> Result<(), Error>
        ensures { ReadsScalar Kind.null (λ _. null) R.buffers R.buffers self.old result self.new }
    {
        answer!(self.leaf(AsNull))
    }

    /// The value of a unit struct: null (part 1, section 1.6.1), whatever its name.
    ///
    /// `Io(UnexpectedEof)` where there is no byte, `InvalidFormatCode` where another item stands. A
    /// refusal ends the deserializer.
    #[inline(always)]
    pub fn deserialize_unit_struct(&mut self, name: &'static str) -> Result<(), Error>
        ensures { ReadsScalar Kind.null (λ _. null) R.buffers R.buffers self.old result self.new }
    {
        let _ = name;
        self.deserialize_unit()
    }

    /// A boolean, in any of its three encodings (part 1, section 1.6.2): a code that says all, or a
    /// byte, which is 0 or 1.
    ///
    /// `Io(UnexpectedEof)` where bytes are missing, `InvalidFormatCode` where another item stands,
    /// `InvalidValue` where the byte is there and is neither 0 nor 1. A refusal ends the
    /// deserializer.
    #[inline(always)]
    pub fn deserialize_bool(&mut self) -> Result<bool, Error>
        ensures { ReadsScalar Kind.boolean boolean R.buffers R.buffers self.old result self.new }
    {
        answer!(self.leaf(AsBoolean))
    }

    /// A character (part 1, section 1.6.16): its code point in 4 bytes.
    ///
    /// `Io(UnexpectedEof)` where bytes are missing, `InvalidFormatCode` where another item stands,
    /// `InvalidValue` where all bytes are there and are no Unicode scalar value: a surrogate, or
    /// above 0x10FFFF. A refusal ends the deserializer.
    #[inline(always)]
    pub fn deserialize_char(&mut self) -> Result<char, Error>
        ensures { ReadsScalar Kind.char char R.buffers R.buffers self.old result self.new }
    {
        answer!(self.leaf(AsChar))
    }

    /// A timestamp (part 1, section 1.6.17): milliseconds since the Unix epoch, two's complement in
    /// 8 bytes.
    ///
    /// `Io(UnexpectedEof)` where bytes are missing, `InvalidFormatCode` where another item stands.
    /// A refusal ends the deserializer.
    #[inline(always)]
    pub fn deserialize_timestamp(&mut self) -> Result<Timestamp, Error>
        ensures { ReadsScalar Kind.timestamp timestamp R.buffers R.buffers self.old
            result self.new }
    {
        answer!(self.leaf(AsTimestamp))
    }

    /// A uuid (part 1, section 1.6.18): 16 bytes.
    ///
    /// `Io(UnexpectedEof)` where bytes are missing, `InvalidFormatCode` where another item stands.
    /// A refusal ends the deserializer.
    #[inline(always)]
    pub fn deserialize_uuid(&mut self) -> Result<Uuid, Error>
        ensures { ReadsScalar Kind.uuid uuid R.buffers R.buffers self.old result self.new }
    {
        answer!(self.leaf(AsUuid))
    }
}
