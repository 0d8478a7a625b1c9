//! Numbers without a sign.

ghost use Rattle.amqp_base.specs.Codes.{Kind};
ghost use Rattle.amqp_base.specs.Item.{ubyte, ushort, uint, ulong};
ghost use Rattle.amqp_de.specs.Scalars.{ReadsScalar};

use crate::Deserializer;
use crate::answer::answer;
use amqp_base::Error;
use amqp_data::{AsUbyte, AsUint, AsUlong, AsUshort};
use amqp_read::Read;

impl<R: Read> Deserializer<R> {
    /// A ubyte (part 1, section 1.6.3): 1 byte.
    ///
    /// `Io(UnexpectedEof)` where bytes are missing, `InvalidFormatCode` where another item stands.
    /// A refusal ends the deserializer.
    #[inline(always)]
    pub fn deserialize_u8(&mut self) -> Result<u8, Error>
        ensures { ReadsScalar Kind.ubyte ubyte R.buffers R.buffers self.old result self.new }
    {
        answer!(self.leaf(AsUbyte))
    }

    /// An ushort (part 1, section 1.6.4): 2 bytes.
    ///
    /// `Io(UnexpectedEof)` where bytes are missing, `InvalidFormatCode` where another item stands.
    /// A refusal ends the deserializer.
    #[inline(always)]
    pub fn deserialize_u16(&mut self) -> Result<u16, Error>
        ensures { ReadsScalar Kind.ushort ushort R.buffers R.buffers self.old result self.new }
    {
        answer!(self.leaf(AsUshort))
    }

    /// A uint, in any of its three encodings (part 1, section 1.6.5).
    ///
    /// `Io(UnexpectedEof)` where bytes are missing, `InvalidFormatCode` where another item stands.
    /// A refusal ends the deserializer.
    #[inline(always)]
    pub fn deserialize_u32(&mut self) -> Result<u32, Error>
        ensures { ReadsScalar Kind.uint uint R.buffers R.buffers self.old result self.new }
    {
        answer!(self.leaf(AsUint))
    }

    /// An ulong, in any of its three encodings (part 1, section 1.6.6).
    ///
    /// `Io(UnexpectedEof)` where bytes are missing, `InvalidFormatCode` where another item stands.
    /// A refusal ends the deserializer.
    #[inline(always)]
    pub fn deserialize_u64(&mut self) -> Result<u64, Error>
        ensures { ReadsScalar Kind.ulong ulong R.buffers R.buffers self.old result self.new }
    {
        answer!(self.leaf(AsUlong))
    }
}
