//! Binaries, strings and symbols.

ghost use Rattle.std.specs.Prelude.{true, string_bytes};
ghost use Rattle.amqp_base.specs.Codes.{Kind};
ghost use Rattle.amqp_base.specs.Item.{binary, string, symbol};
ghost use Rattle.amqp_de.specs.Scalars.{ReadsScalar, MemoryLast};

use crate::Deserializer;
use crate::answer::answer;
use amqp_base::Error;
use amqp_data::{AsBinary, AsString, AsSymbol};
use amqp_read::Read;
use std::alloc::Global;

impl<R: Read> Deserializer<R> {
    /// A binary (part 1, section 1.6.19), with a length of 1 or of 4 bytes.
    ///
    /// `Io(UnexpectedEof)` where bytes are missing, `InvalidFormatCode` where another item stands,
    /// a string or a symbol too, `OutOfMemory` where the bytes, which are all there, find no
    /// memory. A refusal ends the deserializer.
    #[inline(always)]
    pub fn deserialize_byte_buf(&mut self, alloc: Global) -> Result<Vec<u8>, Error>
        ensures reads { ReadsScalar Kind.binary (λ v.
            binary v.items) true R.buffers self.old result self.new }
        ensures bytes_first { MemoryLast Kind.binary R.buffers self.old result }
    {
        answer!(self.leaf(AsBinary(alloc)))
    }

    /// A string (part 1, section 1.6.20), with a length of 1 or of 4 bytes, which counts bytes.
    ///
    /// `Io(UnexpectedEof)` where bytes are missing, `InvalidFormatCode` where another item stands,
    /// a symbol or a binary too, `InvalidUtf8Encoding` where all bytes are there and aren't UTF-8,
    /// `OutOfMemory` where the text finds no memory. A refusal ends the deserializer.
    #[inline(always)]
    pub fn deserialize_string(&mut self, alloc: Global) -> Result<String, Error>
        ensures reads { ReadsScalar Kind.string (λ s.
            string (string_bytes s)) true R.buffers self.old result self.new }
        ensures bytes_first { MemoryLast Kind.string R.buffers self.old result }
    {
        answer!(self.leaf(AsString(alloc)))
    }

    /// A symbol (part 1, section 1.6.21), with a length of 1 or of 4 bytes. Any UTF-8 is taken:
    /// this profile's own rule, the standard has ASCII alone.
    ///
    /// `Io(UnexpectedEof)` where bytes are missing, `InvalidFormatCode` where another item stands,
    /// a string or a binary too, `InvalidUtf8Encoding` where all bytes are there and aren't UTF-8,
    /// `OutOfMemory` where the text finds no memory. A refusal ends the deserializer.
    #[inline(always)]
    pub fn deserialize_symbol(&mut self, alloc: Global) -> Result<String, Error>
        ensures reads { ReadsScalar Kind.symbol (λ s.
            symbol (string_bytes s)) true R.buffers self.old result self.new }
        ensures bytes_first { MemoryLast Kind.symbol R.buffers self.old result }
    {
        answer!(self.leaf(AsSymbol(alloc)))
    }
}
