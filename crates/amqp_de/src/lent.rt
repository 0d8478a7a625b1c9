//! Texts and bytes that a slice lends: no memory is taken, and what is read lives as long as the
//! slice.

ghost use Rattle.amqp_base.specs.Codes.{Kind};
ghost use Rattle.amqp_base.specs.Item.{binary};
ghost use Rattle.std.specs.Prelude.{false};
ghost use Rattle.amqp_de.specs.Scalars.{ReadsScalar, ReadsText};

use crate::{Deserialize, Deserializer};
use amqp_base::Error;
use amqp_data::{lent_bytes, lent_text};
use amqp_read::SliceReader;
use amqp_types::{BinaryRef, SymbolRef};
use std::alloc::Global;

impl<'s> Deserializer<SliceReader<'s>> {
    /// A string or a symbol (part 1, sections 1.6.20 and 1.6.21), with a length of 1 or of 4 bytes,
    /// lent by the slice. Any UTF-8 is taken.
    ///
    /// `Io(UnexpectedEof)` where bytes are missing, `InvalidFormatCode` where another item stands,
    /// a binary too, `InvalidUtf8Encoding` where all bytes are there and aren't UTF-8. A refusal
    /// ends the deserializer.
    #[inline(always)]
    pub fn deserialize_str(&mut self) -> Result<&'s str, Error>
        ensures { ReadsText (λ t. t.now) self.old result self.new }
    {
        if self.ended {
            return Err(Error::InvalidValue);
        }
        match self.begin() {
            Ok(code) => match lent_text(&mut self.reader, code) {
                Ok(text) => {
                    self.ended = false;
                    Ok(text)
                }
                Err(e) => Err(e),
            },
            Err(e) => Err(e),
        }
    }

    /// A binary (part 1, section 1.6.19), with a length of 1 or of 4 bytes, lent by the slice.
    ///
    /// `Io(UnexpectedEof)` where bytes are missing, `InvalidFormatCode` where another item stands,
    /// a string or a symbol too. A refusal ends the deserializer.
    #[inline(always)]
    pub fn deserialize_bytes(&mut self) -> Result<&'s [u8], Error>
        ensures { ReadsScalar Kind.binary (λ b.
            binary b.now) false false self.old result self.new }
    {
        if self.ended {
            return Err(Error::InvalidValue);
        }
        match self.begin() {
            Ok(code) => match lent_bytes(&mut self.reader, code) {
                Ok(bytes) => {
                    self.ended = false;
                    Ok(bytes)
                }
                Err(e) => Err(e),
            },
            Err(e) => Err(e),
        }
    }
}

impl<'s> Deserialize<SliceReader<'s>> for SymbolRef<'s> {
    /// A string or a symbol, lent by the slice. The refusals are those of `deserialize_str`.
    #[inline(always)]
    fn deserialize(
        _alloc: Global,
        de: &mut Deserializer<SliceReader<'s>>,
    ) -> Result<SymbolRef<'s>, Error> {
        match de.deserialize_str() {
            Ok(text) => Ok(SymbolRef(text)),
            Err(e) => Err(e),
        }
    }
}

impl<'s> Deserialize<SliceReader<'s>> for BinaryRef<'s> {
    /// A binary, lent by the slice. The refusals are those of `deserialize_bytes`.
    #[inline(always)]
    fn deserialize(
        _alloc: Global,
        de: &mut Deserializer<SliceReader<'s>>,
    ) -> Result<BinaryRef<'s>, Error> {
        match de.deserialize_bytes() {
            Ok(bytes) => Ok(BinaryRef(bytes)),
            Err(e) => Err(e),
        }
    }
}
