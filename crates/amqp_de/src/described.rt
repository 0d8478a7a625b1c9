//! Described values: a descriptor, and the value behind it.

ghost use Rattle.std.specs.Prelude.{IfOk, IfErr};
ghost use Rattle.amqp_base.specs.Describing.{describing_at};
ghost use Rattle.amqp_base.specs.Wire.{bare};
ghost use Rattle.amqp_data.specs.Arrays.{RejectsFor};
ghost use Rattle.amqp_de.specs.Describes.{TakesDescribing, Describes, NoDescriptor};
ghost use Rattle.amqp_de.specs.Steps.{Stops};
ghost use Rattle.amqp_types.specs.Descriptors.{descriptor_of};

use crate::{Deserialize, Deserializer};
use amqp_base::{Error, codes};
use amqp_data::{Constructor, byte, descriptor};
use amqp_read::Read;
use amqp_types::{Described, Descriptor};
use std::alloc::Global;

/// 0x00 and a descriptor.
#[inline(never)]
fn describing<R: Read>(alloc: Global, reader: &mut R) -> Result<Descriptor, Error>
    ensures ok { IfOk result (λ d.
        TakesDescribing (descriptor_of d) (R.reading reader.old) (R.reading reader.new)) }
    ensures err { IfErr result (λ e. RejectsFor (λ custom. describing_at custom bare) R.buffers
        (R.reading reader.old) (R.reading reader.new) e) }
{
    match byte(reader) {
        Ok(first) => {
            if first != codes::DESCRIBED_TYPE {
                return Err(Error::InvalidFormatCode);
            }
            match descriptor(alloc, reader) {
                Ok(descriptor) => return Ok(descriptor),
                Err(e) => return Err(e),
            }
        }
        Err(e) => return Err(e),
    }
}

impl<R: Read> Deserializer<R> {
    /// The descriptor of the next item (part 1, section 1.2): a symbol or an ulong. 0x00 and the
    /// descriptor are consumed, save in an array of described elements, where they aren't there.
    /// The next call reads the value behind it.
    ///
    /// In this order: `Io(UnexpectedEof)` where there is no byte, `InvalidFormatCode` where an item
    /// stands that isn't described, and of the descriptor `Io(UnexpectedEof)` where bytes of it are
    /// missing, `InvalidFormatCode` where its code is none, `Message` where it is of another kind,
    /// `InvalidUtf8Encoding` where it is a symbol that isn't UTF-8. `OutOfMemory`: there is no
    /// memory for a symbol. A refusal ends the deserializer.
    pub fn deserialize_descriptor(&mut self, alloc: Global) -> Result<Descriptor, Error>
        ensures ok { IfOk result (λ d. Describes (descriptor_of d) self.old self.new) }
        ensures err { IfErr result (λ e. NoDescriptor R.buffers self.old self.new e) }
        ensures stops { Stops self.old result self.new }
    {
        if self.ended {
            return Err(Error::InvalidValue);
        }
        self.ended = true;
        self.begun.tick();
        match &self.inherited {
            Constructor::Bare => match describing(alloc, &mut self.reader) {
                Ok(descriptor) => {
                    self.begun.tick();
                    self.ended = false;
                    return Ok(descriptor);
                }
                Err(e) => return Err(e),
            },
            Constructor::Under(_) => return Err(Error::InvalidFormatCode),
            Constructor::UnderPair(inherited, _) => {
                if self.described {
                    return Err(Error::InvalidFormatCode);
                }
                match inherited.clone(alloc) {
                    Ok(descriptor) => {
                        self.described = true;
                        self.ended = false;
                        return Ok(descriptor);
                    }
                    Err(e) => return Err(e),
                }
            }
        }
    }
}

impl<R: Read, T: Deserialize<R>> Deserialize<R> for Described<T> {
    /// A descriptor, and the value behind it (part 1, section 1.2). The refusals are those of
    /// `Deserializer::deserialize_descriptor`, and behind it those of `T`.
    #[inline(always)]
    fn deserialize(alloc: Global, de: &mut Deserializer<R>) -> Result<Described<T>, Error> {
        match de.deserialize_descriptor(alloc) {
            Ok(descriptor) => match T::deserialize(alloc, de) {
                Ok(value) => return Ok(Described { descriptor, value }),
                Err(e) => return Err(e),
            },
            Err(e) => return Err(e),
        }
    }
}
