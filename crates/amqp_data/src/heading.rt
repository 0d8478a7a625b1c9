//! What stands in front of the elements of a list or an array.

ghost use Rattle.std.specs.Prelude.{◌≡◌, ◌⊎◌, true, IfOk, IfErr};
ghost use Rattle.amqp_base.specs.Item.{scalar, descriptor_item};
ghost use Rattle.amqp_base.specs.Parse.{descriptor_data, descriptor_at, primitive_at};
ghost use Rattle.amqp_base.specs.Parse.{constructor_at, seq_data, behind_byte};
ghost use Rattle.amqp_data.specs.Arrays.{TakesDescriptor, TakesConstructor, TakesPrimitive};
ghost use Rattle.amqp_data.specs.Arrays.{PrimitiveOf, IsArray, Heads, RejectsFor};
ghost use Rattle.amqp_data.specs.Places.{constructor_of};
ghost use Rattle.amqp_data.specs.Steps.{IsData, Rejects};
ghost use Rattle.amqp_types.specs.Descriptors.{descriptor_of};

use crate::constructor::{Constructor, Limit};
use crate::header::{header, list_count};
use crate::leaf::Leaf;
use crate::numbers::byte;
use crate::payloads::AsSymbol;
use crate::unsigned::AsUlong;
use amqp_base::{EncodingCodes, Error, codes};
use amqp_read::Read;
use amqp_types::{Descriptor, Symbol};
use std::alloc::Global;
use std::convert::TryFrom;

/// How many elements there are, what they stand under, and where an array's must have ended.
#[derive(Drop)]
pub struct Heading {
    pub is_array: bool,
    pub left: u32,
    pub stands: Constructor,
    pub limit: Option<Limit>,
}

/// A symbol's data as a descriptor.
#[inline(always)]
fn symbol_descriptor<R: Read>(alloc: Global, reader: &mut R, code: u8) -> Result<Descriptor, Error>
    requires { (code ≡ 0xa3) ⊎ (code ≡ 0xb3) }
    ensures ok { IfOk result (λ d. IsData code (scalar (descriptor_item (descriptor_of d)))
        (R.reading reader.old) (R.reading reader.new)) }
    ensures err { IfErr result (λ e.
        RejectsFor (λ custom. behind_byte (descriptor_data custom) code) R.buffers
        (R.reading reader.old) (R.reading reader.new) e) }
{
    match AsSymbol(alloc).read(reader, code) {
        Ok(text) => Ok(Descriptor::Name(Symbol(text))),
        Err(e) => Err(e),
    }
}

/// An ulong's data as a descriptor.
#[inline(always)]
fn ulong_descriptor<R: Read>(reader: &mut R, code: u8) -> Result<Descriptor, Error>
    requires { (code ≡ 0x80) ⊎ ((code ≡ 0x53) ⊎ (code ≡ 0x44)) }
    ensures ok { IfOk result (λ d. IsData code (scalar (descriptor_item (descriptor_of d)))
        (R.reading reader.old) (R.reading reader.new)) }
    ensures err { IfErr result (λ e.
        RejectsFor (λ custom. behind_byte (descriptor_data custom) code) R.buffers
        (R.reading reader.old) (R.reading reader.new) e) }
{
    match AsUlong.read(reader, code) {
        Ok(n) => Ok(Descriptor::Code(n)),
        Err(e) => Err(e),
    }
}

/// A descriptor's data, given the byte of its code.
#[inline(always)]
fn descriptor_behind<R: Read>(alloc: Global, reader: &mut R, code: u8) -> Result<Descriptor, Error>
    ensures ok { IfOk result (λ d. IsData code (scalar (descriptor_item (descriptor_of d)))
        (R.reading reader.old) (R.reading reader.new)) }
    ensures err { IfErr result (λ e.
        RejectsFor (λ custom. behind_byte (descriptor_data custom) code) R.buffers
        (R.reading reader.old) (R.reading reader.new) e) }
{
    match code {
        codes::SYM8 => symbol_descriptor(alloc, reader, code),
        codes::SYM32 => symbol_descriptor(alloc, reader, code),
        codes::ULONG => ulong_descriptor(reader, code),
        codes::SMALL_ULONG => ulong_descriptor(reader, code),
        codes::ULONG0 => ulong_descriptor(reader, code),
        _ => match EncodingCodes::try_from(code) {
            Ok(_) => Err(Error::custom(alloc, "expected a descriptor")),
            Err(e) => Err(e),
        },
    }
}

/// A descriptor: a symbol or an ulong with its own code.
#[inline(never)]
pub fn descriptor<R: Read>(alloc: Global, reader: &mut R) -> Result<Descriptor, Error>
    ensures ok { IfOk result (λ d.
        TakesDescriptor (descriptor_of d) (R.reading reader.old) (R.reading reader.new)) }
    ensures err { IfErr result (λ e. RejectsFor descriptor_at R.buffers (R.reading reader.old)
        (R.reading reader.new) e) }
{
    match byte(reader) {
        Ok(code) => match descriptor_behind(alloc, reader, code) {
            Ok(descriptor) => Ok(descriptor),
            Err(e) => Err(e),
        },
        Err(e) => Err(e),
    }
}

/// The primitive code of a byte.
#[inline(always)]
fn primitive(byte: u8) -> Result<EncodingCodes, Error>
    ensures { PrimitiveOf byte result }
{
    if byte == codes::DESCRIBED_TYPE {
        return Err(Error::InvalidFormatCode);
    }
    EncodingCodes::try_from(byte)
}

/// The next byte, as a primitive code.
#[inline(always)]
fn primitive_code<R: Read>(reader: &mut R) -> Result<EncodingCodes, Error>
    ensures ok { IfOk result (λ e.
        TakesPrimitive e (R.reading reader.old) (R.reading reader.new)) }
    ensures err { IfErr result (λ e. Rejects true R.buffers primitive_at (R.reading reader.old)
        (R.reading reader.new) e) }
{
    match byte(reader) {
        Ok(byte) => match primitive(byte) {
            Ok(code) => Ok(code),
            Err(e) => Err(e),
        },
        Err(e) => Err(e),
    }
}

/// The constructor of an array's elements: a code, or 0x00, a descriptor and a code.
#[inline(never)]
fn element_constructor<R: Read>(alloc: Global, reader: &mut R) -> Result<Constructor, Error>
    ensures ok { IfOk result (λ c.
        TakesConstructor (constructor_of c) (R.reading reader.old) (R.reading reader.new)) }
    ensures err { IfErr result (λ e. RejectsFor constructor_at R.buffers (R.reading reader.old)
        (R.reading reader.new) e) }
{
    match byte(reader) {
        Ok(first) => {
            if first == codes::DESCRIBED_TYPE {
                return match descriptor(alloc, reader) {
                    Ok(name) => match primitive_code(reader) {
                        Ok(code) => Ok(Constructor::UnderPair(name, code)),
                        Err(e) => Err(e),
                    },
                    Err(e) => Err(e),
                };
            }
            match primitive(first) {
                Ok(code) => Ok(Constructor::Under(code)),
                Err(e) => Err(e),
            }
        }
        Err(e) => Err(e),
    }
}

/// The data of an array up to its elements, given how many bytes its size and its count have.
/// Behind a count of 0 the bytes that the size says are consumed, whatever they are.
#[inline(never)]
fn array_heading<R: Read>(
    alloc: Global,
    reader: &mut R,
    code: u8,
    width: u32,
) -> Result<Heading, Error>
    requires { IsArray code width }
    ensures ok { IfOk result (λ h. Heads code (R.reading reader.old) (R.reading reader.new) h) }
    ensures err { IfErr result (λ e.
        RejectsFor (λ custom. behind_byte (seq_data custom) code) R.buffers
        (R.reading reader.old) (R.reading reader.new) e) }
{
    match header(reader, width, true) {
        Ok((size, count)) => {
            let room = size.saturating_sub(width);
            if count == 0 {
                return match reader.skip(room as usize) {
                    Ok(()) => Ok(Heading {
                        is_array: true,
                        left: 0,
                        stands: Constructor::Bare,
                        limit: None,
                    }),
                    Err(e) => Err(e),
                };
            }
            let before = reader.bytes_consumed();
            match element_constructor(alloc, reader) {
                Ok(stands) => {
                    let start = reader.bytes_consumed();
                    let taken = start.saturating_sub(before);
                    if taken > room as usize {
                        return Err(Error::InvalidLength);
                    }
                    Ok(Heading {
                        is_array: true,
                        left: count,
                        stands,
                        limit: Some(Limit {
                            start,
                            room: room - taken as u32,
                        }),
                    })
                }
                Err(e) => Err(e),
            }
        }
        Err(e) => Err(e),
    }
}

/// The data of a list or an array up to its elements.
#[inline(always)]
pub fn seq_heading<R: Read>(alloc: Global, reader: &mut R, code: u8) -> Result<Heading, Error>
    ensures ok { IfOk result (λ h. Heads code (R.reading reader.old) (R.reading reader.new) h) }
    ensures err { IfErr result (λ e.
        RejectsFor (λ custom. behind_byte (seq_data custom) code) R.buffers
        (R.reading reader.old) (R.reading reader.new) e) }
{
    match code {
        codes::ARRAY8 => array_heading(alloc, reader, code, 1),
        codes::ARRAY32 => array_heading(alloc, reader, code, 4),
        _ => match list_count(reader, code) {
            Ok(left) => Ok(Heading {
                is_array: false,
                left,
                stands: Constructor::Bare,
                limit: None,
            }),
            Err(e) => Err(e),
        },
    }
}
