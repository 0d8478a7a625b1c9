//! Descriptors where they stand.

ghost use Rattle.std.specs.Prelude.{◌≡◌, ◌≢◌, true, false, [], None, nat_lt};
ghost use Rattle.amqp_base.specs.Item.{descriptor_item, code};
ghost use Rattle.amqp_base.specs.Canon.{same_descriptor, descriptor_text, limit};
ghost use Rattle.amqp_types.specs.Descriptors.{descriptor_of};
ghost use Rattle.amqp_write.specs.State.{stand, mark_of, found_of, unmarked};
ghost use Rattle.amqp_write.specs.Texts.{payload_length};
ghost use Rattle.amqp_write.specs.Appending.{Pays, as_error};
ghost use Rattle.amqp_write.specs.Describing.{describing, why_undescribed, StandsAs};

use crate::place::{Constructor, LONGEST, Mark, Place};
use crate::refusal::Refusal;
use amqp_base::{EncodingCodes, Sink, codes};
use amqp_types::Descriptor;

/// Where a value behind a descriptor stands.
#[derive(Clone, Copy)]
pub enum Behind {
    /// Outside arrays.
    Alone,
    /// As the first element of an array.
    First,
    /// As a further one, behind the array's own descriptor, which is equal: its data stand under
    /// this code.
    Another(EncodingCodes),
    /// In an array of other elements.
    Nowhere,
}

/// Whether both are the same descriptor.
fn is_same(one: &Descriptor, other: &Descriptor) -> bool
    ensures { result ≡ same_descriptor (descriptor_of one.now) (descriptor_of other.now) }
{
    match one {
        Descriptor::Name(name) => match other {
            Descriptor::Name(other) => name.as_str() == other.as_str(),
            Descriptor::Code(_) => false,
        },
        Descriptor::Code(code) => match other {
            Descriptor::Name(_) => false,
            Descriptor::Code(other) => *code == *other,
        },
    }
}

/// Whether a number is too great to be written, which none is.
#[inline(always)]
fn is_too_great(number: u64) -> bool
    ensures value { result ≡ false }
    ensures text { descriptor_text (code number) ≢ None }
{
    let _ = number;
    false
}

/// Whether a descriptor is too long to be written.
pub fn is_too_long(descriptor: &Descriptor) -> bool
    ensures value { result ≡
        nat_lt limit (payload_length (descriptor_item (descriptor_of descriptor.now))) }
    ensures text { descriptor_text (descriptor_of descriptor.now) ≡ None → result ≡ true }
{
    match descriptor {
        Descriptor::Name(name) => name.as_str().len() > LONGEST,
        Descriptor::Code(number) => is_too_great(*number),
    }
}

impl Place {
    /// Where a value behind this descriptor stands.
    pub fn behind(&self, descriptor: &Descriptor) -> Behind
        ensures { StandsAs (mark_of self.now) (descriptor_of descriptor.now) result }
    {
        match self.mark {
            Mark::Unmarked => Behind::Alone,
            Mark::First => Behind::First,
            Mark::Other(constructor) => match constructor {
                Constructor::Under(_) => Behind::Nowhere,
                Constructor::UnderPair(code) => match &self.descriptor {
                    Some(own) => {
                        if is_same(own, descriptor) {
                            Behind::Another(code)
                        } else {
                            Behind::Nowhere
                        }
                    }
                    None => Behind::Nowhere,
                },
            },
        }
    }

    /// 00 and a descriptor (section 1.2), outside arrays: a symbol or a ulong. A symbol of more
    /// than 4,294,967,291 bytes is `Io(Other)`.
    pub fn descriptor<W: Sink>(
        &mut self,
        writer: &mut W,
        descriptor: &Descriptor,
    ) -> Result<(), Refusal>
        requires answers { self.old.ended ≡ false }
        requires marked { mark_of self.old ≡ unmarked }
        ensures law { Pays (stand W.Write W.FaultCount writer.old self.old)
            (describing (descriptor_of descriptor.now)) (found_of self.old) []
            (why_undescribed (descriptor_of descriptor.now)) (as_error result)
            (stand W.Write W.FaultCount writer.new self.new) }
    {
        match self.append(writer, &[codes::DESCRIBED_TYPE]) {
            Ok(()) => {}
            Err(e) => return Err(e),
        }
        match descriptor {
            Descriptor::Name(name) => self.symbol(writer, name.as_str()),
            Descriptor::Code(code) => self.ulong(writer, *code),
        }
    }
}
