//! The descriptors behind which the values of a type are read.

ghost use Rattle.std.specs.Prelude.{◌≡◌, ◌∷◌, [], codes, false, true, take};
ghost use Rattle.std.specs.Prelude.{IfOk, IfErr, IfSome, OnOk, None};
ghost use Rattle.amqp_base.specs.Canon.{same_descriptor};
ghost use Rattle.amqp_base.specs.Describing.{is_code_or_name};
ghost use Rattle.amqp_base.specs.Item.{name, code};
ghost use Rattle.amqp_base.specs.Refusals.{IsCustom};
ghost use Rattle.amqp_de.specs.Decoding.{as_ended};
ghost use Rattle.amqp_de.specs.Describes.{Describes, DescribesAmong, DescribesNone};
ghost use Rattle.amqp_de.specs.Steps.{Stops};
ghost use Rattle.amqp_types.specs.Descriptors.{descriptor_of};

use crate::Deserializer;
use amqp_base::{Error, codes};
use amqp_read::Read;
use amqp_types::{Descriptor, SymbolRef};
use std::alloc::Global;

/// The descriptors behind which the values of a type are read (part 1, section 1.2): a `Descriptor`
/// is just that one, a `SymbolRef` just that name, a `CodeOrName` either of two.
pub trait DescriptorSet {
    ghost use Rattle.std.specs.Prelude.{◌≡◌, Bool};
    ghost use Rattle.amqp_base.specs.Item.{Descriptor};
    ghost use Rattle.amqp_types.specs.Descriptors.{descriptor_of};

    /// Whether a descriptor is one of them.
    ghost among: { Self → Descriptor → Bool };

    /// Whether a descriptor is one of them.
    fn contains(&self, descriptor: &Descriptor) -> bool
        ensures { result ≡ among self.now (descriptor_of descriptor.now) };
}

impl DescriptorSet for Descriptor {
    ghost among = { λ d. same_descriptor (descriptor_of d) };

    #[inline(always)]
    fn contains(&self, descriptor: &Descriptor) -> bool {
        match self {
            Descriptor::Name(name) => match descriptor {
                Descriptor::Name(other) => name.as_str() == other.as_str(),
                Descriptor::Code(_) => false,
            },
            Descriptor::Code(code) => match descriptor {
                Descriptor::Name(_) => false,
                Descriptor::Code(other) => *code == *other,
            },
        }
    }
}

impl DescriptorSet for SymbolRef<'_> {
    ghost among = { λ s. same_descriptor (name s.0.now) };

    #[inline(always)]
    fn contains(&self, descriptor: &Descriptor) -> bool {
        match descriptor {
            Descriptor::Name(name) => self.as_str() == name.as_str(),
            Descriptor::Code(_) => false,
        }
    }
}

/// A type's numeric code and its symbolic name, of which a peer may write either:
/// `CodeOrName(0x10, "amqp:open:list")`.
#[derive(Debug, Clone, Copy, PartialEq, Eq)]
pub struct CodeOrName<'a>(pub u64, pub &'a str);

impl<'a> DescriptorSet for CodeOrName<'a> {
    ghost among = { λ d. is_code_or_name d.0 d.1.now };

    #[inline(always)]
    fn contains(&self, descriptor: &Descriptor) -> bool {
        let CodeOrName(code, name) = self;
        match descriptor {
            Descriptor::Name(other) => other.as_str() == *name,
            Descriptor::Code(other) => *other == *code,
        }
    }
}

/// Whether a descriptor is one of those that are wanted.
#[inline(always)]
fn is_wanted<D: DescriptorSet>(wanted: &D, found: Descriptor) -> bool
    ensures { result ≡ D.among wanted.now (descriptor_of found) }
{
    wanted.contains(&found)
}

/// The code of a descriptor that is a small ulong, where 0x00 and it stand at the front.
#[inline(always)]
fn small_code(bytes: &[u8]) -> Option<u8>
    ensures { IfSome result (λ k. take 3 bytes.now ≡ 0 ∷ 0x53 ∷ k ∷ []) }
{
    if bytes.len() < 3 || bytes[0] != codes::DESCRIBED_TYPE || bytes[1] != codes::SMALL_ULONG {
        return None;
    }
    Some(bytes[2])
}

impl<R: Read> Deserializer<R> {
    /// Reads the descriptor of the next item, which is to be one of these: another one is a
    /// `Message`. The next call reads the value behind it.
    #[inline(always)]
    pub(crate) fn begin_behind<D: DescriptorSet>(
        &mut self,
        alloc: Global,
        wanted: &D,
    ) -> Result<(), Error>
        ensures ok { IfOk result (λ _. DescribesAmong (D.among wanted.now) self.old self.new) }
        ensures err { IfErr result (λ e.
            DescribesNone (D.among wanted.now) R.buffers self.old self.new e) }
        ensures stops { Stops self.old result self.new }
    {
        match self.take_small_code() {
            Some(code) => self.go_behind(alloc, wanted, Descriptor::Code(code as u64)),
            None => match self.deserialize_descriptor(alloc) {
                Ok(found) => self.go_behind(alloc, wanted, found),
                Err(e) => Err(e),
            },
        }
    }

    /// Consumes the descriptor of the next item, where it is a small ulong and its bytes are at
    /// hand: its code. Else nothing changes.
    // The descriptors of the standard's own types are such, and no place in memory is made of them.
    #[inline(always)]
    fn take_small_code(&mut self) -> Option<u8>
        ensures taken { IfSome result (λ k. Describes (code k) self.old self.new) }
        ensures else_kept { result ≡ None → self.new ≡ self.old }
    {
        if self.ended || !self.is_bare() {
            return None;
        }
        match small_code(self.reader.bytes_at_hand()) {
            Some(code) => {
                if !self.reader.pass_at_hand(3) {
                    return None;
                }
                self.begun.tick();
                self.begun.tick();
                Some(code)
            }
            None => None,
        }
    }

    /// Goes on behind the descriptor that was read, where it is one of these: another one is a
    /// `Message`.
    #[inline(always)]
    fn go_behind<D: DescriptorSet>(
        &mut self,
        alloc: Global,
        wanted: &D,
        found: Descriptor,
    ) -> Result<(), Error>
        ensures ok { OnOk result ((D.among wanted.now (descriptor_of found) ≡ true)
            × (self.new ≡ self.old)) }
        ensures err { IfErr result (λ e. (D.among wanted.now (descriptor_of found) ≡ false)
            × IsCustom (codes "another descriptor") e × (self.new ≡ as_ended self.old)) }
    {
        if !is_wanted(wanted, found) {
            self.stop();
            return Err(Error::custom(alloc, "another descriptor"));
        }
        Ok(())
    }
}
