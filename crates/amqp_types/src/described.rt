//! Described values: a descriptor, and the value behind it.

ghost use Rattle.amqp_base.specs.Describing.{described_of};
ghost use Rattle.amqp_types.specs.Descriptors.{descriptor_of};
ghost use Rattle.std.specs.Prelude.{◌≡◌, refl, IfOk, IfErr};
ghost use Rattle.amqp_base.specs.declared.error.Error.TheVariants.{OutOfMemory};

use crate::Symbol;
use amqp_base::{Error, NeverNull, RoundTrip, Typed};
use std::alloc::Global;

/// What a described value is (part 1, sections 1.1.2 and 1.5): a symbolic name or a number. The
/// standard reserves descriptors of other types; they are neither read nor written.
#[derive(Debug, PartialEq, Eq, PartialOrd, Ord, Hash, Drop)]
pub enum Descriptor {
    /// A symbolic name, as `amqp:open:list`.
    Name(Symbol),
    /// A number: the domain's id in its upper four bytes, the descriptor's in the lower.
    Code(u64),
}

impl Descriptor {
    /// Another one of the same name or number; `OutOfMemory` where a name finds no memory.
    pub fn clone(&self, alloc: Global) -> Result<Descriptor, Error>
        ensures ok { IfOk result (λ d. descriptor_of d ≡ descriptor_of self.now) }
        ensures err { IfErr result (λ e. e ≡ OutOfMemory) }
    {
        match self {
            Descriptor::Name(name) => match name.clone(alloc) {
                Ok(name) => Ok(Descriptor::Name(name)),
                Err(e) => Err(e),
            },
            Descriptor::Code(code) => Ok(Descriptor::Code(*code)),
        }
    }
}

/// A value behind a descriptor (part 1, section 1.1.2).
#[derive(Debug, PartialEq, Eq, PartialOrd, Ord, Hash, Drop)]
pub struct Described<T> {
    /// What the value is.
    pub descriptor: Descriptor,
    /// The value behind it.
    pub value: T,
}

impl<T> Described<T> {
    /// Another one of a clone of the value; `OutOfMemory` where they find no memory.
    pub fn clone(&self, alloc: Global) -> Result<Described<T>, Error>
    where
        T: Clone,
        ensures descriptor { IfOk result (λ d.
            descriptor_of d.descriptor ≡ descriptor_of self.now.descriptor) }
        ensures value { IfOk result (λ d. T.is_clone self.now.value d.value) }
        ensures err { IfErr result (λ e. e ≡ OutOfMemory) }
    {
        let descriptor = self.descriptor.clone(alloc)?;
        let value = self.value.clone()?;
        Ok(Described { descriptor, value })
    }
}

impl<T: Typed> Typed for Described<T> {
    ghost meaning = { described_of T.meaning (λ v. descriptor_of v.descriptor) (λ v. v.value) };
}

impl<T: RoundTrip> RoundTrip for Described<T> {
    ghost reads_back = { T.reads_back };
}

impl<T: Typed> NeverNull for Described<T> {
    ghost never_null = { refl };
}
