//! What says which variant of an enum stands next.

ghost use Rattle.std.specs.Prelude.{◌≡◌, true, false, Some, IsTrue, IfOk, IfErr};
ghost use Rattle.amqp_base.specs.Codes.{row};
ghost use Rattle.amqp_base.specs.Identifiers.{is_key, is_key_kind, key_data, key_of};
ghost use Rattle.amqp_base.specs.Identifiers.{by_descriptor, ignored_at, identifier_at};
ghost use Rattle.amqp_base.specs.Item.{scalar};
ghost use Rattle.amqp_base.specs.Parse.{item_at};
ghost use Rattle.amqp_data.specs.Keys.{key_scalar};
ghost use Rattle.amqp_de.specs.Decoding.{stands_under};
ghost use Rattle.amqp_de.specs.Identifies.{identifier_of, any_item, Identifies, Ignores};
ghost use Rattle.amqp_de.specs.Identifies.{DescriptorSeen, DescriptorUnseen};
ghost use Rattle.amqp_de.specs.Law.{Found, Missed};
ghost use Rattle.amqp_de.specs.Steps.{Exact, Stops};
ghost use Rattle.amqp_types.specs.Descriptors.{descriptor_of};

use crate::Deserializer;
use amqp_base::{EncodingCodes, Error};
use amqp_data::{Constructor, Key, descriptor_ahead, key_data};
use amqp_read::Read;
use amqp_types::Descriptor;
use std::alloc::Global;

/// What says which variant of an enum stands next.
#[derive(Debug, PartialEq, Eq, Drop)]
pub enum Identifier {
    /// A uint or an ulong (part 1, sections 1.6.5 and 1.6.6).
    Index(u64),
    /// A string or a symbol (part 1, sections 1.6.20 and 1.6.21).
    Name(String),
    /// The descriptor of a described value (part 1, section 1.2), which is a symbol.
    DescriptorName(String),
    /// The descriptor of a described value, which is an ulong.
    DescriptorCode(u64),
    /// The code of any other item.
    Code(EncodingCodes),
}

/// Whether a code is that of an index or a name.
#[inline(always)]
pub(crate) fn is_key(code: EncodingCodes) -> bool
    ensures yes { IsTrue result → IsTrue (is_key_kind (row code).kind) }
    ensures no { result ≡ false → is_key_kind (row code).kind ≡ false }
{
    match code {
        EncodingCodes::Uint => true,
        EncodingCodes::SmallUint => true,
        EncodingCodes::Uint0 => true,
        EncodingCodes::Ulong => true,
        EncodingCodes::SmallUlong => true,
        EncodingCodes::Ulong0 => true,
        EncodingCodes::Str8 => true,
        EncodingCodes::Str32 => true,
        EncodingCodes::Sym8 => true,
        EncodingCodes::Sym32 => true,
        _ => false,
    }
}

/// What an index or a name says.
#[inline(always)]
pub(crate) fn named_by(key: Key) -> Identifier
    ensures { key_of (key_scalar key) ≡ Some (identifier_of result) }
{
    match key {
        Key::Uint(index) => Identifier::Index(index as u64),
        Key::Ulong(index) => Identifier::Index(index),
        Key::String(name) => Identifier::Name(name),
        Key::Symbol(name) => Identifier::Name(name),
    }
}

/// What a descriptor says.
#[inline(always)]
pub(crate) fn described_by(descriptor: Descriptor) -> Identifier
    ensures { identifier_of result ≡ by_descriptor (descriptor_of descriptor) }
{
    match descriptor {
        Descriptor::Name(name) => Identifier::DescriptorName(name.into_inner()),
        Descriptor::Code(code) => Identifier::DescriptorCode(code),
    }
}

impl<R: Read> Deserializer<R> {
    /// An index or a name, which is consumed.
    pub(crate) fn read_key(&mut self, alloc: Global) -> Result<Key, Error>
        ensures ok { IfOk result (λ k.
            Found is_key (λ i. i ≡ scalar (key_scalar k)) self.old self.new) }
        ensures err { IfErr result (λ e. Missed is_key true R.buffers self.old self.new e) }
        ensures exact { self.old.ended ≡ false → Exact key_scalar true R.buffers
            (item_at key_data (stands_under self.old)) self.old.reading result self.new.reading }
        ensures stops { Stops self.old result self.new }
    {
        if self.ended {
            return Err(Error::InvalidValue);
        }
        match self.begin() {
            Ok(code) => match key_data(alloc, &mut self.reader, code) {
                Ok(key) => {
                    self.ended = false;
                    Ok(key)
                }
                Err(e) => Err(e),
            },
            Err(e) => Err(e),
        }
    }

    /// The descriptor of the described item that was looked at. All of it stays.
    pub(crate) fn look_descriptor(&mut self, alloc: Global) -> Result<Descriptor, Error>
        ensures ok { IfOk result (λ d. DescriptorSeen (descriptor_of d) self.old self.new) }
        ensures err { IfErr result (λ e. DescriptorUnseen R.buffers self.old self.new e) }
    {
        self.ended = true;
        match &self.inherited {
            Constructor::Bare => match descriptor_ahead(alloc, &mut self.reader) {
                Ok(descriptor) => {
                    self.ended = false;
                    Ok(descriptor)
                }
                Err(e) => Err(e),
            },
            Constructor::Under(_) => Err(Error::InvalidFormatCode),
            Constructor::UnderPair(inherited, _) => {
                if self.described {
                    return Err(Error::InvalidFormatCode);
                }
                match inherited.clone(alloc) {
                    Ok(descriptor) => {
                        self.ended = false;
                        Ok(descriptor)
                    }
                    Err(e) => Err(e),
                }
            }
        }
    }

    /// What says which variant stands next: the descriptor of a described item, or the code of any
    /// other item, an index or a name too (part 1, section 1.2). Inside an array these are its
    /// elements' own. Nothing is consumed, whatever is answered.
    ///
    /// In this order: `Io(UnexpectedEof)` where there is no byte, `InvalidFormatCode` where it is
    /// no code, and of a descriptor `Io(UnexpectedEof)` where bytes of it are missing,
    /// `InvalidFormatCode` where it is neither a symbol nor an ulong, `InvalidUtf8Encoding` where
    /// it is a symbol that isn't UTF-8. `OutOfMemory`: there is no memory for a symbol. A refusal
    /// ends the deserializer.
    pub fn deserialize_ignored_any(&mut self, alloc: Global) -> Result<Identifier, Error>
        ensures ok { IfOk result (λ i. Ignores (identifier_of i) self.old self.new) }
        ensures err { IfErr result (λ e. Missed any_item true R.buffers self.old self.new e) }
        ensures exact { self.old.ended ≡ false → Exact identifier_of true R.buffers
            (ignored_at (stands_under self.old)) self.old.reading result self.new.reading }
        ensures stops { Stops self.old result self.new }
    {
        match self.deserialize_any() {
            Ok(code) => match code {
                EncodingCodes::DescribedType => match self.look_descriptor(alloc) {
                    Ok(descriptor) => Ok(described_by(descriptor)),
                    Err(e) => Err(e),
                },
                _ => Ok(Identifier::Code(code)),
            },
            Err(e) => Err(e),
        }
    }

    /// What says which variant stands next: an index or a name, which is consumed; else what
    /// `deserialize_ignored_any` answers, and then nothing is consumed.
    ///
    /// The refusals of `deserialize_ignored_any`, and of an index or a name `Io(UnexpectedEof)`
    /// where bytes of it are missing, `InvalidUtf8Encoding` where a name isn't UTF-8.
    /// `OutOfMemory`: there is no memory for a name. A refusal ends the deserializer.
    pub fn deserialize_identifier(&mut self, alloc: Global) -> Result<Identifier, Error>
        ensures ok { IfOk result (λ i. Identifies (identifier_of i) self.old self.new) }
        ensures err { IfErr result (λ e. Missed any_item true R.buffers self.old self.new e) }
        ensures exact { self.old.ended ≡ false → Exact identifier_of true R.buffers
            (identifier_at (stands_under self.old)) self.old.reading result self.new.reading }
        ensures stops { Stops self.old result self.new }
    {
        match self.deserialize_any() {
            Ok(code) => {
                if is_key(code) {
                    return match self.read_key(alloc) {
                        Ok(key) => Ok(named_by(key)),
                        Err(e) => Err(e),
                    };
                }
                match self.deserialize_ignored_any(alloc) {
                    Ok(identifier) => Ok(identifier),
                    Err(e) => Err(e),
                }
            }
            Err(e) => Err(e),
        }
    }
}
