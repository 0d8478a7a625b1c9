//! The variants of an enum: which of them stands there, and what it holds.

ghost use Rattle.std.specs.Prelude.{◌≡◌, false, true, IfOk, IfErr};
ghost use Rattle.std.specs.Borrow.{sem, RestsIfErr};
ghost use Rattle.amqp_base.specs.Codes.{row};
ghost use Rattle.amqp_base.specs.Identifiers.{is_key};
ghost use Rattle.amqp_base.specs.Parse.{list_data, map_data, is_descriptor_kind};
ghost use Rattle.amqp_base.specs.Variants.{tagging_named, two_of, held_by};
ghost use Rattle.amqp_base.specs.Variants.{tagged, untagged, of_value, of_descriptor};
ghost use Rattle.amqp_data.specs.Parts.{HasParts, HasPairs};
ghost use Rattle.amqp_de.specs.Access.{Opens, OpensExactly, Plain};
ghost use Rattle.amqp_de.specs.Identifies.{identifier_of};
ghost use Rattle.amqp_de.specs.Seq.{at_open, listing};
ghost use Rattle.amqp_de.specs.VariantsRead.{tagging_of, payload_of, variant_stage, opened_at};
ghost use Rattle.amqp_de.specs.VariantsRead.{NoTwo, NoEnum, IsTag};
ghost use Rattle.amqp_de.specs.VariantsRead.{PairOpened, NoPair, VariantRead, NoVariant};
ghost use Rattle.amqp_de.specs.VariantsRead.{ZeroTaken, NoZero};
ghost use Rattle.amqp_de.specs.contracts.deserializer.Deserializer.{the_row};

use crate::Deserializer;
use crate::identifiers::{Identifier, described_by, is_key, named_by};
use crate::list::{Access, Open};
use crate::structs::unread;
use amqp_base::{DESCRIPTOR, EncodingCodes, Error, UNTAGGED_ENUM, VALUE, codes};
use amqp_data::{Constructor, byte};
use amqp_read::Read;
use std::alloc::Global;

/// How many items a pair has.
const PAIR: u32 = 2;

/// By what a variant is told, by the name of its enum.
#[derive(Clone, Copy)]
pub enum Tagging {
    /// An index, a name, a descriptor, or a pair of an index or a name and what the variant holds.
    Tagged,
    /// `UNTAGGED_ENUM`: what the item is.
    Untagged,
    /// `VALUE`: the code of a value.
    Value,
    /// `DESCRIPTOR`: the code of a descriptor.
    Descriptor,
}

/// What a variant holds.
#[derive(Clone, Copy)]
pub enum Held {
    /// Nothing: its index or its name is all of it.
    Nothing,
    /// The second item of a pair.
    Second,
    /// The item itself.
    Itself,
}

/// How far a variant was read.
#[derive(Clone, Copy)]
pub enum Choice {
    /// Which variant it is comes first.
    Before(Tagging),
    /// What it holds is left.
    Holds(Held),
}

/// The variant of an enum: which of them it is, and then what it holds. Where the access is dropped
/// before one of its consuming calls, its deserializer is ended.
pub type VariantAccess<'a, R> = Access<'a, R, Choice>;

/// A variant whose payload is left.
#[derive(Drop)]
pub(crate) struct Opened {
    pub(crate) identifier: Identifier,
    pub(crate) payload: Held,
    pub(crate) inner: Open,
}

/// A variant that holds the item itself.
#[inline(always)]
fn itself(identifier: Identifier) -> Opened
    ensures identifier { result.identifier ≡ identifier }
    ensures payload { result.payload ≡ Held.Itself }
{
    Opened {
        identifier,
        payload: Held::Itself,
        inner: unread(),
    }
}

/// A variant that holds the second item of a pair, whose first was read.
#[inline(always)]
fn second(identifier: Identifier, pair: Open) -> Opened
    ensures identifier { result.identifier ≡ identifier }
    ensures payload { result.payload ≡ Held.Second }
    ensures left { result.inner.left ≡ 1 }
    ensures outer { result.inner.outer ≡ pair.outer }
    ensures limit { result.inner.limit ≡ pair.limit }
{
    Opened {
        identifier,
        payload: Held::Second,
        inner: Open {
            left: 1,
            outer: pair.outer,
            limit: pair.limit,
        },
    }
}

/// By what the variants of an enum of this name are told.
#[inline(always)]
fn tagging_of(name: &'static str) -> Tagging
    ensures { tagging_of result ≡ tagging_named name.now }
{
    if name == UNTAGGED_ENUM {
        return Tagging::Untagged;
    }
    if name == VALUE {
        return Tagging::Value;
    }
    if name == DESCRIPTOR {
        return Tagging::Descriptor;
    }
    Tagging::Tagged
}

/// What a variant of an untagged enum holds.
#[inline(always)]
fn held_by(identifier: &Identifier) -> Held
    ensures { payload_of result ≡ held_by (identifier_of identifier.now) }
{
    match identifier {
        Identifier::Index(_) => Held::Nothing,
        Identifier::Name(_) => Held::Nothing,
        Identifier::DescriptorName(_) => Held::Itself,
        Identifier::DescriptorCode(_) => Held::Itself,
        Identifier::Code(_) => Held::Itself,
    }
}

/// Whether a code is that of a descriptor.
#[inline(always)]
fn is_descriptor(code: EncodingCodes) -> bool
    ensures { result ≡ is_descriptor_kind (row code).kind }
{
    match code {
        EncodingCodes::Ulong => true,
        EncodingCodes::SmallUlong => true,
        EncodingCodes::Ulong0 => true,
        EncodingCodes::Sym8 => true,
        EncodingCodes::Sym32 => true,
        _ => false,
    }
}

/// What a variant of a tagged enum begins with, by its code.
#[derive(Clone, Copy)]
pub(crate) enum Tag {
    /// An index or a name.
    Key,
    /// 0x00 and a descriptor.
    Descriptor,
    /// The header of a list that may be a pair.
    List,
    /// The header of a map that may be a pair.
    Map,
    /// Nothing that says which variant it is.
    Other,
}

/// What stands behind a code.
#[inline(always)]
fn tag_of(code: EncodingCodes) -> Tag
    ensures { IsTag code result }
{
    match code {
        EncodingCodes::DescribedType => Tag::Descriptor,
        EncodingCodes::List8 => Tag::List,
        EncodingCodes::List32 => Tag::List,
        EncodingCodes::Map8 => Tag::Map,
        EncodingCodes::Map32 => Tag::Map,
        _ => {
            if is_key(code) {
                return Tag::Key;
            }
            Tag::Other
        }
    }
}

impl<R: Read> Deserializer<R> {
    /// Opens an enum: `VariantAccess::variant` says which variant stands there. Nothing is
    /// consumed. The name says by what the variants are told: under `UNTAGGED_ENUM` by what the
    /// item is, under `VALUE` by the code of a value, under `DESCRIPTOR` by the code of a
    /// descriptor, under any other name by an index, a name or a descriptor, or by the first item
    /// of a pair.
    ///
    /// `InvalidValue` after a refusal.
    pub fn deserialize_enum(
        &mut self,
        alloc: Global,
        name: &'static str,
    ) -> Result<VariantAccess<'_, R>, Error>
        ensures* refused { sem 𝓛 (RestsIfErr (the_row R.row R.Read) self.entry (λ a.
            a.de.ghost_name) result (λ last. IfErr result (λ e. NoEnum self.old last e))) }
        ensures same_reference { IfOk result (λ a. a.de.ghost_name ≡ self.entry.ghost_name) }
        ensures not_ended { IfOk result (λ a. self.old.ended ≡ false) }
        ensures kept { IfOk result (λ a. (listing a).state ≡ self.old) }
        ensures named { IfOk result (λ a. variant_stage a ≡ opened_at (tagging_named name.now)) }
    {
        let _ = alloc;
        if self.ended {
            return Err(Error::InvalidValue);
        }
        Ok(Access {
            de: self,
            inner: unread(),
            form: Choice::Before(tagging_of(name)),
        })
    }

    /// Begins a list of two items.
    fn open_two(&mut self) -> Result<Open, Error>
        ensures ok { IfOk result (λ o. Opens HasParts self.old (at_open self.new o)) }
        ensures exact { IfOk result (λ o.
            OpensExactly (two_of list_data) self.old (at_open self.new o)) }
        ensures plain { IfOk result (λ o. Plain (at_open self.new o)) }
        ensures two { IfOk result (λ o. o.left ≡ 2) }
        ensures err { IfErr result (λ e.
            NoTwo HasParts list_data R.buffers self.old self.new e) }
    {
        match self.open_list() {
            Ok(pair) => {
                if pair.left != PAIR {
                    self.stop();
                    return Err(Error::InvalidLength);
                }
                Ok(pair)
            }
            Err(e) => Err(e),
        }
    }

    /// Begins a map of one pair.
    fn open_one_pair(&mut self) -> Result<Open, Error>
        ensures ok { IfOk result (λ o. Opens HasPairs self.old (at_open self.new o)) }
        ensures exact { IfOk result (λ o.
            OpensExactly (two_of map_data) self.old (at_open self.new o)) }
        ensures plain { IfOk result (λ o. Plain (at_open self.new o)) }
        ensures two { IfOk result (λ o. o.left ≡ 2) }
        ensures err { IfErr result (λ e.
            NoTwo HasPairs map_data R.buffers self.old self.new e) }
    {
        match self.open_pairs() {
            Ok(pair) => {
                if pair.left != PAIR {
                    self.stop();
                    return Err(Error::InvalidLength);
                }
                Ok(pair)
            }
            Err(e) => Err(e),
        }
    }

    /// A list of a key and what the variant holds, up to that.
    fn open_list_pair(&mut self, alloc: Global) -> Result<Opened, Error>
        ensures ok { IfOk result (λ o. PairOpened HasParts list_data (identifier_of o.identifier)
            (payload_of o.payload) self.old (at_open self.new o.inner)) }
        ensures err { IfErr result (λ e.
            NoPair HasParts list_data R.buffers self.old self.new e) }
    {
        match self.open_two() {
            Ok(pair) => match self.read_key(alloc) {
                Ok(key) => Ok(second(named_by(key), pair)),
                Err(e) => Err(e),
            },
            Err(e) => Err(e),
        }
    }

    /// A map from a key to what the variant holds, up to that.
    fn open_map_pair(&mut self, alloc: Global) -> Result<Opened, Error>
        ensures ok { IfOk result (λ o. PairOpened HasPairs map_data (identifier_of o.identifier)
            (payload_of o.payload) self.old (at_open self.new o.inner)) }
        ensures err { IfErr result (λ e.
            NoPair HasPairs map_data R.buffers self.old self.new e) }
    {
        match self.open_one_pair() {
            Ok(pair) => match self.read_key(alloc) {
                Ok(key) => Ok(second(named_by(key), pair)),
                Err(e) => Err(e),
            },
            Err(e) => Err(e),
        }
    }

    /// A variant that an index, a name or a descriptor tells, or the first item of a pair.
    fn open_tagged(&mut self, alloc: Global) -> Result<Opened, Error>
        ensures ok { IfOk result (λ o. VariantRead tagged (identifier_of o.identifier)
            (payload_of o.payload) self.old (at_open self.new o.inner)) }
        ensures err { IfErr result (λ e. NoVariant tagged R.buffers self.old self.new e) }
    {
        match self.deserialize_any() {
            Ok(code) => match tag_of(code) {
                Tag::Key => match self.read_key(alloc) {
                    Ok(key) => Ok(Opened {
                        identifier: named_by(key),
                        payload: Held::Nothing,
                        inner: unread(),
                    }),
                    Err(e) => Err(e),
                },
                Tag::Descriptor => match self.look_descriptor(alloc) {
                    Ok(descriptor) => Ok(itself(described_by(descriptor))),
                    Err(e) => Err(e),
                },
                Tag::List => match self.open_list_pair(alloc) {
                    Ok(opened) => Ok(opened),
                    Err(e) => Err(e),
                },
                Tag::Map => match self.open_map_pair(alloc) {
                    Ok(opened) => Ok(opened),
                    Err(e) => Err(e),
                },
                Tag::Other => {
                    self.stop();
                    Err(Error::InvalidFormatCode)
                }
            },
            Err(e) => Err(e),
        }
    }

    /// A variant that the item itself tells.
    fn open_untagged(&mut self, alloc: Global) -> Result<Opened, Error>
        ensures ok { IfOk result (λ o. VariantRead untagged (identifier_of o.identifier)
            (payload_of o.payload) self.old (at_open self.new o.inner)) }
        ensures err { IfErr result (λ e. NoVariant untagged R.buffers self.old self.new e) }
    {
        match self.deserialize_identifier(alloc) {
            Ok(identifier) => {
                let payload = held_by(&identifier);
                Ok(Opened {
                    identifier,
                    payload,
                    inner: unread(),
                })
            }
            Err(e) => Err(e),
        }
    }

    /// A variant that the code of a value tells.
    fn open_value_code(&mut self) -> Result<Opened, Error>
        ensures ok { IfOk result (λ o. VariantRead of_value (identifier_of o.identifier)
            (payload_of o.payload) self.old (at_open self.new o.inner)) }
        ensures err { IfErr result (λ e. NoVariant of_value R.buffers self.old self.new e) }
    {
        match self.deserialize_any() {
            Ok(code) => Ok(itself(Identifier::Code(code))),
            Err(e) => Err(e),
        }
    }

    /// Consumes the 0x00 in front of a descriptor, which stays.
    fn take_zero(&mut self) -> Result<(), Error>
        ensures ok { IfOk result (λ _. ZeroTaken self.old self.new) }
        ensures err { IfErr result (λ e. NoZero R.buffers self.old self.new e) }
    {
        if self.ended {
            return Err(Error::InvalidValue);
        }
        self.ended = true;
        match &self.inherited {
            Constructor::Bare => {
                self.begun.tick();
                match byte(&mut self.reader) {
                    Ok(first) => {
                        if first != codes::DESCRIBED_TYPE {
                            return Err(Error::InvalidFormatCode);
                        }
                        self.ended = false;
                        Ok(())
                    }
                    Err(e) => Err(e),
                }
            }
            Constructor::Under(_) => Err(Error::InvalidFormatCode),
            Constructor::UnderPair(_, _) => Err(Error::InvalidFormatCode),
        }
    }

    /// A variant that the code of a descriptor tells, which is consumed up to that code.
    fn open_descriptor_code(&mut self, alloc: Global) -> Result<Opened, Error>
        ensures ok { IfOk result (λ o. VariantRead of_descriptor (identifier_of o.identifier)
            (payload_of o.payload) self.old (at_open self.new o.inner)) }
        ensures err { IfErr result (λ e. NoVariant of_descriptor R.buffers self.old self.new e) }
    {
        match self.take_zero() {
            Ok(()) => match self.deserialize_any() {
                Ok(code) => {
                    if !is_descriptor(code) {
                        self.stop();
                        return Err(Error::custom(alloc, "expected a descriptor"));
                    }
                    Ok(itself(Identifier::Code(code)))
                }
                Err(e) => Err(e),
            },
            Err(e) => Err(e),
        }
    }

    /// Which variant stands there.
    pub(crate) fn open_variant(&mut self, alloc: Global, tagging: Tagging) -> Result<Opened, Error>
        ensures ok { IfOk result (λ o.
            VariantRead (tagging_of tagging) (identifier_of o.identifier) (payload_of o.payload)
            self.old (at_open self.new o.inner)) }
        ensures err { IfErr result (λ e.
            NoVariant (tagging_of tagging) R.buffers self.old self.new e) }
    {
        match tagging {
            Tagging::Tagged => match self.open_tagged(alloc) {
                Ok(opened) => Ok(opened),
                Err(e) => Err(e),
            },
            Tagging::Untagged => match self.open_untagged(alloc) {
                Ok(opened) => Ok(opened),
                Err(e) => Err(e),
            },
            Tagging::Value => match self.open_value_code() {
                Ok(opened) => Ok(opened),
                Err(e) => Err(e),
            },
            Tagging::Descriptor => match self.open_descriptor_code(alloc) {
                Ok(opened) => Ok(opened),
                Err(e) => Err(e),
            },
        }
    }
}
