//! The key by which an item names a variant of an enum.

ghost use Rattle.std.specs.Prelude.{◌≡◌};
ghost use Rattle.amqp_base.specs.Codes.{row};
ghost use Rattle.amqp_base.specs.Enums.{key_meaning};
ghost use Rattle.amqp_base.specs.VariantItems.{is_first, behind_first};
ghost use Rattle.amqp_de.specs.VariantKeys.{key_view, KindIs};

use crate::{Deserialize, Deserializer};
use amqp_base::{EncodingCodes, Error, Typed};
use amqp_read::Read;
use std::alloc::Global;

/// Which variant of an enum an item names: by its index, a uint or an ulong (part 1, sections
/// 1.6.5, 1.6.6), or by its name, a string or a symbol (sections 1.6.20, 1.6.21).
#[derive(Drop)]
pub enum VariantKey {
    /// Its index: 0 for the first variant.
    Index(u64),
    /// Its name.
    Name(String),
}

impl Typed for VariantKey {
    ghost meaning = { key_meaning key_view };
}

impl VariantKey {
    /// Whether this is the key of the first variant, which has this name.
    #[inline(always)]
    pub(crate) fn is_first(&self, name: &str) -> bool
        ensures { result ≡ is_first name.now (key_view self.now) }
    {
        match self {
            VariantKey::Index(index) => *index == 0,
            VariantKey::Name(own) => name == own.as_str(),
        }
    }

    /// The key among the variants behind the first.
    #[inline(always)]
    pub(crate) fn behind_first(self) -> VariantKey
        ensures { key_view result ≡ behind_first (key_view self) }
    {
        match self {
            VariantKey::Index(index) => VariantKey::Index(index.saturating_sub(1)),
            VariantKey::Name(name) => VariantKey::Name(name),
        }
    }
}

/// What a key is on the wire.
#[derive(Clone, Copy)]
pub enum KeyKind {
    /// A uint.
    Uint,
    /// An ulong.
    Ulong,
    /// A string.
    String,
    /// A symbol.
    Symbol,
    /// No key.
    Other,
}

/// What a key with this code is.
#[inline(always)]
#[tactic(auto, unfolding(amqp_base::specs::Codes::row))]
fn key_kind(code: EncodingCodes) -> KeyKind
    ensures { KindIs result (row code).kind }
{
    match code {
        EncodingCodes::Uint => KeyKind::Uint,
        EncodingCodes::SmallUint => KeyKind::Uint,
        EncodingCodes::Uint0 => KeyKind::Uint,
        EncodingCodes::Ulong => KeyKind::Ulong,
        EncodingCodes::SmallUlong => KeyKind::Ulong,
        EncodingCodes::Ulong0 => KeyKind::Ulong,
        EncodingCodes::Str8 => KeyKind::String,
        EncodingCodes::Str32 => KeyKind::String,
        EncodingCodes::Sym8 => KeyKind::Symbol,
        EncodingCodes::Sym32 => KeyKind::Symbol,
        _ => KeyKind::Other,
    }
}

impl<R: Read> Deserialize<R> for VariantKey {
    /// In this order: `Io(UnexpectedEof)` where there is no byte, `InvalidFormatCode` where it is
    /// no code or that of another item, and then the deserializer isn't ended; else the refusals of
    /// `deserialize_u32`, `deserialize_u64`, `deserialize_string` and `deserialize_symbol`.
    #[inline(always)]
    fn deserialize(alloc: Global, de: &mut Deserializer<R>) -> Result<VariantKey, Error> {
        match de.deserialize_any() {
            Ok(code) => match key_kind(code) {
                KeyKind::Uint => match de.deserialize_u32() {
                    Ok(index) => Ok(VariantKey::Index(u64::from(index))),
                    Err(e) => Err(e),
                },
                KeyKind::Ulong => match de.deserialize_u64() {
                    Ok(index) => Ok(VariantKey::Index(index)),
                    Err(e) => Err(e),
                },
                KeyKind::String => match de.deserialize_string(alloc) {
                    Ok(name) => Ok(VariantKey::Name(name)),
                    Err(e) => Err(e),
                },
                KeyKind::Symbol => match de.deserialize_symbol(alloc) {
                    Ok(name) => Ok(VariantKey::Name(name)),
                    Err(e) => Err(e),
                },
                KeyKind::Other => Err(Error::InvalidFormatCode),
            },
            Err(e) => Err(e),
        }
    }
}
