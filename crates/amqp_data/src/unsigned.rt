//! The data of numbers without a sign.
#![tactic(auto, unfolding(amqp_base::specs::Codes::row,
// which codes are of one kind
amqp_base::specs::SameKind::same_kind, amqp_base::specs::SameKind::place,
// where that is its only code
crate::specs::OneCode::is_only))]

use crate::leaf::{Leaf, fixed};
use crate::numbers::byte;
use amqp_base::{EncodingCodes, Error, codes};
use amqp_read::{Read, read_const_bytes};

/// The data of a ubyte.
#[derive(Drop)]
pub struct AsUbyte;

impl Leaf for AsUbyte {
    ghost use Rattle.std.specs.Prelude.{false, refl};
    ghost use Rattle.amqp_base.specs.Codes.{Kind};
    ghost use Rattle.amqp_base.specs.Item.{ubyte};

    type Value = u8;

    ghost kind = { Kind.ubyte };

    ghost shows = { ubyte };

    ghost grows = { false };

    ghost of_kind = { λ _. refl };

    #[inline(always)]
    fn read<R: Read>(self, reader: &mut R, code: u8) -> Result<u8, Error> {
        match fixed::<R, 1>(reader, code, EncodingCodes::Ubyte) {
            Ok(bytes) => Ok(u8::from_be_bytes(bytes)),
            Err(e) => Err(e),
        }
    }
}

/// The data of an ushort.
#[derive(Drop)]
pub struct AsUshort;

impl Leaf for AsUshort {
    ghost use Rattle.std.specs.Prelude.{false, refl};
    ghost use Rattle.amqp_base.specs.Codes.{Kind};
    ghost use Rattle.amqp_base.specs.Item.{ushort};

    type Value = u16;

    ghost kind = { Kind.ushort };

    ghost shows = { ushort };

    ghost grows = { false };

    ghost of_kind = { λ _. refl };

    #[inline(always)]
    fn read<R: Read>(self, reader: &mut R, code: u8) -> Result<u16, Error> {
        match fixed::<R, 2>(reader, code, EncodingCodes::Ushort) {
            Ok(bytes) => Ok(u16::from_be_bytes(bytes)),
            Err(e) => Err(e),
        }
    }
}

/// The data of a uint.
#[derive(Drop)]
pub struct AsUint;

impl Leaf for AsUint {
    ghost use Rattle.std.specs.Prelude.{false, refl};
    ghost use Rattle.amqp_base.specs.Codes.{Kind};
    ghost use Rattle.amqp_base.specs.Item.{uint};

    type Value = u32;

    ghost kind = { Kind.uint };

    ghost shows = { uint };

    ghost grows = { false };

    ghost of_kind = { λ _. refl };

    #[inline(always)]
    fn read<R: Read>(self, reader: &mut R, code: u8) -> Result<u32, Error> {
        match code {
            codes::UINT => match read_const_bytes::<R, 4>(reader) {
                Ok(bytes) => Ok(u32::from_be_bytes(bytes)),
                Err(e) => Err(e),
            },
            codes::SMALL_UINT => match byte(reader) {
                Ok(byte) => Ok(byte as u32),
                Err(e) => Err(e),
            },
            codes::UINT0 => Ok(0),
            _ => Err(Error::InvalidFormatCode),
        }
    }
}

/// The data of an ulong.
#[derive(Drop)]
pub struct AsUlong;

impl Leaf for AsUlong {
    ghost use Rattle.std.specs.Prelude.{false, refl};
    ghost use Rattle.amqp_base.specs.Codes.{Kind};
    ghost use Rattle.amqp_base.specs.Item.{ulong};

    type Value = u64;

    ghost kind = { Kind.ulong };

    ghost shows = { ulong };

    ghost grows = { false };

    ghost of_kind = { λ _. refl };

    #[inline(always)]
    fn read<R: Read>(self, reader: &mut R, code: u8) -> Result<u64, Error> {
        match code {
            codes::ULONG => match read_const_bytes::<R, 8>(reader) {
                Ok(bytes) => Ok(u64::from_be_bytes(bytes)),
                Err(e) => Err(e),
            },
            codes::SMALL_ULONG => match byte(reader) {
                Ok(byte) => Ok(byte as u64),
                Err(e) => Err(e),
            },
            codes::ULONG0 => Ok(0),
            _ => Err(Error::InvalidFormatCode),
        }
    }
}
