//! The data of numbers with a sign.
#![tactic(auto, unfolding(amqp_base::specs::Codes::row,
// which codes are of one kind
amqp_base::specs::SameKind::same_kind, amqp_base::specs::SameKind::place,
// where that is its only code
crate::specs::OneCode::is_only))]

use crate::leaf::{Leaf, fixed};
use amqp_base::{EncodingCodes, Error, codes};
use amqp_read::{Read, read_const_bytes};

/// The data of a byte.
#[derive(Drop)]
pub struct AsByte;

impl Leaf for AsByte {
    ghost use Rattle.std.specs.Prelude.{false, refl};
    ghost use Rattle.amqp_base.specs.Codes.{Kind};
    ghost use Rattle.amqp_base.specs.Item.{byte};

    type Value = i8;

    ghost kind = { Kind.byte };

    ghost shows = { byte };

    ghost grows = { false };

    ghost of_kind = { λ _. refl };

    #[inline(always)]
    fn read<R: Read>(self, reader: &mut R, code: u8) -> Result<i8, Error> {
        match fixed::<R, 1>(reader, code, EncodingCodes::Byte) {
            Ok(bytes) => Ok(i8::from_be_bytes(bytes)),
            Err(e) => Err(e),
        }
    }
}

/// The data of a short.
#[derive(Drop)]
pub struct AsShort;

impl Leaf for AsShort {
    ghost use Rattle.std.specs.Prelude.{false, refl};
    ghost use Rattle.amqp_base.specs.Codes.{Kind};
    ghost use Rattle.amqp_base.specs.Item.{short};

    type Value = i16;

    ghost kind = { Kind.short };

    ghost shows = { short };

    ghost grows = { false };

    ghost of_kind = { λ _. refl };

    #[inline(always)]
    fn read<R: Read>(self, reader: &mut R, code: u8) -> Result<i16, Error> {
        match fixed::<R, 2>(reader, code, EncodingCodes::Short) {
            Ok(bytes) => Ok(i16::from_be_bytes(bytes)),
            Err(e) => Err(e),
        }
    }
}

/// The data of an int.
#[derive(Drop)]
pub struct AsInt;

impl Leaf for AsInt {
    ghost use Rattle.std.specs.Prelude.{false, refl};
    ghost use Rattle.amqp_base.specs.Codes.{Kind};
    ghost use Rattle.amqp_base.specs.Item.{int};

    type Value = i32;

    ghost kind = { Kind.int };

    ghost shows = { int };

    ghost grows = { false };

    ghost of_kind = { λ _. refl };

    #[inline(always)]
    fn read<R: Read>(self, reader: &mut R, code: u8) -> Result<i32, Error> {
        match code {
            codes::INT => match read_const_bytes::<R, 4>(reader) {
                Ok(bytes) => Ok(i32::from_be_bytes(bytes)),
                Err(e) => Err(e),
            },
            codes::SMALL_INT => match read_const_bytes::<R, 1>(reader) {
                Ok(bytes) => Ok(i8::from_be_bytes(bytes) as i32),
                Err(e) => Err(e),
            },
            _ => Err(Error::InvalidFormatCode),
        }
    }
}

/// The data of a long.
#[derive(Drop)]
pub struct AsLong;

impl Leaf for AsLong {
    ghost use Rattle.std.specs.Prelude.{false, refl};
    ghost use Rattle.amqp_base.specs.Codes.{Kind};
    ghost use Rattle.amqp_base.specs.Item.{long};

    type Value = i64;

    ghost kind = { Kind.long };

    ghost shows = { long };

    ghost grows = { false };

    ghost of_kind = { λ _. refl };

    #[inline(always)]
    fn read<R: Read>(self, reader: &mut R, code: u8) -> Result<i64, Error> {
        match code {
            codes::LONG => match read_const_bytes::<R, 8>(reader) {
                Ok(bytes) => Ok(i64::from_be_bytes(bytes)),
                Err(e) => Err(e),
            },
            codes::SMALL_LONG => match read_const_bytes::<R, 1>(reader) {
                Ok(bytes) => Ok(i8::from_be_bytes(bytes) as i64),
                Err(e) => Err(e),
            },
            _ => Err(Error::InvalidFormatCode),
        }
    }
}
