//! The data of null, booleans, characters, timestamps and uuids.
#![tactic(auto, unfolding(amqp_base::specs::Codes::row,
// which codes are of one kind
amqp_base::specs::SameKind::same_kind, amqp_base::specs::SameKind::place,
// where that is its only code
crate::specs::OneCode::is_only))]

use crate::leaf::{Leaf, fixed};
use crate::numbers::byte;
use amqp_base::{EncodingCodes, Error, codes};
use amqp_read::Read;
use amqp_types::{Timestamp, Uuid};

/// The data of null.
#[derive(Drop)]
pub struct AsNull;

impl Leaf for AsNull {
    ghost use Rattle.std.specs.Prelude.{false, refl};
    ghost use Rattle.amqp_base.specs.Codes.{Kind};
    ghost use Rattle.amqp_base.specs.Item.{null};

    type Value = ();

    ghost kind = { Kind.null };

    ghost shows = { λ _. null };

    ghost grows = { false };

    ghost of_kind = { λ _. refl };

    #[inline(always)]
    fn read<R: Read>(self, reader: &mut R, code: u8) -> Result<(), Error> {
        let _ = reader;
        match code {
            codes::NULL => Ok(()),
            _ => Err(Error::InvalidFormatCode),
        }
    }
}

/// The data of a boolean.
#[derive(Drop)]
pub struct AsBoolean;

impl Leaf for AsBoolean {
    ghost use Rattle.std.specs.Prelude.{false, refl};
    ghost use Rattle.amqp_base.specs.Codes.{Kind};
    ghost use Rattle.amqp_base.specs.Item.{boolean};

    type Value = bool;

    ghost kind = { Kind.boolean };

    ghost shows = { boolean };

    ghost grows = { false };

    ghost of_kind = { λ _. refl };

    #[inline(always)]
    fn read<R: Read>(self, reader: &mut R, code: u8) -> Result<bool, Error> {
        match code {
            codes::BOOLEAN => match byte(reader) {
                Ok(byte) => match byte {
                    0 => Ok(false),
                    1 => Ok(true),
                    _ => Err(Error::InvalidValue),
                },
                Err(e) => Err(e),
            },
            codes::BOOLEAN_TRUE => Ok(true),
            codes::BOOLEAN_FALSE => Ok(false),
            _ => Err(Error::InvalidFormatCode),
        }
    }
}

/// The data of a character.
#[derive(Drop)]
pub struct AsChar;

impl Leaf for AsChar {
    ghost use Rattle.std.specs.Prelude.{false, refl};
    ghost use Rattle.amqp_base.specs.Codes.{Kind};
    ghost use Rattle.amqp_base.specs.Item.{char};

    type Value = char;

    ghost kind = { Kind.char };

    ghost shows = { char };

    ghost grows = { false };

    ghost of_kind = { λ _. refl };

    #[inline(always)]
    fn read<R: Read>(self, reader: &mut R, code: u8) -> Result<char, Error> {
        match fixed::<R, 4>(reader, code, EncodingCodes::Char) {
            Ok(bytes) => match char::from_u32(u32::from_be_bytes(bytes)) {
                Some(character) => Ok(character),
                None => Err(Error::InvalidValue),
            },
            Err(e) => Err(e),
        }
    }
}

/// The data of a timestamp.
#[derive(Drop)]
pub struct AsTimestamp;

impl Leaf for AsTimestamp {
    ghost use Rattle.std.specs.Prelude.{false, refl};
    ghost use Rattle.amqp_base.specs.Codes.{Kind};
    ghost use Rattle.amqp_base.specs.Item.{timestamp};

    type Value = Timestamp;

    ghost kind = { Kind.timestamp };

    ghost shows = { timestamp };

    ghost grows = { false };

    ghost of_kind = { λ _. refl };

    #[inline(always)]
    fn read<R: Read>(self, reader: &mut R, code: u8) -> Result<Timestamp, Error> {
        match fixed::<R, 8>(reader, code, EncodingCodes::Timestamp) {
            Ok(bytes) => Ok(Timestamp::from_milliseconds(i64::from_be_bytes(bytes))),
            Err(e) => Err(e),
        }
    }
}

/// The data of a uuid.
#[derive(Drop)]
pub struct AsUuid;

impl Leaf for AsUuid {
    ghost use Rattle.std.specs.Prelude.{false, refl};
    ghost use Rattle.amqp_base.specs.Codes.{Kind};
    ghost use Rattle.amqp_base.specs.Item.{uuid};

    type Value = Uuid;

    ghost kind = { Kind.uuid };

    ghost shows = { uuid };

    ghost grows = { false };

    ghost of_kind = { λ _. refl };

    #[inline(always)]
    fn read<R: Read>(self, reader: &mut R, code: u8) -> Result<Uuid, Error> {
        match fixed::<R, 16>(reader, code, EncodingCodes::Uuid) {
            Ok(bytes) => Ok(Uuid::from(bytes)),
            Err(e) => Err(e),
        }
    }
}
