//! The data of floating point numbers.
#![tactic(auto, unfolding(amqp_base::specs::Codes::row,
// which codes are of one kind
amqp_base::specs::SameKind::same_kind, amqp_base::specs::SameKind::place,
// where that is its only code
crate::specs::OneCode::is_only))]

use crate::leaf::{Leaf, fixed};
use amqp_base::{EncodingCodes, Error};
use amqp_read::Read;
use amqp_types::{Double, Float};

/// The data of a float.
#[derive(Drop)]
pub struct AsFloat;

impl Leaf for AsFloat {
    ghost use Rattle.std.specs.Prelude.{false, refl};
    ghost use Rattle.amqp_base.specs.Codes.{Kind};
    ghost use Rattle.amqp_base.specs.Item.{float};

    type Value = Float;

    ghost kind = { Kind.float };

    ghost shows = { float };

    ghost grows = { false };

    ghost of_kind = { λ _. refl };

    #[inline(always)]
    fn read<R: Read>(self, reader: &mut R, code: u8) -> Result<Float, Error> {
        match fixed::<R, 4>(reader, code, EncodingCodes::Float) {
            Ok(bytes) => Ok(Float::from_bits(u32::from_be_bytes(bytes))),
            Err(e) => Err(e),
        }
    }
}

/// The data of a double.
#[derive(Drop)]
pub struct AsDouble;

impl Leaf for AsDouble {
    ghost use Rattle.std.specs.Prelude.{false, refl};
    ghost use Rattle.amqp_base.specs.Codes.{Kind};
    ghost use Rattle.amqp_base.specs.Item.{double};

    type Value = Double;

    ghost kind = { Kind.double };

    ghost shows = { double };

    ghost grows = { false };

    ghost of_kind = { λ _. refl };

    #[inline(always)]
    fn read<R: Read>(self, reader: &mut R, code: u8) -> Result<Double, Error> {
        match fixed::<R, 8>(reader, code, EncodingCodes::Double) {
            Ok(bytes) => Ok(Double::from_bits(u64::from_be_bytes(bytes))),
            Err(e) => Err(e),
        }
    }
}
