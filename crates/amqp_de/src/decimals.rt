//! Decimals.
#![tactic(auto, unfolding(amqp_base::specs::Codes::row,
// which codes are of one kind
amqp_base::specs::SameKind::same_kind, amqp_base::specs::SameKind::place))]

ghost use Rattle.std.specs.Prelude.{◌≡◌, true, false, ◌||◌, IsTrue, IfOk, IfErr};
ghost use Rattle.amqp_base.specs.Codes.{row, codes};
ghost use Rattle.amqp_base.specs.Canon.{kind_of};
ghost use Rattle.amqp_base.specs.Item.{scalar};
ghost use Rattle.amqp_base.specs.Typing.{is_of};
ghost use Rattle.amqp_base.specs.Refusing.{decimal_refusal};
ghost use Rattle.amqp_base.specs.SameKind.{is_decimal_kind};
ghost use Rattle.amqp_de.specs.Decimals.{is_decimal};
ghost use Rattle.amqp_data.specs.Decimals.{decimal_at, decimal};
ghost use Rattle.amqp_de.specs.Decoding.{stands_under};
ghost use Rattle.amqp_de.specs.Law.{Found, Missed, Named};
ghost use Rattle.amqp_data.specs.OneCode.{alone};
ghost use Rattle.amqp_base.specs.Parse.{item_at};
ghost use Rattle.amqp_de.specs.Steps.{Exact, Stops};

use crate::{Deserialize, Deserializer};
use amqp_base::{EncodingCodes, Error, codes};
use amqp_data::decimal_data;
use amqp_read::Read;
use amqp_types::{Dec32, Dec64, Dec128, Decimal};
use std::alloc::Global;

impl<R: Read> Deserializer<R> {
    /// A decimal of any of the three widths (part 1, sections 1.6.13 to 1.6.15): its 4, 8 or 16
    /// bytes, as they are.
    ///
    /// `Io(UnexpectedEof)` where bytes are missing, `InvalidFormatCode` where another item stands.
    /// A refusal ends the deserializer.
    #[inline(always)]
    pub fn deserialize_decimal(&mut self) -> Result<Decimal, Error>
        ensures ok { IfOk result (λ d.
            Found is_decimal (λ i. i ≡ scalar (decimal d)) self.old self.new) }
        ensures err { IfErr result (λ e.
            Missed is_decimal R.buffers R.buffers self.old self.new e) }
        ensures exact { self.old.ended ≡ false → Exact decimal R.buffers R.buffers
            (item_at decimal_at (stands_under self.old)) self.old.reading result self.new.reading }
        ensures stops { Stops self.old result self.new }
    {
        if self.ended {
            return Err(Error::InvalidValue);
        }
        match self.begin() {
            Ok(code) => match decimal_data(&mut self.reader, code) {
                Ok(value) => {
                    self.ended = false;
                    Ok(value)
                }
                Err(e) => Err(e),
            },
            Err(e) => Err(e),
        }
    }
}

/// A decimal, where no code of another width stands than the one that is wanted.
#[inline(always)]
fn of_width<R: Read>(
    alloc: Global,
    de: &mut Deserializer<R>,
    wanted: EncodingCodes,
    refusal: &'static str,
) -> Result<Decimal, Error>
    requires { IsTrue (alone (row wanted).kind (row wanted).byte codes) ×
        IsTrue (is_decimal_kind (row wanted).kind) }
    ensures ok { IfOk result (λ d.
        Found (is_of (row wanted).kind) (λ i. i ≡ scalar (decimal d)) de.old de.new) }
    ensures width { IfOk result (λ d. kind_of (decimal d) ≡ (row wanted).kind) }
    ensures err { IfErr result (λ e.
        Missed (is_of (row wanted).kind) true R.buffers de.old de.new e) }
    ensures named { IfErr result (λ e.
        Named (decimal_refusal (row wanted).kind) true R.buffers de.old de.new e) }
{
    match de.deserialize_any() {
        Ok(code) => {
            let byte = code.byte();
            if (byte == codes::DECIMAL32 || byte == codes::DECIMAL64 || byte == codes::DECIMAL128)
                && byte != wanted.byte()
            {
                return Err(Error::custom(alloc, refusal));
            }
            match de.deserialize_decimal() {
                Ok(value) => Ok(value),
                Err(e) => Err(e),
            }
        }
        Err(e) => Err(e),
    }
}

impl<R: Read> Deserialize<R> for Dec32 {
    /// A decimal32 (part 1, section 1.6.13). A decimal of another width is a `Message`, before its
    /// data are looked at, and consumes nothing; else the refusals are those of
    /// `deserialize_decimal`.
    fn deserialize(alloc: Global, de: &mut Deserializer<R>) -> Result<Dec32, Error> {
        match of_width(alloc, de, EncodingCodes::Decimal32, "expected a decimal32") {
            Ok(decimal) => match decimal {
                Decimal::Dec32(value) => Ok(value),
                _ => Err(Error::InvalidFormatCode),
            },
            Err(e) => Err(e),
        }
    }
}

impl<R: Read> Deserialize<R> for Dec64 {
    /// A decimal64 (part 1, section 1.6.14). A decimal of another width is a `Message`, before its
    /// data are looked at, and consumes nothing; else the refusals are those of
    /// `deserialize_decimal`.
    fn deserialize(alloc: Global, de: &mut Deserializer<R>) -> Result<Dec64, Error> {
        match of_width(alloc, de, EncodingCodes::Decimal64, "expected a decimal64") {
            Ok(decimal) => match decimal {
                Decimal::Dec64(value) => Ok(value),
                _ => Err(Error::InvalidFormatCode),
            },
            Err(e) => Err(e),
        }
    }
}

impl<R: Read> Deserialize<R> for Dec128 {
    /// A decimal128 (part 1, section 1.6.15). A decimal of another width is a `Message`, before its
    /// data are looked at, and consumes nothing; else the refusals are those of
    /// `deserialize_decimal`.
    fn deserialize(alloc: Global, de: &mut Deserializer<R>) -> Result<Dec128, Error> {
        match of_width(
            alloc,
            de,
            EncodingCodes::Decimal128,
            "expected a decimal128",
        ) {
            Ok(decimal) => match decimal {
                Decimal::Dec128(value) => Ok(value),
                _ => Err(Error::InvalidFormatCode),
            },
            Err(e) => Err(e),
        }
    }
}
