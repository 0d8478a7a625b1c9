//! Lengths, and the bytes behind them.

ghost use Rattle.std.specs.Prelude.{◌≡◌, ◌⊎◌, true, IfOk, IfErr, string_bytes};
ghost use Rattle.amqp_base.specs.Parse.{sized_at, text_at};
ghost use Rattle.amqp_data.specs.Steps.{Payload, Text, Rejects, BytesFirst};

use crate::leaf::Leaf;
use crate::numbers::number;
use amqp_base::{Error, codes};
use amqp_read::Read;
use std::alloc::Global;

/// A length of so many bytes, and as many bytes as it says.
#[inline(always)]
fn payload<R: Read>(alloc: Global, reader: &mut R, width: u32) -> Result<Vec<u8>, Error>
    requires { (width ≡ 1) ⊎ (width ≡ 4) }
    ensures ok { IfOk result (λ v.
        Payload width v.items (R.reading reader.old) (R.reading reader.new)) }
    ensures err { IfErr result (λ e.
        Rejects true R.buffers (sized_at width) (R.reading reader.old) (R.reading reader.new) e) }
    ensures bytes_first { IfErr result (λ e.
        BytesFirst R.buffers (sized_at width) (R.reading reader.old) e) }
{
    match number(reader, width) {
        Ok(len) => match reader.read_bytes(alloc, len as usize) {
            Ok(bytes) => return Ok(bytes),
            Err(e) => return Err(e),
        },
        Err(e) => return Err(e),
    }
}

/// A payload that is UTF-8.
#[inline(always)]
fn text<R: Read>(alloc: Global, reader: &mut R, width: u32) -> Result<String, Error>
    requires { (width ≡ 1) ⊎ (width ≡ 4) }
    ensures ok { IfOk result (λ t.
        Text width (string_bytes t) (R.reading reader.old) (R.reading reader.new)) }
    ensures err { IfErr result (λ e.
        Rejects true R.buffers (text_at width) (R.reading reader.old) (R.reading reader.new) e) }
    ensures bytes_first { IfErr result (λ e.
        BytesFirst R.buffers (sized_at width) (R.reading reader.old) e) }
{
    match number(reader, width) {
        Ok(len) => match reader.forward_read_str(alloc, len as usize) {
            Ok(text) => return Ok(text),
            Err(e) => return Err(e),
        },
        Err(e) => return Err(e),
    }
}

/// The data of a string.
#[derive(Drop)]
pub struct AsString(pub Global);

impl Leaf for AsString {
    ghost use Rattle.std.specs.Prelude.{true, refl, string_bytes};
    ghost use Rattle.amqp_base.specs.Codes.{Kind};
    ghost use Rattle.amqp_base.specs.Item.{string};

    type Value = String;

    ghost kind = { Kind.string };

    ghost shows = { λ s. string (string_bytes s) };

    ghost grows = { true };

    ghost of_kind = { λ _. refl };

    #[inline(always)]
    fn read<R: Read>(self, reader: &mut R, code: u8) -> Result<String, Error> {
        match code {
            codes::STR8 => match text(self.0, reader, 1) {
                Ok(text) => return Ok(text),
                Err(e) => return Err(e),
            },
            codes::STR32 => match text(self.0, reader, 4) {
                Ok(text) => return Ok(text),
                Err(e) => return Err(e),
            },
            _ => return Err(Error::InvalidFormatCode),
        }
    }
}

/// The data of a symbol.
#[derive(Drop)]
pub struct AsSymbol(pub Global);

impl Leaf for AsSymbol {
    ghost use Rattle.std.specs.Prelude.{true, refl, string_bytes};
    ghost use Rattle.amqp_base.specs.Codes.{Kind};
    ghost use Rattle.amqp_base.specs.Item.{symbol};

    type Value = String;

    ghost kind = { Kind.symbol };

    ghost shows = { λ s. symbol (string_bytes s) };

    ghost grows = { true };

    ghost of_kind = { λ _. refl };

    #[inline(always)]
    fn read<R: Read>(self, reader: &mut R, code: u8) -> Result<String, Error> {
        match code {
            codes::SYM8 => match text(self.0, reader, 1) {
                Ok(text) => return Ok(text),
                Err(e) => return Err(e),
            },
            codes::SYM32 => match text(self.0, reader, 4) {
                Ok(text) => return Ok(text),
                Err(e) => return Err(e),
            },
            _ => return Err(Error::InvalidFormatCode),
        }
    }
}

/// The data of a binary.
#[derive(Drop)]
pub struct AsBinary(pub Global);

impl Leaf for AsBinary {
    ghost use Rattle.std.specs.Prelude.{true, refl};
    ghost use Rattle.amqp_base.specs.Codes.{Kind};
    ghost use Rattle.amqp_base.specs.Item.{binary};

    type Value = Vec<u8>;

    ghost kind = { Kind.binary };

    ghost shows = { λ v. binary v.items };

    ghost grows = { true };

    ghost of_kind = { λ _. refl };

    #[inline(always)]
    fn read<R: Read>(self, reader: &mut R, code: u8) -> Result<Vec<u8>, Error> {
        match code {
            codes::VBIN8 => match payload(self.0, reader, 1) {
                Ok(bytes) => return Ok(bytes),
                Err(e) => return Err(e),
            },
            codes::VBIN32 => match payload(self.0, reader, 4) {
                Ok(bytes) => return Ok(bytes),
                Err(e) => return Err(e),
            },
            _ => return Err(Error::InvalidFormatCode),
        }
    }
}
