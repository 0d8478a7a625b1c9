//! Payloads that a slice lends, as they stand in it.

ghost use Rattle.std.specs.Prelude.{◌≡◌, ◌⊎◌, false, IfOk, IfErr};
ghost use Rattle.amqp_base.specs.Codes.{Kind};
ghost use Rattle.amqp_base.specs.Item.{scalar, binary};
ghost use Rattle.amqp_base.specs.Parse.{sized_at, text_at, data_at, behind_byte};
ghost use Rattle.amqp_types.specs.Texts.{text_data};
ghost use Rattle.amqp_data.specs.LentTexts.{IsText};
ghost use Rattle.amqp_data.specs.Steps.{Payload, Text, IsData, Rejects};

use crate::numbers::number;
use amqp_base::{Error, codes};
use amqp_read::SliceReader;

/// A length of so many bytes, and as many bytes as it says.
#[inline(always)]
fn payload<'s>(reader: &mut SliceReader<'s>, width: u32) -> Result<&'s [u8], Error>
    requires { (width ≡ 1) ⊎ (width ≡ 4) }
    ensures ok { IfOk result (λ b. Payload width b.now reader.old reader.new) }
    ensures err { IfErr result (λ e.
        Rejects false false (sized_at width) reader.old reader.new e) }
{
    match number(reader, width) {
        Ok(len) => reader.get_byte_slice(len as usize),
        Err(e) => Err(e),
    }
}

/// A payload that is UTF-8.
#[inline(always)]
fn text<'s>(reader: &mut SliceReader<'s>, width: u32) -> Result<&'s str, Error>
    requires { (width ≡ 1) ⊎ (width ≡ 4) }
    ensures ok { IfOk result (λ t. Text width t.now reader.old reader.new) }
    ensures err { IfErr result (λ e.
        Rejects false false (text_at width) reader.old reader.new e) }
{
    match number(reader, width) {
        Ok(len) => match reader.get_text_slice(len as usize) {
            Ok(text) => Ok(text),
            Err(e) => Err(e),
        },
        Err(e) => Err(e),
    }
}

/// The data of a binary's code, given its byte.
#[inline(always)]
pub fn lent_bytes<'s>(reader: &mut SliceReader<'s>, code: u8) -> Result<&'s [u8], Error>
    ensures ok { IfOk result (λ b.
        IsData code (scalar (binary b.now)) reader.old reader.new) }
    ensures err { IfErr result (λ e. Rejects false false
        (behind_byte (data_at Kind.binary) code) reader.old reader.new e) }
{
    match code {
        codes::VBIN8 => payload(reader, 1),
        codes::VBIN32 => payload(reader, 4),
        _ => Err(Error::InvalidFormatCode),
    }
}

/// The data of a string's or a symbol's code, given its byte.
#[inline(always)]
pub fn lent_text<'s>(reader: &mut SliceReader<'s>, code: u8) -> Result<&'s str, Error>
    ensures ok { IfOk result (λ t. IsText code t.now reader.old reader.new) }
    ensures err { IfErr result (λ e. Rejects false false
        (behind_byte text_data code) reader.old reader.new e) }
{
    match code {
        codes::STR8 => text(reader, 1),
        codes::STR32 => text(reader, 4),
        codes::SYM8 => text(reader, 1),
        codes::SYM32 => text(reader, 4),
        _ => Err(Error::InvalidFormatCode),
    }
}
