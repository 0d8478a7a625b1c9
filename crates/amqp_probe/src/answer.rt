//! One line: which lines are good, and what is printed for one.

ghost use Rattle.std.specs.Prelude.{◌≡◌, ◌==◌, position, IfOk, IfErr};
ghost use Rattle.std.specs.Prelude.{MatchOption, string_bytes};
ghost use Rattle.amqp_base.specs.declared.error.Error.TheVariants.{OutOfMemory};
ghost use Rattle.amqp_probe.specs.Answer.{Answers, IsBad, Spells, error_name, text_of};

use crate::codec;
use crate::codec::Outcome;
use crate::kind::{Kind, kind_named};
use amqp_base::Error;
use hex::FromHexError;
use std::alloc::{AllocError, Global};

/// The longest line, in bytes, its line feed not counted.
pub const LIMIT: usize = 65_536;

/// What is printed for a line, without a line feed; None where the line is bad. `OutOfMemory` alone
/// is an error.
pub fn answer(alloc: Global, line: &[u8]) -> Result<Option<String>, Error>
    ensures ok { IfOk result (λ text. MatchOption text (IsBad line.now) (λ text.
        Answers line.now (string_bytes text))) }
    ensures err { IfErr result (λ e. e ≡ OutOfMemory) }
{
    match parse(alloc, line)? {
        Some((kind, bytes)) => {
            let outcome = codec::decoded(alloc, kind, bytes.as_slice())?;
            Ok(Some(print(alloc, &outcome)?))
        }
        None => Ok(None),
    }
}

/// The type and the bytes that a line spells; None where it is bad.
pub fn parse(alloc: Global, line: &[u8]) -> Result<Option<(Kind, Vec<u8>)>, Error>
    ensures ok { IfOk result (λ spelt. MatchOption spelt (IsBad line.now) (λ spelt.
        Spells line.now spelt.0 spelt.1.items)) }
    ensures err { IfErr result (λ e. e ≡ OutOfMemory) }
{
    if line.len() > LIMIT {
        return Ok(None);
    }
    let Some(space) = find(b' ', line) else {
        return Ok(None);
    };
    let Some(kind) = kind_named(&line[..space]) else {
        return Ok(None);
    };
    match hex::decode(alloc, &line[space + 1..]) {
        Ok(bytes) => Ok(Some((kind, bytes))),
        Err(FromHexError::OutOfMemory) => Err(Error::OutOfMemory),
        Err(_) => Ok(None),
    }
}

/// The first place of a byte.
pub fn find(byte: u8, bytes: &[u8]) -> Option<usize>
    ensures { result ≡ position (λ b. b == byte) bytes.now }
{
    bytes.iter().position(|b| *b == byte)
}

fn print(alloc: Global, outcome: &Outcome) -> Result<String, AllocError>
    ensures { IfOk result (λ text. string_bytes text ≡ text_of outcome.now) }
{
    match outcome {
        Outcome::Value { canonical, rest } => {
            let digits = hex::encode(alloc, canonical)?;
            format!(in alloc; "ok {digits} rest {rest}")
        }
        Outcome::Refused(error) => {
            let name = name(error);
            format!(in alloc; "refused {name}")
        }
    }
}

/// The name of an error's variant.
fn name(error: &Error) -> &'static str
    ensures { result.now ≡ error_name error.now }
{
    match error {
        Error::Message(_) => "Message",
        Error::Io(_) => "Io",
        Error::InvalidFormatCode => "InvalidFormatCode",
        Error::InvalidValue => "InvalidValue",
        Error::InvalidUtf8Encoding => "InvalidUtf8Encoding",
        Error::SequenceLengthMismatch => "SequenceLengthMismatch",
        Error::InvalidLength => "InvalidLength",
        Error::OutOfMemory => "OutOfMemory",
    }
}
