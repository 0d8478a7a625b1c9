//! The call that looks at any item.

ghost use Rattle.std.specs.Prelude.{IfOk, IfErr, Some};
ghost use Rattle.amqp_de.specs.Look.{Looks, LooksNot, Peeks, PeeksNot};
ghost use Rattle.amqp_de.specs.Steps.{Stops};

use crate::Deserializer;
use amqp_base::{EncodingCodes, Error};
use amqp_data::Constructor;
use amqp_read::Read;
use std::convert::TryFrom;
use std::io::ErrorKind;

/// The code of the next byte, which stays.
#[inline(always)]
fn code_ahead<R: Read>(reader: &mut R) -> Result<EncodingCodes, Error>
    ensures ok { IfOk result (λ e. Peeks e (R.reading reader.old) (R.reading reader.new)) }
    ensures err { IfErr result (λ e.
        PeeksNot R.buffers (R.reading reader.old) (R.reading reader.new) e) }
{
    match reader.peek() {
        Ok(Some(byte)) => EncodingCodes::try_from(byte),
        Ok(None) => Err(Error::Io(ErrorKind::UnexpectedEof)),
        Err(e) => Err(e),
    }
}

impl<R: Read> Deserializer<R> {
    /// The code of the next item (part 1, section 1.2): inside an array that of its elements, else
    /// that of the next byte. Nothing is consumed, whatever is answered.
    ///
    /// `Io(UnexpectedEof)` where there is no byte, `InvalidFormatCode` where it is no code, and
    /// what the reader refuses. A refusal ends the deserializer.
    #[inline(always)]
    pub fn deserialize_any(&mut self) -> Result<EncodingCodes, Error>
        ensures ok { IfOk result (λ e. Looks self.old self.new e) }
        ensures err { IfErr result (λ e. LooksNot R.buffers self.old self.new e) }
        ensures stops { Stops self.old result self.new }
    {
        if self.ended {
            return Err(Error::InvalidValue);
        }
        match &self.inherited {
            Constructor::Bare => match code_ahead(&mut self.reader) {
                Ok(code) => Ok(code),
                Err(e) => {
                    self.ended = true;
                    Err(e)
                }
            },
            Constructor::Under(code) => Ok(*code),
            Constructor::UnderPair(_, code) => {
                if self.described {
                    return Ok(*code);
                }
                Ok(EncodingCodes::DescribedType)
            }
        }
    }
}
