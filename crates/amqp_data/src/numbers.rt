//! Bytes, and numbers of 1 or 4 bytes: sizes, counts and lengths.

ghost use Rattle.std.specs.Prelude.{◌≡◌, IfOk, IfErr, [], ◌∷◌, ◌⊎◌};
ghost use Rattle.amqp_read.specs.Reading.{Takes};
ghost use Rattle.amqp_data.specs.Steps.{Unread, Number};

use amqp_base::Error;
use amqp_read::Read;
use std::io::ErrorKind;

/// Consumes the next byte.
#[inline(always)]
pub fn byte<R: Read>(reader: &mut R) -> Result<u8, Error>
    ensures ok { IfOk result (λ b.
        Takes (R.reading reader.old) (R.reading reader.new) (b ∷ [])) }
    ensures err { IfErr result (λ e.
        Unread R.buffers R.buffers 1 (R.reading reader.old) (R.reading reader.new) e) }
{
    match reader.next() {
        Ok(Some(byte)) => Ok(byte),
        Ok(None) => Err(Error::Io(ErrorKind::UnexpectedEof)),
        Err(e) => Err(e),
    }
}

/// A number of 1 or 4 bytes.
#[inline(always)]
pub(crate) fn number<R: Read>(reader: &mut R, width: u32) -> Result<u32, Error>
    requires { (width ≡ 1) ⊎ (width ≡ 4) }
    ensures ok { IfOk result (λ n. Number width n (R.reading reader.old) (R.reading reader.new)) }
    ensures err { IfErr result (λ e.
        Unread R.buffers R.buffers width (R.reading reader.old) (R.reading reader.new) e) }
{
    if width == 1 {
        return match byte(reader) {
            Ok(byte) => Ok(byte as u32),
            Err(e) => Err(e),
        };
    }
    match reader.read_size() {
        Ok(bytes) => Ok(u32::from_be_bytes(bytes)),
        Err(e) => Err(e),
    }
}
