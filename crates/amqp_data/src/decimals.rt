//! The data of a decimal.

ghost use Rattle.std.specs.Prelude.{IfOk, IfErr};
ghost use Rattle.amqp_base.specs.Item.{scalar};
ghost use Rattle.amqp_data.specs.Decimals.{decimal_at, decimal};
ghost use Rattle.amqp_base.specs.Parse.{behind_byte};
ghost use Rattle.amqp_data.specs.Steps.{IsData, Rejects};

use amqp_base::{Error, codes};
use amqp_read::{Read, read_const_bytes};
use amqp_types::{Dec32, Dec64, Dec128, Decimal};

/// The data of a decimal's code, given its byte.
#[inline(always)]
pub fn decimal_data<R: Read>(reader: &mut R, code: u8) -> Result<Decimal, Error>
    ensures ok { IfOk result (λ d.
        IsData code (scalar (decimal d)) (R.reading reader.old) (R.reading reader.new)) }
    ensures err { IfErr result (λ e. Rejects R.buffers R.buffers (behind_byte decimal_at code)
        (R.reading reader.old) (R.reading reader.new) e) }
{
    match code {
        codes::DECIMAL32 => match read_const_bytes::<R, 4>(reader) {
            Ok(bytes) => Ok(Decimal::Dec32(Dec32::from(bytes))),
            Err(e) => Err(e),
        },
        codes::DECIMAL64 => match read_const_bytes::<R, 8>(reader) {
            Ok(bytes) => Ok(Decimal::Dec64(Dec64::from(bytes))),
            Err(e) => Err(e),
        },
        codes::DECIMAL128 => match read_const_bytes::<R, 16>(reader) {
            Ok(bytes) => Ok(Decimal::Dec128(Dec128::from(bytes))),
            Err(e) => Err(e),
        },
        _ => Err(Error::InvalidFormatCode),
    }
}
