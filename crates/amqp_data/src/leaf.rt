//! Items without parts: how their data are read.

ghost use Rattle.std.specs.Prelude.{◌≡◌, Bool, ◌||◌, IsTrue, IfOk, IfErr};
ghost use Rattle.amqp_base.specs.Codes.{Kind, row};
ghost use Rattle.amqp_base.specs.Item.{Scalar, scalar};
ghost use Rattle.amqp_base.specs.Canon.{kind_of};
ghost use Rattle.amqp_base.specs.Parse.{behind_byte, data_at};
ghost use Rattle.amqp_data.specs.OneCode.{is_only, OnlyData};
ghost use Rattle.amqp_data.specs.Steps.{IsData, Rejects, BytesFirst};

use amqp_base::{EncodingCodes, Error};
use amqp_read::{Read, read_const_bytes};

/// How the data of a kind without parts are read.
pub trait Leaf: Drop {
    type Value;

    ghost kind: { Kind };

    ghost shows: { Self.Value → Scalar };

    /// Whether its values take memory.
    ghost grows: { Bool };

    /// Reads the data of a code, given its byte.
    fn read<R: Read>(self, reader: &mut R, code: u8) -> Result<Self::Value, Error>
        ensures ok { IfOk result (λ v.
            IsData code (scalar (shows v)) (R.reading reader.old) (R.reading reader.new)) }
        ensures err { IfErr result (λ e. Rejects (grows || R.buffers) R.buffers
            (behind_byte (data_at kind) code) (R.reading reader.old) (R.reading reader.new) e) }
        ensures bytes_first { IsTrue grows → IfErr result (λ e.
            BytesFirst R.buffers (behind_byte (data_at kind) code) (R.reading reader.old) e) };

    ghost of_kind: { (v : Self.Value) → kind_of (shows v) ≡ kind };
}

/// The data of the only code of a kind, given the byte that stands there.
#[inline(always)]
pub(crate) fn fixed<R: Read, const N: usize>(
    reader: &mut R,
    byte: u8,
    code: EncodingCodes,
) -> Result<[u8; N], Error>
    requires { IsTrue (is_only code N) }
    ensures ok { IfOk result (λ b.
        OnlyData byte code N b (R.reading reader.old) (R.reading reader.new)) }
    ensures err { IfErr result (λ e. Rejects R.buffers R.buffers
        (behind_byte (data_at (row code).kind) byte) (R.reading reader.old)
        (R.reading reader.new) e) }
{
    if byte != code.byte() {
        return Err(Error::InvalidFormatCode);
    }
    match read_const_bytes::<R, N>(reader) {
        Ok(bytes) => Ok(bytes),
        Err(e) => Err(e),
    }
}
