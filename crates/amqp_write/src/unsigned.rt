//! Numbers without a sign where they stand.

ghost use Rattle.std.specs.Prelude.{◌≡◌, false};
ghost use Rattle.amqp_base.specs.Item.{scalar, ubyte, ushort, uint, ulong};
ghost use Rattle.amqp_write.specs.State.{stand, mark_of, unmarked};
ghost use Rattle.amqp_write.specs.Appending.{PaysItem, as_error};

use crate::numbers::Outside;
use crate::place::{Mark, Place};
use crate::refusal::Refusal;
use amqp_base::{EncodingCodes, Error, Sink, codes};

impl Place {
    /// A ubyte (section 1.6.3): 50 and a byte; in an array the byte. Under another constructor than
    /// the first element's it is `InvalidValue`.
    #[inline(always)]
    pub fn ubyte<W: Sink>(&mut self, writer: &mut W, v: u8) -> Result<(), Refusal>
        requires { self.old.ended ≡ false }
        ensures law { PaysItem (stand W.Write W.FaultCount writer.old self.old) (scalar (ubyte v))
            Error.InvalidValue (as_error result) (stand W.Write W.FaultCount writer.new self.new) }
    {
        self.one_byte(writer, EncodingCodes::Ubyte, v)
    }

    /// A ushort (section 1.6.4): 60 and two bytes, the high one first; in an array the two bytes.
    /// Under another constructor than the first element's it is `InvalidValue`.
    #[inline(always)]
    pub fn ushort<W: Sink>(&mut self, writer: &mut W, v: u16) -> Result<(), Refusal>
        requires { self.old.ended ≡ false }
        ensures law { PaysItem (stand W.Write W.FaultCount writer.old self.old) (scalar (ushort v))
            Error.InvalidValue (as_error result) (stand W.Write W.FaultCount writer.new self.new) }
    {
        self.two_bytes(writer, EncodingCodes::Ushort, v.to_be_bytes())
    }

    /// A uint (section 1.6.5): outside arrays 43 for 0, 52 and a byte up to 255, else 70 and four
    /// bytes; in an array four bytes. Under another constructor than the first element's it is
    /// `InvalidValue`.
    #[inline(always)]
    pub fn uint<W: Sink>(&mut self, writer: &mut W, v: u32) -> Result<(), Refusal>
        requires { self.old.ended ≡ false }
        ensures law { PaysItem (stand W.Write W.FaultCount writer.old self.old) (scalar (uint v))
            Error.InvalidValue (as_error result) (stand W.Write W.FaultCount writer.new self.new) }
    {
        let mark = self.mark;
        match mark {
            Mark::Unmarked => self.plain_uint(writer, v),
            _ => self.four_bytes(writer, EncodingCodes::Uint, v.to_be_bytes()),
        }
    }

    /// The text of an uint outside arrays.
    #[inline(always)]
    fn plain_uint<W: Sink>(&mut self, writer: &mut W, v: u32) -> Result<(), Refusal>
        requires answers { self.old.ended ≡ false }
        requires marked { mark_of self.old ≡ unmarked }
        ensures law { PaysItem (stand W.Write W.FaultCount writer.old self.old) (scalar (uint v))
            Error.InvalidValue (as_error result) (stand W.Write W.FaultCount writer.new self.new) }
    {
        if self.counts::<W, Outside, u32>(writer, v) {
            return Ok(());
        }
        if v == 0 {
            return self.append(writer, &[codes::UINT0]);
        }
        if v < 256 {
            return self.append(writer, &[codes::SMALL_UINT, v as u8]);
        }
        self.plain_four_bytes(writer, EncodingCodes::Uint, v.to_be_bytes())
    }

    /// A ulong (section 1.6.6): outside arrays 44 for 0, 53 and a byte up to 255, else 80 and eight
    /// bytes; in an array eight bytes. Under another constructor than the first element's it is
    /// `InvalidValue`.
    #[inline(always)]
    pub fn ulong<W: Sink>(&mut self, writer: &mut W, v: u64) -> Result<(), Refusal>
        requires { self.old.ended ≡ false }
        ensures law { PaysItem (stand W.Write W.FaultCount writer.old self.old) (scalar (ulong v))
            Error.InvalidValue (as_error result) (stand W.Write W.FaultCount writer.new self.new) }
    {
        let mark = self.mark;
        match mark {
            Mark::Unmarked => self.plain_ulong(writer, v),
            _ => self.eight_bytes(writer, EncodingCodes::Ulong, v.to_be_bytes()),
        }
    }

    /// The text of a ulong outside arrays.
    #[inline(always)]
    fn plain_ulong<W: Sink>(&mut self, writer: &mut W, v: u64) -> Result<(), Refusal>
        requires answers { self.old.ended ≡ false }
        requires marked { mark_of self.old ≡ unmarked }
        ensures law { PaysItem (stand W.Write W.FaultCount writer.old self.old) (scalar (ulong v))
            Error.InvalidValue (as_error result) (stand W.Write W.FaultCount writer.new self.new) }
    {
        if self.counts::<W, Outside, u64>(writer, v) {
            return Ok(());
        }
        if v == 0 {
            return self.append(writer, &[codes::ULONG0]);
        }
        if v < 256 {
            return self.append(writer, &[codes::SMALL_ULONG, v as u8]);
        }
        self.eight_bytes(writer, EncodingCodes::Ulong, v.to_be_bytes())
    }
}
