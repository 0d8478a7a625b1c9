//! Data of a fixed width.

ghost use Rattle.std.specs.Prelude.{◌≡◌, ◌∷◌, [], false, length};
ghost use Rattle.amqp_base.specs.Codes.{row};
ghost use Rattle.amqp_write.specs.State.{stand, mark_of, unmarked};
ghost use Rattle.amqp_write.specs.Appending.{PaysUnder, fixed_at, as_error};

use crate::place::{Mark, Place};
use crate::refusal::Refusal;
use amqp_base::{EncodingCodes, Error, Sink};

impl Place {
    /// Data where it stands. `text` is the code's byte and then the data: outside arrays all of it
    /// is one write.
    #[inline(always)]
    fn fixed<W: Sink>(
        &mut self,
        writer: &mut W,
        code: EncodingCodes,
        bytes: &[u8],
        text: &[u8],
    ) -> Result<(), Refusal>
        requires answers { self.old.ended ≡ false }
        requires whole { text.now ≡ (row code).byte ∷ bytes.now }
        ensures law { PaysUnder (stand W.Write W.FaultCount writer.old self.old) code
            (fixed_at (mark_of self.old) code bytes.now) Error.InvalidValue (as_error result)
            (stand W.Write W.FaultCount writer.new self.new) }
    {
        let mark = self.mark;
        match mark {
            Mark::Unmarked => self.append(writer, text),
            _ => self.element(writer, code, bytes, &[]),
        }
    }

    /// Data outside arrays. `text` is the code's byte and then the data.
    #[inline(always)]
    fn plain_fixed<W: Sink>(
        &mut self,
        writer: &mut W,
        code: EncodingCodes,
        bytes: &[u8],
        text: &[u8],
    ) -> Result<(), Refusal>
        requires answers { self.old.ended ≡ false }
        requires marked { mark_of self.old ≡ unmarked }
        requires whole { text.now ≡ (row code).byte ∷ bytes.now }
        ensures law { PaysUnder (stand W.Write W.FaultCount writer.old self.old) code
            (fixed_at (mark_of self.old) code bytes.now) Error.InvalidValue (as_error result)
            (stand W.Write W.FaultCount writer.new self.new) }
    {
        let _ = code;
        let _ = bytes;
        self.append(writer, text)
    }

    /// One byte of data.
    #[inline(always)]
    pub(crate) fn one_byte<W: Sink>(
        &mut self,
        writer: &mut W,
        code: EncodingCodes,
        bytes: u8,
    ) -> Result<(), Refusal>
        requires { self.old.ended ≡ false }
        ensures law { PaysUnder (stand W.Write W.FaultCount writer.old self.old) code
            (fixed_at (mark_of self.old) code (bytes ∷ [])) Error.InvalidValue
            (as_error result) (stand W.Write W.FaultCount writer.new self.new) }
    {
        self.fixed(writer, code, &[bytes], &[code.byte(), bytes])
    }

    /// Two bytes of data.
    #[inline(always)]
    pub(crate) fn two_bytes<W: Sink>(
        &mut self,
        writer: &mut W,
        code: EncodingCodes,
        bytes: [u8; 2],
    ) -> Result<(), Refusal>
        requires { self.old.ended ≡ false }
        ensures law { PaysUnder (stand W.Write W.FaultCount writer.old self.old) code
            (fixed_at (mark_of self.old) code bytes) Error.InvalidValue (as_error result)
            (stand W.Write W.FaultCount writer.new self.new) }
    {
        let text = [code.byte(), bytes[0], bytes[1]];
        self.fixed(writer, code, &bytes, &text)
    }

    /// Four bytes of data.
    #[inline(always)]
    pub(crate) fn four_bytes<W: Sink>(
        &mut self,
        writer: &mut W,
        code: EncodingCodes,
        bytes: [u8; 4],
    ) -> Result<(), Refusal>
        requires { self.old.ended ≡ false }
        ensures width { length bytes ≡ 4 }
        ensures law { PaysUnder (stand W.Write W.FaultCount writer.old self.old) code
            (fixed_at (mark_of self.old) code bytes) Error.InvalidValue (as_error result)
            (stand W.Write W.FaultCount writer.new self.new) }
    {
        let text = [code.byte(), bytes[0], bytes[1], bytes[2], bytes[3]];
        self.fixed(writer, code, &bytes, &text)
    }

    /// Four bytes of data outside arrays.
    #[inline(always)]
    pub(crate) fn plain_four_bytes<W: Sink>(
        &mut self,
        writer: &mut W,
        code: EncodingCodes,
        bytes: [u8; 4],
    ) -> Result<(), Refusal>
        requires answers { self.old.ended ≡ false }
        requires marked { mark_of self.old ≡ unmarked }
        ensures width { length bytes ≡ 4 }
        ensures law { PaysUnder (stand W.Write W.FaultCount writer.old self.old) code
            (fixed_at (mark_of self.old) code bytes) Error.InvalidValue (as_error result)
            (stand W.Write W.FaultCount writer.new self.new) }
    {
        let text = [code.byte(), bytes[0], bytes[1], bytes[2], bytes[3]];
        self.plain_fixed(writer, code, &bytes, &text)
    }

    /// Eight bytes of data.
    #[inline(always)]
    pub(crate) fn eight_bytes<W: Sink>(
        &mut self,
        writer: &mut W,
        code: EncodingCodes,
        bytes: [u8; 8],
    ) -> Result<(), Refusal>
        requires { self.old.ended ≡ false }
        ensures width { length bytes ≡ 8 }
        ensures law { PaysUnder (stand W.Write W.FaultCount writer.old self.old) code
            (fixed_at (mark_of self.old) code bytes) Error.InvalidValue (as_error result)
            (stand W.Write W.FaultCount writer.new self.new) }
    {
        let text = [
            code.byte(),
            bytes[0],
            bytes[1],
            bytes[2],
            bytes[3],
            bytes[4],
            bytes[5],
            bytes[6],
            bytes[7],
        ];
        self.fixed(writer, code, &bytes, &text)
    }

    /// Sixteen bytes of data.
    #[inline(always)]
    pub(crate) fn sixteen_bytes<W: Sink>(
        &mut self,
        writer: &mut W,
        code: EncodingCodes,
        bytes: [u8; 16],
    ) -> Result<(), Refusal>
        requires { self.old.ended ≡ false }
        ensures width { length bytes ≡ 16 }
        ensures law { PaysUnder (stand W.Write W.FaultCount writer.old self.old) code
            (fixed_at (mark_of self.old) code bytes) Error.InvalidValue (as_error result)
            (stand W.Write W.FaultCount writer.new self.new) }
    {
        let text = [
            code.byte(),
            bytes[0],
            bytes[1],
            bytes[2],
            bytes[3],
            bytes[4],
            bytes[5],
            bytes[6],
            bytes[7],
            bytes[8],
            bytes[9],
            bytes[10],
            bytes[11],
            bytes[12],
            bytes[13],
            bytes[14],
            bytes[15],
        ];
        self.fixed(writer, code, &bytes, &text)
    }
}
