//! Texts and bytes where they stand.

ghost use Rattle.std.specs.Prelude.{◌≡◌, ◌≤◌, false, length};
ghost use Rattle.amqp_base.specs.Canon.{limit};
ghost use Rattle.amqp_base.specs.Item.{scalar, binary, symbol};
ghost use Rattle.amqp_base.specs.Typing.{text_item};
ghost use Rattle.amqp_write.specs.State.{stand, mark_of, unmarked};
ghost use Rattle.amqp_write.specs.Law.{unwritten};
ghost use Rattle.amqp_write.specs.Texts.{text_codes};
ghost use Rattle.amqp_write.specs.Appending.{AppendsText, PaysItem, PaysUnder, payload_at};
ghost use Rattle.amqp_write.specs.Appending.{as_error};

use crate::place::{LONGEST, Mark, NARROW, Place};
use crate::refusal::Refusal;
use amqp_base::{EncodingCodes, Setting, Sink, codes};
use std::io::ErrorKind;

/// The codes of a text: the byte of the one with a length of one byte, and the one with four.
#[inline(always)]
fn text_codes(setting: Setting) -> (u8, EncodingCodes)
    ensures { result ≡ text_codes setting }
{
    match setting {
        Setting::Symbol => (codes::SYM8, EncodingCodes::Sym32),
        _ => (codes::STR8, EncodingCodes::Str32),
    }
}

impl Place {
    /// Bytes behind a code and their length: `narrow` is the byte of the code with one byte of
    /// length, `code` the code with four. More than 4,294,967,291 bytes are `Io(Other)`.
    #[inline(always)]
    fn payload_text<W: Sink>(
        &mut self,
        writer: &mut W,
        narrow: u8,
        code: EncodingCodes,
        bytes: &[u8],
    ) -> Result<(), Refusal>
        requires { self.old.ended ≡ false }
        ensures law { PaysUnder (stand W.Write W.FaultCount writer.old self.old) code
            (payload_at (mark_of self.old) narrow code bytes.now)
            (unwritten (length bytes.now)) (as_error result)
            (stand W.Write W.FaultCount writer.new self.new) }
    {
        let len = bytes.len();
        if len > LONGEST {
            self.ended = true;
            return Err(Refusal::Io(ErrorKind::Other));
        }
        let mark = self.mark;
        match mark {
            Mark::Unmarked => self.payload_outside(writer, narrow, code, bytes),
            _ => self.element(writer, code, &(len as u32).to_be_bytes(), bytes),
        }
    }

    /// Bytes outside arrays: up to 254 of them behind `narrow` and one byte of length, else behind
    /// `code` and four.
    #[inline(always)]
    pub(crate) fn payload_outside<W: Sink>(
        &mut self,
        writer: &mut W,
        narrow: u8,
        code: EncodingCodes,
        bytes: &[u8],
    ) -> Result<(), Refusal>
        requires short { length bytes.now ≤ limit }
        ensures law { AppendsText (stand W.Write W.FaultCount writer.old self.old)
            (payload_at unmarked narrow code bytes.now) (as_error result)
            (stand W.Write W.FaultCount writer.new self.new) }
    {
        let len = bytes.len();
        if len <= NARROW {
            return self.append_two(writer, &[narrow, len as u8], bytes);
        }
        let size = (len as u32).to_be_bytes();
        let head = [code.byte(), size[0], size[1], size[2], size[3]];
        self.append_two(writer, &head, bytes)
    }

    /// A text: a symbol under the symbol setting (section 1.6.21), else a string (section 1.6.20).
    /// Outside arrays up to 254 bytes stand behind one byte of length, else behind four.
    ///
    /// More than 4,294,967,291 bytes are `Io(Other)`; under another constructor than the first
    /// element's it is `InvalidValue`.
    #[inline(always)]
    pub fn text<W: Sink>(&mut self, writer: &mut W, v: &str) -> Result<(), Refusal>
        requires { self.old.ended ≡ false }
        ensures law { PaysItem (stand W.Write W.FaultCount writer.old self.old)
            (text_item v.now self.old.setting) (unwritten (length v.now)) (as_error result)
            (stand W.Write W.FaultCount writer.new self.new) }
    {
        let (narrow, code) = text_codes(self.setting);
        self.payload_text(writer, narrow, code, v.as_bytes())
    }

    /// A symbol, whatever the setting (section 1.6.21). Outside arrays up to 254 bytes stand behind
    /// one byte of length, else behind four.
    ///
    /// More than 4,294,967,291 bytes are `Io(Other)`; under another constructor than the first
    /// element's it is `InvalidValue`.
    #[inline(always)]
    pub fn symbol<W: Sink>(&mut self, writer: &mut W, v: &str) -> Result<(), Refusal>
        requires { self.old.ended ≡ false }
        ensures law { PaysItem (stand W.Write W.FaultCount writer.old self.old)
            (scalar (symbol v.now)) (unwritten (length v.now)) (as_error result)
            (stand W.Write W.FaultCount writer.new self.new) }
    {
        self.payload_text(writer, codes::SYM8, EncodingCodes::Sym32, v.as_bytes())
    }

    /// Bytes as binary (section 1.6.19). Outside arrays up to 254 of them stand behind one byte of
    /// length, else behind four.
    ///
    /// More than 4,294,967,291 bytes are `Io(Other)`; under another constructor than the first
    /// element's they are `InvalidValue`.
    #[inline(always)]
    pub fn binary<W: Sink>(&mut self, writer: &mut W, v: &[u8]) -> Result<(), Refusal>
        requires { self.old.ended ≡ false }
        ensures law { PaysItem (stand W.Write W.FaultCount writer.old self.old)
            (scalar (binary v.now)) (unwritten (length v.now)) (as_error result)
            (stand W.Write W.FaultCount writer.new self.new) }
    {
        self.payload_text(writer, codes::VBIN8, EncodingCodes::Vbin32, v)
    }
}
