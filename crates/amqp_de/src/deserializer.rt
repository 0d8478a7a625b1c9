//! The deserializer: a reader, and where in an item it stands.

ghost use Rattle.std.specs.Prelude.{◌≡◌, true, false, IfOk, IfErr};
ghost use Rattle.amqp_base.specs.Wire.{bare};
ghost use Rattle.amqp_de.specs.Decoding.{Decoding};
ghost use Rattle.amqp_de.specs.Steps.{Begins, BeginsNot};

use amqp_base::{Count, Error, codes};
use amqp_data::{Constructor, byte};
use amqp_read::Read;
use std::marker::Model;

/// Reads values from a reader, one after the other.
///
/// After a refusal by one of its calls, and after an access that was dropped without its `end`, the
/// deserializer is ended: every call is refused as `InvalidValue` and changes nothing, and
/// `into_reader` still gives the reader. `deserialize_chosen` alone leaves it answering where it
/// refuses a value that was read.
///
/// Bytes are looked at from left to right, and the first rule broken names the refusal. Over a
/// reader that buffers, every call that reads may also answer `OutOfMemory`, `Io` of the source's
/// own kind, and `Io(Other)` where the count of the bytes consumed would pass `usize::MAX`; no
/// received byte is lost then.
#[derive(Drop)]
pub struct Deserializer<R: Read> {
    pub(crate) reader: R,
    pub(crate) ended: bool,
    pub(crate) inherited: Constructor,
    pub(crate) described: bool,
    pub(crate) begun: Count,
}

impl<R: Read> Model for Deserializer<R> {
    ghost use Rattle.amqp_de.specs.Decoding.{Decoding};
    ghost use Rattle.amqp_data.specs.Places.{constructor_of};

    ghost Value = { Decoding };

    ghost view = { λ d. record {
      reading = R.reading d.reader;
      ended = d.ended;
      inherited =
          constructor_of d.inherited;
      described = d.described;
      begun = d.begun.n;
    } };
}

impl<R: Read> Deserializer<R> {
    /// A deserializer that reads from where `reader` stands. Nothing is consumed.
    pub fn new(reader: R) -> Deserializer<R>
        ensures { result ≡ record {
          reading = R.reading reader;
          ended = false;
          inherited = bare;
          described = false;
          begun = 0;
        } }
    {
        Deserializer {
            reader,
            ended: false,
            inherited: Constructor::Bare,
            described: false,
            begun: Count::new(),
        }
    }

    /// The reader, where it stands, also behind a refusal. What it has received and not consumed is
    /// still in it.
    pub fn into_reader(self) -> R
        ensures { R.reading result ≡ self.reading }
    {
        let Deserializer {
            reader,
            ended: _,
            inherited: _,
            described: _,
            begun: _,
        } = self;
        reader
    }

    /// Whether the format is for humans to read: false, as it is binary.
    pub fn is_human_readable(&self) -> bool
        ensures { result ≡ false }
    {
        false
    }

    /// Begins the next item: the byte of its code, which is consumed where it isn't inherited.
    #[inline(always)]
    pub(crate) fn begin(&mut self) -> Result<u8, Error>
        ensures ok { IfOk result (λ b. Begins self.old self.new b) }
        ensures err { IfErr result (λ e. BeginsNot R.buffers self.old self.new e) }
    {
        self.ended = true;
        self.begun.tick();
        let described = self.described;
        self.described = false;
        match &self.inherited {
            Constructor::Bare => byte(&mut self.reader),
            Constructor::Under(code) => Ok(code.byte()),
            Constructor::UnderPair(_, code) => {
                if described {
                    return Ok(code.byte());
                }
                Ok(codes::DESCRIBED_TYPE)
            }
        }
    }
}
