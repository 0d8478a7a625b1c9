//! Where the next item stands, and the bytes that are appended there.

ghost use Rattle.std.specs.Prelude.{◌≡◌, ◌≢◌, ◌++◌, [], false, Some, None};
ghost use Rattle.amqp_base.specs.Wire.{under};
ghost use Rattle.amqp_base.specs.Shapes.{setting_inside};
ghost use Rattle.amqp_write.specs.State.{stand, mark_of, found_of, MarksAs, unmarked, first};
ghost use Rattle.amqp_write.specs.Law.{placed};
ghost use Rattle.amqp_write.specs.Appending.{Appended, PaysUnder, as_error};
ghost use Rattle.amqp_write.specs.Wholes.{turned, next_mark};

use crate::refusal::Refusal;
use amqp_base::{EncodingCodes, Error, Setting, Shape, Sink};
use amqp_types::Descriptor;

/// The most bytes of a payload or of a compound's body: a size of four bytes counts four more.
pub(crate) const LONGEST: usize = 4_294_967_291;

/// The most bytes of a payload or of a compound's body behind a size of one byte. No text has a
/// payload of 255 bytes behind one byte, though it would fit.
pub(crate) const NARROW: usize = 254;

/// An element constructor: a code, alone or behind the descriptor that the place keeps.
#[derive(Clone, Copy)]
pub enum Constructor {
    /// A code alone.
    Under(EncodingCodes),
    /// A code behind the descriptor.
    UnderPair(EncodingCodes),
}

/// Where the next item stands: outside arrays, or in one.
#[derive(Clone, Copy)]
pub enum Mark {
    /// Outside arrays, or in a list within one.
    Unmarked,
    /// The first element of an array: its constructor stands before its data.
    First,
    /// A further element, whose data stands under the first one's constructor.
    Other(Constructor),
}

/// What a serializer has beside its writer: where the next item stands, and under which setting.
///
/// Each of its calls writes to the writer that it is handed.
#[derive(Drop)]
pub struct Place {
    /// What is done with values that are handed over directly.
    pub setting: Setting,
    /// Where the next item stands.
    pub mark: Mark,
    /// The constructor of the last item that was a first element.
    pub found: Option<Constructor>,
    /// The descriptor of both constructors, where they have one.
    pub descriptor: Option<Descriptor>,
    /// Whether every call answers `InvalidValue`.
    pub ended: bool,
    /// Whether the writer counts the parts of compounds, or takes them, as they come.
    pub direct: bool,
}

impl Place {
    /// Outside arrays, under this setting, where calls are answered.
    #[inline(always)]
    pub fn new(setting: Setting) -> Place
        ensures { result ≡ record {
          setting = setting;
          mark = Mark.Unmarked;
          found = None;
          descriptor = None;
          ended = false;
          direct = false;
        } }
    {
        Place {
            setting,
            mark: Mark::Unmarked,
            found: None,
            descriptor: None,
            ended: false,
            direct: false,
        }
    }

    /// Appends all of `bytes`, or ends.
    #[inline(always)]
    pub fn append<W: Sink>(&mut self, writer: &mut W, bytes: &[u8]) -> Result<(), Refusal>
        ensures { Appended (stand W.Write W.FaultCount writer.old self.old) bytes.now
            (as_error result) (stand W.Write W.FaultCount writer.new self.new) }
    {
        let mut rest = bytes;
        while !rest.is_empty() {
            match writer.write_some(rest) {
                Ok(n) => rest = &rest[n..],
                Err(kind) => {
                    self.ended = true;
                    return Err(Refusal::Io(kind));
                }
            }
        }
        Ok(())
    }

    /// Appends both, one after the other.
    #[inline(always)]
    pub(crate) fn append_two<W: Sink>(
        &mut self,
        writer: &mut W,
        head: &[u8],
        body: &[u8],
    ) -> Result<(), Refusal>
        ensures { Appended (stand W.Write W.FaultCount writer.old self.old) (head.now ++ body.now)
            (as_error result) (stand W.Write W.FaultCount writer.new self.new) }
    {
        match self.append(writer, head) {
            Ok(()) => self.append(writer, body),
            Err(e) => Err(e),
        }
    }

    /// Appends an element's data, behind its constructor where it is the first. An element of
    /// another constructor than the first one's is `InvalidValue`.
    #[inline(always)]
    pub(crate) fn element<W: Sink>(
        &mut self,
        writer: &mut W,
        code: EncodingCodes,
        head: &[u8],
        body: &[u8],
    ) -> Result<(), Refusal>
        requires answers { self.old.ended ≡ false }
        requires marked { mark_of self.old ≢ unmarked }
        ensures law { PaysUnder (stand W.Write W.FaultCount writer.old self.old) code (placed
            (mark_of self.old) (Some (under code)) (Some (head.now ++ body.now)))
            Error.InvalidValue (as_error result) (stand W.Write W.FaultCount writer.new self.new) }
    {
        let mark = self.mark;
        match mark {
            Mark::First => self.first_element(writer, code, head, body),
            Mark::Other(constructor) => match constructor {
                Constructor::Under(outer) => {
                    if outer.byte() == code.byte() {
                        return self.append_two(writer, head, body);
                    }
                    self.ended = true;
                    Err(Refusal::InvalidValue)
                }
                Constructor::UnderPair(_) => {
                    self.ended = true;
                    Err(Refusal::InvalidValue)
                }
            },
            Mark::Unmarked => {
                self.ended = true;
                Err(Refusal::InvalidValue)
            }
        }
    }

    /// Appends the first element's data behind its constructor.
    #[inline(always)]
    fn first_element<W: Sink>(
        &mut self,
        writer: &mut W,
        code: EncodingCodes,
        head: &[u8],
        body: &[u8],
    ) -> Result<(), Refusal>
        requires answers { self.old.ended ≡ false }
        requires marked { mark_of self.old ≡ first }
        ensures law { PaysUnder (stand W.Write W.FaultCount writer.old self.old) code (placed
            (mark_of self.old) (Some (under code)) (Some (head.now ++ body.now)))
            Error.InvalidValue (as_error result) (stand W.Write W.FaultCount writer.new self.new) }
    {
        self.found = Some(Constructor::Under(code));
        match self.append(writer, &[code.byte()]) {
            Ok(()) => self.append_two(writer, head, body),
            Err(e) => Err(e),
        }
    }

    /// Behind a first element the others stand under its constructor.
    #[inline(always)]
    pub fn turn(&mut self)
        ensures mark { mark_of self.new ≡ turned (mark_of self.old)
            (found_of self.old) }
        ensures others { self.new ≡ record self.old { mark = self.new.mark } }
    {
        let mark = self.mark;
        let found = self.found;
        if let Mark::First = mark {
            if let Some(constructor) = found {
                self.mark = Mark::Other(constructor);
            }
        }
    }
}

/// The mark of the first part.
#[tactic(auto, unfolding(crate::specs::Wholes::next_mark))]
#[inline(always)]
pub fn first_mark(shape: Shape) -> Mark
    ensures { MarksAs result (next_mark shape []) }
{
    match shape {
        Shape::List => Mark::Unmarked,
        Shape::Array => Mark::First,
        Shape::Tuple(_) => Mark::Unmarked,
        Shape::Map => Mark::Unmarked,
        Shape::Fields => Mark::Unmarked,
    }
}

/// The setting that the parts are under.
#[inline(always)]
pub fn setting_inside(shape: Shape) -> Setting
    ensures { result ≡ setting_inside shape }
{
    match shape {
        Shape::List => Setting::Plain,
        Shape::Array => Setting::Plain,
        Shape::Tuple(_) => Setting::Plain,
        Shape::Map => Setting::Plain,
        Shape::Fields => Setting::DescribedMap,
    }
}
