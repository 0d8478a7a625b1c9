//! The serializer: a writer, and where its next item stands.

ghost use Rattle.std.specs.Prelude.{◌≡◌, false};
ghost use Rattle.amqp_ser.specs.State.{Fresh, IsStateOf, unmarked};
ghost use Rattle.amqp_ser.specs.Compound.{turned};
ghost use Rattle.amqp_ser.specs.Law.{Writes};

use crate::answer::answer;
use amqp_base::{Error, Setting, Sink};
use amqp_write::{Leaf, Mark, Place, Refusal, refused};
use std::marker::Model;

/// Writes values to a writer, one item after the other, in the AMQP 1.0 encoding (part 1, section
/// 1.2).
///
/// What is written for a value is the one canonical text of its item: the shortest code of its
/// kind, save that a payload of 255 bytes has four bytes of length. Between two calls nothing is
/// kept but the setting.
///
/// Once one of its calls was refused, or a compound was dropped without `end`, every later call
/// answers `InvalidValue`, also those of its compounds. What the writer held before stays in front
/// of what it holds; `into_inner` gives it.
///
/// Every call that writes may answer `Io` with the writer's own fault, or `OutOfMemory` where the
/// writer can't grow or answers that fault. Its comment names the further errors.
#[derive(Drop)]
pub struct Serializer<W: Sink> {
    /// The writer, to which all bytes are appended.
    pub writer: W,
    /// Where the next item stands, and under which setting.
    pub(crate) place: Place,
}

impl<W: Sink> Model for Serializer<W> {
    ghost use Rattle.amqp_ser.specs.State.{Serializing, stand};

    ghost Value = { Serializing W };

    ghost view = { λ s. record {
      writer = s.writer;
      state = stand W.Write W.FaultCount s.writer s.place;
    } };
}

impl<W: Sink> Serializer<W> {
    /// A serializer that appends to `writer`, and writes values as they are.
    pub fn new(writer: W) -> Serializer<W>
        ensures { Fresh W.Write W.FaultCount writer Setting.Plain result }
    {
        Serializer {
            writer,
            place: Place::new(Setting::Plain),
        }
    }

    /// A serializer that appends to `writer`, and writes each text that it is handed directly as a
    /// symbol (section 1.6.21). The parts of a compound are written as they are.
    pub fn symbol(writer: W) -> Serializer<W>
        ensures { Fresh W.Write W.FaultCount writer Setting.Symbol result }
    {
        Serializer {
            writer,
            place: Place::new(Setting::Symbol),
        }
    }

    /// A serializer that appends to `writer`, and takes the values that it is handed directly as
    /// the fields of a described list.
    pub fn described_list(writer: W) -> Serializer<W>
        ensures { Fresh W.Write W.FaultCount writer Setting.DescribedList result }
    {
        Serializer {
            writer,
            place: Place::new(Setting::DescribedList),
        }
    }

    /// A serializer that appends to `writer`, and writes a plain struct that it is handed directly
    /// as a map from the names of its fields to their values.
    pub fn described_map(writer: W) -> Serializer<W>
        ensures { Fresh W.Write W.FaultCount writer Setting.DescribedMap result }
    {
        Serializer {
            writer,
            place: Place::new(Setting::DescribedMap),
        }
    }

    /// A serializer that appends to `writer`, and takes each value that it is handed directly as
    /// the one behind a descriptor.
    pub fn described_basic(writer: W) -> Serializer<W>
        ensures { Fresh W.Write W.FaultCount writer Setting.DescribedBasic result }
    {
        Serializer {
            writer,
            place: Place::new(Setting::DescribedBasic),
        }
    }

    /// False: the format is binary.
    pub fn is_human_readable(&self) -> bool
        ensures { result ≡ false }
    {
        false
    }

    /// The writer, with all that was appended to it.
    pub fn into_inner(self) -> W
        ensures writer { result ≡ self.writer }
        ensures state { IsStateOf W.Write W.FaultCount result self.state }
    {
        let Serializer { writer, place: _ } = self;
        writer
    }

    /// Whether every call answers `InvalidValue` now.
    #[inline(always)]
    pub(crate) fn has_ended(&self) -> bool
        ensures { result ≡ self.now.state.ended }
    {
        self.place.ended
    }

    /// Whether every call answers `InvalidValue` from now on.
    #[inline(always)]
    pub(crate) fn set_ended(&mut self, ended: bool)
        ensures { self.new ≡ record self.old { state = record self.old.state { ended = ended } } }
    {
        self.place.ended = ended;
    }

    /// The setting of the next item.
    #[inline(always)]
    pub(crate) fn setting(&self) -> Setting
        ensures { result ≡ self.now.state.setting }
    {
        self.place.setting
    }

    /// The next item has this setting.
    #[inline(always)]
    pub(crate) fn set_setting(&mut self, setting: Setting)
        ensures { self.new ≡ record self.old {
          state = record self.old.state { setting = setting };
        } }
    {
        self.place.setting = setting;
    }

    /// The next item stands outside arrays.
    #[inline(always)]
    pub(crate) fn unmark(&mut self)
        ensures { self.new ≡ record self.old {
          state = record self.old.state { mark = unmarked };
        } }
    {
        self.place.mark = Mark::Unmarked;
    }

    /// The next item stands outside arrays, and has this setting.
    #[inline(always)]
    pub(crate) fn stand_outside(&mut self, setting: Setting)
        ensures { self.new ≡ record self.old {
          state = record self.old.state {
            setting = setting;
            mark = unmarked;
            ended = false;
          };
        } }
    {
        self.place.ended = false;
        self.place.mark = Mark::Unmarked;
        self.place.setting = setting;
    }

    /// Writes a value without parts.
    #[inline(always)]
    pub(crate) fn leaf<L: Leaf>(&mut self, value: L) -> Result<(), Error>
        ensures { Writes self.old.state
            (L.shows value self.old.state.setting) result self.new.state }
    {
        if self.place.ended {
            return Err(refused(Refusal::InvalidValue));
        }
        answer!(value.put(&mut self.place, &mut self.writer), refused)
    }

    /// Behind a first element the others stand under its constructor.
    #[inline(always)]
    pub(crate) fn turn(&mut self)
        ensures { self.new.state ≡ record self.old.state {
          mark = turned self.old.state.mark
              self.old.state.found;
        } }
    {
        self.place.turn();
    }
}

impl Serializer<Vec<u8>> {
    /// A vector never answers a fault.
    #[inline(always)]
    pub(crate) fn has_no_fault(&self)
        ensures { self.now.state.faults ≡ 0 }
    {
        let _ = &self.place;
    }
}

impl<W: Sink> From<W> for Serializer<W> {
    ghost use Rattle.amqp_base.specs.declared.shape.Setting.TheVariants.{Plain};

    ghost from_gives = { λ writer ser. Fresh W.Write W.FaultCount writer Plain ser };

    /// A serializer that appends to `writer`, as `new`.
    fn from(writer: W) -> Serializer<W> {
        Serializer::new(writer)
    }
}
