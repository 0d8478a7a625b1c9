//! What is common to all compounds: their parts so far.

ghost use Rattle.std.specs.Prelude.{◌≡◌, ◌≢◌, ◌+◌, ◌==◌, ◌%◌, ◌++◌};
ghost use Rattle.std.specs.Prelude.{Some, ◌∷◌, Bool, List, [], true, false, IfOk};
ghost use Rattle.std.specs.Prelude.{IfErr, OnOk, OnErr, Err, IsTrue};
ghost use Rattle.amqp_base.specs.Item.{Item};
ghost use Rattle.amqp_base.specs.Shapes.{whole, setting_inside};
ghost use Rattle.amqp_ser.specs.State.{State, answering};
ghost use Rattle.amqp_write.specs.declared.pass.Opened.TheVariants.{Buffered as IsBuffered};
ghost use Rattle.amqp_ser.specs.Law.{Refused};
ghost use Rattle.amqp_ser.specs.Compound.{open_parts, Empty, Run, Holds};
ghost use Rattle.amqp_ser.specs.Compound.{Complete, BeginsWith, EndsCompound, Keeps, WritesPart};
ghost use Rattle.amqp_ser.specs.Compound.{WritesEach, WritesEntries, EndsWhole, EndsStruct};
ghost use Rattle.amqp_ser.specs.Compound.{part_in, outside_in, open_state, open_as, lacking, lacks};
ghost use Rattle.amqp_ser.specs.Compound.{lacks_value};
ghost use Rattle.amqp_ser.specs.Staged.{EndsFields};
ghost use Rattle.amqp_ser.specs.Variants.{EndsPair};

use crate::answer::answer;
use crate::paired::end_paired;
use crate::staged::{StagedCompound, end_staged};
use crate::{Serialize, Serializer, VariantSerializer};
use amqp_base::{Error, Pass, Setting, Shape, Sink};
use amqp_types::Descriptor;
use amqp_write::{
    Constructor, Mark, Opened, Place, Refusal, first_mark, handed_on, no_memory, refused,
    setting_inside,
};
use std::alloc::{AllocError, Global};

/// Room for so many bytes of parts is taken when a compound opens.
const FIRST_CAPACITY: usize = 64;

/// The parts so far of a compound that is being written: their bytes in a buffer, and how many they
/// are. Each part of the compound is written to the buffer, under the setting that its shape has
/// inside.
#[derive(Drop)]
pub struct Parts {
    pub(crate) shape: Shape,
    pub(crate) buffer: Serializer<Vec<u8>>,
    pub(crate) count: usize,
    pub(crate) opened: Opened,
    pub(crate) outer: Outer,
}

/// A compound that is being written, part by part. Until its `end` succeeded its serializer answers
/// nothing but `InvalidValue`, also where it is dropped; over a caller's writer nothing of it
/// reaches the writer before.
pub struct Compound<'a, W: Sink, F, B = Parts> {
    pub(crate) ser: &'a mut Serializer<W>,
    pub(crate) parts: B,
    pub(crate) form: F,
}

impl<W: Sink, F: Drop, B: Drop> Drop for Compound<'_, W, F, B> {
    fn drop(self)
        ensures { self.exit.0.now ≡ self.entry.ser.now }
    {
        let Compound {
            ser,
            parts: _,
            form: _,
        } = self;
        let _ = ser; // which answers nothing still
    }
}

/// The parts of a compound are the elements of a list or an array.
#[derive(Clone, Copy)]
pub struct Elements;

/// The parts of a compound are those of a tuple, just so many as were announced.
#[derive(Clone, Copy)]
pub struct Announced;

/// The parts of a compound are keys and values in turn.
#[derive(Clone, Copy)]
pub struct Entries;

/// The parts of a compound are the fields of a tuple struct.
#[derive(Clone, Copy)]
pub struct Unnamed;

/// The parts of a compound are the fields of a struct, each under its name.
#[derive(Clone, Copy)]
pub struct Named;

/// What a serializer is to have again when its compound has ended. An enum: what a proof of a
/// caller looks into by itself are structs, and it stops at so many.
#[derive(Drop)]
pub(crate) enum Outer {
    /// Its setting, of a serializer outside arrays that wrote no first element.
    Outside(Setting),
    /// Its setting, its mark, the constructor of the last first element, and their descriptor.
    Had {
        setting: Setting,
        mark: Mark,
        found: Option<Constructor>,
        descriptor: Option<Descriptor>,
    },
}

impl<'a, W: Sink, F: Drop> Compound<'a, W, F> {
    /// Writes one more part, which isn't under the name of a field. It is refused as the part's own
    /// `serialize`; then the compound answers `InvalidValue` to all that follows, `end` too.
    #[inline(always)]
    pub(crate) fn write_next<T: Serialize>(&mut self, alloc: Global, value: &T) -> Result<(), Error>
        ensures same_reference { self.new.ser.ghost_name ≡ self.old.ser.ghost_name }
        ensures law { WritesEach (T.meaning.item value.now Setting.Plain ∷ [])
            (open_state self.old) result self.new.ser.now.state (open_state self.new) }
    {
        answer!(write_part(&mut *self.ser, &mut self.parts, alloc, value))
    }

    /// Whether its parts stand on its own serializer, outside arrays.
    #[inline(always)]
    pub(crate) fn stands_outside(&self) -> bool
        ensures direct { IsTrue result → self.now.parts.opened ≢ IsBuffered }
        ensures outside { IsTrue result → self.now.parts.shape ≢ Shape.Array }
    {
        let ser = &*self.ser;
        match ser.writer.pass() {
            Pass::Buffers => false,
            _ => match self.parts.opened {
                Opened::Buffered => false,
                _ => match self.parts.shape {
                    Shape::Array => false,
                    _ => true,
                },
            },
        }
    }

    /// Writes the whole: its code, its size, the number of its parts, and them (a list without
    /// parts is the byte 45). Only then does its serializer answer again.
    ///
    /// `SequenceLengthMismatch`: a tuple has another number of parts than was announced;
    /// `InvalidLength`: the last key of a map has no value. Then nothing is written. `Io(Other)`:
    /// the parts have more than 4,294,967,291 bytes. `InvalidValue`: a part was refused, or the
    /// array that the whole is to stand in has elements under another constructor.
    #[inline(always)]
    pub fn end(self) -> Result<(), Error>
        ensures law { (pairs : Bool) → EndsWhole (open_as pairs self.entry)
            self.entry.ser.now.state result self.exit.0.now.state }
        ensures lacking { (pairs : Bool) (s : State) (shape : Shape) (xs : List Item)
            (e : Error) → Holds s shape xs (open_as pairs self.entry) →
            lacking shape xs ≡ Some e →
            (result ≡ Err e) × (self.exit.0.now ≡ self.entry.ser.now) }
        ensures fields { EndsStruct (open_state self.entry) result self.exit.0.now.state }
    {
        let Compound {
            ser,
            parts,
            form: _,
        } = self;
        if parts.buffer.has_ended() {
            return Err(refused(Refusal::InvalidValue));
        }
        match parts.lacks() {
            Some(e) => return Err(e),
            None => {}
        }
        answer!(ser.close(parts))
    }
}

impl<'a, W: Sink, F: Drop> StagedCompound<'a, W, F> {
    /// Writes the whole: a list or a map of the fields, behind its descriptor where it has one.
    /// Only then does its serializer answer again.
    ///
    /// `SequenceLengthMismatch`: under `DESCRIBED_BASIC` there isn't just one field. `Io(Other)`:
    /// the fields have more than 4,294,967,291 bytes. `InvalidValue`: the descriptor is missing, a
    /// call was refused, or the array that the whole is to stand in has other elements.
    pub fn end(self) -> Result<(), Error>
        ensures { EndsFields self.entry result self.exit.0.now.state }
    {
        let Compound {
            ser,
            parts,
            form: _,
        } = self;
        end_staged(ser, parts)
    }
}

impl<'a, W: Sink> VariantSerializer<'a, W> {
    /// Writes the whole: the map of the index and the list of the fields. Only then does its
    /// serializer answer again.
    ///
    /// `SequenceLengthMismatch`: there is another number of fields than was announced. Then nothing
    /// is written. `Io(Other)`: the fields or the pair have more than 4,294,967,291 bytes.
    /// `InvalidValue`: a field was refused, or the array that the whole is to stand in has other
    /// elements.
    pub fn end(self) -> Result<(), Error>
        ensures { EndsPair self.entry result self.exit.0.now.state }
    {
        let Compound {
            ser,
            parts,
            form: _,
        } = self;
        end_paired(ser, parts)
    }
}

/// Writes one more part: to its buffer, or as it comes. It is refused as the part's own
/// `serialize`; then all that follows is `InvalidValue`.
#[inline(always)]
pub(crate) fn write_part<W: Sink, T: Serialize>(
    ser: &mut Serializer<W>,
    parts: &mut Parts,
    alloc: Global,
    value: &T,
) -> Result<(), Error>
    ensures ok { (pairs : Bool) → OnOk result ((s : State) (shape : Shape) (xs : List Item) →
        Holds s shape xs (open_parts pairs ser.old.state parts.old) →
        Holds s shape (xs ++ T.meaning.item value.now (setting_inside shape) ∷ [])
        (open_parts pairs ser.new.state parts.new)) }
    ensures err { (pairs : Bool) →
        IfErr result (λ e. (s : State) (shape : Shape) (xs all : List Item) →
        Holds s shape xs (open_parts pairs ser.old.state parts.old) →
        BeginsWith all (xs ++ T.meaning.item value.now (setting_inside shape) ∷ []) →
        Complete pairs all → Refused s (whole shape all) e ser.new.state) }
    ensures kept { (pairs : Bool) → Keeps (open_parts pairs ser.old.state parts.old)
        (open_parts pairs ser.new.state parts.new) }
    ensures stops { (pairs : Bool) → EndsCompound (open_parts pairs ser.old.state parts.old)
        result (open_parts pairs ser.new.state parts.new) }
{
    if parts.buffer.has_ended() {
        return Err(refused(Refusal::InvalidValue));
    }
    match ser.writer.pass() {
        Pass::Buffers => match parts.opened {
            Opened::Buffered => answer!(parts.write(alloc, value)),
            _ => {
                parts.buffer.set_ended(true);
                return Err(no_memory());
            }
        },
        _ => match parts.opened {
            Opened::Buffered => {
                parts.buffer.set_ended(true);
                return Err(no_memory());
            }
            _ => answer!(write_direct(ser, parts, alloc, value)),
        },
    }
}

/// Writes one more part as it comes.
#[inline(always)]
fn write_direct<W: Sink, T: Serialize>(
    ser: &mut Serializer<W>,
    parts: &mut Parts,
    alloc: Global,
    value: &T,
) -> Result<(), Error>
    requires answers { parts.old.buffer.state.ended ≡ false }
    requires direct { parts.old.opened ≢ IsBuffered }
    ensures ok { (pairs : Bool) → OnOk result ((s : State) (shape : Shape) (xs : List Item) →
        Holds s shape xs (open_parts pairs ser.old.state parts.old) →
        Holds s shape (xs ++ T.meaning.item value.now (setting_inside shape) ∷ [])
        (open_parts pairs ser.new.state parts.new)) }
    ensures err { (pairs : Bool) →
        IfErr result (λ e. (s : State) (shape : Shape) (xs all : List Item) →
        Holds s shape xs (open_parts pairs ser.old.state parts.old) →
        BeginsWith all (xs ++ T.meaning.item value.now (setting_inside shape) ∷ []) →
        Complete pairs all → Refused s (whole shape all) e ser.new.state) }
    ensures kept { (pairs : Bool) → Keeps (open_parts pairs ser.old.state parts.old)
        (open_parts pairs ser.new.state parts.new) }
    ensures ended { OnErr result (parts.new.buffer.state.ended ≡ true) }
{
    match write_on(ser, parts.shape, alloc, value) {
        Ok(()) => match parts.count.checked_add(1) {
            Some(count) => {
                parts.count = count;
                return Ok(());
            }
            None => {
                parts.buffer.set_ended(true);
                return Err(no_memory());
            }
        },
        Err(e) => {
            parts.buffer.set_ended(true);
            return Err(handed_on(e));
        }
    }
}

/// Writes one more part of a compound of this shape on the serializer that the compound holds.
#[inline(always)]
fn write_on<W: Sink, T: Serialize>(
    ser: &mut Serializer<W>,
    shape: Shape,
    alloc: Global,
    value: &T,
) -> Result<(), Error>
    ensures { WritesPart ser.old.state
        (part_in shape ser.old.state) (T.meaning.item value.now) result ser.new.state }
{
    match shape {
        Shape::Array => answer!(write_in_array(ser, alloc, value)),
        _ => answer!(write_outside(ser, shape, alloc, value)),
    }
}

/// Writes one more element of an array on the serializer that the array holds.
#[inline(never)]
fn write_in_array<W: Sink, T: Serialize>(
    ser: &mut Serializer<W>,
    alloc: Global,
    value: &T,
) -> Result<(), Error>
    ensures { WritesPart ser.old.state (answering ser.old.state) (T.meaning.item value.now) result
        ser.new.state }
{
    ser.set_ended(false);
    match value.serialize(alloc, ser) {
        Ok(()) => {
            ser.set_ended(true);
            ser.turn();
            Ok(())
        }
        Err(e) => {
            ser.set_ended(true);
            Err(e)
        }
    }
}

/// Writes one more part of any other compound on the serializer that the compound holds. Mark and
/// setting are stored as they are, so that the part's own call need not ask for them.
#[inline(always)]
pub(crate) fn write_outside<W: Sink, T: Serialize>(
    ser: &mut Serializer<W>,
    shape: Shape,
    alloc: Global,
    value: &T,
) -> Result<(), Error>
    ensures { WritesPart ser.old.state
        (outside_in shape ser.old.state) (T.meaning.item value.now) result ser.new.state }
{
    ser.stand_outside(setting_inside(shape));
    match value.serialize(alloc, ser) {
        Ok(()) => {
            ser.set_ended(true);
            return Ok(());
        }
        Err(e) => {
            ser.set_ended(true);
            return Err(handed_on(e));
        }
    }
}

impl Parts {
    /// No parts yet, with room for a few bytes.
    #[inline(always)]
    pub(crate) fn new(alloc: Global, shape: Shape) -> Result<Parts, AllocError>
        ensures shape { IfOk result (λ p. p.shape ≡ shape) }
        ensures empty { IfOk result (λ p. Empty p.buffer.state) }
        ensures run { IfOk result (λ p. Run shape p.buffer.state [] p.buffer.state) }
        ensures count { IfOk result (λ p. p.count ≡ 0) }
        ensures opened { IfOk result (λ p. p.opened ≡ IsBuffered) }
    {
        let writer = match Vec::with_capacity(alloc, FIRST_CAPACITY) {
            Ok(writer) => writer,
            Err(e) => return Err(e),
        };
        let buffer = Serializer {
            writer,
            place: Place {
                setting: setting_inside(shape),
                mark: first_mark(shape),
                found: None,
                descriptor: None,
                ended: false,
                direct: false,
            },
        };
        Ok(Parts {
            shape,
            buffer,
            count: 0,
            opened: Opened::Buffered,
            outer: Outer::Outside(Setting::Plain),
        })
    }

    /// None, of a compound that isn't open yet.
    pub(crate) fn none(alloc: Global) -> Parts {
        Parts {
            shape: Shape::List,
            buffer: Serializer {
                writer: Vec::new(alloc),
                place: Place::new(Setting::Plain),
            },
            count: 0,
            opened: Opened::Buffered,
            outer: Outer::Outside(Setting::Plain),
        }
    }

    /// What is missing: parts of a tuple, or the value of a key.
    #[inline(always)]
    pub(crate) fn lacks(&self) -> Option<Error>
        ensures { result ≡ lacks self.now.shape self.now.count }
    {
        match self.shape {
            Shape::List => None,
            Shape::Array => None,
            Shape::Tuple(len) => {
                if self.count == len {
                    None
                } else {
                    Some(Error::SequenceLengthMismatch)
                }
            }
            Shape::Map => self.lacks_value(),
            Shape::Fields => self.lacks_value(),
        }
    }

    /// What is missing where the parts are keys and values in turn.
    #[inline(always)]
    fn lacks_value(&self) -> Option<Error>
        ensures { result ≡ lacks_value self.now.count }
    {
        if self.awaits_value() {
            Some(Error::InvalidLength)
        } else {
            None
        }
    }

    /// Whether a key stands last, without its value.
    #[inline(always)]
    pub(crate) fn awaits_value(&self) -> bool
        ensures { result ≡ (self.now.count % 2 == 1) }
    {
        self.count % 2 == 1
    }

    /// Writes one more part. It is refused as the part's own `serialize`; then all that follows is
    /// `InvalidValue`.
    #[inline(never)]
    pub(crate) fn write<T: Serialize>(&mut self, alloc: Global, value: &T) -> Result<(), Error>
        requires buffered { self.old.opened ≡ IsBuffered }
        ensures ok { (pairs : Bool) (outer : State) →
            OnOk result ((s : State) (shape : Shape) (xs : List Item) →
            Holds s shape xs (open_parts pairs outer self.old) →
            Holds s shape (xs ++ T.meaning.item value.now (setting_inside shape) ∷ [])
            (open_parts pairs outer self.new)) }
        ensures err { (pairs : Bool) (outer : State) →
            IfErr result (λ e. (s : State) (shape : Shape) (xs all : List Item) →
            Holds s shape xs (open_parts pairs outer self.old) →
            BeginsWith all (xs ++ T.meaning.item value.now (setting_inside shape) ∷ []) →
            Complete pairs all → Refused s (whole shape all) e outer) }
        ensures stops { (pairs : Bool) (outer : State) → EndsCompound
            (open_parts pairs outer self.old) result (open_parts pairs outer self.new) }
    {
        if self.buffer.has_ended() {
            return Err(refused(Refusal::InvalidValue));
        }
        match value.serialize(alloc, &mut self.buffer) {
            Ok(()) => match self.count.checked_add(1) {
                Some(count) => {
                    self.count = count;
                    self.buffer.turn();
                    Ok(())
                }
                None => {
                    self.buffer.set_ended(true);
                    Err(Error::OutOfMemory)
                }
            },
            Err(e) => {
                self.buffer.has_no_fault();
                self.buffer.set_ended(true);
                Err(e)
            }
        }
    }
}

/// Writes one more key or value of a map. Out of turn it is `InvalidValue`, and so is then all that
/// follows.
#[inline(always)]
pub(crate) fn write_in_turn<W: Sink, T: Serialize>(
    ser: &mut Serializer<W>,
    parts: &mut Parts,
    alloc: Global,
    is_value: bool,
    part: &T,
) -> Result<(), Error>
    ensures { WritesEntries is_value (T.meaning.item part.now Setting.Plain ∷ [])
        (open_parts true ser.old.state parts.old) result ser.new.state
        (open_parts true ser.new.state parts.new) }
{
    if parts.buffer.has_ended() {
        return Err(refused(Refusal::InvalidValue));
    }
    let turn = parts.awaits_value();
    if turn == is_value {
        return write_part(ser, parts, alloc, part);
    }
    parts.buffer.set_ended(true);
    Err(refused(Refusal::InvalidValue))
}
