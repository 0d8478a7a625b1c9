//! Structs that are written field by field, plain or behind a descriptor, and tuple structs, whose
//! fields have no names.

ghost use Rattle.std.specs.Prelude.{◌≡◌, ◌++◌, ◌∷◌, [], false, true, Bool, List};
ghost use Rattle.std.specs.Prelude.{Err, IfOk, IfErr, OnOk, OnErr};
ghost use Rattle.amqp_base.specs.Item.{Item, described};
ghost use Rattle.amqp_types.specs.Descriptors.{descriptor_of};
ghost use Rattle.amqp_base.specs.Shapes.{whole};
ghost use Rattle.amqp_ser.specs.State.{State, answering};
ghost use Rattle.amqp_ser.specs.Law.{Wrote, Refused, Stops};
ghost use Rattle.amqp_ser.specs.Compound.{BeginsWith, open_parts, is_map, EndsWhole, RefusesOpen};
ghost use Rattle.amqp_ser.specs.Staged.{HoldsParts, Awaits, Before, plain, behind, item_under};
ghost use Rattle.amqp_ser.specs.Staged.{EndsStage, encoding_named, row_encoding};
ghost use Rattle.amqp_ser.specs.Staged.{OpensBehind, ClosesBehind, IsApart, HoldsStruct};
ghost use Rattle.amqp_ser.specs.Staged.{struct_under, Keeps, AllThere, lacks_field};
ghost use Rattle.amqp_ser.specs.Staged.{KeepsHeld, EndsHeld, WritesDescriptor};
ghost use Rattle.amqp_ser.specs.declared.staged.Stage.TheVariants as stage;
ghost use Rattle.amqp_base.specs.declared.error.Error.TheVariants.{OutOfMemory};
ghost use Rattle.amqp_base.specs.Structs.{FieldItem, named, is_descriptor_name, struct_shape};

use crate::answer::answer;
use crate::compound::{Compound, Named, Parts};
use crate::front::Front;
use crate::structs::{is_name, struct_shape, write_field};
use crate::{Serialize, Serializer};
use amqp_base::{
    DESCRIBED_BASIC, DESCRIBED_LIST, DESCRIBED_MAP, DESCRIPTOR, Error, Setting, Shape, Sink,
};
use amqp_types::Descriptor;
use amqp_write::{Refusal, refused};
use std::alloc::Global;

/// What stands behind the descriptor of a struct, by its name.
#[derive(Clone, Copy)]
pub(crate) enum Encoding {
    /// A list of the fields.
    List,
    /// A map from their names to them.
    Map,
    /// The only field.
    Basic,
}

/// How far a struct is written.
#[derive(Clone, Copy)]
pub(crate) enum Stage {
    /// Nothing stands before its fields.
    Plain,
    /// Its descriptor comes first.
    Awaited(Encoding),
    /// Its descriptor stands, and the fields that it has so far behind it.
    Behind,
    /// Its descriptor is known; its only field comes next.
    Given,
    /// Its field stands behind its descriptor, and whether there were more.
    Written(bool),
    /// A call was refused.
    Ended,
}

/// What is written of a struct so far: its stage, what stands in front of its fields, and they.
#[derive(Drop)]
pub struct Staged {
    pub(crate) stage: Stage,
    pub(crate) front: Front,
    pub(crate) parts: Parts,
}

/// A struct or a tuple struct that is being written, field by field.
pub type StagedCompound<'a, W, F> = Compound<'a, W, F, Staged>;

impl<'a, W: Sink, F: Drop> StagedCompound<'a, W, F> {
    /// Writes the descriptor of a described struct, before its fields: 00 and the descriptor
    /// (section 1.2), save in an array whose elements share it. Then the compound takes fields.
    ///
    /// `Io(Other)`: the descriptor is longer than 4,294,967,291 bytes. `OutOfMemory`: there is no
    /// memory for the fields, or to keep the descriptor. `InvalidValue`: the struct is plain, or
    /// has its descriptor already. A refusal ends the compound.
    pub fn serialize_descriptor(
        &mut self,
        alloc: Global,
        descriptor: &Descriptor,
    ) -> Result<(), Error>
        ensures same_reference { self.new.ser.ghost_name ≡ self.old.ser.ghost_name }
        ensures law { WritesDescriptor (descriptor_of descriptor.now) self.old result self.new }
    {
        answer!(write_descriptor(&mut *self.ser, &mut self.parts, alloc, descriptor))
    }
}

/// What stands behind the descriptor of a struct of this name, if one does.
#[inline(always)]
pub(crate) fn encoding_of(name: &str) -> Option<Encoding>
    ensures { result ≡ encoding_named name.now }
{
    if is_name(name, DESCRIBED_LIST) {
        return Some(Encoding::List);
    }
    if is_name(name, DESCRIBED_MAP) {
        return Some(Encoding::Map);
    }
    if is_name(name, DESCRIBED_BASIC) {
        return Some(Encoding::Basic);
    }
    None
}

/// The same of a tuple struct, which is never a map.
#[inline(always)]
pub(crate) fn row_encoding_of(name: &str) -> Option<Encoding>
    ensures { result ≡ row_encoding name.now }
{
    if is_name(name, DESCRIBED_LIST) {
        return Some(Encoding::List);
    }
    if is_name(name, DESCRIBED_BASIC) {
        return Some(Encoding::Basic);
    }
    None
}

impl<W: Sink> Serializer<W> {
    /// Writes what is to stand in front of a compound behind this descriptor, and opens it.
    fn open_behind(
        &mut self,
        alloc: Global,
        descriptor: &Descriptor,
        setting: Setting,
        shape: Shape,
    ) -> Result<(Front, Parts), Error>
        ensures ok { IfOk result (λ r. OpensBehind (answering self.old.state)
            (descriptor_of descriptor.now) setting shape r.0
            (open_parts (is_map shape) self.new.state r.1)) }
        ensures err { IfErr result (λ e. (xs : List Item) → Refused (answering self.old.state)
            (described (descriptor_of descriptor.now) (whole shape xs)) e self.new.state) }
    {
        self.set_ended(false);
        match self.put_front(alloc, descriptor) {
            Ok(front) => {
                self.set_setting(setting);
                match self.begin(alloc, shape) {
                    Ok(parts) => Ok((front, parts)),
                    Err(e) => {
                        self.set_ended(true);
                        Err(front.renamed(e))
                    }
                }
            }
            Err(e) => Err(e),
        }
    }

    /// A struct without a descriptor begins, as one is written under this setting.
    #[inline(always)]
    pub(crate) fn start_plain(&mut self, alloc: Global, setting: Setting) -> Result<Staged, Error>
        ensures ok { IfOk result (λ g. HoldsStruct self.old.state (plain setting) []
            self.new.state g) }
        ensures held { OnOk result (self.new.state.ended ≡ true) }
        ensures err { RefusesOpen (struct_shape setting) self.old.state result self.new.state }
    {
        match self.begin(alloc, struct_shape(setting)) {
            Ok(parts) => Ok(Staged {
                stage: Stage::Plain,
                front: Front::Nowhere,
                parts,
            }),
            Err(e) => Err(e),
        }
    }

    /// A struct begins whose descriptor comes first.
    pub(crate) fn await_descriptor(
        &mut self,
        alloc: Global,
        encoding: Encoding,
    ) -> Result<Staged, Error>
        ensures ok { IfOk result (λ g. Awaits self.old.state encoding self.new.state g) }
        ensures err { OnErr result (self.old.state.ended ≡ true) }
        ensures stops { Stops self.old.state result self.new.state }
    {
        if self.has_ended() {
            return Err(refused(Refusal::InvalidValue));
        }
        self.set_ended(true);
        Ok(Staged {
            stage: Stage::Awaited(encoding),
            front: Front::Nowhere,
            parts: Parts::none(alloc),
        })
    }

    /// Writes the compound that has these parts.
    #[inline(always)]
    fn end_plain(&mut self, parts: Parts) -> Result<(), Error>
        ensures { (pairs : Bool) → EndsWhole (open_parts pairs self.old.state parts)
            self.old.state result self.new.state }
    {
        let whole = Compound {
            ser: self,
            parts,
            form: Named,
        };
        whole.end()
    }

    /// Writes the compound behind a descriptor that has these parts, and what is to stand behind
    /// both.
    fn close_behind(&mut self, front: Front, parts: Parts) -> Result<(), Error>
        ensures law { ClosesBehind front (λ pairs. open_parts pairs self.old.state parts) result
            self.new.state }
        ensures kept { EndsHeld self.old.state result self.new.state }
    {
        match self.close(parts) {
            Ok(()) => self.close_front(front),
            Err(e) => {
                self.set_ended(true);
                Err(front.renamed(e))
            }
        }
    }
}

/// The refusal of a descriptor where none is awaited.
#[cold]
fn out_of_order() -> Error
    ensures { result ≡ Error.InvalidValue }
{
    refused(Refusal::InvalidValue)
}

/// Writes the descriptor of a struct that awaits it.
fn write_descriptor<W: Sink>(
    ser: &mut Serializer<W>,
    of: &mut Staged,
    alloc: Global,
    descriptor: &Descriptor,
) -> Result<(), Error>
    ensures ok { OnOk result ((s : State) (x : _) → Awaits s x ser.old.state of.old →
        HoldsParts s (behind x (descriptor_of descriptor.now)) [] ser.new.state of.new) }
    ensures err { IfErr result (λ e. (s : State) (x : _) (xs : List Item) →
        Awaits s x ser.old.state of.old →
        Refused s (item_under (behind x (descriptor_of descriptor.now)) xs) e ser.new.state) }
    ensures uncalled { (s : State) (b : Before) (xs : List Item) →
        HoldsParts s b xs ser.old.state of.old → result ≡ Err Error.InvalidValue }
    ensures stops { EndsStage ser.old.state of.old result ser.new.state of.new }
{
    let stage = of.stage;
    of.stage = Stage::Ended;
    match stage {
        Stage::Awaited(encoding) => match encoding {
            Encoding::List => of.open(ser, alloc, descriptor, Setting::Plain, Shape::List),
            Encoding::Map => {
                of.open(ser, alloc, descriptor, Setting::DescribedMap, Shape::Fields)
            }
            Encoding::Basic => of.keep(Setting::DescribedBasic, alloc, descriptor),
        },
        _ => Err(out_of_order()),
    }
}

impl Staged {
    /// The descriptor is written, and a compound opened behind it.
    fn open<W: Sink>(
        &mut self,
        ser: &mut Serializer<W>,
        alloc: Global,
        descriptor: &Descriptor,
        setting: Setting,
        shape: Shape,
    ) -> Result<(), Error>
        ensures ok { OnOk result ((self.new.stage ≡ stage.Behind) ×
            OpensBehind (answering ser.old.state)
            (descriptor_of descriptor.now) setting shape self.new.front
            (open_parts (is_map shape) ser.new.state self.new.parts)) }
        ensures err { IfErr result (λ e. (xs : List Item) → Refused (answering ser.old.state)
            (described (descriptor_of descriptor.now) (whole shape xs)) e ser.new.state) }
        ensures stage { OnErr result (self.new.stage ≡ self.old.stage) }
    {
        match ser.open_behind(alloc, descriptor, setting, shape) {
            Ok((front, parts)) => {
                self.front = front;
                self.parts = parts;
                self.stage = Stage::Behind;
                Ok(())
            }
            Err(e) => Err(e),
        }
    }

    /// The descriptor is kept for the value that comes next.
    fn keep(
        &mut self,
        setting: Setting,
        alloc: Global,
        descriptor: &Descriptor,
    ) -> Result<(), Error>
        ensures ok { OnOk result ((self.new.stage ≡ stage.Given) ×
            Keeps self.new.front (descriptor_of descriptor.now)) }
        ensures err { IfErr result (λ e. e ≡ OutOfMemory) }
        ensures stage { OnErr result (self.new.stage ≡ self.old.stage) }
    {
        match descriptor.clone(alloc) {
            Ok(own) => {
                self.front = Front::First(setting, own);
                self.stage = Stage::Given;
                Ok(())
            }
            Err(e) => Err(e),
        }
    }
}

/// Writes the only field of a struct behind a descriptor. One more passes, and is found at the end.
fn write_value<W: Sink, T: Serialize>(
    ser: &mut Serializer<W>,
    of: &mut Staged,
    alloc: Global,
    value: &T,
) -> Result<(), Error>
    requires apart { IsApart of.old }
    ensures ok { OnOk result ((s : State) (b : Before) (xs : List Item) →
        HoldsParts s b xs ser.old.state of.old →
        HoldsParts s b (xs ++ T.meaning.item value.now Setting.Plain ∷ [])
        ser.new.state of.new) }
    ensures err { IfErr result (λ e. (s : State) (b : Before) (xs all : List Item) →
        HoldsParts s b xs ser.old.state of.old →
        BeginsWith all (xs ++ T.meaning.item value.now Setting.Plain ∷ []) →
        Refused s (item_under b all) e ser.new.state) }
    ensures early { (s : State) (x : _) → Awaits s x ser.old.state of.old →
        result ≡ Err Error.InvalidValue }
    ensures kept { KeepsHeld ser.old.state ser.new.state }
    ensures stops { EndsStage ser.old.state of.old result ser.new.state of.new }
{
    let stage = of.stage;
    of.stage = Stage::Ended;
    match stage {
        Stage::Given => match &of.front {
            Front::First(_, descriptor) => {
                ser.set_ended(false);
                match ser.serialize_described(alloc, descriptor, value) {
                    Ok(()) => {
                        ser.set_ended(true);
                        of.stage = Stage::Written(false);
                        Ok(())
                    }
                    Err(e) => Err(e),
                }
            }
            // a descriptor that is known is kept there
            _ => Err(refused(Refusal::InvalidValue)),
        },
        Stage::Written(_) => {
            of.stage = Stage::Written(true);
            Ok(())
        }
        _ => Err(refused(Refusal::InvalidValue)),
    }
}

/// Writes one more field of a struct, under its name where the fields are a map.
pub(crate) fn write_named_field<W: Sink, T: Serialize>(
    ser: &mut Serializer<W>,
    of: &mut Staged,
    alloc: Global,
    name: &str,
    value: &T,
) -> Result<(), Error>
    ensures ok { OnOk result ((s : State) (b : Before) (fs : List FieldItem) →
        HoldsStruct s b fs ser.old.state of.old →
        HoldsStruct s b (fs ++ named name.now (T.meaning.item value.now) ∷ [])
        ser.new.state of.new) }
    ensures err { IfErr result (λ e. is_descriptor_name name.now ≡ false →
        (s : State) (b : Before) (fs all : List FieldItem) →
        HoldsStruct s b fs ser.old.state of.old →
        BeginsWith all (fs ++ named name.now (T.meaning.item value.now) ∷ []) →
        Refused s (struct_under b all) e ser.new.state) }
    ensures descriptor { is_descriptor_name name.now ≡ true →
        result ≡ Err Error.InvalidValue }
    ensures early { (s : State) (x : _) → Awaits s x ser.old.state of.old →
        result ≡ Err Error.InvalidValue }
    ensures kept { KeepsHeld ser.old.state ser.new.state }
    ensures stops { EndsStage ser.old.state of.old result ser.new.state of.new }
{
    if is_name(name, DESCRIPTOR) {
        of.stage = Stage::Ended;
        return Err(refused(Refusal::InvalidValue));
    }
    match of.stage {
        Stage::Plain => match write_field(ser, &mut of.parts, alloc, name, value) {
            Ok(()) => Ok(()),
            Err(e) => {
                of.stage = Stage::Ended;
                Err(e)
            }
        },
        Stage::Behind => match write_field(ser, &mut of.parts, alloc, name, value) {
            Ok(()) => Ok(()),
            Err(e) => {
                of.stage = Stage::Ended;
                ser.set_ended(true);
                Err(of.front.renamed(e))
            }
        },
        _ => write_value(ser, of, alloc, value),
    }
}

/// Ends a struct: writes the whole that has its fields.
pub(crate) fn end_staged<W: Sink>(ser: &mut Serializer<W>, of: Staged) -> Result<(), Error>
    ensures ok { OnOk result ((s : State) (b : Before) (xs : List Item) →
        HoldsParts s b xs ser.old.state of → AllThere b xs →
        Wrote s (item_under b xs) ser.new.state) }
    ensures err { IfErr result (λ e. (s : State) (b : Before) (xs : List Item) →
        HoldsParts s b xs ser.old.state of → AllThere b xs →
        lacks_field b xs ≡ false → Refused s (item_under b xs) e ser.new.state) }
    ensures lacking { (s : State) (b : Before) (xs : List Item) →
        HoldsParts s b xs ser.old.state of →
        lacks_field b xs ≡ true → result ≡ Err Error.SequenceLengthMismatch }
    ensures early { (s : State) (x : _) → Awaits s x ser.old.state of →
        result ≡ Err Error.InvalidValue }
    ensures kept { EndsHeld ser.old.state result ser.new.state }
    ensures ended { of.stage ≡ stage.Ended → result ≡ Err Error.InvalidValue }
{
    let Staged {
        stage,
        front,
        parts,
    } = of;
    match stage {
        Stage::Plain => ser.end_plain(parts),
        Stage::Behind => ser.close_behind(front, parts),
        Stage::Given => Err(Error::SequenceLengthMismatch),
        Stage::Written(more) => {
            if more {
                return Err(Error::SequenceLengthMismatch);
            }
            ser.set_ended(false);
            Ok(())
        }
        Stage::Awaited(_) => Err(refused(Refusal::InvalidValue)),
        Stage::Ended => Err(refused(Refusal::InvalidValue)),
    }
}
