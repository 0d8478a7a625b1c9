//! The pair of a variant's index and its fields, which are written one by one.

ghost use Rattle.std.specs.Prelude.{ℕ, ◌≡◌, ◌≢◌, [], List};
ghost use Rattle.std.specs.Prelude.{length, true, Err, IfOk, IfErr, OnOk};
ghost use Rattle.amqp_base.specs.Item.{Item};
ghost use Rattle.amqp_base.specs.Shapes.{whole};
ghost use Rattle.amqp_ser.specs.State.{State};
ghost use Rattle.amqp_ser.specs.Law.{Wrote, Refused, Kept};
ghost use Rattle.amqp_ser.specs.Compound.{open_parts, is_map, Holds, EndsCompound};
ghost use Rattle.amqp_ser.specs.Compound.{outside_in, turned, Complete};
ghost use Rattle.amqp_ser.specs.Staged.{KeepsHeld, EndsHeld};
ghost use Rattle.amqp_ser.specs.Variants.{HoldsPair, RefusesVariant, fields_item, open_fields};
ghost use Rattle.amqp_ser.specs.Variants.{InBuffer, OnItself, PutsField, EndsAs};
ghost use Rattle.amqp_write.specs.declared.pass.Opened.TheVariants.{Buffered as IsBuffered};

use crate::answer::answer;
use crate::compound::{Parts, write_part};
use crate::{Serialize, Serializer};
use amqp_base::{Error, Setting, Shape, Sink};
use amqp_write::{Opened, Refusal, refused};
use std::alloc::Global;

/// The parts so far of a variant with fields: of its pair, and of the list of fields in it.
#[derive(Drop)]
pub struct Paired {
    pub(crate) pair: Parts,
    pub(crate) fields: Parts,
}

impl<W: Sink> Serializer<W> {
    /// Opens a map, writes the index, and opens a list of `len` fields behind it.
    pub(crate) fn begin_pair(
        &mut self,
        alloc: Global,
        index: u32,
        len: usize,
    ) -> Result<Paired, Error>
        ensures ok { IfOk result (λ v. HoldsPair self.old.state index len [] self.new.state v) }
        ensures held { OnOk result (self.new.state.ended ≡ true) }
        ensures err { RefusesVariant index len self.old.state result self.new.state }
    {
        match self.begin(alloc, Shape::Map) {
            Ok(pair) => match self.begin_fields(alloc, pair, index, len) {
                Ok(pair) => Ok(pair),
                Err(e) => Err(e),
            },
            Err(e) => Err(e),
        }
    }

    /// Writes the index as the key of this pair, and opens a list as its value.
    fn begin_fields(
        &mut self,
        alloc: Global,
        pair: Parts,
        index: u32,
        len: usize,
    ) -> Result<Paired, Error>
        ensures ok { IfOk result (λ v. (s : State) →
            Holds s Shape.Map [] (open_parts true self.old.state pair) →
            HoldsPair s index len [] self.new.state v) }
        ensures err { IfErr result (λ e. (s : State) (xs : List Item) →
            Holds s Shape.Map [] (open_parts true self.old.state pair) →
            Refused s (fields_item index len xs) e self.new.state) }
        ensures kept { KeepsHeld self.old.state self.new.state }
    {
        let mut pair = pair;
        match write_part(self, &mut pair, alloc, &index) {
            Ok(()) => match pair.opened {
                Opened::Buffered => match pair.buffer.begin(alloc, Shape::Tuple(len)) {
                    Ok(fields) => Ok(Paired { pair, fields }),
                    Err(e) => {
                        pair.buffer.has_no_fault();
                        Err(e)
                    }
                },
                _ => match self.begin_value(alloc, Shape::Tuple(len)) {
                    Ok(fields) => Ok(Paired { pair, fields }),
                    Err(e) => Err(e),
                },
            },
            Err(e) => Err(e),
        }
    }

    /// Opens a compound on a serializer that a map holds, as one of its values.
    fn begin_value(&mut self, alloc: Global, shape: Shape) -> Result<Parts, Error>
        ensures ok { IfOk result (λ p. Holds (outside_in Shape.Map self.old.state) shape []
            (open_parts (is_map shape) self.new.state p)) }
        ensures err { IfErr result (λ e. (xs : List Item) → (w : State) ×
            Refused (outside_in Shape.Map self.old.state) (whole shape xs) e
            w × (self.new.state ≡ record w { ended = true })) }
        ensures kept { Kept self.old.state self.new.state }
        ensures held { self.new.state.ended ≡ true }
    {
        self.stand_outside(Setting::Plain);
        match self.begin(alloc, shape) {
            Ok(parts) => Ok(parts),
            Err(e) => {
                self.set_ended(true);
                Err(e)
            }
        }
    }

    /// Writes the compound that has these parts, as a value of a map that holds the serializer.
    fn close_value(&mut self, parts: Parts) -> Result<(), Error>
        ensures ok { OnOk result ((v : State) (shape : Shape) (xs : List Item) → Holds v shape xs
            (open_parts (is_map shape) self.old.state parts) →
            Complete (is_map shape) xs → (w : State) × Wrote v (whole shape xs) w ×
            (self.new.state ≡ record w {
              ended = true;
              mark = turned w.mark w.found;
            })) }
        ensures err { IfErr result (λ e. (v : State) (shape : Shape) (xs : List Item) →
            Holds v shape xs
            (open_parts (is_map shape) self.old.state parts) →
            Complete (is_map shape) xs → (w : State) × Refused v (whole shape xs) e w ×
            (self.new.state ≡ record w { ended = true })) }
        ensures kept { Kept self.old.state self.new.state }
        ensures held { self.new.state.ended ≡ true }
    {
        match self.close(parts) {
            Ok(()) => {
                self.set_ended(true);
                self.turn();
                Ok(())
            }
            Err(e) => {
                self.set_ended(true);
                Err(e)
            }
        }
    }
}

/// Writes one more field of a variant.
#[inline(always)]
pub(crate) fn write_paired<W: Sink, T: Serialize>(
    ser: &mut Serializer<W>,
    of: &mut Paired,
    alloc: Global,
    value: &T,
) -> Result<(), Error>
    ensures field { PutsField (T.meaning.item value.now Setting.Plain)
        ser.old.state of.old result ser.new.state of.new }
    ensures kept { KeepsHeld ser.old.state ser.new.state }
    ensures stops { EndsCompound (open_fields ser.old.state of.old) result
        (open_fields ser.new.state of.new) }
{
    match of.pair.opened {
        Opened::Buffered => {
            match write_part(&mut of.pair.buffer, &mut of.fields, alloc, value) {
                Ok(()) => return Ok(()),
                Err(e) => {
                    of.pair.buffer.has_no_fault();
                    return Err(e);
                }
            }
        }
        _ => answer!(write_part(ser, &mut of.fields, alloc, value)),
    }
}

/// Ends a variant: writes the pair of its index and the list of its fields.
pub(crate) fn end_paired<W: Sink>(ser: &mut Serializer<W>, of: Paired) -> Result<(), Error>
    ensures whole { EndsAs (λ s index len xs. HoldsPair s index len xs ser.old.state of)
        result ser.new.state }
    ensures lacking { (s : State) (index len : ℕ) (xs : List Item) →
        HoldsPair s index len xs ser.old.state of → length xs ≢ len →
        result ≡ Err Error.SequenceLengthMismatch }
    ensures kept { EndsHeld ser.old.state result ser.new.state }
    ensures ended { of.fields.buffer.state.ended ≡ true → result ≡ Err Error.InvalidValue }
{
    let Paired { pair, fields } = of;
    if fields.buffer.has_ended() {
        return Err(refused(Refusal::InvalidValue));
    }
    match fields.lacks() {
        Some(e) => return Err(e),
        None => {}
    }
    match pair.opened {
        Opened::Buffered => end_in_buffer(ser, pair, fields),
        _ => end_on_itself(ser, pair, fields),
    }
}

/// Ends a variant whose fields went to the buffer of its pair.
fn end_in_buffer<W: Sink>(ser: &mut Serializer<W>, pair: Parts, fields: Parts) -> Result<(), Error>
    requires buffered { pair.opened ≡ IsBuffered }
    ensures whole { EndsAs (λ s index len xs. InBuffer s index len xs ser.old.state pair fields)
        result ser.new.state }
    ensures kept { EndsHeld ser.old.state result ser.new.state }
{
    let mut pair = pair;
    match pair.buffer.close(fields) {
        Ok(()) => {
            pair.buffer.turn();
            pair.count = 2;
            ser.close(pair)
        }
        Err(e) => {
            pair.buffer.has_no_fault();
            Err(e)
        }
    }
}

/// Ends a variant whose fields went to the serializer itself.
fn end_on_itself<W: Sink>(ser: &mut Serializer<W>, pair: Parts, fields: Parts) -> Result<(), Error>
    requires direct { pair.opened ≢ IsBuffered }
    ensures whole { EndsAs (λ s index len xs. OnItself s index len xs ser.old.state pair fields)
        result ser.new.state }
    ensures kept { EndsHeld ser.old.state result ser.new.state }
{
    let mut pair = pair;
    match ser.close_value(fields) {
        Ok(()) => {
            pair.count = 2;
            ser.close(pair)
        }
        Err(e) => {
            pair.buffer.has_no_fault();
            Err(e)
        }
    }
}
