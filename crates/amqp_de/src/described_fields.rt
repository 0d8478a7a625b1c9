//! Structs under a descriptor, read by their fields.

ghost use Rattle.std.specs.Prelude.{◌≡◌, false, true, IsTrue, IfOk, IfErr, OnOk, OnErr};
ghost use Rattle.amqp_base.specs.Codes.{Kind, row};
ghost use Rattle.amqp_de.specs.Calls.{NamedRead, NamedRefused};
ghost use Rattle.amqp_de.specs.DescribedFields.{ListRead, ListMissed, ListBehindNamed};
ghost use Rattle.amqp_de.specs.DescribedFields.{MapBehindNamed};
ghost use Rattle.amqp_de.specs.DescribedFields.{FieldsBehind, FieldsBehindRefused};
ghost use Rattle.amqp_de.specs.DescribedFields.{FieldsBehindNamed};
ghost use Rattle.amqp_de.specs.DescribedFields.{NamesBehind, NamesBehindRefused, NamesBehindNamed};
ghost use Rattle.amqp_de.specs.ReadFields.{Filled};
ghost use Rattle.amqp_de.specs.Steps.{Stops};

use crate::structs::is_map;
use crate::{DescriptorSet, Deserializer, Fields};
use amqp_base::{EncodingCodes, Error};
use amqp_read::Read;
use std::alloc::Global;
use std::mem;

/// Whether a code is a list's.
#[inline(always)]
pub(crate) fn is_list(code: EncodingCodes) -> bool
    ensures yes { IsTrue result → (row code).kind ≡ Kind.list }
    ensures no { result ≡ false → (row code).kind ≡ Kind.list → ⊥ }
{
    match code {
        EncodingCodes::List0 => true,
        EncodingCodes::List8 => true,
        EncodingCodes::List32 => true,
        _ => false,
    }
}

impl<R: Read> Deserializer<R> {
    /// The fields behind a descriptor. They are read where they stand, as a row of many values
    /// would be copied wherever it is handed on.
    #[inline(always)]
    fn read_list_behind<S: Fields<R>>(&mut self, alloc: Global, fields: &mut S) -> Result<(), Error>
        ensures ok { OnOk result (Filled (S.slots fields.new)
            (λ vs. ListRead (S.slots fields.old) vs self.old self.new)) }
        ensures err { IfErr result (λ e.
            ListMissed (S.slots fields.old) R.buffers self.old self.new e) }
        ensures named { IfErr result (λ e. ListBehindNamed (S.slots fields.old) S.takes S.refuses
            R.buffers self.old self.new e) }
        ensures ended { OnErr result (IsTrue self.new.ended) }
    {
        match self.deserialize_any() {
            Ok(code) => {
                if !is_list(code) {
                    self.stop();
                    return Err(Error::custom(alloc, "expected a list behind the descriptor"));
                }
                match self.deserialize_leading(alloc, fields) {
                    Ok(()) => return Ok(()),
                    Err(e) => return Err(e),
                }
            }
            Err(e) => return Err(e),
        }
    }

    /// Reads the fields of a struct under a descriptor (part 1, section 1.2): out of a list behind
    /// it (section 1.6.22), in order. Their names aren't looked at. Where the list has fewer
    /// elements, each of the fields that are left is what its type reads from null (section 1.4).
    ///
    /// In this order: the refusals of `deserialize_descriptor`, `Message` where the descriptor is
    /// none of these, `Io(UnexpectedEof)` where there is no byte behind it, `InvalidFormatCode`
    /// where it is no code, `Message` where it is no list's code, the refusals of a list's header,
    /// `SequenceLengthMismatch` where it has more elements than there are fields, then the refusals
    /// of the fields. A refusal ends the deserializer.
    #[inline(always)]
    pub fn deserialize_described_fields<S: Fields<R> + Drop, D: DescriptorSet>(
        &mut self,
        alloc: Global,
        descriptor: &D,
        fields: S,
    ) -> Result<S::Values, Error>
        ensures ok { IfOk result (λ vs. FieldsBehind (D.among descriptor.now)
            (S.slots fields) vs self.old self.new) }
        ensures err { IfErr result (λ e. FieldsBehindRefused (D.among descriptor.now)
            (S.slots fields) R.buffers self.old self.new e) }
        ensures named { IfErr result (λ e. FieldsBehindNamed (D.among descriptor.now)
            (S.slots fields) S.takes S.refuses R.buffers self.old self.new e) }
        ensures stops { Stops self.old result self.new }
    {
        let mut slots = fields;
        // A row of many values takes a place wherever it is let go: it is so in one alone.
        match self.fill_behind(alloc, descriptor, &mut slots) {
            Ok(()) => {}
            Err(e) => return Err(e),
        }
        match slots.take_values() {
            Some(values) => {
                // None of them has a value any more.
                mem::forget(slots);
                return Ok(values);
            }
            // Each of them has one.
            None => {
                mem::forget(slots);
                self.stop();
                return Err(Error::SequenceLengthMismatch);
            }
        }
    }

    /// The fields behind one of these descriptors, where they stand.
    #[inline(always)]
    fn fill_behind<S: Fields<R>, D: DescriptorSet>(
        &mut self,
        alloc: Global,
        descriptor: &D,
        fields: &mut S,
    ) -> Result<(), Error>
        ensures ok { OnOk result (Filled (S.slots fields.new) (λ vs. FieldsBehind
            (D.among descriptor.now) (S.slots fields.old) vs self.old self.new)) }
        ensures err { IfErr result (λ e. FieldsBehindRefused (D.among descriptor.now)
            (S.slots fields.old) R.buffers self.old self.new e) }
        ensures named { IfErr result (λ e. FieldsBehindNamed (D.among descriptor.now)
            (S.slots fields.old) S.takes S.refuses R.buffers self.old self.new e) }
        ensures stops { Stops self.old result self.new }
    {
        match self.begin_behind(alloc, descriptor) {
            Ok(()) => match self.read_list_behind(alloc, fields) {
                Ok(()) => return Ok(()),
                Err(e) => return Err(e),
            },
            Err(e) => return Err(e),
        }
    }

    /// The fields behind a descriptor, out of a map.
    fn read_map_behind<S: Fields<R> + Drop>(
        &mut self,
        alloc: Global,
        fields: S,
    ) -> Result<S::Values, Error>
    where
        S::Values: Drop,
        ensures ok { IfOk result (λ vs. NamedRead (S.slots fields) vs self.old self.new) }
        ensures err { IfErr result (λ e.
            NamedRefused (S.slots fields) R.buffers self.old self.new e) }
        ensures named { IfErr result (λ e. MapBehindNamed (S.slots fields) S.takes S.refuses
            R.buffers self.old self.new e) }
        ensures ended { OnErr result (IsTrue self.new.ended) }
    {
        match self.deserialize_any() {
            Ok(code) => {
                if !is_map(code) {
                    self.stop();
                    return Err(Error::custom(alloc, "expected a map behind the descriptor"));
                }
                match self.read_map(alloc, fields) {
                    Ok(values) => return Ok(values),
                    Err(e) => return Err(e),
                }
            }
            Err(e) => return Err(e),
        }
    }

    /// Reads the fields of a struct under a descriptor (part 1, section 1.2): out of a map behind
    /// it (section 1.6.23) of just their names as strings, each once, in any order.
    ///
    /// In this order: the refusals of `deserialize_descriptor`, `Message` where the descriptor is
    /// none of these, `Io(UnexpectedEof)` where there is no byte behind it, `InvalidFormatCode`
    /// where it is no code, `Message` where it is no map's code, the refusals of `deserialize_map`,
    /// then those of `deserialize_fields` for the pairs of a map. A refusal ends the deserializer.
    #[inline(always)]
    pub fn deserialize_described_map<S: Fields<R> + Drop, D: DescriptorSet>(
        &mut self,
        alloc: Global,
        descriptor: &D,
        fields: S,
    ) -> Result<S::Values, Error>
    where
        S::Values: Drop,
        ensures ok { IfOk result (λ vs. NamesBehind (D.among descriptor.now)
            (S.slots fields) vs self.old self.new) }
        ensures err { IfErr result (λ e. NamesBehindRefused (D.among descriptor.now)
            (S.slots fields) R.buffers self.old self.new e) }
        ensures named { IfErr result (λ e. NamesBehindNamed (D.among descriptor.now)
            (S.slots fields) S.takes S.refuses R.buffers self.old self.new e) }
        ensures stops { Stops self.old result self.new }
    {
        match self.begin_behind(alloc, descriptor) {
            Ok(()) => match self.read_map_behind(alloc, fields) {
                Ok(values) => return Ok(values),
                Err(e) => return Err(e),
            },
            Err(e) => return Err(e),
        }
    }
}

/// Reads a struct under a descriptor, as a list of its fields:
/// `read_described!(de, alloc, &descriptor, Sensor { id, unit })` calls
/// `Deserializer::deserialize_described_fields` with the names that `read_fields!` gives them, and
/// answers the struct of what was read. The descriptor is a `Descriptor`, or a `CodeOrName`. A
/// struct may have no fields: `Accepted {}`.
#[macro_export]
macro_rules! read_described {
    ($de:expr, $alloc:expr, $descriptor:expr, $name:ident {
        $($field:ident $(: $key:literal)?),* $(,)?
    } $(,)?) => {
        match $de.deserialize_described_fields(
            $alloc,
            $descriptor,
            $crate::read_fields!(@row $($field $(: $key)?),*),
        ) {
            Ok(values) => $crate::read_fields!(@take values; $name; []; $($field),*),
            Err(e) => Err(e),
        }
    };
}

/// Reads a struct under a descriptor, as a map from the names of its fields:
/// `read_described_map!(de, alloc, &descriptor, Sensor { id, unit })` calls
/// `Deserializer::deserialize_described_map` with these names, or with the name that follows a
/// field, as in `Sensor { id: "sensor-id", unit }`, and answers the struct of what was read.
#[macro_export]
macro_rules! read_described_map {
    ($de:expr, $alloc:expr, $descriptor:expr, $name:ident {
        $($field:ident $(: $key:literal)?),* $(,)?
    } $(,)?) => {
        match $de.deserialize_described_map(
            $alloc,
            $descriptor,
            $crate::read_fields!(@row $($field $(: $key)?),*),
        ) {
            Ok(values) => $crate::read_fields!(@take values; $name; []; $($field),*),
            Err(e) => Err(e),
        }
    };
}
