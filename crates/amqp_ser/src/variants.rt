//! The variants of an enum.

ghost use Rattle.std.specs.Prelude.{◌≡◌, [], true, false, length, IfOk, IfErr, OnOk, Err};
ghost use Rattle.std.specs.Borrow.{sem, RestsIfErr};
ghost use Rattle.amqp_base.specs.Structs.{is_descriptor_name};
ghost use Rattle.amqp_ser.specs.Law.{Wrote, Refused, Stops, Writes};
ghost use Rattle.amqp_ser.specs.Variants.{unit_item, variant_item, fields_item, HasVariant};
ghost use Rattle.amqp_ser.specs.Variants.{RefusesVariant, WritesVariantField};
ghost use Rattle.amqp_ser.specs.contracts.serializer.Serializer.{the_row};

use crate::answer::answer;
use crate::compound::Compound;
use crate::paired::{Paired, write_paired};
use crate::structs::is_name;
use crate::{Serialize, Serializer, TupleParts};
use amqp_base::{DESCRIPTOR, Error, Setting, Sink};
use amqp_write::{Refusal, refused};
use std::alloc::Global;

/// The parts of a compound are the fields of an enum's variant.
#[derive(Clone, Copy)]
pub struct Variant;

/// A variant with fields that is being written, field by field: a map of one pair, its index and a
/// list of just so many fields as were announced. Until `end` succeeded its serializer answers
/// nothing but `InvalidValue`, also where it is dropped; over a caller's writer nothing of it
/// reaches the writer before.
pub type VariantSerializer<'a, W> = Compound<'a, W, Variant, Paired>;

impl<W: Sink> Serializer<W> {
    /// Writes a variant without fields: its index, as a uint (section 1.6.5). Neither name is
    /// written. It takes no memory of its own.
    ///
    /// `InvalidValue`: the array that it is to stand in has elements under another constructor.
    #[inline(always)]
    pub fn serialize_unit_variant(
        &mut self,
        alloc: Global,
        name: &'static str,
        index: u32,
        variant: &'static str,
    ) -> Result<(), Error>
        ensures { Writes self.old.state (unit_item index) result self.new.state }
    {
        let _ = name;
        let _ = variant;
        self.serialize_u32(alloc, index)
    }

    /// Writes a variant that holds one value: a map (section 1.6.23) of one pair, its index as a
    /// uint and the value. Neither name is written.
    ///
    /// `InvalidValue`: the enum is named `DESCRIPTOR`, in whose place `serialize_descriptor`
    /// stands, or the array that the map is to stand in has elements under another constructor;
    /// `Io(Other)`: the pair has more than 4,294,967,291 bytes. Else it is refused as the value's
    /// own `serialize`.
    pub fn serialize_newtype_variant<T: Serialize>(
        &mut self,
        alloc: Global,
        name: &'static str,
        index: u32,
        variant: &'static str,
        value: &T,
    ) -> Result<(), Error>
        ensures ok { OnOk result (Wrote self.old.state
            (variant_item index (T.meaning.item value.now Setting.Plain)) self.new.state) }
        ensures err { is_descriptor_name name.now ≡ false →
            IfErr result (λ e. Refused self.old.state
            (variant_item index (T.meaning.item value.now Setting.Plain)) e self.new.state) }
        ensures descriptor { is_descriptor_name name.now ≡ true →
            result ≡ Err Error.InvalidValue }
        ensures stops { Stops self.old.state result self.new.state }
    {
        let _ = variant;
        if self.has_ended() {
            return Err(refused(Refusal::InvalidValue));
        }
        if is_name(name, DESCRIPTOR) {
            self.set_ended(true);
            return Err(refused(Refusal::InvalidValue));
        }
        let mut pair = match self.serialize_map(alloc, Some(1)) {
            Ok(pair) => pair,
            Err(e) => return Err(e),
        };
        match pair.serialize_entry(alloc, &index, value) {
            Ok(()) => pair.end(),
            Err(e) => Err(e),
        }
    }
}

impl<W: Sink> Serializer<W> {
    /// Opens a variant of `len` fields without names, which is written as a map of one pair, its
    /// index as a uint and a list of the fields (sections 1.6.22, 1.6.23). Neither name is written.
    ///
    /// `OutOfMemory`: there is no memory for its buffers.
    pub fn serialize_tuple_variant(
        &mut self,
        alloc: Global,
        name: &'static str,
        index: u32,
        variant: &'static str,
        len: usize,
    ) -> Result<VariantSerializer<'_, W>, Error>
        ensures* rests { sem 𝓛 (RestsIfErr (the_row W.row W.Write W.FaultCount) self.entry (λ q.
            q.ser.ghost_name) result (λ n. RefusesVariant index len self.old.state result
            n.state)) }
        ensures same_reference { IfOk result (λ q. q.ser.ghost_name ≡ self.entry.ghost_name) }
        ensures held { IfOk result (λ q. q.ser.now.state.ended ≡ true) }
        ensures opened { IfOk result (λ q. HasVariant self.old.state index len [] q) }
    {
        let _ = name;
        let _ = variant;
        match self.begin_pair(alloc, index, len) {
            Ok(parts) => {
                return Ok(Compound {
                    ser: self,
                    parts,
                    form: Variant,
                });
            }
            Err(e) => return Err(e),
        }
    }

    /// Opens a variant of `len` fields with names, as `serialize_tuple_variant` does; the names
    /// aren't written.
    ///
    /// `OutOfMemory`: there is no memory for its buffers.
    pub fn serialize_struct_variant(
        &mut self,
        alloc: Global,
        name: &'static str,
        index: u32,
        variant: &'static str,
        len: usize,
    ) -> Result<VariantSerializer<'_, W>, Error>
        ensures* rests { sem 𝓛 (RestsIfErr (the_row W.row W.Write W.FaultCount) self.entry (λ q.
            q.ser.ghost_name) result (λ n. RefusesVariant index len self.old.state result
            n.state)) }
        ensures same_reference { IfOk result (λ q. q.ser.ghost_name ≡ self.entry.ghost_name) }
        ensures held { IfOk result (λ q. q.ser.now.state.ended ≡ true) }
        ensures opened { IfOk result (λ q. HasVariant self.old.state index len [] q) }
    {
        self.serialize_tuple_variant(alloc, name, index, variant, len)
    }
}

impl<W: Sink> Serializer<W> {
    /// Writes a variant with fields, all of them at once: a map of one pair, its index as a uint
    /// and a list of just so many fields as are announced (sections 1.6.22, 1.6.23).
    ///
    /// `SequenceLengthMismatch`: they are another number. Else it is refused as the fields' own
    /// `serialize`, and as `VariantSerializer::end`.
    #[inline(always)]
    pub fn serialize_variant_parts<P: TupleParts>(
        &mut self,
        alloc: Global,
        index: u32,
        len: usize,
        parts: &P,
    ) -> Result<(), Error>
        ensures ok { OnOk result (Wrote self.old.state
            (fields_item index len (P.items parts.now)) self.new.state) }
        ensures err { length (P.items parts.now) ≡ len →
            IfErr result (λ e. Refused self.old.state
            (fields_item index len (P.items parts.now)) e self.new.state) }
    {
        let mut out = match self.serialize_tuple_variant(alloc, "", index, "", len) {
            Ok(out) => out,
            Err(e) => return Err(e),
        };
        match parts.write_fields(alloc, &mut out) {
            Ok(()) => out.end(),
            Err(e) => Err(e),
        }
    }
}

/// Writes an enum: `write_variants!(ser, alloc, self, Shape { Point, Circle(radius), Rectangle {
/// width, height } })` names all its variants in their order, which gives their indexes, with the
/// values that they hold. A variant without values is written by
/// `Serializer::serialize_unit_variant`, one with a single value in parentheses by
/// `serialize_newtype_variant`, any other by `serialize_variant_parts`.
#[macro_export]
macro_rules! write_variants {
    ($ser:expr, $alloc:expr, $of:expr, $name:ident { $($variants:tt)+ } $(,)?) => {
        $crate::write_variants!(@arms $ser; $alloc; $of; $name; 0; []; $($variants)+,)
    };
    (@arms $ser:expr; $alloc:expr; $of:expr; $name:ident; $index:expr; [$($arms:tt)*]; $(,)?) => {
        match $of { $($arms)* }
    };
    (@arms $ser:expr; $alloc:expr; $of:expr; $name:ident; $index:expr; [$($arms:tt)*];
        $variant:ident, $($rest:tt)*) => {
        $crate::write_variants!(@arms $ser; $alloc; $of; $name; $index + 1; [$($arms)*
            $name::$variant => $ser.serialize_unit_variant(
                $alloc,
                stringify!($name),
                $index,
                stringify!($variant),
            ),
        ]; $($rest)*)
    };
    (@arms $ser:expr; $alloc:expr; $of:expr; $name:ident; $index:expr; [$($arms:tt)*];
        $variant:ident($value:ident $(,)?), $($rest:tt)*) => {
        $crate::write_variants!(@arms $ser; $alloc; $of; $name; $index + 1; [$($arms)*
            $name::$variant($value) => $ser.serialize_newtype_variant(
                $alloc,
                stringify!($name),
                $index,
                stringify!($variant),
                $value,
            ),
        ]; $($rest)*)
    };
    (@arms $ser:expr; $alloc:expr; $of:expr; $name:ident; $index:expr; [$($arms:tt)*];
        $variant:ident($($value:ident),+ $(,)?), $($rest:tt)*) => {
        $crate::write_variants!(@arms $ser; $alloc; $of; $name; $index + 1; [$($arms)*
            $name::$variant($($value),+) => $ser.serialize_variant_parts(
                $alloc,
                $index,
                $crate::write_parts!(@count $($value),+),
                &$crate::write_variants!(@parts $($value),+),
            ),
        ]; $($rest)*)
    };
    (@arms $ser:expr; $alloc:expr; $of:expr; $name:ident; $index:expr; [$($arms:tt)*];
        $variant:ident { $($value:ident),+ $(,)? }, $($rest:tt)*) => {
        $crate::write_variants!(@arms $ser; $alloc; $of; $name; $index + 1; [$($arms)*
            $name::$variant { $($value),+ } => $ser.serialize_variant_parts(
                $alloc,
                $index,
                $crate::write_parts!(@count $($value),+),
                &$crate::write_variants!(@parts $($value),+),
            ),
        ]; $($rest)*)
    };
    (@parts) => { () };
    (@parts $value:ident $(, $rest:ident)*) => {
        $crate::Part {
            value: $value,
            rest: $crate::write_variants!(@parts $($rest),*),
        }
    };
}

impl<'a, W: Sink> VariantSerializer<'a, W> {
    /// Writes one more field. It is refused as the field's own `serialize`; then the compound
    /// answers `InvalidValue` to all that follows, `end` too. A field beyond the announced number
    /// is refused at `end`.
    pub fn serialize_field<T: Serialize>(&mut self, alloc: Global, value: &T) -> Result<(), Error>
        ensures same_reference { self.new.ser.ghost_name ≡ self.old.ser.ghost_name }
        ensures law { WritesVariantField (T.meaning.item value.now) self.old result self.new }
    {
        answer!(write_paired(&mut *self.ser, &mut self.parts, alloc, value))
    }

    /// Writes one more field, as `serialize_field` does; its name isn't written.
    pub fn serialize_field_named<T: Serialize>(
        &mut self,
        alloc: Global,
        key: &'static str,
        value: &T,
    ) -> Result<(), Error>
        ensures same_reference { self.new.ser.ghost_name ≡ self.old.ser.ghost_name }
        ensures law { WritesVariantField (T.meaning.item value.now) self.old result self.new }
    {
        let _ = key;
        self.serialize_field(alloc, value)
    }
}
