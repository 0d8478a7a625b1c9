//! Structs, all fields at once.

ghost use Rattle.std.specs.Prelude.{◌≡◌, ◌++◌, ◌∷◌, [], true, false, not, ◌&&◌};
ghost use Rattle.std.specs.Prelude.{IsTrue, IfErr, OnOk, List};
ghost use Rattle.amqp_base.specs.Structs.{FieldItem, named, struct_item, is_described_name};
ghost use Rattle.amqp_base.specs.Structs.{is_descriptor_name, struct_shape};
ghost use Rattle.amqp_ser.specs.State.{State};
ghost use Rattle.amqp_ser.specs.Law.{Wrote, Refused};
ghost use Rattle.amqp_ser.specs.Compound.{FailedAs, open_state, HoldsFields, BeginsWith};

use crate::answer::answer;
use crate::compound::write_part;
use crate::structs::is_name;
use crate::{Serialize, Serializer, WholeStruct};
use amqp_base::{DESCRIPTOR, Error, Setting, Shape, Sink};
use amqp_write::no_memory;
use std::alloc::{AllocError, Global};

/// Fields under their names, in order.
pub trait StructFields: Copy {
    ghost use Rattle.std.specs.Prelude.{List, Bool};
    ghost use Rattle.amqp_base.specs.Structs.{FieldItem};

    /// The fields.
    ghost items: { Self → List FieldItem };

    /// No field has the name of a descriptor.
    ghost usual: { Self → Bool };

    /// Whether one of them has the name of a descriptor.
    #[doc(hidden)]
    fn has_descriptor(&self) -> bool
        ensures { result ≡ not (Self.usual self.now) };

    /// Writes their values, in order, to a struct that is a list: whether all were written. Where
    /// one is refused `failed` says why; the one place for it, as each `Result` would be another.
    #[doc(hidden)]
    fn write_values<W: Sink>(
        &self,
        alloc: Global,
        out: &mut WholeStruct<'_, W>,
        failed: &mut Option<Error>,
    ) -> bool
        ensures same_reference { out.new.ser.ghost_name ≡ out.old.ser.ghost_name }
        ensures ok { IsTrue result → (s : State) (fs : List FieldItem) →
            struct_shape s.setting ≡ Shape.List → HoldsFields s fs (open_state out.old) →
            HoldsFields s (fs ++ Self.items self.now) (open_state out.new) }
        ensures err { result ≡ false → FailedAs failed.new (λ e.
            (s : State) (fs all : List FieldItem) → struct_shape s.setting ≡ Shape.List →
            HoldsFields s fs (open_state out.old) →
            BeginsWith all (fs ++ Self.items self.now) → Refused s (struct_item s.setting all) e
            out.new.ser.now.state) };

    /// Writes them, in order.
    #[doc(hidden)]
    fn write<W: Sink>(&self, alloc: Global, out: &mut WholeStruct<'_, W>) -> Result<(), Error>
        ensures same_reference { out.new.ser.ghost_name ≡ out.old.ser.ghost_name }
        ensures ok { OnOk result ((s : State) (fs : List FieldItem) →
            HoldsFields s fs (open_state out.old) →
            HoldsFields s (fs ++ Self.items self.now) (open_state out.new)) }
        ensures err { IfErr result (λ e. IsTrue (Self.usual self.now) →
            (s : State) (fs all : List FieldItem) → HoldsFields s fs (open_state out.old) →
            BeginsWith all (fs ++ Self.items self.now) → Refused s (struct_item s.setting all) e
            out.new.ser.now.state) };
}

impl StructFields for () {
    ghost items = { λ _. [] };

    ghost usual = { λ _. true };

    #[inline(always)]
    fn has_descriptor(&self) -> bool {
        false
    }

    #[inline(always)]
    fn write_values<W: Sink>(
        &self,
        alloc: Global,
        out: &mut WholeStruct<'_, W>,
        failed: &mut Option<Error>,
    ) -> bool {
        let (_, _, _) = (alloc, out, failed);
        true
    }

    #[inline(always)]
    fn write<W: Sink>(&self, alloc: Global, out: &mut WholeStruct<'_, W>) -> Result<(), Error> {
        let (_, _) = (alloc, out);
        Ok(())
    }
}

/// A field under its name, and the fields behind it: names and references alone.
pub struct Written<'a, T, Rest> {
    /// Its name.
    pub name: &'a str,
    /// Its value.
    pub value: &'a T,
    /// The fields behind it.
    pub rest: Rest,
}

impl<T, Rest: Copy> Clone for Written<'_, T, Rest> {
    ghost use Rattle.std.specs.Prelude.{◌≡◌, ⊤};

    ghost is_clone = { λ row other. other ≡ row };

    ghost is_infallible = { λ _. ⊤ };

    #[inline(always)]
    fn clone(&self) -> Result<Self, AllocError> {
        Ok(Written {
            name: self.name,
            value: self.value,
            rest: self.rest,
        })
    }
}

impl<T, Rest: Copy> Copy for Written<'_, T, Rest> {}

impl<T: Serialize, Rest: StructFields> StructFields for Written<'_, T, Rest> {
    ghost items = { λ w. named w.name.now (T.meaning.item w.value.now) ∷ Rest.items w.rest };

    ghost usual = { λ w. not (is_descriptor_name w.name.now) && Rest.usual w.rest };

    #[inline(always)]
    fn has_descriptor(&self) -> bool {
        is_name(self.name, DESCRIPTOR) || self.rest.has_descriptor()
    }

    #[inline(always)]
    fn write_values<W: Sink>(
        &self,
        alloc: Global,
        out: &mut WholeStruct<'_, W>,
        failed: &mut Option<Error>,
    ) -> bool {
        match write_part(&mut *out.ser, &mut out.parts, alloc, self.value) {
            Ok(()) => return self.rest.write_values(alloc, out, failed),
            Err(e) => {
                *failed = Some(e);
                return false;
            }
        }
    }

    #[inline(always)]
    fn write<W: Sink>(&self, alloc: Global, out: &mut WholeStruct<'_, W>) -> Result<(), Error> {
        match out.serialize_field(alloc, self.name, self.value) {
            Ok(()) => answer!(self.rest.write(alloc, out)),
            Err(e) => return Err(e),
        }
    }
}

/// A struct: its name, and its fields.
#[derive(Drop)]
pub struct Struct<'n, F> {
    /// Its name, which isn't written.
    pub name: &'n str,
    /// Its fields.
    pub fields: F,
}

impl<W: Sink> Serializer<W> {
    /// Writes a struct, all its fields at once: a list of them, or under the described map setting
    /// a map from their names.
    ///
    /// The refusals are those of the fields. `InvalidValue`: the struct's name is that of a
    /// described one, a field's name is `DESCRIPTOR`, or the array that the whole is to stand in
    /// has other elements. `Io(Other)`: the fields have more than 4,294,967,291 bytes.
    /// `OutOfMemory`: there is no memory for a buffer.
    #[inline(always)]
    pub fn serialize_fields<F: StructFields>(
        &mut self,
        alloc: Global,
        whole: &Struct<'_, F>,
    ) -> Result<(), Error>
        ensures ok { OnOk result (Wrote self.old.state
            (struct_item self.old.state.setting (F.items whole.now.fields)) self.new.state) }
        ensures err { is_described_name whole.now.name.now ≡ false →
            IsTrue (F.usual whole.now.fields) → IfErr result (λ e. Refused self.old.state
            (struct_item self.old.state.setting (F.items whole.now.fields)) e self.new.state) }
    {
        answer!(self.write_struct(alloc, whole.name, &whole.fields))
    }

    /// Writes a struct of this name and these fields.
    #[inline(always)]
    pub(crate) fn write_struct<F: StructFields>(
        &mut self,
        alloc: Global,
        name: &str,
        fields: &F,
    ) -> Result<(), Error>
        ensures ok { OnOk result (Wrote self.old.state
            (struct_item self.old.state.setting (F.items fields.now)) self.new.state) }
        ensures err { is_described_name name.now ≡ false → IsTrue (F.usual fields.now) →
            IfErr result (λ e. Refused self.old.state
            (struct_item self.old.state.setting (F.items fields.now)) e self.new.state) }
    {
        let by_names = match self.setting() {
            Setting::DescribedMap => true,
            _ => fields.has_descriptor(),
        };
        if by_names {
            // a copy, so that a row whose names aren't looked at stays in registers
            let own = *fields;
            answer!(self.fields_one_by_one(alloc, name, &own));
        }
        let mut out = match self.whole_struct(alloc, name) {
            Ok(out) => out,
            Err(e) => return Err(e),
        };
        let mut failed = None;
        if fields.write_values(alloc, &mut out, &mut failed) {
            answer!(out.end());
        }
        match failed {
            Some(e) => return Err(e),
            None => return Err(no_memory()),
        }
    }

    /// Writes a struct, each field by a call of its own.
    #[inline(always)]
    fn fields_one_by_one<F: StructFields>(
        &mut self,
        alloc: Global,
        name: &str,
        fields: &F,
    ) -> Result<(), Error>
        ensures ok { OnOk result (Wrote self.old.state
            (struct_item self.old.state.setting (F.items fields.now)) self.new.state) }
        ensures err { is_described_name name.now ≡ false → IsTrue (F.usual fields.now) →
            IfErr result (λ e. Refused self.old.state
            (struct_item self.old.state.setting (F.items fields.now)) e self.new.state) }
    {
        let mut out = match self.whole_struct(alloc, name) {
            Ok(out) => out,
            Err(e) => return Err(e),
        };
        match fields.write(alloc, &mut out) {
            Ok(()) => answer!(out.end()),
            Err(e) => return Err(e),
        }
    }
}

/// Writes a struct by its fields: `write_fields!(ser, alloc, self, Sensor { id, unit })` calls
/// `Serializer::serialize_fields` with the fields of `self` under their own names, or under the
/// name that follows a field: `Sensor { id: "sensor-id", unit }`. What stands for `self` is
/// written out once a field.
#[macro_export]
macro_rules! write_fields {
    ($ser:expr, $alloc:expr, $of:expr, $name:ident {
        $($field:ident $(: $key:literal)?),* $(,)?
    } $(,)?) => {
        $ser.serialize_fields($alloc, &$crate::Struct {
            name: stringify!($name),
            fields: $crate::write_fields!(@fields $of; $($field $(: $key)?),*),
        })
    };
    (@fields $of:expr;) => { () };
    (@fields $of:expr; $field:ident $(: $key:literal)? $(, $($rest:tt)*)?) => {
        $crate::Written {
            name: $crate::write_fields!(@name $field $($key)?),
            value: &$of.$field,
            rest: $crate::write_fields!(@fields $of; $($($rest)*)?),
        }
    };
    (@name $field:ident) => { stringify!($field) };
    (@name $field:ident $key:literal) => { $key };
}
