//! Structs that are read by their fields.

ghost use Rattle.std.specs.Prelude.{IsTrue, IfOk, IfErr, OnErr};
ghost use Rattle.amqp_de.specs.Calls.{FieldsRead, NamedRead, RowRead, FieldsRefused, NamedRefused};
ghost use Rattle.amqp_de.specs.Calls.{RowRefused, RowNamed, MapNamed, FieldsNamed};
ghost use Rattle.amqp_de.specs.Steps.{Stops};

use crate::structs::is_map;
use crate::{Deserializer, Fields};
use amqp_base::Error;
use amqp_read::Read;
use std::alloc::Global;
use std::mem;

impl<R: Read> Deserializer<R> {
    /// Reads the fields of a struct: out of a list of just so many elements (part 1, section
    /// 1.6.22) in order, or out of a map (section 1.6.23) of just their names as strings, each
    /// once, in any order.
    ///
    /// In this order: `Io(UnexpectedEof)` where there is no byte, `InvalidFormatCode` where it is
    /// no list's or map's code, the refusals of `deserialize_tuple` and `deserialize_map`. Then, of
    /// a list, those of the fields. Of a map, pair by pair, the refusals of `String` for its key,
    /// `Message` where it is no name of a field or that of one that was read, and the refusals of
    /// the field; behind the last pair `Message` where a field is missing. A refusal ends the
    /// deserializer.
    #[inline(always)]
    pub fn deserialize_fields<S: Fields<R> + Drop>(
        &mut self,
        alloc: Global,
        fields: S,
    ) -> Result<S::Values, Error>
    where
        S::Values: Drop,
        ensures ok { IfOk result (λ vs. FieldsRead (S.slots fields) vs self.old self.new) }
        ensures err { IfErr result (λ e.
            FieldsRefused (S.slots fields) R.buffers self.old self.new e) }
        ensures named { IfErr result (λ e. FieldsNamed (S.slots fields) S.takes S.refuses R.buffers
            self.old self.new e) }
        ensures stops { Stops self.old result self.new }
    {
        match self.deserialize_any() {
            Ok(code) => {
                if is_map(code) {
                    match self.read_map(alloc, fields) {
                        Ok(values) => Ok(values),
                        Err(e) => Err(e),
                    }
                } else {
                    match self.deserialize_row(alloc, fields) {
                        Ok(values) => Ok(values),
                        Err(e) => Err(e),
                    }
                }
            }
            Err(e) => Err(e),
        }
    }

    /// The fields out of a map.
    pub(crate) fn read_map<S: Fields<R> + Drop>(
        &mut self,
        alloc: Global,
        fields: S,
    ) -> Result<S::Values, Error>
    where
        S::Values: Drop,
        ensures ok { IfOk result (λ vs. NamedRead (S.slots fields) vs self.old self.new) }
        ensures err { IfErr result (λ e.
            NamedRefused (S.slots fields) R.buffers self.old self.new e) }
        ensures named { IfErr result (λ e. MapNamed (S.slots fields) S.takes S.refuses R.buffers
            self.old self.new e) }
        ensures ended { OnErr result (IsTrue self.new.ended) }
    {
        let mut slots = fields;
        let mut map = self.deserialize_map()?;
        'pairs: while let Some(name) = match map.next_key::<String>(alloc) {
            Ok(found) => found,
            Err(e) => return Err(e),
        } {
            match slots.read_field(alloc, name.as_str(), &mut map) {
                Ok(()) => {}
                Err(e) => return Err(e),
            }
        }
        let Some(values) = slots.take_values() else {
            return Err(Error::custom(alloc, "missing field"));
        };
        // None of them has a value any more.
        mem::forget(slots);
        map.end()?;
        Ok(values)
    }

    /// Reads the fields of a tuple, or of a struct that is a list alone: out of a list of just so
    /// many elements (part 1, section 1.6.22), in order. Their names aren't looked at.
    ///
    /// The refusals of `deserialize_tuple`, then those of the fields. A refusal ends the
    /// deserializer.
    #[inline(always)]
    pub fn deserialize_row<S: Fields<R> + Drop>(
        &mut self,
        alloc: Global,
        fields: S,
    ) -> Result<S::Values, Error>
    where
        S::Values: Drop,
        ensures ok { IfOk result (λ vs. RowRead (S.slots fields) vs self.old self.new) }
        ensures err { IfErr result (λ e.
            RowRefused (S.slots fields) S.grows R.buffers self.old self.new e) }
        ensures named { IfErr result (λ e. RowNamed (S.slots fields) S.takes S.refuses S.grows
            R.buffers self.old self.new e) }
        ensures ended { OnErr result (IsTrue self.new.ended) }
    {
        let mut slots = fields;
        let mut list = self.deserialize_list()?;
        if !slots.are(list.inner.left) {
            return Err(Error::SequenceLengthMismatch);
        }
        slots.read_elements(alloc, &mut list)?;
        let Some(values) = slots.take_values() else {
            return Err(Error::SequenceLengthMismatch);
        };
        // None of them has a value any more.
        mem::forget(slots);
        list.end()?;
        Ok(values)
    }
}

/// Reads a struct whose fields have names: `read_fields!(de, alloc, Sensor { id, unit })` calls
/// `Deserializer::deserialize_fields` with these names, or with the name that follows a field, as
/// in `Sensor { id: "sensor-id", unit }`, and answers the struct of what was read.
#[macro_export]
macro_rules! read_fields {
    ($de:expr, $alloc:expr, $name:ident { $($field:ident $(: $key:literal)?),* $(,)? } $(,)?) => {
        match $de.deserialize_fields($alloc, $crate::read_fields!(@row $($field $(: $key)?),*)) {
            Ok(values) => $crate::read_fields!(@take values; $name; []; $($field),*),
            Err(e) => Err(e),
        }
    };
    (@row) => { () };
    (@row $field:ident $(: $key:literal)? $(, $($rest:tt)*)?) => {
        $crate::Field {
            name: $crate::read_fields!(@name $field $($key)?),
            value: None,
            rest: $crate::read_fields!(@row $($($rest)*)?),
        }
    };
    (@name $field:ident) => { stringify!($field) };
    (@name $field:ident $key:literal) => { $key };
    (@take $values:expr; $name:ident; [];) => {{
        let () = $values;
        Ok($name {})
    }};
    (@take $values:expr; $name:ident; [$($done:ident)*]; $field:ident) => {{
        let ($field, ()) = $values;
        Ok($name { $($done,)* $field })
    }};
    (@take $values:expr; $name:ident; [$($done:ident)*]; $field:ident, $($rest:ident),+) => {{
        let ($field, others) = $values;
        $crate::read_fields!(@take others; $name; [$($done)* $field]; $($rest),+)
    }};
}

/// Reads a struct that is a list alone: `read_parts!(de, alloc, Pair { first, second })` calls
/// `Deserializer::deserialize_row`, and answers the struct of what was read. A tuple struct is read
/// as a tuple.
#[macro_export]
macro_rules! read_parts {
    ($de:expr, $alloc:expr, $name:ident { $($field:ident),* $(,)? } $(,)?) => {
        match $de.deserialize_row($alloc, $crate::read_fields!(@row $($field),*)) {
            Ok(values) => $crate::read_fields!(@take values; $name; []; $($field),*),
            Err(e) => Err(e),
        }
    };
}
