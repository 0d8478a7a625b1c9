//! The fields of a struct, read by their names or in order.

ghost use Rattle.std.specs.Prelude.{◌≡◌, ◌+◌, ◌≤◌, ◌<◌, Bool, false, ◌||◌};
ghost use Rattle.std.specs.Prelude.{IsTrue, Option, Some, None, List, [], ◌∷◌, ◌++◌};
ghost use Rattle.std.specs.Prelude.{length, IfErr, OnOk};
ghost use Rattle.amqp_base.specs.Item.{Item, Items};
ghost use Rattle.amqp_base.specs.Fields.{takes_fields};
ghost use Rattle.amqp_de.specs.Decoding.{Decoding};
ghost use Rattle.amqp_de.specs.Law.{Missed};
ghost use Rattle.amqp_de.specs.ReadParts.{Progress, open_list};
ghost use Rattle.amqp_de.specs.ReadFields.{Slots, no_slots, slot, awaits, all_read, HaveValues};
ghost use Rattle.amqp_de.specs.ReadFields.{FieldRead, NoField, RowRead, ElementsNamed, FieldPicked};
ghost use Rattle.amqp_de.specs.ReadFields.{FieldNamed};
ghost use Rattle.amqp_base.specs.Leading.{takes_leading};
ghost use Rattle.amqp_de.specs.ReadLeading.{LeadingProgress, LeadingRow, LeadingNamed};

use crate::{Deserialize, ListAccess, MapAccess};
use amqp_base::Error;
use amqp_read::Read;
use std::alloc::Global;

/// The fields of a struct while it is read: a `Field` and the fields behind it, and `()` behind the
/// last.
// Neither it nor its values are bound to be let go: the proof of a call would name, field by field,
// how all that follows is.
pub trait Fields<R: Read> {
    ghost use Rattle.std.specs.Prelude.{Bool, List};
    ghost use Rattle.amqp_base.specs.Item.{Item};
    ghost use Rattle.amqp_base.specs.Refusing.{Refusing};
    ghost use Rattle.amqp_de.specs.ReadFields.{Slots};

    /// Their values: that of the first field and those of the fields behind it, and `()` behind the
    /// last.
    type Values;

    /// The fields that have no value yet.
    ghost slots: { Self → Slots Self.Values };

    /// Which items each field takes, with a value or without, and how it refuses bytes.
    ghost takes: { List (Item → Bool) };

    ghost refuses: { List {1} Refusing };

    /// Whether one of them takes memory.
    ghost grows: { Bool };

    /// Whether so many fields have no value yet.
    fn are(&self, count: u32) -> bool
        ensures yes { IsTrue result → length (slots self.now).kinds ≡ count }
        ensures no { result ≡ false → length (slots self.now).kinds ≡ count → ⊥ };

    /// Reads the next value of a map as that of the field under a name.
    ///
    /// A `Message` where no field without a value has this name, and then the value isn't looked
    /// at; else the refusals of the field's type. Drop the access behind a refusal: its
    /// deserializer is ended then.
    fn read_field(
        &mut self,
        alloc: Global,
        name: &str,
        map: &mut MapAccess<'_, R>,
    ) -> Result<(), Error>
        ensures same_reference { map.new.de.ghost_name ≡ map.old.de.ghost_name }
        ensures read { OnOk result (FieldRead name.now (slots self.old) (slots self.new)
            (open_list map.old) (open_list map.new)) }
        ensures refused { IfErr result (λ e. NoField name.now (slots self.old) R.buffers
            (open_list map.old) (open_list map.new) e) }
        ensures picked { OnOk result (FieldPicked name.now (slots self.old) (slots self.new) takes
            (open_list map.old) (open_list map.new)) }
        ensures named { IfErr result (λ e. FieldNamed name.now (slots self.old) refuses R.buffers
            (open_list map.old) (open_list map.new) e) };

    /// Reads the next elements of a list as the fields without a value, in order.
    ///
    /// The refusals are those of the fields' types, and `SequenceLengthMismatch` where there are
    /// fewer elements. Drop the access behind a refusal: its deserializer is ended then.
    fn read_elements(&mut self, alloc: Global, list: &mut ListAccess<'_, R>) -> Result<(), Error>
        ensures same_reference { list.new.de.ghost_name ≡ list.old.de.ghost_name }
        ensures read { OnOk result ((old : Decoding) (all rest : List (Item → Bool))
            (parts : Items) → Progress old all ((slots self.old).kinds ++ rest) parts
            (open_list list.old) →
            RowRead old all rest parts (slots self.old) (slots self.new) (open_list list.new)) }
        ensures refused { IfErr result (λ e. (old : Decoding) (all rest : List (Item → Bool))
            (parts : Items) → Progress old all ((slots self.old).kinds ++ rest) parts
            (open_list list.old) →
            Missed (takes_fields all) (grows || R.buffers) R.buffers old list.new.de.now e) }
        ensures named { IfErr result (λ e. ElementsNamed (slots self.old).awaited takes refuses
            (grows || R.buffers) R.buffers (open_list list.old) list.new.de.now e) }
        ensures counted { OnOk result ((open_list list.old).left ≡
            length (slots self.old).kinds + (open_list list.new).left) };

    /// Whether at least so many fields have no value yet.
    fn hold(&self, count: u32) -> bool
        ensures yes { IsTrue result → count ≤ length (slots self.now).kinds }
        ensures no { result ≡ false → length (slots self.now).kinds < count };

    /// Reads the next elements of a list as the fields without a value, in order; where no element
    /// is left, a field is what its type reads from null.
    ///
    /// The refusals are those of the fields' types. Drop the access behind a refusal: its
    /// deserializer is ended then.
    fn read_leading(&mut self, alloc: Global, list: &mut ListAccess<'_, R>) -> Result<(), Error>
        ensures same_reference { list.new.de.ghost_name ≡ list.old.de.ghost_name }
        ensures read { OnOk result ((old : Decoding) (all rest : List (Item → Bool))
            (parts : Items) → LeadingProgress old all ((slots self.old).kinds ++ rest) parts
            (open_list list.old) → LeadingRow old all rest parts (slots self.old)
            (slots self.new) (open_list list.old) (open_list list.new)) }
        ensures refused { IfErr result (λ e. (old : Decoding) (all rest : List (Item → Bool))
            (parts : Items) → LeadingProgress old all ((slots self.old).kinds ++ rest) parts
            (open_list list.old) →
            Missed (takes_leading all) (grows || R.buffers) R.buffers old list.new.de.now e) }
        ensures named { IfErr result (λ e. LeadingNamed (slots self.old).awaited takes refuses
            (grows || R.buffers) R.buffers (open_list list.old) list.new.de.now e) };

    /// Takes the values, where every field has one.
    fn take_values(&mut self) -> Option<Self::Values>
        ensures some { (vs : Self.Values) → result ≡ Some vs →
            HaveValues (slots self.old) vs }
        ensures none { result ≡ None → all_read (slots self.old) ≡ false };
}

impl<R: Read> Fields<R> for () {
    type Values = ();

    ghost slots = { λ _. no_slots };

    ghost takes = { [] };

    ghost refuses = { [] };

    ghost grows = { false };

    #[inline(always)]
    fn are(&self, count: u32) -> bool {
        count == 0
    }

    fn read_field(
        &mut self,
        alloc: Global,
        name: &str,
        map: &mut MapAccess<'_, R>,
    ) -> Result<(), Error> {
        let _ = name;
        let _ = map;
        Err(Error::custom(alloc, "unknown or repeated field"))
    }

    #[inline(always)]
    fn read_elements(&mut self, alloc: Global, list: &mut ListAccess<'_, R>) -> Result<(), Error> {
        let _ = alloc;
        let _ = list;
        Ok(())
    }

    #[inline(always)]
    fn hold(&self, count: u32) -> bool {
        0 == count
    }

    #[inline(always)]
    fn read_leading(&mut self, alloc: Global, list: &mut ListAccess<'_, R>) -> Result<(), Error> {
        let _ = alloc;
        let _ = &list;
        Ok(())
    }

    #[inline(always)]
    fn take_values(&mut self) -> Option<()> {
        Some(())
    }
}

/// A field under its name, and the fields behind it:
/// `Field::new("bar", Field::new("is_fool", ()))`.
#[derive(Drop)]
pub struct Field<'n, T, Rest> {
    /// Its name.
    pub name: &'n str,
    /// Its value, once it was read.
    pub value: Option<T>,
    /// The fields behind it.
    pub rest: Rest,
}

impl<'n, T: Drop, Rest> Field<'n, T, Rest> {
    /// A field under its name, without a value, and the fields behind it.
    pub fn new(name: &'n str, rest: Rest) -> Field<'n, T, Rest>
        ensures named { result.name.now ≡ name.now }
        ensures no_value { result.value ≡ None }
        ensures before { result.rest ≡ rest }
    {
        Field {
            name,
            value: None,
            rest,
        }
    }

    /// Gives it its value.
    #[inline(always)]
    fn put(&mut self, value: T)
        ensures named { self.new.name ≡ self.old.name }
        ensures value { self.new.value ≡ Some value }
        ensures before { self.new.rest ≡ self.old.rest }
    {
        self.value = Some(value);
    }

    /// Whether a value under a name is this field's, and it has none yet.
    #[inline(always)]
    fn awaits(&self, name: &str) -> bool
        ensures { result ≡ awaits self.now.name.now self.now.value name.now }
    {
        match &self.value {
            Some(_) => false,
            None => self.name == name,
        }
    }
}

// Each body calls that of the fields behind once: twice, and inlined code would double a field.
impl<'n, R: Read, T: Deserialize<R>, Rest: Fields<R>> Fields<R> for Field<'n, T, Rest> {
    type Values = (T, Rest::Values);

    ghost slots = { λ f.
        slot f.name.now T.meaning.takes T.meaning.means f.value (Rest.slots f.rest) };

    ghost takes = { T.meaning.takes ∷ Rest.takes };

    ghost refuses = { T.meaning.refuses ∷ Rest.refuses };

    ghost grows = { T.meaning.grows || Rest.grows };

    #[inline(always)]
    fn are(&self, count: u32) -> bool {
        let own = match &self.value {
            Some(_) => 0,
            None => 1,
        };
        count >= own && self.rest.are(count - own)
    }

    #[inline(always)]
    fn read_field(
        &mut self,
        alloc: Global,
        name: &str,
        map: &mut MapAccess<'_, R>,
    ) -> Result<(), Error> {
        if !self.awaits(name) {
            match self.rest.read_field(alloc, name, map) {
                Ok(()) => return Ok(()),
                Err(e) => return Err(e),
            };
        }
        match map.next_value::<T>(alloc) {
            Ok(value) => {
                self.put(value);
                return Ok(());
            }
            Err(e) => return Err(e),
        }
    }

    #[inline(always)]
    fn read_elements(&mut self, alloc: Global, list: &mut ListAccess<'_, R>) -> Result<(), Error> {
        match &self.value {
            Some(_) => {}
            None => match list.next_element::<T>(alloc) {
                Ok(Some(value)) => self.put(value),
                Ok(None) => return Err(Error::SequenceLengthMismatch),
                Err(e) => return Err(e),
            },
        }
        match self.rest.read_elements(alloc, list) {
            Ok(()) => return Ok(()),
            Err(e) => return Err(e),
        }
    }

    #[inline(always)]
    fn hold(&self, count: u32) -> bool {
        let own = match &self.value {
            Some(_) => 0,
            None => 1,
        };
        self.rest.hold(count.saturating_sub(own))
    }

    #[inline(always)]
    fn read_leading(&mut self, alloc: Global, list: &mut ListAccess<'_, R>) -> Result<(), Error> {
        match &self.value {
            Some(_) => {}
            None => match list.next_element::<T>(alloc) {
                Ok(Some(value)) => self.put(value),
                Ok(None) => match list.de.read_null::<T>(alloc) {
                    Ok(value) => self.put(value),
                    Err(e) => return Err(e),
                },
                Err(e) => return Err(e),
            },
        }
        match self.rest.read_leading(alloc, list) {
            Ok(()) => return Ok(()),
            Err(e) => return Err(e),
        }
    }

    #[inline(always)]
    fn take_values(&mut self) -> Option<(T, Rest::Values)> {
        match self.value.take() {
            Some(value) => match self.rest.take_values() {
                Some(others) => return Some((value, others)),
                None => return None,
            },
            None => return None,
        }
    }
}
