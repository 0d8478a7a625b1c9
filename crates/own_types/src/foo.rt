//! A struct whose fields have names.

ghost use Rattle.std.specs.Prelude.{◌∷◌, [], codes, refl};
ghost use Rattle.amqp_base.specs.Meaning.{struct_of, row_of, at};

use serde_amqp::{
    Deserialize, Deserializer, Error, NeverNull, Read, RoundTrip, Serialize, Serializer, Sink,
    Typed, read_fields, write_fields,
};
use std::alloc::Global;

/// A number and a word, as a list of the two; under the described map setting as a map from the
/// names of the fields.
#[derive(Drop)]
pub struct Foo {
    /// A number.
    pub bar: u32,
    /// A word.
    pub is_fool: bool,
}

impl Typed for Foo {
    ghost meaning = { struct_of (row_of (
        at (codes "bar") ⟦<u32 as Typed>⟧.meaning (λ v. v.bar) ∷
        at (codes "is_fool") ⟦<bool as Typed>⟧.meaning (λ v. v.is_fool) ∷ [])) };
}

impl RoundTrip for Foo {
    ghost reads_back = { refl };
}

impl NeverNull for Foo {
    ghost never_null = { refl };
}

impl Serialize for Foo {
    fn serialize<W: Sink>(&self, alloc: Global, ser: &mut Serializer<W>) -> Result<(), Error> {
        write_fields!(ser, alloc, self, Foo { bar, is_fool })
    }
}

impl<R: Read> Deserialize<R> for Foo {
    fn deserialize(alloc: Global, de: &mut Deserializer<R>) -> Result<Foo, Error> {
        read_fields!(de, alloc, Foo { bar, is_fool })
    }
}
