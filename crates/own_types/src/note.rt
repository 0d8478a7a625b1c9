//! A struct with an optional field, written field by field.

ghost use Rattle.std.specs.Prelude.{◌∷◌, [], codes, refl};
ghost use Rattle.amqp_base.specs.Meaning.{struct_of, row_of, at};

use serde_amqp::{
    Deserialize, Deserializer, Error, NeverNull, Read, RoundTrip, Serialize, Serializer, Sink,
    Typed, read_fields,
};
use std::alloc::Global;

/// A text, and its number where it has one, as a list of the two; under the described map setting
/// as a map from the names of the fields. A number that isn't there is null.
#[derive(Drop)]
pub struct Note {
    /// A text.
    pub text: String,
    /// Its number.
    pub number: Option<u32>,
}

impl Typed for Note {
    ghost meaning = { struct_of (row_of (
        at (codes "text") ⟦<String as Typed>⟧.meaning (λ v. v.text) ∷
        at (codes "number") ⟦<Option<u32> as Typed>⟧.meaning (λ v. v.number) ∷ [])) };
}

impl RoundTrip for Note {
    ghost reads_back = { refl };
}

impl NeverNull for Note {
    ghost never_null = { refl };
}

impl Serialize for Note {
    fn serialize<W: Sink>(&self, alloc: Global, ser: &mut Serializer<W>) -> Result<(), Error> {
        let mut note = ser.serialize_struct(alloc, "Note", 2)?;
        note.serialize_field(alloc, "text", &self.text)?;
        note.serialize_field(alloc, "number", &self.number)?;
        note.end()
    }
}

impl<R: Read> Deserialize<R> for Note {
    fn deserialize(alloc: Global, de: &mut Deserializer<R>) -> Result<Note, Error> {
        read_fields!(de, alloc, Note { text, number })
    }
}
